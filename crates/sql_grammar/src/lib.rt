//! The language in which the grammar of statements is written, and how a phrase of it is read.
//!
//! A grammar is data: `Phrase A` is a phrase that stands for values of `A`. Which tokens spell it
//! is one relation for all phrases; that one token of look-ahead tells how it is read is computed, and
//! proved to be enough once for all.
#![tactic(auto)]

pub mod expect;
pub mod number;
pub mod word_of;
pub mod words;
