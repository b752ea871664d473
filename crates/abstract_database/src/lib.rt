//! What Guarddb is: the abstract database, and the machine of sessions over it. Nothing here knows how the
//! program keeps them.
//!
//! The definitions stand in `specs/`, to be read in the order of `specs/Lib.antt`. What follows from them is in the crate
//! `database_laws`, and what they say of single scripts in `database_examples`.
#![tactic(auto)]
