//! The hashes of SCRAM-SHA-256 (RFC 5802, RFC 7677): codes, derived keys, and the verifier that is stored in place of a password.
#![tactic(auto)]

pub mod bytes;
pub mod decoding;
pub mod hmac;
pub mod laws;
pub mod pbkdf2;
pub mod verifier;
mod verifier_text;
