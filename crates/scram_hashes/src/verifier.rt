//! What a server stores in place of a password.

ghost use Rattle.std.specs.Prelude.{◌≡◌, ◌≤◌, ◌↔◌, IfOk, IsTrue, MatchOption, length, string_bytes};
ghost use Rattle.base64.specs.GeneralPurpose.{IsBytes};
ghost use Rattle.scram_hashes.specs.Keys.{IsVerifier, ShowsPassword, TheVerifier, server_signature, verifier_of};
ghost use Rattle.scram_hashes.specs.VerifierText.{IsIterationCount, IsSaltSize, SpellsVerifier, SpellsNone, verifier_text};

use crate::bytes::{are_equal, xor};
use crate::decoding::{decode, decode_key};
use crate::hmac::hmac_sha256;
use crate::pbkdf2::derive_key;
use crate::verifier_text::{iterations_in, parts_of};
use base64::engine::general_purpose::STANDARD;
use itoa::Buffer;
use sha2::{Digest, Sha256};
use std::alloc::{AllocError, Global};
use std::marker::Model;

/// The most bytes of a verifier's salt.
pub const MOST_SALT: usize = 64;

/// A verifier: a salt of 1 to 64 bytes, 4,096 to 1,000,000 iterations, and the two keys of a password under them.
///
/// Whoever knows it can play the server to a client, and can try out passwords; it does not show the password.
#[derive(Drop)]
pub struct Verifier {
    salt: Vec<u8>,
    iterations: u32,
    stored_key: [u8; 32],
    server_key: [u8; 32],
}

impl Model for Verifier {
    ghost use Rattle.scram_hashes.specs.Keys.{IsVerifier, TheVerifier};

    ghost Value = { TheVerifier };

    ghost view = { λ v. record {
      salt = v.salt.items;
      iterations = v.iterations;
      stored_key = v.stored_key;
      server_key = v.server_key;
    } };

    ghost invariant = { λ v. IsVerifier (record {
      salt = v.salt.items;
      iterations = v.iterations;
      stored_key = v.stored_key;
      server_key = v.server_key;
    }) };
}

impl Verifier {
    /// The verifier of these parts.
    pub fn from_keys(
        salt: Vec<u8>,
        iterations: u32,
        stored_key: [u8; 32],
        server_key: [u8; 32],
    ) -> Verifier
        requires size { IsSaltSize (length salt.items) }
        requires count { IsIterationCount iterations }
        ensures { result ≡ record {
          salt = salt.items;
          iterations = iterations;
          stored_key = stored_key;
          server_key = server_key;
        } }
    {
        // For the proof: these are bytes, and the keys have 32 of them.
        told_of_bytes(&salt);
        told_of_key(&stored_key);
        told_of_key(&server_key);
        Verifier {
            salt,
            iterations,
            stored_key,
            server_key,
        }
    }

    /// The verifier of a password under a salt.
    pub fn of_password(password: &[u8], salt: Vec<u8>, iterations: u32) -> Verifier
        requires size { IsSaltSize (length salt.items) }
        requires count { IsIterationCount iterations }
        ensures { result ≡ verifier_of password.now salt.items iterations }
    {
        let salted = derive_key(password, &salt, iterations);
        let client_key = hmac_sha256(&salted, b"Client Key");
        let server_key = hmac_sha256(&salted, b"Server Key");
        Verifier::from_keys(salt, iterations, Sha256::digest(client_key), server_key)
    }

    /// The verifier that a text spells, or `None` where it spells none: no text that `to_text` writes.
    ///
    /// The only error is that memory was refused.
    pub fn from_text(alloc: Global, text: &str) -> Result<Option<Verifier>, AllocError>
        ensures { IfOk result (λ it. MatchOption it (SpellsNone text.now)
            (λ verifier. SpellsVerifier text.now verifier)) }
    {
        let Some(parts) = parts_of(text) else {
            return Ok(None);
        };
        let Some(iterations) = iterations_in(parts.iterations) else {
            return Ok(None);
        };
        let Some(stored_key) = decode_key(alloc, parts.stored_key.as_bytes())? else {
            return Ok(None);
        };
        let Some(server_key) = decode_key(alloc, parts.server_key.as_bytes())? else {
            return Ok(None);
        };
        let Some(salt) = decode(alloc, parts.salt.as_bytes())? else {
            return Ok(None);
        };
        if !may_be_salt(salt.as_slice()) {
            return Ok(None);
        }
        Ok(Some(Verifier::from_keys(salt, iterations, stored_key, server_key)))
    }

    /// The text of the verifier: `SCRAM-SHA-256$<iterations>:<salt>$<StoredKey>:<ServerKey>`, with base64 in the last three.
    ///
    /// The only error is that memory was refused.
    pub fn to_text(&self, alloc: Global) -> Result<String, AllocError>
        ensures { IfOk result (λ text. SpellsVerifier (string_bytes text) self.now) }
    {
        let mut buffer = Buffer::new();
        let mut text = String::from_str(alloc, "SCRAM-SHA-256$")?;
        text.push_str(buffer.format(self.iterations))?;
        text.push_str(":")?;
        STANDARD.encode_string(&self.salt, &mut text)?;
        text.push_str("$")?;
        STANDARD.encode_string(&self.stored_key, &mut text)?;
        text.push_str(":")?;
        STANDARD.encode_string(&self.server_key, &mut text)?;
        Ok(text)
    }

    /// The salt.
    pub fn salt(&self) -> &[u8]
        ensures { result.now ≡ self.now.salt }
    {
        self.salt.as_slice()
    }

    /// How many iterations the keys took.
    pub fn iterations(&self) -> u32
        ensures value { result ≡ self.now.iterations }
        ensures count { IsIterationCount result }
    {
        self.iterations
    }

    /// The digest of the key that a client shows.
    pub fn stored_key(&self) -> [u8; 32]
        ensures { result ≡ self.now.stored_key }
    {
        self.stored_key
    }

    /// Whether a proof shows the password for these messages.
    pub fn is_shown_by(&self, messages: &[u8], proof: &[u8; 32]) -> bool
        ensures { IsTrue result ↔ ShowsPassword self.now messages.now proof.now }
    {
        let signature = hmac_sha256(&self.stored_key, messages);
        let client_key = xor(proof, &signature);
        are_equal(&Sha256::digest(client_key), &self.stored_key)
    }

    /// What shows to the client, for these messages, that the server has the verifier.
    pub fn signature(&self, messages: &[u8]) -> [u8; 32]
        ensures { result ≡ server_signature self.now messages.now }
    {
        hmac_sha256(&self.server_key, messages)
    }
}

// Whether a salt may have these bytes.
fn may_be_salt(bytes: &[u8]) -> bool
    ensures { IsTrue result ↔ IsSaltSize (length bytes.now) }
{
    !bytes.is_empty() && bytes.len() <= MOST_SALT
}

// What the type of bytes says, in the words of contracts, which see numbers.
fn told_of_bytes(bytes: &[u8])
    ensures { IsBytes bytes.now }
{}

// What the type of a key says, in the same words.
fn told_of_key(key: &[u8; 32])
    ensures size { length key.now ≡ 32 }
    ensures bytes { IsBytes key.now }
{
    // For the proof: what an array of bytes has is bytes.
    told_of_bytes(key);
}
