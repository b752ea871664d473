//! The parts of a verifier's text.

ghost use Rattle.std.specs.Prelude.{◌≡◌, ◌≢◌, ◌<◌, ◌≤◌, ◌++◌, ◌∷◌, ℕ, List, All, MatchOption, IfSome, codes, decimal};
ghost use Rattle.scram_hashes.specs.Base64.{base64};
ghost use Rattle.scram_hashes.specs.Keys.{IsVerifier, TheVerifier};
ghost use Rattle.scram_hashes.specs.VerifierText.{IsIterationCount, joined, verifier_text};

use itoa::Buffer;

/// The fewest iterations of a verifier (RFC 7677, 4).
const LEAST_ITERATIONS: u32 = 4096;

/// The most iterations of a verifier. Clients give up on far more of them.
const MOST_ITERATIONS: u32 = 1_000_000;

/// The parts of a text that stand where a verifier's text has its own.
#[derive(Clone, Copy)]
pub struct VerifierParts<'t> {
    /// The number of iterations, in decimal.
    pub iterations: &'t str,
    /// The salt, in base64.
    pub salt: &'t str,
    /// The stored key, in base64.
    pub stored_key: &'t str,
    /// The server's key, in base64.
    pub server_key: &'t str,
}

/// The parts of a text, or `None` where it is no verifier's text.
pub fn parts_of(text: &str) -> Option<VerifierParts<'_>>
    ensures sound { IfSome result (λ parts. text.now
        ≡ joined parts.iterations.now parts.salt.now parts.stored_key.now parts.server_key.now) }
    ensures complete { (verifier : TheVerifier) → IsVerifier verifier
        → text.now ≡ verifier_text verifier → MatchOption result ⊥ (λ parts.
        (parts.iterations.now ≡ decimal verifier.iterations)
        × (parts.salt.now ≡ base64 verifier.salt)
        × (parts.stored_key.now ≡ base64 verifier.stored_key)
        × (parts.server_key.now ≡ base64 verifier.server_key)) }
{
    let Some((scheme, counted)) = cut(text, '$') else {
        return None;
    };
    if scheme != "SCRAM-SHA-256" {
        return None;
    }
    let Some((iterations, salted)) = cut(counted, ':') else {
        return None;
    };
    let Some((salt, keys)) = cut(salted, '$') else {
        return None;
    };
    let Some((stored_key, server_key)) = cut(keys, ':') else {
        return None;
    };
    Some(VerifierParts {
        iterations,
        salt,
        stored_key,
        server_key,
    })
}

/// The number that a text writes in decimal without signs and leading zeros, where a verifier may have so many iterations.
pub fn iterations_in(text: &str) -> Option<u32>
    ensures { MatchOption result
        ((iterations : ℕ) → IsIterationCount iterations → text.now ≢ decimal iterations)
        (λ iterations. IsIterationCount iterations × (text.now ≡ decimal iterations)) }
{
    let Ok(iterations) = text.parse::<u32>() else {
        return None;
    };
    // `parse` also takes a plus and zeros in front, which no verifier's text has.
    let mut buffer = Buffer::new();
    let as_written = buffer.format(iterations) == text;
    if as_written && iterations >= LEAST_ITERATIONS && iterations <= MOST_ITERATIONS {
        Some(iterations)
    } else {
        None
    }
}

// What stands in front of the first of these signs, and what stands behind it.
fn cut(text: &str, sign: char) -> Option<(&str, &str)>
    requires { sign < 128 }
    ensures sound { IfSome result (λ parts. text.now ≡ parts.0.now ++ sign ∷ parts.1.now) }
    ensures complete { (front rest : List ℕ) → All (λ byte. byte ≢ sign) front
        → text.now ≡ front ++ sign ∷ rest
        → MatchOption result ⊥ (λ parts. (parts.0.now ≡ front) × (parts.1.now ≡ rest)) }
{
    text.split_once(sign)
}
