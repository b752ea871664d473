//! Facts about the definitions of keys and verifiers.

ghost use Rattle.std.specs.Prelude.{◌≡◌, ℕ, List};
ghost use Rattle.scram_hashes.specs.Keys.{PasswordShows, TheVerifier};
ghost use Rattle.scram_hashes.specs.VerifierText.{SpellsVerifier};

/// Whoever has the password of a verifier can show it, whatever the messages are.
pub fn password_shows()
    ensures { (password salt messages : List ℕ) (iterations : ℕ)
        → PasswordShows password salt iterations messages }
{}

/// A text spells one verifier at most.
pub fn one_verifier()
    ensures { (text : List ℕ) (verifier other : TheVerifier) → SpellsVerifier text verifier
        → SpellsVerifier text other → verifier ≡ other }
{}
