//! Facts about the definitions of exchanges.

ghost use Rattle.std.specs.Prelude.{◌≡◌, ℕ, List, Option, length};
ghost use Rattle.base64.specs.GeneralPurpose.{IsBytes};
ghost use Rattle.scram_hashes.specs.Keys.{ShowsPassword, TheVerifier};
ghost use Rattle.scram.specs.Exchanges.{Authenticates, BeginsExchange, HasProof, IsRefusedLogin, IsShownLogin, TheExchange, WasShown, messages};
ghost use Rattle.scram.specs.Mocks.{StoresNone, TheMock};

/// What an exchange shows was shown: its text was stored when the exchange began and still is, and the messages of the client show
/// the password of the verifier that it spells.
pub fn what_is_shown_was_shown()
    ensures { (mock : TheMock) (role drawn first last text : List ℕ) (stored now : Option (List ℕ))
        (x : TheExchange) → BeginsExchange mock role stored drawn first x → IsShownLogin x last now text
        → WasShown stored now drawn first last text }
{}

/// A wrong proof shows nothing.
pub fn wrong_proof_is_refused()
    ensures { (x : TheExchange) (last proof : List ℕ) (now : Option (List ℕ)) → HasProof x last proof
        → (ShowsPassword x.verifier (messages x) proof → ⊥) → IsRefusedLogin x last now }
{}

/// A role without a verifier is refused, whatever the client sends.
pub fn no_verifier_is_refused()
    ensures { (mock : TheMock) (role drawn first last : List ℕ) (stored now : Option (List ℕ))
        (x : TheExchange) → BeginsExchange mock role stored drawn first x → StoresNone stored
        → IsRefusedLogin x last now }
{}

/// A last message shows a password in no other exchange, of this role or of another, unless the same bytes were drawn for both.
pub fn replay_draws_the_same()
    ensures { (verifier other : TheVerifier) (drawn other_drawn first other_first last : List ℕ)
        → IsBytes drawn → IsBytes other_drawn → length drawn ≡ length other_drawn
        → Authenticates verifier drawn first last → Authenticates other other_drawn other_first last
        → drawn ≡ other_drawn }
{}
