//! Exchanges, in which a client shows a password without telling it.

ghost use Rattle.std.specs.Prelude.{◌≡◌, ◌↔◌, ℕ, List, Some, IfOk, IsTrue, MatchOption};
ghost use Rattle.std.specs.Option.{option_copied};
ghost use Rattle.scram_hashes.specs.Keys.{ShowsPassword};
ghost use Rattle.scram.specs.Exchanges.{BeginsExchange, HasProof, IsNoFirst, IsRefusedLogin, IsShownLogin, challenge, messages};
ghost use Rattle.scram.specs.Messages.{server_final};
ghost use Rattle.scram.specs.Mocks.{GoesBy, stored_text};

use crate::first_message::read_first;
use crate::last_message::proof_in;
use crate::messages::{Binding, final_bare, server_final, server_first, whole_nonce};
use crate::mock::Mock;
use scram_hashes::verifier::Verifier;
use sql_types::text::Text;
use sql_types::try_copy::TryCopy;
use std::alloc::{AllocError, Global};
use std::marker::Model;

/// An exchange that has begun: it waits for the client's last message.
#[derive(Drop)]
pub struct Exchange {
    basis: Basis,
    binding: Binding,
    bare: Vec<u8>,
    nonce: Vec<u8>,
}

impl Model for Exchange {
    ghost use Rattle.scram.specs.Exchanges.{TheExchange};
    ghost use Rattle.scram.specs.Mocks.{stored_text};

    ghost Value = { TheExchange };

    ghost view = { λ x. record {
      verifier = x.basis.verifier;
      text = stored_text x.basis.is_stored x.basis.spelled;
      binding = x.binding;
      bare = x.bare.items;
      nonce = x.nonce.items;
    } };
}

/// What an exchange has shown.
#[derive(Drop)]
pub struct Shown {
    /// The text of the verifier whose password was shown. What it allows ends once another one is stored.
    pub text: Text,
    /// The server's last message.
    pub message: Vec<u8>,
}

impl Exchange {
    /// Begins an exchange by a client's first message, or `None` where it is none.
    ///
    /// `stored` is the text that is stored for the role, `None` where there is none; `drawn` are bytes that nobody can
    /// foretell, drawn for this exchange. A role without a verifier gets an exchange as any other, by the mock. The only
    /// error is that memory was refused.
    pub fn begin(
        alloc: Global,
        mock: &Mock,
        role: &[u8],
        stored: Option<&Text>,
        drawn: &[u8; 32],
        first: &[u8],
    ) -> Result<Option<Exchange>, AllocError>
        ensures { IfOk result (λ it. MatchOption it (IsNoFirst first.now) (λ x.
            BeginsExchange mock.now role.now (option_copied stored.entry) drawn.now first.now x)) }
    {
        let Some(read) = read_first(first) else {
            return Ok(None);
        };
        let bare = Vec::from_slice(alloc, read.bare)?;
        let nonce = whole_nonce(alloc, read.nonce, drawn)?;
        let basis = basis_of(alloc, mock, role, stored)?;
        Ok(Some(Exchange {
            basis,
            binding: read.binding,
            bare,
            nonce,
        }))
    }

    /// The server's first message. The only error is that memory was refused.
    pub fn challenge(&self, alloc: Global) -> Result<Vec<u8>, AllocError>
        ensures { IfOk result (λ it. it.items ≡ challenge self.now) }
    {
        server_first(alloc, &self.basis.verifier, &self.nonce)
    }

    /// What the client's last message shows, or `None` where it shows nothing: its proof is wrong or is none, it repeats
    /// another header or nonce, the role has no verifier, or `stored`, which is stored for the role now, is not the text
    /// that the exchange began with.
    ///
    /// The only error is that memory was refused.
    pub fn finish(
        &self,
        alloc: Global,
        last: &[u8],
        stored: Option<&Text>,
    ) -> Result<Option<Shown>, AllocError>
        ensures { IfOk result (λ it. MatchOption it
            (IsRefusedLogin self.now last.now (option_copied stored.entry))
            (λ shown. IsShownLogin self.now last.now (option_copied stored.entry) shown.text
            × (shown.message.items ≡ server_final self.now.verifier (messages self.now)))) }
    {
        let Some(proof) = self.proof_in(alloc, last)? else {
            return Ok(None);
        };
        let is_shown = self.is_shown_by(alloc, &proof)?;
        let Some(text) = self.still_stored(stored) else {
            return Ok(None);
        };
        if is_shown {
            let message = self.final_message(alloc)?;
            let text = text.try_copy(alloc)?;
            Ok(Some(Shown { text, message }))
        } else {
            Ok(None)
        }
    }

    // The proof in a last message of this exchange, or `None` where it is no such message.
    fn proof_in(&self, alloc: Global, last: &[u8]) -> Result<Option<[u8; 32]>, AllocError>
        ensures { IfOk result (λ it. MatchOption it
            ((proof : List ℕ) → HasProof self.now last.now proof → ⊥)
            (λ proof. HasProof self.now last.now proof)) }
    {
        let expected = final_bare(alloc, self.binding, &self.nonce)?;
        proof_in(alloc, &expected, last)
    }

    // Whether a proof shows the password of the exchange's verifier.
    fn is_shown_by(&self, alloc: Global, proof: &[u8; 32]) -> Result<bool, AllocError>
        ensures { IfOk result (λ it. IsTrue it
            ↔ ShowsPassword self.now.verifier (messages self.now) proof.now) }
    {
        let messages = self.messages(alloc)?;
        Ok(self.basis.verifier.is_shown_by(&messages, proof))
    }

    // The server's last message, where the client has shown the password.
    fn final_message(&self, alloc: Global) -> Result<Vec<u8>, AllocError>
        ensures { IfOk result (λ it.
            it.items ≡ server_final self.now.verifier (messages self.now)) }
    {
        let messages = self.messages(alloc)?;
        server_final(alloc, &self.basis.verifier, &messages)
    }

    // What both sides sign.
    fn messages(&self, alloc: Global) -> Result<Vec<u8>, AllocError>
        ensures { IfOk result (λ it. it.items ≡ messages self.now) }
    {
        let challenge = server_first(alloc, &self.basis.verifier, &self.nonce)?;
        let expected = final_bare(alloc, self.binding, &self.nonce)?;
        let mut messages = Vec::from_slice(alloc, &self.bare)?;
        messages.extend_from_slice(b",")?;
        messages.extend_from_slice(&challenge)?;
        messages.extend_from_slice(b",")?;
        messages.extend_from_slice(&expected)?;
        Ok(messages)
    }

    // The text of the exchange's verifier, where the same text is stored now. As much is compared where none was stored.
    fn still_stored(&self, stored: Option<&Text>) -> Option<&Text>
        ensures { MatchOption result
            ((text : List ℕ) → self.now.text ≡ Some text → option_copied stored.entry ≡ Some text → ⊥)
            (λ text. (self.now.text ≡ Some text.now) × (option_copied stored.entry ≡ Some text.now)) }
    {
        let spelled = &self.basis.spelled;
        let is_same = stored.unwrap_or(spelled) == spelled;
        match stored {
            Some(_) if is_same && self.basis.is_stored => Some(spelled),
            _ => None,
        }
    }
}

// The verifier that an exchange goes by, the text that spells it, and whether that is stored.
#[derive(Drop)]
struct Basis {
    verifier: Verifier,
    spelled: Text,
    is_stored: bool,
}

// What an exchange with a role goes by. The mock's verifier is made and spelled in either case, and one text is read and
// copied, so that a role without a verifier takes as much as one with.
fn basis_of(
    alloc: Global,
    mock: &Mock,
    role: &[u8],
    stored: Option<&Text>,
) -> Result<Basis, AllocError>
    ensures { IfOk result (λ basis. GoesBy mock.now role.now (option_copied stored.entry)
        basis.verifier (stored_text basis.is_stored basis.spelled)) }
{
    let substitute = mock.verifier_of(alloc, role)?;
    let substitute_text = Text::from_string(substitute.to_text(alloc)?);
    let text = stored.unwrap_or(&substitute_text);
    let found = Verifier::from_text(alloc, text.as_str())?;
    let spelled = text.try_copy(alloc)?;
    match (stored, found) {
        (Some(_), Some(verifier)) => Ok(Basis {
            verifier,
            spelled,
            is_stored: true,
        }),
        _ => Ok(Basis {
            verifier: substitute,
            spelled,
            is_stored: false,
        }),
    }
}
