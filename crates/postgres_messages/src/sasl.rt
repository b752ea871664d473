//! What a client sends to show a password.

ghost use Rattle.postgres_messages.specs.Sasl.{IsReadInitial, initial_in, is_text_initial, viewed_initial};
ghost use Rattle.postgres_messages.specs.Views.{GivesText};

use crate::bodies::end;
use crate::fields::{FieldBytes, string_at, text_of, value_at};
use crate::read_error::ReadError;

/// SASLInitialResponse (PostgreSQL 15 manual, 55.7).
#[derive(Clone, Copy)]
pub struct SaslInitial<'a> {
    /// The mechanism that the client chose.
    pub mechanism: &'a str,
    /// Its first message, if it sent one with its choice.
    pub response: FieldBytes<'a>,
}

/// The SASLInitialResponse that the body of a `Password` is. The body of a SASLResponse is its data as it stands.
///
/// `Malformed`: it is none. `NotText`: it is one, but the name of the mechanism is not UTF-8.
pub fn read_sasl_initial(body: &[u8]) -> Result<SaslInitial<'_>, ReadError>
    ensures { IsReadInitial body.now result }
{
    initial_in(body)
}

#[tactic(auto, unfolding(crate::specs::Sasl::initial_in))]
fn initial_in(body: &[u8]) -> Result<SaslInitial<'_>, ReadError>
    ensures { GivesText is_text_initial viewed_initial result (initial_in body.now) }
{
    let (mechanism, rest) = string_at(body)?;
    let (response, rest) = value_at(rest)?;
    end(rest)?;
    let mechanism = text_of(mechanism)?;
    Ok(SaslInitial {
        mechanism,
        response,
    })
}
