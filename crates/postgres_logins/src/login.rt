//! The exchange of a conversation: its client shows a password, or is refused.

ghost use Rattle.std.specs.Prelude.{◌≡◌, ◌++◌, ℕ, List, false, nat_lt, IfOk, OnErr, OnOk};
ghost use Rattle.std.specs.Option.{option_map};
ghost use Rattle.sql_types.specs.declared.state.SqlState.TheVariants.{ProtocolViolation};
ghost use Rattle.talks.specs.declared.want.Want.{Want as TheWant};
ghost use Rattle.password_talks.specs.LookUps.{is_as_shown, refusal};
ghost use Rattle.password_talks.specs.Logins.{verifier_of};
ghost use Rattle.postgres_logins.specs.EntryMessages.{entry_front};
ghost use Rattle.postgres_logins.specs.Logins.{HearsIn, HearsEncryption, HearsInitial, HearsLast, HearsPacket, HearsRequest, SendsAway, SaidNothing, LearnsIn, RefusesClient, StandsAs, is_admitted, newcomer, shown_in, shown_role, start_in};
ghost use Rattle.postgres_logins.specs.Sayings.{failure_said, refusal_said};
ghost use Rattle.postgres_logins.specs.declared.stage.SaslStage.{SaslStage as TheStage};

use crate::entry_message::{answer_in, entry_front, first_in};
use crate::said::{say_failure, say_refusal};
use crate::stage::{Newcomer, SaslStage};
use crate::start_request::{StartRequest, start_request};
use password_talks::login::PasswordPlace;
use password_talks::message::ExchangeMessage;
use scram::exchange::Exchange;
use scram::mock::Mock;
use sql_types::state::SqlState;
use sql_types::text::Text;
use sql_types::try_copy::TryCopy;
use std::alloc::{AllocError, Global};
use std::mem;
use talks::talk::MessageFront;
use talks::want::{Reply, Want};

/// The byte that says that a connection is not encrypted.
const NO_ENCRYPTION: u8 = b'N';

/// The most requests for encryption that are answered: one for TLS, and one for GSSAPI.
const MAX_REQUESTS: u32 = 2;

/// The exchange of a conversation, and how far it has come. There is one, and these bytes were drawn for it.
#[derive(Drop)]
pub struct SaslLogin {
    pub(crate) alloc: Global,
    pub(crate) place: PasswordPlace,
    pub(crate) drawn: [u8; 32],
    pub(crate) stage: SaslStage,
    pub(crate) want: Want,
}

impl SaslLogin {
    /// An exchange that has not begun.
    ///
    /// `drawn` are bytes that nobody can foretell, drawn for it alone.
    pub fn new(alloc: Global, place: PasswordPlace, drawn: [u8; 32]) -> SaslLogin
        ensures place { result.place ≡ place }
        ensures drawn { result.drawn ≡ drawn }
        ensures stage { result.stage ≡ TheStage.Starting 0 }
        ensures want { result.want ≡ TheWant.Message }
    {
        SaslLogin {
            alloc,
            place,
            drawn,
            stage: SaslStage::Starting { answered: 0 },
            want: Want::Message,
        }
    }

    // Where memory comes from.
    pub(crate) fn alloc(&self) -> Global {
        self.alloc
    }

    /// Whether the password was shown.
    pub fn is_admitted(&self) -> bool
        ensures { result ≡ is_admitted self.now.stage }
    {
        matches!(
            &self.stage,
            SaslStage::Admitted {
                newcomer: _,
                text: _
            }
        )
    }

    /// The role whose password was shown, if one was.
    pub fn shown_role(&self) -> Option<&str>
        ensures { option_map (λ role. role.now) result ≡ shown_role self.now.stage }
    {
        match &self.stage {
            SaslStage::Admitted { newcomer, text: _ } => Some(newcomer.role.as_str()),
            _ => None,
        }
    }

    /// The StartupMessage of a client that was let in, as it came.
    pub fn start(&self) -> Option<&[u8]>
        ensures { option_map (λ start. start.now) result ≡ start_in self.now.stage }
    {
        match &self.stage {
            SaslStage::Admitted { newcomer, text: _ } => Some(newcomer.start.as_slice()),
            _ => None,
        }
    }

    /// What it wants; once the password was shown, its verifier.
    pub fn want(&self) -> &Want
        ensures { result.now ≡ self.now.want }
    {
        &self.want
    }

    /// What stands at the front of some bytes, while the password was not shown.
    pub fn front(&self, bytes: &[u8]) -> MessageFront
        ensures { result ≡ entry_front self.now.stage bytes.now }
    {
        entry_front(&self.stage, bytes)
    }

    /// Whether a session is wanted for the role whose password was shown, and the verifier was just found
    /// whose password that is.
    pub fn is_as_shown(&self, want: &Want, reply: &Reply) -> bool
        ensures { result ≡ is_as_shown (shown_in self.now.stage) want.now reply.now }
    {
        let SaslStage::Admitted { newcomer, text } = &self.stage else {
            return false;
        };
        match (want, reply) {
            (
                Want::Open {
                    session: _,
                    login,
                    entry: _,
                },
                Reply::Verifier(Ok(Some(found))),
            ) => *login == newcomer.role && found == text,
            _ => false,
        }
    }

    /// Why a session is refused that is wanted, where the verifier was not found as it was shown.
    pub fn refusal(&self, want: &Want, reply: &Reply) -> SqlState
        ensures { result ≡ refusal (shown_in self.now.stage) want.now reply.now }
    {
        let SaslStage::Admitted { newcomer, text: _ } = &self.stage else {
            return SqlState::InvalidAuthorization;
        };
        match (want, reply) {
            (
                Want::Open {
                    session: _,
                    login,
                    entry: _,
                },
                Reply::Verifier(Err(state)),
            ) => {
                if *login == newcomer.role {
                    *state
                } else {
                    SqlState::InvalidAuthorization
                }
            }
            _ => SqlState::InvalidAuthorization,
        }
    }

    /// Wants no more than the end, since an allocation has failed.
    pub fn give_up(&mut self)
        ensures { StandsAs self.old.place self.old.drawn TheStage.Ended TheWant.OutOfMemory self.new }
    {
        self.stand(SaslStage::Ended, Want::OutOfMemory);
    }

    /// Hears a message, and puts what it says to it behind what was said.
    pub fn hear(&mut self, message: &[u8], out: &mut Vec<u8>) -> Result<(), AllocError>
        ensures ok { OnOk result ((said : List ℕ) × HearsIn self.old.stage message.now self.old.place self.old.drawn said self.new
            × (out.new.items ≡ out.old.items ++ said)) }
        ensures err { OnErr result (StandsAs self.old.place self.old.drawn TheStage.Ended TheWant.OutOfMemory self.new
            × (out.new.items ≡ out.old.items)) }
    {
        match self.take_message(message, out) {
            Ok(()) => Ok(()),
            Err(error) => {
                self.give_up();
                Err(error)
            }
        }
    }

    /// Learns what it wanted, and puts what it says to it behind what was said.
    pub fn learn(&mut self, reply: Reply, out: &mut Vec<u8>) -> Result<(), AllocError>
        ensures ok { OnOk result ((said : List ℕ) × LearnsIn self.old.stage self.old.place self.old.drawn reply said self.new
            × (out.new.items ≡ out.old.items ++ said)) }
        ensures err { OnErr result (StandsAs self.old.place self.old.drawn TheStage.Ended TheWant.OutOfMemory self.new
            × (out.new.items ≡ out.old.items)) }
    {
        match self.take_reply(reply, out) {
            Ok(()) => Ok(()),
            Err(error) => {
                self.give_up();
                Err(error)
            }
        }
    }

    /// Learns that a bad message stands at the front, of which it says something.
    pub fn reject(&mut self, out: &mut Vec<u8>) -> Result<(), AllocError>
        ensures ok { OnOk result ((said : List ℕ) × SendsAway self.old.place self.old.drawn ProtocolViolation said self.new
            × (out.new.items ≡ out.old.items ++ said)) }
        ensures err { OnErr result (StandsAs self.old.place self.old.drawn TheStage.Ended TheWant.OutOfMemory self.new
            × (out.new.items ≡ out.old.items)) }
    {
        match self.turn_away(SqlState::ProtocolViolation, out) {
            Ok(()) => Ok(()),
            Err(error) => {
                self.give_up();
                Err(error)
            }
        }
    }

    // Hears a message, by how far it has come.
    fn take_message(&mut self, message: &[u8], out: &mut Vec<u8>) -> Result<(), AllocError>
        ensures ok { OnOk result ((said : List ℕ) × HearsIn self.old.stage message.now self.old.place self.old.drawn said self.new
            × (out.new.items ≡ out.old.items ++ said)) }
        ensures err { OnErr result (SaidNothing self.old.place self.old.drawn self.new × (out.new.items ≡ out.old.items)) }
    {
        match mem::replace(&mut self.stage, SaslStage::Ended) {
            SaslStage::Starting { answered } => self.take_packet(answered, message, out),
            SaslStage::Offered {
                newcomer,
                mock,
                stored,
            } => self.take_first(newcomer, &mock, stored, message, out),
            SaslStage::Challenged { newcomer, exchange } => {
                self.take_last(newcomer, exchange, answer_in(message), out)
            }
            _ => self.turn_away(SqlState::ProtocolViolation, out),
        }
    }

    // A packet of the start comes, after so many requests for encryption.
    fn take_packet(
        &mut self,
        answered: u32,
        message: &[u8],
        out: &mut Vec<u8>,
    ) -> Result<(), AllocError>
        ensures ok { OnOk result ((said : List ℕ) × HearsPacket answered message.now self.old.place self.old.drawn said self.new
            × (out.new.items ≡ out.old.items ++ said)) }
        ensures err { OnErr result (SaidNothing self.old.place self.old.drawn self.new × (out.new.items ≡ out.old.items)) }
    {
        let request = start_request(self.alloc, message)?;
        self.take_request(request, answered, message, out)
    }

    // What a packet asks.
    fn take_request(
        &mut self,
        request: StartRequest,
        answered: u32,
        message: &[u8],
        out: &mut Vec<u8>,
    ) -> Result<(), AllocError>
        ensures ok { OnOk result ((said : List ℕ) × HearsRequest request answered message.now self.old.place self.old.drawn said self.new
            × (out.new.items ≡ out.old.items ++ said)) }
        ensures err { OnErr result (SaidNothing self.old.place self.old.drawn self.new × (out.new.items ≡ out.old.items)) }
    {
        match request {
            StartRequest::Encryption => self.refuse_encryption(answered, out),
            StartRequest::Login(role) => self.begin(role, message),
            StartRequest::Leave => {
                self.end_here();
                Ok(())
            }
            StartRequest::Unfit(state) => self.turn_away(state, out),
        }
    }

    // The connection is not encrypted. That is said twice at most.
    fn refuse_encryption(&mut self, answered: u32, out: &mut Vec<u8>) -> Result<(), AllocError>
        ensures ok { OnOk result ((said : List ℕ) × HearsEncryption (nat_lt answered 2) answered self.old.place self.old.drawn said self.new
            × (out.new.items ≡ out.old.items ++ said)) }
        ensures err { OnErr result (SaidNothing self.old.place self.old.drawn self.new × (out.new.items ≡ out.old.items)) }
    {
        if answered >= MAX_REQUESTS {
            return self.turn_away(SqlState::ProtocolViolation, out);
        }
        out.push(NO_ENCRYPTION)?;
        let starting = SaslStage::Starting {
            answered: answered + 1,
        };
        self.stand(starting, Want::Message);
        Ok(())
    }

    // The exchange begins with a role, by a StartupMessage.
    fn begin(&mut self, role: Text, message: &[u8]) -> Result<(), AllocError>
        ensures ok { OnOk result (StandsAs self.old.place self.old.drawn (TheStage.Begun (newcomer message.now role)) (verifier_of self.old.place self.old.place.mock) self.new) }
        ensures err { OnErr result (SaidNothing self.old.place self.old.drawn self.new) }
    {
        let want = self.look_up(&self.place.mock)?;
        let start = ExchangeMessage::from_slice(self.alloc, message)?;
        let newcomer = Newcomer { start, role };
        self.stand(SaslStage::Begun { newcomer }, want);
        Ok(())
    }

    // A SASLInitialResponse is to come.
    fn take_first(
        &mut self,
        newcomer: Newcomer,
        mock: &Mock,
        stored: Option<Text>,
        message: &[u8],
        out: &mut Vec<u8>,
    ) -> Result<(), AllocError>
        ensures ok { OnOk result ((said : List ℕ) × HearsInitial newcomer mock.now stored message.now self.old.place self.old.drawn said self.new
            × (out.new.items ≡ out.old.items ++ said)) }
        ensures err { OnErr result (SaidNothing self.old.place self.old.drawn self.new × (out.new.items ≡ out.old.items)) }
    {
        match first_in(message)? {
            Some(first) => self.challenge(newcomer, mock, stored, first, out),
            None => self.turn_away(SqlState::ProtocolViolation, out),
        }
    }

    // A SASLResponse is to come.
    fn take_last(
        &mut self,
        newcomer: Newcomer,
        exchange: Exchange,
        last: Option<&[u8]>,
        out: &mut Vec<u8>,
    ) -> Result<(), AllocError>
        ensures ok { OnOk result ((said : List ℕ) × HearsLast (option_map (λ l. l.now) last.entry) newcomer exchange self.old.place self.old.drawn said self.new
            × (out.new.items ≡ out.old.items ++ said)) }
        ensures err { OnErr result (SaidNothing self.old.place self.old.drawn self.new × (out.new.items ≡ out.old.items)) }
    {
        match last {
            Some(last) => self.answer(newcomer, exchange, last),
            None => self.turn_away(SqlState::ProtocolViolation, out),
        }
    }

    // The last message of the exchange has come.
    fn answer(
        &mut self,
        newcomer: Newcomer,
        exchange: Exchange,
        last: &[u8],
    ) -> Result<(), AllocError>
        ensures ok { OnOk result (StandsAs self.old.place self.old.drawn (TheStage.Answered newcomer exchange last.now) (verifier_of self.old.place newcomer.role) self.new) }
        ensures err { OnErr result (SaidNothing self.old.place self.old.drawn self.new) }
    {
        let want = self.look_up(&newcomer.role)?;
        let last = ExchangeMessage::from_slice(self.alloc, last)?;
        let answered = SaslStage::Answered {
            newcomer,
            exchange,
            last,
        };
        self.stand(answered, want);
        Ok(())
    }

    // The client has not shown the password of the role that it names.
    pub(crate) fn refuse(&mut self, role: &Text, out: &mut Vec<u8>) -> Result<(), AllocError>
        ensures ok { OnOk result ((said : List ℕ) × RefusesClient self.old.place self.old.drawn (failure_said role.now) said self.new
            × (out.new.items ≡ out.old.items ++ said)) }
        ensures err { OnErr result (SaidNothing self.old.place self.old.drawn self.new × (out.new.items ≡ out.old.items)) }
    {
        say_failure(self.alloc, role, out)?;
        self.stand(SaslStage::Ended, Want::End { late: true });
        Ok(())
    }

    // A verifier could not be looked up.
    pub(crate) fn refuse_by(&mut self, state: SqlState, out: &mut Vec<u8>) -> Result<(), AllocError>
        ensures ok { OnOk result ((said : List ℕ) × RefusesClient self.old.place self.old.drawn (refusal_said state) said self.new
            × (out.new.items ≡ out.old.items ++ said)) }
        ensures err { OnErr result (SaidNothing self.old.place self.old.drawn self.new × (out.new.items ≡ out.old.items)) }
    {
        say_refusal(self.alloc, state, out)?;
        self.stand(SaslStage::Ended, Want::End { late: true });
        Ok(())
    }

    // Answers what is not taken here, and wants the end.
    fn turn_away(&mut self, state: SqlState, out: &mut Vec<u8>) -> Result<(), AllocError>
        ensures ok { OnOk result ((said : List ℕ) × SendsAway self.old.place self.old.drawn state said self.new
            × (out.new.items ≡ out.old.items ++ said)) }
        ensures err { OnErr result (SaidNothing self.old.place self.old.drawn self.new × (out.new.items ≡ out.old.items)) }
    {
        say_refusal(self.alloc, state, out)?;
        self.stand(SaslStage::Ended, Want::End { late: false });
        Ok(())
    }

    // Wants the end, with nothing said.
    pub(crate) fn end_here(&mut self)
        ensures { StandsAs self.old.place self.old.drawn TheStage.Ended (TheWant.End false) self.new }
    {
        self.stand(SaslStage::Ended, Want::End { late: false });
    }

    // It has come so far, and wants this.
    pub(crate) fn stand(&mut self, stage: SaslStage, want: Want)
        ensures { StandsAs self.old.place self.old.drawn stage want self.new }
    {
        self.stage = stage;
        self.want = want;
    }

    // The verifier that a role keeps, as something wanted.
    pub(crate) fn look_up(&self, role: &Text) -> Result<Want, AllocError>
        ensures { IfOk result (λ want. want ≡ verifier_of self.now.place role.now) }
    {
        let table = self.place.table.try_copy(self.alloc)?;
        let role = role.try_copy(self.alloc)?;
        Ok(Want::Verifier { table, role })
    }
}
