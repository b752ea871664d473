//! The exchange of a conversation: its client shows a password, or is refused.

ghost use Rattle.std.specs.Prelude.{◌≡◌, ◌++◌, ℕ, List, IfOk, OnErr, OnOk};
ghost use Rattle.std.specs.Option.{option_map};
ghost use Rattle.talks.specs.declared.want.Want.{Want as TheWant};
ghost use Rattle.password_talks.specs.EarlyFrames.{early_frame, ends};
ghost use Rattle.password_talks.specs.Views.{viewed_frame};
ghost use Rattle.password_talks.specs.Logins.{HearsAt, IsBadFrame, RefusesLogin, IsUnsaid, LearnsAt, StandsSo, is_admitted, is_silent, shown_role, verifier_of};
ghost use Rattle.password_talks.specs.LookUps.{is_as_shown, refusal};
ghost use Rattle.password_talks.specs.declared.stage.LoginStage.{LoginStage as TheStage};

use crate::early_frame::{EarlyFrame, early_frame};
use crate::message::ExchangeMessage;
use crate::said::say_refusal;
use crate::stage::LoginStage;
use scram::exchange::Exchange;
use sql_types::name::Name;
use sql_types::state::SqlState;
use sql_types::text::Text;
use sql_types::try_copy::TryCopy;
use std::alloc::{AllocError, Global};
use std::mem;
use talks::want::{Reply, Want};

/// Where verifiers are kept for a place that asks for passwords.
#[derive(Drop)]
pub struct PasswordPlace {
    /// The table that keeps them.
    pub table: Name,
    /// The role whose stored key is the secret of the mock. Nobody has its password.
    pub mock: Text,
}

impl TryCopy for PasswordPlace {
    fn try_copy(&self, alloc: Global) -> Result<PasswordPlace, AllocError> {
        let table = self.table.try_copy(alloc)?;
        let mock = self.mock.try_copy(alloc)?;
        Ok(PasswordPlace { table, mock })
    }
}

/// The exchange of a conversation, and how far it has come. There is one, and these bytes were drawn for it.
#[derive(Drop)]
pub struct Login {
    pub(crate) alloc: Global,
    pub(crate) place: PasswordPlace,
    pub(crate) drawn: [u8; 32],
    pub(crate) stage: LoginStage,
    pub(crate) want: Want,
}

impl Login {
    /// An exchange that has not begun.
    ///
    /// `drawn` are bytes that nobody can foretell, drawn for it alone.
    pub fn new(alloc: Global, place: PasswordPlace, drawn: [u8; 32]) -> Login
        ensures place { result.place ≡ place }
        ensures drawn { result.drawn ≡ drawn }
        ensures stage { result.stage ≡ TheStage.Silent }
        ensures want { result.want ≡ TheWant.Message }
    {
        Login {
            alloc,
            place,
            drawn,
            stage: LoginStage::Silent,
            want: Want::Message,
        }
    }

    /// Whether the password was shown.
    pub fn is_admitted(&self) -> bool
        ensures { result ≡ is_admitted self.now.stage }
    {
        matches!(&self.stage, LoginStage::Admitted { role: _, text: _ })
    }

    /// The role whose password was shown, if one was.
    pub fn shown_role(&self) -> Option<&str>
        ensures { option_map (λ role. role.now) result ≡ shown_role self.now.stage }
    {
        match &self.stage {
            LoginStage::Admitted { role, text: _ } => Some(role.as_str()),
            _ => None,
        }
    }

    /// What it wants; once the password was shown, its verifier.
    pub fn want(&self) -> &Want
        ensures { result.now ≡ self.now.want }
    {
        &self.want
    }

    /// Whether a session is wanted for the role whose password was shown, and the verifier was just found
    /// whose password that is.
    pub fn is_as_shown(&self, want: &Want, reply: &Reply) -> bool
        ensures { result ≡ is_as_shown self.now.stage want.now reply.now }
    {
        let LoginStage::Admitted { role, text } = &self.stage else {
            return false;
        };
        match (want, reply) {
            (
                Want::Open {
                    session: _,
                    login,
                    entry: _,
                },
                Reply::Verifier(Ok(Some(found))),
            ) => login == role && found == text,
            _ => false,
        }
    }

    /// Why a session is refused that is wanted, where the verifier was not found as it was shown.
    pub fn refusal(&self, want: &Want, reply: &Reply) -> SqlState
        ensures { result ≡ refusal self.now.stage want.now reply.now }
    {
        let LoginStage::Admitted { role, text: _ } = &self.stage else {
            return SqlState::InvalidAuthorization;
        };
        match (want, reply) {
            (
                Want::Open {
                    session: _,
                    login,
                    entry: _,
                },
                Reply::Verifier(Err(state)),
            ) => {
                if login == role {
                    *state
                } else {
                    SqlState::InvalidAuthorization
                }
            }
            _ => SqlState::InvalidAuthorization,
        }
    }

    /// Wants no more than the end, since an allocation has failed.
    pub fn give_up(&mut self)
        ensures { StandsSo self.old.place self.old.drawn TheStage.Ended TheWant.OutOfMemory self.new }
    {
        self.stand(LoginStage::Ended, Want::OutOfMemory);
    }

    /// Hears a message, and puts what it says to it behind what was said.
    pub fn hear(&mut self, message: &[u8], out: &mut Vec<u8>) -> Result<(), AllocError>
        ensures ok { OnOk result ((said : List ℕ) × HearsAt self.old.stage (early_frame message.now) self.old.place self.old.drawn said self.new
            × (out.new.items ≡ out.old.items ++ said)) }
        ensures err { OnErr result (StandsSo self.old.place self.old.drawn TheStage.Ended TheWant.OutOfMemory self.new
            × (out.new.items ≡ out.old.items)) }
    {
        match self.take_frame(early_frame(message), out) {
            Ok(()) => Ok(()),
            Err(error) => {
                self.give_up();
                Err(error)
            }
        }
    }

    /// Learns what it wanted, and puts what it says to it behind what was said.
    pub fn learn(&mut self, reply: Reply, out: &mut Vec<u8>) -> Result<(), AllocError>
        ensures ok { OnOk result ((said : List ℕ) × LearnsAt self.old.stage self.old.place self.old.drawn reply said self.new
            × (out.new.items ≡ out.old.items ++ said)) }
        ensures err { OnErr result (StandsSo self.old.place self.old.drawn TheStage.Ended TheWant.OutOfMemory self.new
            × (out.new.items ≡ out.old.items)) }
    {
        match self.take_reply(reply, out) {
            Ok(()) => Ok(()),
            Err(error) => {
                self.give_up();
                Err(error)
            }
        }
    }

    /// Learns that a bad message stands at the front, of which it says something.
    pub fn reject(&mut self, out: &mut Vec<u8>) -> Result<(), AllocError>
        ensures ok { OnOk result ((said : List ℕ) × IsBadFrame self.old.place self.old.drawn said self.new
            × (out.new.items ≡ out.old.items ++ said)) }
        ensures err { OnErr result (StandsSo self.old.place self.old.drawn TheStage.Ended TheWant.OutOfMemory self.new
            × (out.new.items ≡ out.old.items)) }
    {
        match self.refuse_frame(out) {
            Ok(()) => Ok(()),
            Err(error) => {
                self.give_up();
                Err(error)
            }
        }
    }

    // Hears a frame.
    fn take_frame(&mut self, frame: EarlyFrame<'_>, out: &mut Vec<u8>) -> Result<(), AllocError>
        ensures ok { OnOk result ((said : List ℕ) × HearsAt self.old.stage (viewed_frame frame.entry) self.old.place self.old.drawn said self.new
            × (out.new.items ≡ out.old.items ++ said)) }
        ensures err { OnErr result (IsUnsaid self.old.place self.old.drawn self.new × (out.new.items ≡ out.old.items)) }
    {
        match frame {
            EarlyFrame::Begins { label, role, first } => {
                if self.is_silent() {
                    self.begin(label, role, first)
                } else {
                    self.refuse_frame(out)
                }
            }
            EarlyFrame::Ends { label, last } => self.end(label, last, out),
            EarlyFrame::Event { session } => {
                self.refuse(session, SqlState::InvalidAuthorization, out)
            }
            EarlyFrame::Bad => self.refuse_frame(out),
        }
    }

    // Whether nothing was heard.
    fn is_silent(&self) -> bool
        ensures { result ≡ is_silent self.now.stage }
    {
        matches!(&self.stage, LoginStage::Silent)
    }

    // The exchange begins with a role, by a first message.
    fn begin(&mut self, label: u32, role: &str, first: &[u8]) -> Result<(), AllocError>
        ensures ok { OnOk result (StandsSo self.old.place self.old.drawn (TheStage.Begun label role.now first.now) (verifier_of self.old.place self.old.place.mock) self.new) }
        ensures err { OnErr result (IsUnsaid self.old.place self.old.drawn self.new) }
    {
        let want = self.look_up(&self.place.mock)?;
        let role = Text::from_str(self.alloc, role)?;
        let first = ExchangeMessage::from_slice(self.alloc, first)?;
        self.stand(LoginStage::Begun { label, role, first }, want);
        Ok(())
    }

    // A last message comes under a label.
    fn end(&mut self, label: u32, last: &[u8], out: &mut Vec<u8>) -> Result<(), AllocError>
        ensures ok { OnOk result ((said : List ℕ) × HearsAt self.old.stage (ends label last.now) self.old.place self.old.drawn said self.new
            × (out.new.items ≡ out.old.items ++ said)) }
        ensures err { OnErr result (IsUnsaid self.old.place self.old.drawn self.new × (out.new.items ≡ out.old.items)) }
    {
        match mem::replace(&mut self.stage, LoginStage::Ended) {
            LoginStage::Challenged {
                label: begun,
                role,
                exchange,
            } => {
                if label == begun {
                    self.answer(label, role, exchange, last)
                } else {
                    self.refuse_frame(out)
                }
            }
            _ => self.refuse_frame(out),
        }
    }

    // The last message of the exchange has come.
    fn answer(
        &mut self,
        label: u32,
        role: Text,
        exchange: Exchange,
        last: &[u8],
    ) -> Result<(), AllocError>
        ensures ok { OnOk result (StandsSo self.old.place self.old.drawn (TheStage.Answered label role exchange last.now) (verifier_of self.old.place role) self.new) }
        ensures err { OnErr result (IsUnsaid self.old.place self.old.drawn self.new) }
    {
        let want = self.look_up(&role)?;
        let last = ExchangeMessage::from_slice(self.alloc, last)?;
        let answered = LoginStage::Answered {
            label,
            role,
            exchange,
            last,
        };
        self.stand(answered, want);
        Ok(())
    }

    // Refuses the client under a label, and wants the end.
    pub(crate) fn refuse(
        &mut self,
        label: u32,
        state: SqlState,
        out: &mut Vec<u8>,
    ) -> Result<(), AllocError>
        ensures ok { OnOk result ((said : List ℕ) × RefusesLogin self.old.place self.old.drawn label state said self.new
            × (out.new.items ≡ out.old.items ++ said)) }
        ensures err { OnErr result (IsUnsaid self.old.place self.old.drawn self.new × (out.new.items ≡ out.old.items)) }
    {
        say_refusal(self.alloc, label, state, out)?;
        self.stand(LoginStage::Ended, Want::End { late: true });
        Ok(())
    }

    // Answers a bad frame, and wants the end.
    fn refuse_frame(&mut self, out: &mut Vec<u8>) -> Result<(), AllocError>
        ensures ok { OnOk result ((said : List ℕ) × IsBadFrame self.old.place self.old.drawn said self.new
            × (out.new.items ≡ out.old.items ++ said)) }
        ensures err { OnErr result (IsUnsaid self.old.place self.old.drawn self.new × (out.new.items ≡ out.old.items)) }
    {
        say_refusal(self.alloc, 0, SqlState::ProtocolViolation, out)?;
        self.stand(LoginStage::Ended, Want::End { late: false });
        Ok(())
    }

    // It has come so far, and wants this.
    pub(crate) fn stand(&mut self, stage: LoginStage, want: Want)
        ensures { StandsSo self.old.place self.old.drawn stage want self.new }
    {
        self.stage = stage;
        self.want = want;
    }

    // The verifier that a role keeps, as something wanted.
    pub(crate) fn look_up(&self, role: &Text) -> Result<Want, AllocError>
        ensures { IfOk result (λ want. want ≡ verifier_of self.now.place role.now) }
    {
        let table = self.place.table.try_copy(self.alloc)?;
        let role = role.try_copy(self.alloc)?;
        Ok(Want::Verifier { table, role })
    }
}
