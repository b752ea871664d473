//! What an exchange does once a verifier was looked up.

ghost use Rattle.std.specs.Prelude.{◌≡◌, ◌++◌, ℕ, false, List, IfOk, MatchOption, OnErr, OnOk};
ghost use Rattle.talks.specs.declared.want.Want.{Want as TheWant};
ghost use Rattle.std.specs.Option.{option_copied};
ghost use Rattle.scram.specs.Exchanges.{BeginsExchange, IsNoFirst, IsRefusedLogin, IsShownLogin, challenge, messages};
ghost use Rattle.scram.specs.Messages.{server_final};
ghost use Rattle.scram.specs.Mocks.{StoresNone};
ghost use Rattle.password_talks.specs.EarlyFrames.{message_frame};
ghost use Rattle.password_talks.specs.Logins.{Challenges, FailsUnder, FindsAt, IsMockOf, IsUnsaid, LearnsAt, AnswersLast, MakesMock, StandsSo, looking_label, verifier_of};
ghost use Rattle.password_talks.specs.declared.stage.LoginStage.{LoginStage as TheStage};

use crate::login::Login;
use crate::message::ExchangeMessage;
use crate::said::say_message;
use crate::stage::LoginStage;
use scram::exchange::{Exchange, Shown};
use scram::mock::Mock;
use scram_hashes::verifier::Verifier;
use sql_types::state::SqlState;
use sql_types::text::Text;
use std::alloc::{AllocError, Global};
use std::mem;
use talks::want::{Reply, Want};

impl Login {
    // Learns what it wanted.
    pub(crate) fn take_reply(&mut self, reply: Reply, out: &mut Vec<u8>) -> Result<(), AllocError>
        ensures ok { OnOk result ((said : List ℕ) × LearnsAt self.old.stage self.old.place self.old.drawn reply said self.new
            × (out.new.items ≡ out.old.items ++ said)) }
        ensures err { OnErr result (IsUnsaid self.old.place self.old.drawn self.new × (out.new.items ≡ out.old.items)) }
    {
        match reply {
            Reply::Verifier(Ok(stored)) => self.take_stored(stored, out),
            Reply::Verifier(Err(state)) => self.fail(state, out),
            _ => {
                self.end_here();
                Ok(())
            }
        }
    }

    // It could not be looked up.
    fn fail(&mut self, state: SqlState, out: &mut Vec<u8>) -> Result<(), AllocError>
        ensures ok { OnOk result ((said : List ℕ) × FailsUnder (looking_label self.old.stage) self.old.place self.old.drawn state said self.new
            × (out.new.items ≡ out.old.items ++ said)) }
        ensures err { OnErr result (IsUnsaid self.old.place self.old.drawn self.new × (out.new.items ≡ out.old.items)) }
    {
        match self.looking_label() {
            Some(label) => self.refuse(label, state, out),
            None => {
                self.end_here();
                Ok(())
            }
        }
    }

    // The label of the exchange, while a verifier is looked up for it.
    fn looking_label(&self) -> Option<u32>
        ensures { result ≡ looking_label self.now.stage }
    {
        match &self.stage {
            LoginStage::Begun {
                label,
                role: _,
                first: _,
            } => Some(*label),
            LoginStage::Mocked {
                label,
                role: _,
                first: _,
                mock: _,
            } => Some(*label),
            LoginStage::Answered {
                label,
                role: _,
                exchange: _,
                last: _,
            } => Some(*label),
            _ => None,
        }
    }

    // It was looked up for an exchange that wanted nothing looked up.
    fn end_here(&mut self)
        ensures { StandsSo self.old.place self.old.drawn TheStage.Ended (TheWant.End false) self.new }
    {
        self.stand(LoginStage::Ended, Want::End { late: false });
    }

    // This was found.
    fn take_stored(&mut self, stored: Option<Text>, out: &mut Vec<u8>) -> Result<(), AllocError>
        ensures ok { OnOk result ((said : List ℕ) × FindsAt self.old.stage self.old.place self.old.drawn stored said self.new
            × (out.new.items ≡ out.old.items ++ said)) }
        ensures err { OnErr result (IsUnsaid self.old.place self.old.drawn self.new × (out.new.items ≡ out.old.items)) }
    {
        match mem::replace(&mut self.stage, LoginStage::Ended) {
            LoginStage::Begun { label, role, first } => {
                self.make_mock(label, role, first, stored, out)
            }
            LoginStage::Mocked {
                label,
                role,
                first,
                mock,
            } => self.challenge(label, role, &first, &mock, stored, out),
            LoginStage::Answered {
                label,
                role,
                exchange,
                last,
            } => self.let_in(label, role, &exchange, &last, stored, out),
            _ => {
                self.end_here();
                Ok(())
            }
        }
    }

    // The mock is made of the verifier of its role. Without one nobody is let in.
    fn make_mock(
        &mut self,
        label: u32,
        role: Text,
        first: ExchangeMessage,
        stored: Option<Text>,
        out: &mut Vec<u8>,
    ) -> Result<(), AllocError>
        ensures ok { OnOk result ((said : List ℕ) × MakesMock self.old.place self.old.drawn label role first stored said self.new
            × (out.new.items ≡ out.old.items ++ said)) }
        ensures err { OnErr result (IsUnsaid self.old.place self.old.drawn self.new × (out.new.items ≡ out.old.items)) }
    {
        match mock_in(self.alloc, stored)? {
            Some(mock) => self.take_mock(label, role, first, mock),
            None => self.refuse(label, SqlState::InvalidAuthorization, out),
        }
    }

    // The mock is there, and the verifier of the client's role is looked up.
    fn take_mock(
        &mut self,
        label: u32,
        role: Text,
        first: ExchangeMessage,
        mock: Mock,
    ) -> Result<(), AllocError>
        ensures ok { OnOk result (StandsSo self.old.place self.old.drawn (TheStage.Mocked label role first mock) (verifier_of self.old.place role) self.new) }
        ensures err { OnErr result (IsUnsaid self.old.place self.old.drawn self.new) }
    {
        let want = self.look_up(&role)?;
        let mocked = LoginStage::Mocked {
            label,
            role,
            first,
            mock,
        };
        self.stand(mocked, want);
        Ok(())
    }

    // The exchange begins with what is stored for the role, and the client is challenged.
    fn challenge(
        &mut self,
        label: u32,
        role: Text,
        first: &ExchangeMessage,
        mock: &Mock,
        stored: Option<Text>,
        out: &mut Vec<u8>,
    ) -> Result<(), AllocError>
        ensures ok { OnOk result ((said : List ℕ) × Challenges self.old.place self.old.drawn label role first.now mock.now stored said self.new
            × (out.new.items ≡ out.old.items ++ said)) }
        ensures err { OnErr result (IsUnsaid self.old.place self.old.drawn self.new × (out.new.items ≡ out.old.items)) }
    {
        match self.begun(&role, first, mock, stored)? {
            Some(exchange) => self.take_exchange(label, role, exchange, out),
            None => self.refuse(label, SqlState::InvalidAuthorization, out),
        }
    }

    // The exchange that a first message begins, if it is one.
    fn begun(
        &self,
        role: &Text,
        first: &ExchangeMessage,
        mock: &Mock,
        stored: Option<Text>,
    ) -> Result<Option<Exchange>, AllocError>
        ensures { IfOk result (λ it. MatchOption it (IsNoFirst first.now)
            (λ x. BeginsExchange mock.now role.now stored self.now.drawn first.now x)) }
    {
        let role = role.as_str().as_bytes();
        let stored = lent_text(&stored);
        Exchange::begin(
            self.alloc,
            mock,
            role,
            stored,
            &self.drawn,
            first.as_slice(),
        )
    }

    // The exchange has begun, and the client is challenged.
    fn take_exchange(
        &mut self,
        label: u32,
        role: Text,
        exchange: Exchange,
        out: &mut Vec<u8>,
    ) -> Result<(), AllocError>
        ensures ok { OnOk result (StandsSo self.old.place self.old.drawn (TheStage.Challenged label role exchange) TheWant.Message self.new
            × (out.new.items ≡ out.old.items ++ message_frame label (challenge exchange))) }
        ensures err { OnErr result (IsUnsaid self.old.place self.old.drawn self.new × (out.new.items ≡ out.old.items)) }
    {
        let message = exchange.challenge(self.alloc)?;
        say_message(self.alloc, label, &message, out)?;
        let challenged = LoginStage::Challenged {
            label,
            role,
            exchange,
        };
        self.stand(challenged, Want::Message);
        Ok(())
    }

    // The client is let in if its last message shows the password of what is still stored.
    fn let_in(
        &mut self,
        label: u32,
        role: Text,
        exchange: &Exchange,
        last: &ExchangeMessage,
        stored: Option<Text>,
        out: &mut Vec<u8>,
    ) -> Result<(), AllocError>
        ensures ok { OnOk result ((said : List ℕ) × AnswersLast self.old.place self.old.drawn label role exchange.now last.now stored said self.new
            × (out.new.items ≡ out.old.items ++ said)) }
        ensures err { OnErr result (IsUnsaid self.old.place self.old.drawn self.new × (out.new.items ≡ out.old.items)) }
    {
        match shown_by(self.alloc, exchange, last, stored)? {
            Some(shown) => self.admit(label, role, shown, out),
            None => self.refuse(label, SqlState::InvalidAuthorization, out),
        }
    }

    // The client has shown the password.
    fn admit(
        &mut self,
        label: u32,
        role: Text,
        shown: Shown,
        out: &mut Vec<u8>,
    ) -> Result<(), AllocError>
        ensures ok { OnOk result (StandsSo self.old.place self.old.drawn (TheStage.Admitted role shown.text) (verifier_of self.old.place role) self.new
            × (out.new.items ≡ out.old.items ++ message_frame label shown.message.items)) }
        ensures err { OnErr result (IsUnsaid self.old.place self.old.drawn self.new × (out.new.items ≡ out.old.items)) }
    {
        let want = self.look_up(&role)?;
        let Shown { text, message } = shown;
        say_message(self.alloc, label, &message, out)?;
        self.stand(LoginStage::Admitted { role, text }, want);
        Ok(())
    }
}

// The mock of a verifier, if one is stored.
fn mock_in(alloc: Global, stored: Option<Text>) -> Result<Option<Mock>, AllocError>
    ensures { IfOk result (λ it. MatchOption it (StoresNone stored) (λ mock. IsMockOf stored mock)) }
{
    let Some(text) = stored else {
        return Ok(None);
    };
    match Verifier::from_text(alloc, text.as_str())? {
        Some(verifier) => Ok(Some(Mock::of_verifier(&verifier))),
        None => Ok(None),
    }
}

// What the last message of an exchange shows, if it shows anything.
fn shown_by(
    alloc: Global,
    exchange: &Exchange,
    last: &ExchangeMessage,
    stored: Option<Text>,
) -> Result<Option<Shown>, AllocError>
    ensures { IfOk result (λ it. MatchOption it (IsRefusedLogin exchange.now last.now stored)
        (λ shown. IsShownLogin exchange.now last.now stored shown.text
        × (shown.message.items ≡ server_final exchange.now.verifier (messages exchange.now)))) }
{
    exchange.finish(alloc, last.as_slice(), lent_text(&stored))
}

// A text, lent, if there is one.
fn lent_text(stored: &Option<Text>) -> Option<&Text>
    ensures { option_copied result ≡ stored.now }
{
    match stored {
        Some(text) => Some(text),
        None => None,
    }
}
