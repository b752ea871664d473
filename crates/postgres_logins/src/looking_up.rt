//! What an exchange does once a verifier was looked up, and by the client's first message.

ghost use Rattle.std.specs.Prelude.{◌≡◌, ◌++◌, ℕ, List, IfOk, MatchOption, OnErr, OnOk};
ghost use Rattle.std.specs.Option.{option_copied};
ghost use Rattle.scram.specs.Exchanges.{BeginsExchange, IsNoFirst, IsRefusedLogin, IsShownLogin, challenge, messages};
ghost use Rattle.scram.specs.Messages.{server_final};
ghost use Rattle.scram.specs.Mocks.{StoresNone};
ghost use Rattle.talks.specs.declared.want.Want.{Want as TheWant};
ghost use Rattle.password_talks.specs.Logins.{IsMockOf, verifier_of};
ghost use Rattle.postgres_logins.specs.Logins.{AnswersFinal, OpensExchange, FailsIf, FindsStored, SaidNothing, LearnsIn, PreparesMock, Offers, StandsAs, is_looking};
ghost use Rattle.postgres_logins.specs.Sayings.{first_said, last_said};
ghost use Rattle.postgres_logins.specs.declared.stage.SaslStage.{SaslStage as TheStage};

use crate::entry_message::MECHANISM;
use crate::login::SaslLogin;
use crate::said::say;
use crate::stage::{Newcomer, SaslStage};
use password_talks::message::ExchangeMessage;
use postgres_messages::backend::BackendMessage;
use scram::exchange::{Exchange, Shown};
use scram::mock::Mock;
use scram_hashes::verifier::Verifier;
use sql_types::state::SqlState;
use sql_types::text::Text;
use std::alloc::{AllocError, Global};
use std::mem;
use talks::want::{Reply, Want};

impl SaslLogin {
    // Learns what it wanted.
    pub(crate) fn take_reply(&mut self, reply: Reply, out: &mut Vec<u8>) -> Result<(), AllocError>
        ensures ok { OnOk result ((said : List ℕ) × LearnsIn self.old.stage self.old.place self.old.drawn reply said self.new
            × (out.new.items ≡ out.old.items ++ said)) }
        ensures err { OnErr result (SaidNothing self.old.place self.old.drawn self.new × (out.new.items ≡ out.old.items)) }
    {
        match reply {
            Reply::Verifier(Ok(stored)) => self.take_stored(stored, out),
            Reply::Verifier(Err(state)) => self.fail(state, out),
            _ => {
                self.end_here();
                Ok(())
            }
        }
    }

    // It could not be looked up.
    fn fail(&mut self, state: SqlState, out: &mut Vec<u8>) -> Result<(), AllocError>
        ensures ok { OnOk result ((said : List ℕ) × FailsIf (is_looking self.old.stage) self.old.place self.old.drawn state said self.new
            × (out.new.items ≡ out.old.items ++ said)) }
        ensures err { OnErr result (SaidNothing self.old.place self.old.drawn self.new × (out.new.items ≡ out.old.items)) }
    {
        if self.is_looking() {
            return self.refuse_by(state, out);
        }
        self.end_here();
        Ok(())
    }

    // Whether a verifier is looked up for it.
    fn is_looking(&self) -> bool
        ensures { result ≡ is_looking self.now.stage }
    {
        match &self.stage {
            SaslStage::Begun { newcomer: _ } => true,
            SaslStage::Mocked {
                newcomer: _,
                mock: _,
            } => true,
            SaslStage::Answered {
                newcomer: _,
                exchange: _,
                last: _,
            } => true,
            _ => false,
        }
    }

    // This was found.
    fn take_stored(&mut self, stored: Option<Text>, out: &mut Vec<u8>) -> Result<(), AllocError>
        ensures ok { OnOk result ((said : List ℕ) × FindsStored self.old.stage self.old.place self.old.drawn stored said self.new
            × (out.new.items ≡ out.old.items ++ said)) }
        ensures err { OnErr result (SaidNothing self.old.place self.old.drawn self.new × (out.new.items ≡ out.old.items)) }
    {
        match mem::replace(&mut self.stage, SaslStage::Ended) {
            SaslStage::Begun { newcomer } => self.make_mock(newcomer, stored, out),
            SaslStage::Mocked { newcomer, mock } => self.offer(newcomer, mock, stored, out),
            SaslStage::Answered {
                newcomer,
                exchange,
                last,
            } => self.let_in(newcomer, &exchange, &last, stored, out),
            _ => {
                self.end_here();
                Ok(())
            }
        }
    }

    // The mock is made of the verifier of its role. Without one nobody is let in.
    fn make_mock(
        &mut self,
        newcomer: Newcomer,
        stored: Option<Text>,
        out: &mut Vec<u8>,
    ) -> Result<(), AllocError>
        ensures ok { OnOk result ((said : List ℕ) × PreparesMock self.old.place self.old.drawn newcomer stored said self.new
            × (out.new.items ≡ out.old.items ++ said)) }
        ensures err { OnErr result (SaidNothing self.old.place self.old.drawn self.new × (out.new.items ≡ out.old.items)) }
    {
        match mock_in(self.alloc, stored)? {
            Some(mock) => self.take_mock(newcomer, mock),
            None => self.refuse(&newcomer.role, out),
        }
    }

    // The mock is there, and the verifier of the client's role is looked up.
    fn take_mock(&mut self, newcomer: Newcomer, mock: Mock) -> Result<(), AllocError>
        ensures ok { OnOk result (StandsAs self.old.place self.old.drawn (TheStage.Mocked newcomer mock) (verifier_of self.old.place newcomer.role) self.new) }
        ensures err { OnErr result (SaidNothing self.old.place self.old.drawn self.new) }
    {
        let want = self.look_up(&newcomer.role)?;
        self.stand(SaslStage::Mocked { newcomer, mock }, want);
        Ok(())
    }

    // The mechanism is offered, whatever is stored for the role.
    fn offer(
        &mut self,
        newcomer: Newcomer,
        mock: Mock,
        stored: Option<Text>,
        out: &mut Vec<u8>,
    ) -> Result<(), AllocError>
        ensures ok { OnOk result ((said : List ℕ) × Offers self.old.place self.old.drawn newcomer mock stored said self.new
            × (out.new.items ≡ out.old.items ++ said)) }
        ensures err { OnErr result (SaidNothing self.old.place self.old.drawn self.new × (out.new.items ≡ out.old.items)) }
    {
        say(
            self.alloc,
            &BackendMessage::AuthenticationSasl(MECHANISM),
            out,
        )?;
        let offered = SaslStage::Offered {
            newcomer,
            mock,
            stored,
        };
        self.stand(offered, Want::Message);
        Ok(())
    }

    // The exchange begins with what is stored for the role, and the client is challenged.
    pub(crate) fn challenge(
        &mut self,
        newcomer: Newcomer,
        mock: &Mock,
        stored: Option<Text>,
        first: &[u8],
        out: &mut Vec<u8>,
    ) -> Result<(), AllocError>
        ensures ok { OnOk result ((said : List ℕ) × OpensExchange self.old.place self.old.drawn newcomer mock.now stored first.now said self.new
            × (out.new.items ≡ out.old.items ++ said)) }
        ensures err { OnErr result (SaidNothing self.old.place self.old.drawn self.new × (out.new.items ≡ out.old.items)) }
    {
        match self.begun(&newcomer.role, mock, stored, first)? {
            Some(exchange) => self.take_exchange(newcomer, exchange, out),
            None => self.refuse(&newcomer.role, out),
        }
    }

    // The exchange that a first message begins, if it is one.
    fn begun(
        &self,
        role: &Text,
        mock: &Mock,
        stored: Option<Text>,
        first: &[u8],
    ) -> Result<Option<Exchange>, AllocError>
        ensures { IfOk result (λ it. MatchOption it (IsNoFirst first.now)
            (λ x. BeginsExchange mock.now role.now stored self.now.drawn first.now x)) }
    {
        let role = role.as_str().as_bytes();
        let stored = lent_text(&stored);
        Exchange::begin(self.alloc, mock, role, stored, &self.drawn, first)
    }

    // The exchange has begun, and the client is challenged.
    fn take_exchange(
        &mut self,
        newcomer: Newcomer,
        exchange: Exchange,
        out: &mut Vec<u8>,
    ) -> Result<(), AllocError>
        ensures ok { OnOk result (StandsAs self.old.place self.old.drawn (TheStage.Challenged newcomer exchange) TheWant.Message self.new
            × (out.new.items ≡ out.old.items ++ first_said (challenge exchange))) }
        ensures err { OnErr result (SaidNothing self.old.place self.old.drawn self.new × (out.new.items ≡ out.old.items)) }
    {
        let message = exchange.challenge(self.alloc)?;
        say(
            self.alloc,
            &BackendMessage::AuthenticationContinue(&message),
            out,
        )?;
        self.stand(SaslStage::Challenged { newcomer, exchange }, Want::Message);
        Ok(())
    }

    // The client is let in if its last message shows the password of what is still stored.
    fn let_in(
        &mut self,
        newcomer: Newcomer,
        exchange: &Exchange,
        last: &ExchangeMessage,
        stored: Option<Text>,
        out: &mut Vec<u8>,
    ) -> Result<(), AllocError>
        ensures ok { OnOk result ((said : List ℕ) × AnswersFinal self.old.place self.old.drawn newcomer exchange.now last.now stored said self.new
            × (out.new.items ≡ out.old.items ++ said)) }
        ensures err { OnErr result (SaidNothing self.old.place self.old.drawn self.new × (out.new.items ≡ out.old.items)) }
    {
        match shown_by(self.alloc, exchange, last, stored)? {
            Some(shown) => self.admit(newcomer, shown, out),
            None => self.refuse(&newcomer.role, out),
        }
    }

    // The client has shown the password.
    fn admit(
        &mut self,
        newcomer: Newcomer,
        shown: Shown,
        out: &mut Vec<u8>,
    ) -> Result<(), AllocError>
        ensures ok { OnOk result (StandsAs self.old.place self.old.drawn (TheStage.Admitted newcomer shown.text) (verifier_of self.old.place newcomer.role) self.new
            × (out.new.items ≡ out.old.items ++ last_said shown.message.items)) }
        ensures err { OnErr result (SaidNothing self.old.place self.old.drawn self.new × (out.new.items ≡ out.old.items)) }
    {
        let want = self.look_up(&newcomer.role)?;
        let Shown { text, message } = shown;
        say(
            self.alloc,
            &BackendMessage::AuthenticationFinal(&message),
            out,
        )?;
        self.stand(SaslStage::Admitted { newcomer, text }, want);
        Ok(())
    }
}

// The mock of a verifier, if one is stored.
fn mock_in(alloc: Global, stored: Option<Text>) -> Result<Option<Mock>, AllocError>
    ensures { IfOk result (λ it. MatchOption it (StoresNone stored) (λ mock. IsMockOf stored mock)) }
{
    let Some(text) = stored else {
        return Ok(None);
    };
    match Verifier::from_text(alloc, text.as_str())? {
        Some(verifier) => Ok(Some(Mock::of_verifier(&verifier))),
        None => Ok(None),
    }
}

// What the last message of an exchange shows, if it shows anything.
fn shown_by(
    alloc: Global,
    exchange: &Exchange,
    last: &ExchangeMessage,
    stored: Option<Text>,
) -> Result<Option<Shown>, AllocError>
    ensures { IfOk result (λ it. MatchOption it (IsRefusedLogin exchange.now last.now stored)
        (λ shown. IsShownLogin exchange.now last.now stored shown.text
        × (shown.message.items ≡ server_final exchange.now.verifier (messages exchange.now)))) }
{
    exchange.finish(alloc, last.as_slice(), lent_text(&stored))
}

// A text, lent, if there is one.
fn lent_text(stored: &Option<Text>) -> Option<&Text>
    ensures { option_copied result ≡ stored.now }
{
    match stored {
        Some(text) => Some(text),
        None => None,
    }
}
