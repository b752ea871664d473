//! How far the exchange of a conversation has come.

use password_talks::message::ExchangeMessage;
use scram::exchange::Exchange;
use scram::mock::Mock;
use sql_types::text::Text;

/// Who comes: its StartupMessage as it came, and the role that this names.
#[derive(Drop)]
pub struct Newcomer {
    pub start: ExchangeMessage,
    pub role: Text,
}

/// How far the exchange of a conversation has come.
#[derive(Drop)]
pub enum SaslStage {
    /// No StartupMessage was heard. So many requests for encryption were refused.
    Starting {
        answered: u32,
    },
    /// The StartupMessage was heard. The verifier of the role is looked up from which the mock is made.
    Begun {
        newcomer: Newcomer,
    },
    /// The mock was made. The verifier of the client's role is looked up.
    Mocked {
        newcomer: Newcomer,
        mock: Mock,
    },
    /// This is stored for the role, and the mechanism was offered.
    Offered {
        newcomer: Newcomer,
        mock: Mock,
        stored: Option<Text>,
    },
    /// The server's first message was said.
    Challenged {
        newcomer: Newcomer,
        exchange: Exchange,
    },
    /// The last message was heard. The verifier is looked up again.
    Answered {
        newcomer: Newcomer,
        exchange: Exchange,
        last: ExchangeMessage,
    },
    /// The password was shown of the verifier of this text.
    Admitted {
        newcomer: Newcomer,
        text: Text,
    },
    /// It has ended otherwise.
    Ended,
}
