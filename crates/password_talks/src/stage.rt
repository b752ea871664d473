//! How far the exchange of a conversation has come.

use crate::message::ExchangeMessage;
use scram::exchange::Exchange;
use scram::mock::Mock;
use sql_types::text::Text;

/// How far the exchange of a conversation has come. The label is that of its frames.
#[derive(Drop)]
pub enum LoginStage {
    /// Nothing was heard.
    Silent,
    /// A first message was heard. The verifier of the role is looked up from which the mock is made.
    Begun {
        label: u32,
        role: Text,
        first: ExchangeMessage,
    },
    /// The mock was made. The verifier of the client's role is looked up.
    Mocked {
        label: u32,
        role: Text,
        first: ExchangeMessage,
        mock: Mock,
    },
    /// The server's first message was said.
    Challenged {
        label: u32,
        role: Text,
        exchange: Exchange,
    },
    /// The last message was heard. The verifier is looked up again.
    Answered {
        label: u32,
        role: Text,
        exchange: Exchange,
        last: ExchangeMessage,
    },
    /// The password was shown of the verifier of this text.
    Admitted {
        role: Text,
        text: Text,
    },
    /// It has ended otherwise.
    Ended,
}
