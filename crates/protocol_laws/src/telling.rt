//! Laws of what conversations tell of that with which they began: none of them goes alike with one that began otherwise.

ghost use Rattle.std.specs.Prelude.{◌≡◌, ◌<◌, ◌^◌, ℕ, List, Option};
ghost use Rattle.base64.specs.GeneralPurpose.{IsBytes};
ghost use Rattle.scram.specs.Exchanges.{BeginsExchange, TheExchange, challenge};
ghost use Rattle.scram.specs.Mocks.{TheMock};
ghost use Rattle.postgres_talks.specs.Moments.{greeting};
ghost use Rattle.postgres_talks.specs.Sayings.{said_bytes};

/// A client of PostgreSQL's protocol is told the number of its process once its session is open: clients that are told
/// others then are said other bytes.
pub fn processes_are_told()
    ensures { (process other : ℕ) → process < 2 ^ 32 → other < 2 ^ 32 → said_bytes (greeting process) ≡ said_bytes (greeting other) → process ≡ other }
{}

/// What was drawn for an exchange is told to the client that begins it: exchanges of the same first message, for which
/// other bytes were drawn, are said other challenges.
pub fn what_was_drawn_is_told()
    ensures { (mock : TheMock) (role drawn other first : List ℕ) (stored : Option (List ℕ)) (x y : TheExchange) → IsBytes drawn → IsBytes other
        → BeginsExchange mock role stored drawn first x → BeginsExchange mock role stored other first y → challenge x ≡ challenge y → drawn ≡ other }
{}
