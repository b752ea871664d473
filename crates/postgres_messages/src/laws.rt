//! What holds of all bytes, whatever the program does.

ghost use Rattle.std.specs.Prelude.{◌≡◌, ◌<◌, ◌≤◌, ◌+◌, ◌^◌, ◌++◌, ℕ, List, length};
ghost use Rattle.postgres_messages.specs.declared.front.StreamFront.TheVariants.{Bad, Nothing, Whole};
ghost use Rattle.postgres_messages.specs.Front.{message_front, start_front};
ghost use Rattle.postgres_messages.specs.Frontend.{SpellsMessage, TheMessage};
ghost use Rattle.postgres_messages.specs.Start.{SpellsStart, TheStart};

/// What follows changes no whole message and mends no bad one, so a stream is the same messages however it is cut. A whole
/// message has at least five bytes, which are there, and at most one more than the limit. What waits for the rest of a message is
/// no longer than the limit.
pub fn fronts()
    ensures front_more { (limit : ℕ) (bytes more : List ℕ) (n : ℕ)
        → message_front limit bytes ≡ Whole n → message_front limit (bytes ++ more) ≡ Whole n }
    ensures bad_more { (limit : ℕ) (bytes more : List ℕ)
        → message_front limit bytes ≡ Bad → message_front limit (bytes ++ more) ≡ Bad }
    ensures within { (limit : ℕ) (bytes : List ℕ) (n : ℕ) → message_front limit bytes ≡ Whole n
        → (5 ≤ n) × (n ≤ length bytes) × (n ≤ 1 + limit) }
    ensures kept { (limit : ℕ) (bytes : List ℕ) → 4 ≤ limit → message_front limit bytes ≡ Nothing
        → length bytes ≤ limit }
{}

/// The same of packets of the start: at least eight bytes, and at most 10,000.
pub fn start_fronts()
    ensures front_more { (bytes more : List ℕ) (n : ℕ)
        → start_front bytes ≡ Whole n → start_front (bytes ++ more) ≡ Whole n }
    ensures bad_more { (bytes more : List ℕ)
        → start_front bytes ≡ Bad → start_front (bytes ++ more) ≡ Bad }
    ensures within { (bytes : List ℕ) (n : ℕ) → start_front bytes ≡ Whole n
        → (8 ≤ n) × (n ≤ length bytes) × (n ≤ 10000) }
    ensures kept { (bytes : List ℕ) → start_front bytes ≡ Nothing → length bytes < 10000 }
{}

/// A message is found whatever follows it, where the limit lets it be so long; and no bytes are two messages.
pub fn messages()
    ensures found { (limit : ℕ) (bytes rest : List ℕ) (m : TheMessage) → SpellsMessage bytes m
        → limit < 2 ^ 32 → length bytes ≤ 1 + limit
        → message_front limit (bytes ++ rest) ≡ Whole (length bytes) }
    ensures one { (bytes : List ℕ) (m n : TheMessage) → SpellsMessage bytes m → SpellsMessage bytes n → m ≡ n }
{}

/// The same of packets of the start.
pub fn start_packets()
    ensures found { (bytes rest : List ℕ) (p : TheStart) → SpellsStart bytes p
        → length bytes ≤ 10000 → start_front (bytes ++ rest) ≡ Whole (length bytes) }
    ensures one { (bytes : List ℕ) (p q : TheStart) → SpellsStart bytes p → SpellsStart bytes q → p ≡ q }
{}
