//! What holds of all streams of frames, whatever the program does.

ghost use Rattle.std.specs.Prelude.{◌≡◌, ◌<◌, ◌≤◌, ◌++◌, ℕ, Bool, true, false, List, [], ◌∷◌, length, take, drop, slice_index, codes};
ghost use Rattle.sql_types.specs.declared.value.Value.TheVariants.{Null, Text, Bool as Boolean};
ghost use Rattle.sql_types.specs.declared.event.Event.{Event};
ghost use Rattle.sql_types.specs.declared.event.Event.TheVariants.{Open, Statement, Close};
ghost use Rattle.wire.specs.Frame.{next_frame, incomplete, bad, whole, event_frame, frame, HasFrame};
ghost use Rattle.wire.specs.AnswerText.{field_text, row_text};
ghost use Rattle.wire.specs.AnswerFrames.{answer_frames};
ghost use Rattle.wire.specs.Stream.{Spells, Reading};

/// A stream has exactly one reading, and nothing that follows a bad frame changes its events.
pub fn one_reading()
    ensures some { (bytes : List ℕ) → Reading bytes }
    ensures one { (bytes : List ℕ) (es fs : List Event) (b c : Bool) (rest other : List ℕ)
        → Spells bytes es b rest → Spells bytes fs c other
        → (es ≡ fs) × (b ≡ c) × (rest ≡ other) }
    ensures ended { (bytes more : List ℕ) (es : List Event) (rest : List ℕ)
        → Spells bytes es true rest → Spells (bytes ++ more) es true (rest ++ more) }
{}

/// The frame of an event is read as that event, whatever follows it; and bytes at whose front an
/// event is read begin with that event's frame.
pub fn whole_frames()
    ensures read { (e : Event) (rest : List ℕ) → HasFrame e
        → next_frame (event_frame e ++ rest) ≡ whole e (length (event_frame e)) }
    ensures only { (e : Event) (size : ℕ) (bytes : List ℕ)
        → ((i : ℕ) → slice_index bytes i < 256) → next_frame bytes ≡ whole e size
        → HasFrame e × (bytes ≡ event_frame e ++ drop size bytes)
        × (size ≡ length (event_frame e)) }
{}

/// A whole frame at the front of some bytes is within them, and its bytes alone are read as it. It
/// stands there whatever follows them, and so does a bad frame.
pub fn fronts_stay()
    ensures whole { (e : Event) (size : ℕ) (bytes more : List ℕ) → next_frame bytes ≡ whole e size
        → (size ≤ length bytes) × (next_frame (bytes ++ more) ≡ whole e size) }
    ensures alone { (e : Event) (size : ℕ) (bytes : List ℕ) → next_frame bytes ≡ whole e size
        → next_frame (take size bytes) ≡ whole e size }
    ensures bad { (bytes more : List ℕ) → next_frame bytes ≡ bad
        → next_frame (bytes ++ more) ≡ bad }
{}

/// Frames byte by byte: an `open` of session 7 for `root`, its answer, and the answer to a bad frame.
#[tactic(auto, unfolding(crate::specs::AnswerFrames::answer_frames))]
pub fn frame_bytes()
    ensures open { event_frame (Open 7 (codes "root"))
        ≡ 0 ∷ 0 ∷ 0 ∷ 9 ∷ 1 ∷ 0 ∷ 0 ∷ 0 ∷ 7 ∷ codes "root" }
    ensures statement { event_frame (Statement 7 (codes "SELECT 1"))
        ≡ 0 ∷ 0 ∷ 0 ∷ 13 ∷ 2 ∷ 0 ∷ 0 ∷ 0 ∷ 7 ∷ codes "SELECT 1" }
    ensures close { event_frame (Close 258) ≡ 0 ∷ 0 ∷ 0 ∷ 5 ∷ 3 ∷ 0 ∷ 0 ∷ 1 ∷ 2 ∷ [] }
    ensures answer { answer_frames 7 (codes "ok OPEN\n")
        ≡ 0 ∷ 0 ∷ 0 ∷ 13 ∷ 4 ∷ 0 ∷ 0 ∷ 0 ∷ 7 ∷ codes "ok OPEN\n" }
    ensures refused { answer_frames 0 (codes "refused 08P01\n")
        ≡ 0 ∷ 0 ∷ 0 ∷ 19 ∷ 4 ∷ 0 ∷ 0 ∷ 0 ∷ 0 ∷ codes "refused 08P01\n" }
{}

/// Bad frames byte by byte: a length out of range is bad at its four bytes; a frame of another kind,
/// a payload of `close` and one that is no UTF-8 are bad at their last byte, and a frame is
/// incomplete before it.
#[tactic(auto, unfolding(crate::specs::Frame::next_frame))]
pub fn bad_frames()
    ensures short { next_frame (0 ∷ 0 ∷ 0 ∷ 4 ∷ []) ≡ bad }
    ensures long { next_frame (0 ∷ 2 ∷ 0 ∷ 1 ∷ []) ≡ bad }
    ensures longest { next_frame (255 ∷ 255 ∷ 255 ∷ 255 ∷ []) ≡ bad }
    ensures kind { next_frame (0 ∷ 0 ∷ 0 ∷ 5 ∷ 4 ∷ 0 ∷ 0 ∷ 0 ∷ 7 ∷ []) ≡ bad }
    ensures close { next_frame (0 ∷ 0 ∷ 0 ∷ 6 ∷ 3 ∷ 0 ∷ 0 ∷ 0 ∷ 7 ∷ 65 ∷ []) ≡ bad }
    ensures text { next_frame (0 ∷ 0 ∷ 0 ∷ 6 ∷ 1 ∷ 0 ∷ 0 ∷ 0 ∷ 1 ∷ 255 ∷ []) ≡ bad }
    ensures front { next_frame (0 ∷ 0 ∷ 0 ∷ []) ≡ incomplete }
    ensures cut { next_frame (0 ∷ 0 ∷ 0 ∷ 5 ∷ 4 ∷ 0 ∷ 0 ∷ 0 ∷ []) ≡ incomplete }
    ensures widest { next_frame (0 ∷ 2 ∷ 0 ∷ 0 ∷ []) ≡ incomplete }
{}

/// An answer of up to 131,067 bytes is one frame. Of a longer one the first frame is full, with so many bytes,
/// and what follows is framed as it would be by itself.
pub fn long_answers()
    ensures one { (session : ℕ) (text : List ℕ) → length text ≤ 131067
        → answer_frames session text ≡ frame 4 session text }
    ensures more { (session : ℕ) (text : List ℕ) → 131067 < length text
        → answer_frames session text ≡ frame 4 session (take 131067 text)
        ++ answer_frames session (drop 131067 text) }
{}

/// Fields byte by byte: a backslash, a tab, a newline and a carriage return after a backslash, each other
/// byte as it is; null and booleans; and a row of two.
pub fn field_bytes()
    ensures escapes { field_text (Text (92 ∷ 9 ∷ 10 ∷ 13 ∷ 0 ∷ 65 ∷ 127 ∷ []))
        ≡ 92 ∷ 92 ∷ 92 ∷ 116 ∷ 92 ∷ 110 ∷ 92 ∷ 114 ∷ 0 ∷ 65 ∷ 127 ∷ [] }
    ensures null { field_text Null ≡ 92 ∷ 78 ∷ [] }
    ensures yes { field_text (Boolean true) ≡ 116 ∷ [] }
    ensures no { field_text (Boolean false) ≡ 102 ∷ [] }
    ensures row { row_text (Null ∷ Text (65 ∷ []) ∷ []) ≡ 92 ∷ 78 ∷ 9 ∷ 65 ∷ 10 ∷ [] }
{}
