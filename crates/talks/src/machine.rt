//! What answers many conversations, one after the other.

ghost use Rattle.std.specs.Prelude.{◌≡◌, ◌⊎◌, true, false, ℕ, List, Bool, Option};
ghost use Rattle.talks.specs.Wants.{WantsStep, WantsQuestion, FitsWant, OpensSession, TellsOpened, RefusesMemory, TellsWhether, HasLostRole};
ghost use Rattle.talks.specs.declared.want.Want.{Want as TheWant};
ghost use Rattle.talks.specs.declared.want.Reply.{Reply as TheReply};

use crate::want::{Reply, Want};
use std::alloc::AllocError;

/// What answers events and questions of clients, which number their sessions each for itself.
pub trait Machine {
    /// What a step that a client wants is answered, and where it leads.
    ghost Steps: { Self → ℕ → TheWant → TheReply → Self → Type 0 };

    /// What a question of a client is told, which changes nothing but that the machine may stop.
    ghost Tells: { Self → ℕ → TheWant → TheReply → Self → Type 0 };

    /// What the end of a session that a client has left open does.
    ghost Closes: { Self → ℕ → Self → Type 0 };

    /// What it rests on holds, as that the device below keeps what was written.
    ghost IsSound: { Self → Type 0 };

    /// A moment of its clock.
    ghost moment: { Self → ℕ };

    /// It has stopped, and refuses every event.
    ghost stopped: { Self → Bool };

    /// A client has a session of this number open, which was opened for the role of this name.
    ghost Has: { Self → ℕ → ℕ → List ℕ → Type 0 };

    /// A session of another client holds the writer lock, for which this step would be refused.
    ghost IsLockedOut: { Self → ℕ → TheWant → Type 0 };

    /// None does.
    ghost IsFree: { Self → ℕ → TheWant → Type 0 };

    /// This step asks for the writer lock, and no session of another client holds it.
    ghost AsksForLock: { Self → ℕ → TheWant → Type 0 };

    /// It does not ask for it, or another client's does.
    ghost AsksForNone: { Self → ℕ → TheWant → Type 0 };

    /// The client whose session holds the writer lock; or none does, as in a machine that has stopped.
    ghost IsHeldBy: { Self → Option ℕ → Type 0 };

    /// An allocation may fail where it is looked what a step needs.
    ghost MayLackMemory: { Self → ℕ → TheWant → Type 0 };

    /// There is no role of this name.
    ghost LacksRole: { Self → List ℕ → Type 0 };

    /// Its last step may have dropped a role.
    ghost MayHaveDropped: { Self → Type 0 };

    /// Whether it has stopped.
    fn has_stopped(&self) -> bool
        ensures { result ≡ stopped self.now };

    /// Carries out what a client wants, and answers it.
    fn step(&mut self, client: u32, want: &Want) -> Reply
        requires { WantsStep want.now }
        ensures steps { Steps self.old client want.now result self.new }
        ensures fits { FitsWant want.now result };

    /// Answers a question of a client.
    fn ask(&mut self, client: u32, want: &Want) -> Reply
        requires { WantsQuestion want.now }
        ensures tells { Tells self.old client want.now result self.new }
        ensures fits { FitsWant want.now result };

    /// Refuses a step, since an allocation failed where it was looked what it needs.
    fn refuse_for_memory(&mut self, client: u32, want: &Want) -> Reply
        requires step { WantsStep want.now }
        requires may { MayLackMemory self.old client want.now }
        ensures steps { Steps self.old client want.now result self.new }
        ensures fits { FitsWant want.now result }
        ensures refused { RefusesMemory result };

    /// Whether a session of another client holds the writer lock, for which the step would be refused.
    /// The only error is that an allocation failed.
    fn is_locked_out(&self, client: u32, want: &Want) -> Result<bool, AllocError>
        requires { WantsStep want.now }
        ensures { TellsWhether (IsLockedOut self.now client want.now) (IsFree self.now client want.now) (MayLackMemory self.now client want.now) result };

    /// The client whose session holds the writer lock, or `None` where none does, as in a machine that
    /// has stopped.
    fn holder(&self) -> Option<u32>
        ensures { IsHeldBy self.now result };

    /// Whether the step asks for the writer lock, which no session of another client holds. The only
    /// error is that an allocation failed.
    fn asks_for_lock(&self, client: u32, want: &Want) -> Result<bool, AllocError>
        requires { WantsStep want.now }
        ensures { TellsWhether (AsksForLock self.now client want.now) (AsksForNone self.now client want.now) (MayLackMemory self.now client want.now) result };

    /// Whether its last step may have dropped a role, in the committed database.
    fn may_have_dropped(&self) -> bool
        ensures { result ≡ false → MayHaveDropped self.now → ⊥ };

    /// Whether there is no role of this name. A machine that has stopped lacks none.
    fn lacks_role(&self, role: &str) -> bool
        ensures lacks { result ≡ true → IsSound self.now → LacksRole self.now role.now }
        ensures has { result ≡ false → LacksRole self.now role.now → ⊥ };

    /// Whether a client has a session open for a role that is one no more. In a machine that has stopped
    /// none has.
    fn has_lost_role(&self, client: u32) -> bool
        ensures lost { result ≡ true → IsSound self.now → HasLostRole (Has self.now client) (LacksRole self.now) }
        ensures none { result ≡ false → HasLostRole (Has self.now client) (LacksRole self.now) → ⊥ };

    /// Closes the first session that a client has open, and tells whether there was one. A machine
    /// that has stopped closes none.
    fn close_next(&mut self, client: u32) -> bool
        ensures closed { result ≡ true → Closes self.old client self.new }
        ensures kept { result ≡ false → self.new ≡ self.old }
        ensures none { result ≡ false → (stopped self.old ≡ true) ⊎ ((n : ℕ) (login : List ℕ) → Has self.old client n login → ⊥) };

    /// What it rests on holds after a step as before.
    ghost steps_sound: { (old new : Self) (c : ℕ) (w : TheWant) (r : TheReply)
        → Steps old c w r new → IsSound old → IsSound new };

    /// So it does after a question.
    ghost tells_sound: { (old new : Self) (c : ℕ) (w : TheWant) (r : TheReply)
        → Tells old c w r new → IsSound old → IsSound new };

    /// And after the end of a session.
    ghost closes_sound: { (old new : Self) (c : ℕ) → Closes old c new → IsSound old → IsSound new };

    /// A session comes only by the step that opens it, for the client that wants it: it was not there
    /// before, and the step is answered as one that opened it.
    ghost steps_open: { (old new : Self) (c : ℕ) (w : TheWant) (r : TheReply) (d n : ℕ) (login : List ℕ)
        → IsSound old → Steps old c w r new → Has new d n login
        → Has old d n login ⊎ ((c ≡ d) × OpensSession w n login × TellsOpened r × (Has old d n login → ⊥)) };

    /// No question opens one.
    ghost tells_open: { (old new : Self) (c : ℕ) (w : TheWant) (r : TheReply) (d n : ℕ) (login : List ℕ)
        → IsSound old → Tells old c w r new → Has new d n login → Has old d n login };

    /// And no end of one.
    ghost closes_open: { (old new : Self) (c d n : ℕ) (login : List ℕ)
        → IsSound old → Closes old c new → Has new d n login → Has old d n login };

    /// A machine that has stopped stays so.
    ghost steps_stopped: { (old new : Self) (c : ℕ) (w : TheWant) (r : TheReply)
        → Steps old c w r new → stopped old ≡ true → stopped new ≡ true };

    /// Questions change nothing of that.
    ghost tells_stopped: { (old new : Self) (c : ℕ) (w : TheWant) (r : TheReply)
        → Tells old c w r new → stopped old ≡ true → stopped new ≡ true };

    /// Nor do ends of sessions.
    ghost closes_stopped: { (old new : Self) (c : ℕ) → Closes old c new → stopped old ≡ true → stopped new ≡ true };

    /// A machine that has stopped lacks no role.
    ghost lacks_running: { (machine : Self) (role : List ℕ) → LacksRole machine role → stopped machine ≡ false };

    /// A role that is lacked after a step was lacked before it, or the step may have dropped it.
    ghost steps_roles: { (old new : Self) (c : ℕ) (w : TheWant) (r : TheReply) (role : List ℕ)
        → IsSound old → Steps old c w r new → LacksRole new role → LacksRole old role ⊎ MayHaveDropped new };

    /// The end of a session makes no role, and what may have been dropped before it still may.
    ghost closes_roles: { (old new : Self) (c : ℕ) (role : List ℕ) → IsSound old → Closes old c new
        → LacksRole old role → MayHaveDropped old
        → (stopped new ≡ true) ⊎ (LacksRole new role × MayHaveDropped new) };
}
