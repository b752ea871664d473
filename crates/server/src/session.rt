//! An open session, and the block that it may be in.

ghost use Rattle.std.specs.Prelude.{◌≡◌};
ghost use Rattle.abstract_database.specs.Machine.{Outside};
ghost use Rattle.server.specs.Session.{after_block_change, block_state};

use sql_types::name::Name;
use std::marker::Model;
use std::mem;

/// Whether a session is in a block, and the set role that it had at the block's BEGIN, which comes
/// back with a ROLLBACK (SQL:2016 Foundation, 4.41; PostgreSQL manual, BEGIN and SET ROLE).
#[derive(Drop)]
pub enum Block {
    Outside,
    Inside(Name),
    /// A statement of the block was refused: only COMMIT and ROLLBACK are answered.
    Failed(Name),
}

/// Whether an open session is in a block, and whether that has failed.
#[derive(Clone, Copy, PartialEq, Eq)]
pub enum BlockState {
    Outside,
    Inside,
    /// A statement of the block was refused: only COMMIT and ROLLBACK are answered.
    Failed,
}

/// An open session: the role that it was opened for, the role that it has set, and its block.
/// Contracts see it as a session of the session machine.
pub struct Session {
    pub login: Name,
    pub role: Name,
    pub block: Block,
}

// Written and not derived: where a value is dropped this is one call, and not its parts one by one.
impl Drop for Session {
    fn drop(self) {
        let Session {
            login: _,
            role: _,
            block: _,
        } = self;
    }
}

/// What may become of a session's block without memory.
#[derive(Clone, Copy)]
pub enum BlockChange {
    /// The block is failed.
    Fail,
    /// The block ends, with the role that is set.
    Leave,
    /// The block ends, with the role that was set at its BEGIN.
    RollBack,
}

impl Model for Session {
    ghost use Rattle.abstract_database.specs.Machine.{Session as TheSession};
    ghost use Rattle.server.specs.Session.{block_of};

    ghost Value = { TheSession };

    ghost view = { λ s. record { login = s.login; role = s.role; block = block_of s.block } };
}

impl Session {
    /// A session for a login role, with this role set and in no block.
    pub fn new(login: Name, role: Name) -> Session
        ensures { result ≡ record { login = login; role = role; block = Outside } }
    {
        Session {
            login,
            role,
            block: Block::Outside,
        }
    }

    /// The set role, which `current_user` names.
    pub fn current_user(&self) -> &str
        ensures { result.now ≡ self.now.role }
    {
        self.role.as_str()
    }

    /// The login role, which `session_user` names.
    pub fn session_user(&self) -> &str
        ensures { result.now ≡ self.now.login }
    {
        self.login.as_str()
    }

    /// Whether the session is in a block, and whether that has failed.
    pub fn block_state(&self) -> BlockState
        ensures { result ≡ block_state self.now.block }
    {
        match &self.block {
            Block::Outside => BlockState::Outside,
            Block::Inside(_) => BlockState::Inside,
            Block::Failed(_) => BlockState::Failed,
        }
    }

    /// Changes the block, if the session is in one.
    pub fn change_block(&mut self, change: BlockChange)
        ensures { self.new ≡ after_block_change change self.old }
    {
        let role = match mem::replace(&mut self.block, Block::Outside) {
            Block::Outside => return,
            Block::Inside(role) => role,
            Block::Failed(role) => role,
        };
        match change {
            BlockChange::Fail => self.block = Block::Failed(role),
            BlockChange::Leave => {}
            BlockChange::RollBack => self.role = role,
        }
    }
}
