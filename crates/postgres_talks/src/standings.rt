//! What a connection makes of how its block stands.

ghost use Rattle.std.specs.Prelude.{◌≡◌, OnOk};
ghost use Rattle.postgres_talks.specs.Moments.{after_closing, after_emptying, after_failed, after_judging, after_refusing, after_row_told, after_settling, after_standing};
ghost use Rattle.postgres_talks.specs.Portals.{held_in};

use crate::blocks::{skipping, spares, spoiled_by, still_reads};
use crate::fault::TalkFault;
use crate::moment::{TalkBlock, TalkMoment, TalkStage};
use crate::portals::holds;
use sql_types::state::SqlState;
use std::alloc::{AllocError, Global};
use talks::want::BlockStanding;

impl TalkMoment {
    // Takes in how its block stands.
    pub(crate) fn take_standing(
        &mut self,
        alloc: Global,
        standing: Option<BlockStanding>,
    ) -> Result<(), AllocError>
        ensures { OnOk result (self.new ≡ after_standing self.old.stage self.old standing) }
    {
        match self.stage {
            TalkStage::Refusing(fault) => self.take_refusing(alloc, fault, standing),
            TalkStage::Judging(fault) => self.take_judging(alloc, fault, standing),
            TalkStage::Settling(_) => self.take_settling(alloc, standing),
            TalkStage::Emptying => self.take_emptying(alloc, standing),
            TalkStage::Resuming => self.take_resuming(alloc, standing),
            TalkStage::TellingRow(_, _) => self.take_row_told(alloc, standing),
            TalkStage::TellingNothing(_) => {
                self.take_closing(standing);
                Ok(())
            }
            TalkStage::Closing => {
                self.take_closing(standing);
                Ok(())
            }
            _ => {
                self.end();
                Ok(())
            }
        }
    }

    // A block that an error leaves open is failed by a text that is no statement.
    fn take_refusing(
        &mut self,
        alloc: Global,
        fault: TalkFault,
        standing: Option<BlockStanding>,
    ) -> Result<(), AllocError>
        ensures { OnOk result (self.new ≡ after_refusing fault self.old standing) }
    {
        match standing {
            None => {
                self.end();
                Ok(())
            }
            Some(BlockStanding::Inside) if !spares(fault) => {
                self.ask(alloc, TalkStage::Failing(fault), "")
            }
            Some(_) => self.fail(alloc, fault),
        }
    }

    fn take_judging(
        &mut self,
        alloc: Global,
        fault: TalkFault,
        standing: Option<BlockStanding>,
    ) -> Result<(), AllocError>
        ensures { OnOk result (self.new ≡ after_judging fault self.old standing) }
    {
        match standing {
            None | Some(BlockStanding::Inside) => {
                self.end();
                Ok(())
            }
            Some(_) => self.fail(alloc, fault),
        }
    }

    // A text was answered without the machine, or is refused in a block that has failed.
    fn take_settling(
        &mut self,
        alloc: Global,
        standing: Option<BlockStanding>,
    ) -> Result<(), AllocError>
        ensures { OnOk result (self.new ≡ after_settling self.old standing) }
    {
        match standing {
            None => {
                self.end();
                Ok(())
            }
            Some(BlockStanding::Failed) => self.fail(
                alloc,
                TalkFault::Refused(SqlState::InFailedTransaction),
            ),
            Some(_) => self.go_on(alloc),
        }
    }

    // The column of a text was told that is answered without the machine.
    fn take_row_told(
        &mut self,
        alloc: Global,
        standing: Option<BlockStanding>,
    ) -> Result<(), AllocError>
        ensures { OnOk result (self.new ≡ after_row_told self.old standing) }
    {
        match standing {
            None => {
                self.end();
                Ok(())
            }
            Some(BlockStanding::Failed) => self.fail(
                alloc,
                TalkFault::Refused(SqlState::InFailedTransaction),
            ),
            Some(_) => {
                self.listen();
                Ok(())
            }
        }
    }

    fn take_emptying(
        &mut self,
        alloc: Global,
        standing: Option<BlockStanding>,
    ) -> Result<(), AllocError>
        ensures { OnOk result (self.new ≡ after_emptying self.old standing) }
    {
        match standing {
            None => {
                self.end();
                Ok(())
            }
            Some(_) => self.go_on(alloc),
        }
    }

    // An error was said, and what is left of the message is not carried out.
    fn fail(&mut self, alloc: Global, fault: TalkFault) -> Result<(), AllocError>
        ensures { OnOk result (self.new ≡ after_failed self.old.block fault self.old) }
    {
        self.left.clear();
        self.mode = skipping(self.mode);
        self.portal = None;
        if matches!(self.block, TalkBlock::Implicit) {
            self.portals.clear();
            self.read_only = false;
            return self.ask(alloc, TalkStage::RollingBack, "ROLLBACK");
        }
        self.block = spoiled_by(spares(fault), self.block);
        self.read_only = still_reads(self.block, self.read_only);
        self.hold_portals();
        self.listen();
        Ok(())
    }

    // Keeps the portals of a block that is open, and no others.
    pub(crate) fn hold_portals(&mut self)
        ensures { self.new ≡ record self.old { portals = held_in self.old.block self.old.portals } }
    {
        if !holds(self.block) {
            self.portals.clear();
        }
    }

    fn take_closing(&mut self, standing: Option<BlockStanding>)
        ensures { self.new ≡ after_closing self.old standing }
    {
        match standing {
            None => self.end(),
            Some(_) => self.listen(),
        }
    }
}
