//! Devices of a test, and what they hold.

use crate::journals::logged::LoggedDevice;
use journal_store::{SwitchFault, turn_off, turn_on};
use kv_store::OpenFault;
use sector_device::{Device, MemDevice, WriteProtected};
use std::alloc::Global;
use store::StoreFault;

/// How many pages a device has.
pub const PAGES: u32 = 64;

/// A device in memory whose sectors a store writes, and that knows what was written.
pub type WriteProtectedDevice = WriteProtected<LoggedDevice<MemDevice>>;

/// A device of a test. What it is made of is named where stores are opened on it, and nowhere else.
pub struct TestDevice {
    guarded: WriteProtectedDevice,
}

// Written and not derived: where a value is dropped this is one call, and not its parts one by one.
impl Drop for TestDevice {
    fn drop(self) {
        let TestDevice { guarded: _ } = self;
    }
}

impl TestDevice {
    /// A device of which nothing was written.
    pub fn new(memory: MemDevice) -> TestDevice {
        TestDevice::of(WriteProtected::new(LoggedDevice::new(memory)))
    }

    /// A device that is made of this one.
    pub fn of(guarded: WriteProtectedDevice) -> TestDevice {
        TestDevice { guarded }
    }

    /// What it is made of.
    pub fn into_guarded(self) -> WriteProtectedDevice {
        let TestDevice { guarded } = self;
        guarded
    }

    /// How often it has failed.
    pub fn failures(&self) -> u64 {
        self.guarded.failures()
    }

    /// Lets something happen to it.
    pub fn prepare(&self, event: DeviceEvent) {
        event.prepare(&self.guarded.device().device);
    }
}

/// What is to happen to a device.
#[derive(Clone, Copy)]
pub enum DeviceEvent {
    /// It stops after so many writes.
    StatementError(u64),
    /// A call fails that comes after so many, and does nothing.
    Failure(u64),
    /// A call fails that comes after so many, and is carried out all the same.
    LateFailure(u64),
}

impl DeviceEvent {
    /// Lets it happen to a device in memory.
    pub fn prepare(self, memory: &MemDevice) {
        match self {
            DeviceEvent::StatementError(writes) => memory.stop_after(writes),
            DeviceEvent::Failure(calls) => memory.fail_call(calls),
            DeviceEvent::LateFailure(calls) => memory.fail_call_late(calls),
        }
    }
}

/// Whether a journal is turned on or off.
#[derive(Clone, Copy)]
pub enum JournalSwitch {
    On,
    Off,
}

/// What came of a journal that is turned on or off: the number of the store, or why it was refused.
#[derive(Clone, Copy)]
pub enum SwitchAnswer {
    Number(u64),
    Device,
    Memory,
    Other,
}

impl SwitchAnswer {
    /// The number, where it is one.
    pub fn number(self) -> Option<u64> {
        match self {
            SwitchAnswer::Number(number) => Some(number),
            SwitchAnswer::Device | SwitchAnswer::Memory | SwitchAnswer::Other => None,
        }
    }
}

impl JournalSwitch {
    /// Whether it is turned on.
    pub fn is_on(self) -> bool {
        match self {
            JournalSwitch::On => true,
            JournalSwitch::Off => false,
        }
    }

    /// Turns the journal of the store on a device on or off, and hands the device back.
    pub fn turn(self, alloc: Global, device: TestDevice) -> (TestDevice, SwitchAnswer) {
        let (guarded, answer) = self.turned(alloc, device.into_guarded());
        (TestDevice::of(guarded), switch_answer(answer))
    }

    /// What turning it on or off answers.
    fn turned(
        self,
        alloc: Global,
        device: WriteProtectedDevice,
    ) -> (WriteProtectedDevice, Result<u64, SwitchFault>) {
        match self {
            JournalSwitch::On => turn_on(alloc, device),
            JournalSwitch::Off => turn_off(alloc, device),
        }
    }
}

/// What an answer says.
fn switch_answer(answer: Result<u64, SwitchFault>) -> SwitchAnswer {
    match answer {
        Ok(number) => SwitchAnswer::Number(number),
        Err(SwitchFault::Refused(StoreFault::Device)) => SwitchAnswer::Device,
        Err(SwitchFault::Unopened(OpenFault::Device)) => SwitchAnswer::Device,
        Err(SwitchFault::Refused(StoreFault::Memory)) => SwitchAnswer::Memory,
        Err(SwitchFault::Unopened(OpenFault::Memory)) => SwitchAnswer::Memory,
        Err(_) => SwitchAnswer::Other,
    }
}
