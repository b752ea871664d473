//! A system in memory: devices and texts, each with its path, and a listener at a port.

ghost use Rattle.std.specs.Prelude.{◌≡◌};
ghost use Rattle.systems.specs.Memory.{memory_state};

use crate::access::Access;
use crate::draw::ZeroDraw;
use crate::entries::{
    Content, NamedContent, add, add_removed, exchange, find_content, is_named, is_open, rename_open,
};
use crate::fault::{InputFault, OpenPathFault, TextFault};
use crate::listener::MemListener;
use crate::place::{ListenPlace, SocketAccess};
use crate::system::System;
use channels::memory::MemChannel;
use sector_device::{FileFault, HistoryDevice, SystemCause, Unwatched, WriteProtected};
use std::alloc::Global;
use std::time::Duration;

/// What its entries name, the first of each name, and a listener at a port. Somebody else listens at
/// every other place. Its calls fail where a text is asked for that is a device, and where a place is
/// asked for that is not free; these failures are counted. Its standard input is empty, and it draws
/// zeros, which everybody foretells.
///
/// It is a `System` of devices that keep their history and have room for a journal.
#[derive(Drop)]
pub struct MemSystem<D> {
    alloc: Global,
    entries: Vec<NamedContent<D>>,
    port: u16,
    listener: Option<MemListener>,
    failures: u64,
}

impl<D: Drop> MemSystem<D> {
    ghost use Rattle.std.specs.Prelude.{◌≡◌, Some};
    ghost use Rattle.systems.specs.MemSystem.{entries_of, port_of, listener_of, system_state};

    /// A system of these entries, with this listener at this port. None of its calls has failed.
    pub fn new(
        alloc: Global,
        entries: Vec<NamedContent<D>>,
        port: u16,
        listener: MemListener,
    ) -> MemSystem<D>
        ensures entries { entries_of result ≡ entries.items }
        ensures port { port_of result ≡ port }
        ensures listener { listener_of result ≡ Some listener }
        ensures failures { (system_state result).failures ≡ 0 }
    {
        MemSystem {
            alloc,
            entries,
            port,
            listener: Some(listener),
            failures: 0,
        }
    }
}

impl System for MemSystem<WriteProtected<HistoryDevice>> {
    ghost use Rattle.std.specs.Prelude.{◌≡◌, ◌≢◌, ◌≤◌, ◌⊎◌, ◌*◌, List, IfOk, IfErr, OnOk, OnErr};
    ghost use Rattle.systems.specs.Entries.{content_of, device_in};
    ghost use Rattle.systems.specs.MemoryLaws.{left_here, no_device_in, no_text_in};

    type Device = WriteProtected<HistoryDevice>;

    type Channel = MemChannel;

    type Listener = MemListener;

    type CopyProgress = Unwatched;

    type Draw = ZeroDraw;

    ghost state = { λ s. memory_state s.entries.items s.port s.listener s.failures };

    fn failures(&self) -> u64 {
        self.failures
    }

    fn copy_progress(&self) -> Unwatched {
        Unwatched
    }

    fn drawing(&self) -> ZeroDraw {
        ZeroDraw
    }

    fn read_text(&mut self, alloc: Global, path: &str) -> Result<Vec<u8>, TextFault> {
        match find_content(self.entries.as_slice(), path) {
            Some(Content::Text(text)) => match Vec::from_slice(alloc, text.as_slice()) {
                Ok(read) => Ok(read),
                Err(_) => Err(TextFault::Memory),
            },
            None | Some(Content::Removed) => Err(TextFault::Missing),
            Some(
                Content::Device(_)
                | Content::Shared(_)
                | Content::Open
                | Content::Reading
                | Content::Taken,
            ) => {
                self.failures = self.failures.saturating_add(1);
                Err(TextFault::Device(SystemCause::Other))
            }
        }
    }

    fn read_input(&mut self, alloc: Global, _most: u64) -> Result<Vec<u8>, InputFault> {
        Ok(Vec::new(alloc))
    }

    fn draw(&mut self) -> Option<[u8; 32]> {
        Some([0; 32])
    }

    fn has_name(&mut self, path: &str) -> Result<bool, SystemCause> {
        Ok(is_named(self.entries.as_slice(), path))
    }

    fn open(
        &mut self,
        path: &str,
        access: Access,
    ) -> Result<WriteProtected<HistoryDevice>, OpenPathFault> {
        match find_content(self.entries.as_slice(), path) {
            None | Some(Content::Removed) => Err(OpenPathFault::Missing),
            Some(Content::Open | Content::Reading | Content::Taken) => Err(OpenPathFault::InUse),
            Some(Content::Text(_)) => {
                self.failures = self.failures.saturating_add(1);
                Err(OpenPathFault::Device(SystemCause::Other))
            }
            Some(Content::Shared(_)) => match access {
                Access::Read => match exchange(&mut self.entries, path, Content::Reading) {
                    Some(Content::Shared(device)) => Ok(device),
                    _ => Err(OpenPathFault::Memory),
                },
                Access::Write => Err(OpenPathFault::InUse),
            },
            Some(Content::Device(_)) => match access {
                Access::Read => match exchange(&mut self.entries, path, Content::Reading) {
                    Some(Content::Device(device)) => Ok(device),
                    _ => Err(OpenPathFault::Memory),
                },
                Access::Write => match exchange(&mut self.entries, path, Content::Open) {
                    Some(Content::Device(device)) => Ok(device),
                    _ => Err(OpenPathFault::Memory),
                },
            },
        }
    }

    // Who else has read the device meanwhile has ended.
    fn close(&mut self, path: &str, device: WriteProtected<HistoryDevice>) {
        match exchange(&mut self.entries, path, Content::Device(device)) {
            None | Some(Content::Open | Content::Reading) => {}
            Some(other) => {
                // The entry goes back to where it was taken.
                let _ = exchange(&mut self.entries, path, other);
            }
        }
    }

    fn make(&mut self, path: &str, pages: u32) -> Result<WriteProtected<HistoryDevice>, FileFault> {
        let Ok(device) = HistoryDevice::new(self.alloc, pages) else {
            return Err(FileFault::Memory);
        };
        let device = WriteProtected::new(device);
        match find_content(self.entries.as_slice(), path) {
            None => match add(self.alloc, &mut self.entries, path, Content::Open) {
                Ok(()) => Ok(device),
                Err(_) => Err(FileFault::Memory),
            },
            Some(Content::Removed) => {
                // What was removed is no more than its name.
                let _ = exchange(&mut self.entries, path, Content::Open);
                Ok(device)
            }
            Some(_) => Err(FileFault::Exists),
        }
    }

    fn remove(
        &mut self,
        path: &str,
        device: WriteProtected<HistoryDevice>,
    ) -> Result<(), SystemCause> {
        match exchange(&mut self.entries, path, Content::Removed) {
            Some(Content::Open) => Ok(()),
            None => {
                self.failures = self.failures.saturating_add(1);
                Err(SystemCause::NotFound)
            }
            Some(other) => {
                // The entry goes back to where it was taken.
                let _ = exchange(&mut self.entries, path, other);
                self.failures = self.failures.saturating_add(1);
                Err(SystemCause::Other)
            }
        }
    }

    fn rename(
        &mut self,
        from: &str,
        to: &str,
        device: WriteProtected<HistoryDevice>,
    ) -> Result<(), (WriteProtected<HistoryDevice>, FileFault)> {
        if is_named(self.entries.as_slice(), to) {
            return Err((device, FileFault::Exists));
        }
        if !is_open(self.entries.as_slice(), from) {
            self.failures = self.failures.saturating_add(1);
            return Err((device, FileFault::Device(SystemCause::Other)));
        }
        match add_removed(self.alloc, &mut self.entries, to) {
            Ok(()) => {}
            Err(_) => return Err((device, FileFault::Memory)),
        }
        rename_open(&mut self.entries, from, to, Content::Device(device));
        Ok(())
    }

    fn bind<'p>(
        &mut self,
        place: ListenPlace<'p>,
        _access: SocketAccess,
        _idle: Option<Duration>,
    ) -> Result<(MemListener, ListenPlace<'p>), SystemCause> {
        let is_here = match place {
            ListenPlace::Port(port) => port == 0 || port == self.port,
            ListenPlace::Socket(_) | ListenPlace::PostgresFolder(_) | ListenPlace::Each(_) => false,
        };
        if is_here {
            if let Some(listener) = self.listener.take() {
                return Ok((listener, ListenPlace::Port(self.port)));
            }
        }
        self.failures = self.failures.saturating_add(1);
        Err(SystemCause::AddressInUse)
    }

    // It says so of the first alone.
    fn refused_place(&self) -> usize {
        0
    }

    fn unbind(&mut self, place: ListenPlace<'_>, listener: MemListener) {
        if let ListenPlace::Port(port) = place {
            if port == self.port {
                self.listener = Some(listener);
            }
        }
    }

    fn poll(&mut self, _listener: &mut MemListener) -> Result<(), SystemCause> {
        Ok(())
    }

    ghost faithful_devices = { λ system path device faithful has. tt };

    ghost left_now = { λ system path device faithful has.
        left_here (device_in (content_of system.entries.items path)) device has };

    ghost no_device = { λ system path faithful unnamed.
        no_device_in (content_of system.entries.items path) unnamed };

    ghost no_text = { λ system path faithful unnamed.
        no_text_in (content_of system.entries.items path) unnamed };
}

/// A system in memory does what `System` says, always: so what is promised of a faithful system is
/// promised of something.
pub fn memory_is_faithful(system: &MemSystem<WriteProtected<HistoryDevice>>)
    ensures { (⟦<MemSystem<WriteProtected<HistoryDevice>> as System>⟧.state system.now).faithful }
{}
