//! The system of a machine.

use crate::drawn::SystemDraw;
use crate::file_id::{FileId, file_at};
use crate::files::open_file;
use crate::listening::PlaceListener;
use crate::new_files::{is_there, make_file, remove_name, rename_new};
use crate::progress::PrintedProgress;
use crate::real_listener::RealListener;
use crate::several::{Unbound, bind_each, remove_files};
use crate::socket::remove_made;
use crate::streams::{Outputs, StandardStreams, read_up_to};
use polled_sockets::listeners::PolledStream;
use polled_sockets::streams::SocketChannel;
use sector_device::{FileDevice, FileFault, SystemCause, SystemFile, WriteProtected};
use std::alloc::Global;
use std::fs::File;
use std::net::{Net, TcpListener, TcpStream};
use std::random::RandomSource;
use std::rt::Files;
use std::time::{Clock, Duration};
use std::{fs, io};
use systems::{
    Access, Draw, InputFault, ListenPlace, OpenPathFault, SocketAccess, System, TextFault,
};
use wire::system_listener::SystemListener;

/// The files, the ports and the sockets of a machine. No contract can know what they do, so none
/// promises anything here: `faithful` is met by no system of a machine. That this one does what
/// `System` says is the premise of all that is promised of it. What it does by itself is promised:
/// a call that fails is counted, and of sockets the one is bound that was asked for.
///
/// It stands for the standard streams that are closed as long as it lives: no file is opened before. A
/// file that standard output or standard error goes to is not opened.
#[derive(Drop)]
pub struct RealSystem<'r, R> {
    rt: &'r R,
    alloc: Global,
    _streams: StandardStreams,
    outputs: Outputs,
    // The file of the socket that was bound last.
    made: Option<FileId>,
    // Which of several places was not bound, when that failed last.
    refused: usize,
    failures: u64,
}

impl<'r, R: Files<File = File>> RealSystem<'r, R> {
    /// The system, once each standard stream that is closed has something that stands for it. An
    /// error: the system does not open that.
    pub fn start(rt: &'r R, alloc: Global) -> io::Result<RealSystem<'r, R>> {
        let streams = StandardStreams::fill(rt)?;
        Ok(RealSystem {
            rt,
            alloc,
            _streams: streams,
            outputs: Outputs::find(rt),
            made: None,
            refused: 0,
            failures: 0,
        })
    }

    /// Whether messages on standard error would be written to the file at a path.
    pub fn tells_to(&self, path: &str) -> bool {
        self.outputs.tell_to(self.rt, path)
    }
}

impl<
    'r,
    R: Files<File = File>
        + Net<Listener = TcpListener, Stream = TcpStream>
        + Input
        + Eprint
        + Clock
        + RandomSource
        + AllocGlobal,
> System for RealSystem<'r, R> {
    ghost use Rattle.real_system.specs.Unsaid.{unsaid};

    type Device = WriteProtected<FileDevice<SystemFile>>;

    type Channel = SocketChannel<PolledStream>;

    type Listener = RealListener<'r, R>;

    type CopyProgress = PrintedProgress<'r, R>;

    type Draw = SystemDraw<'r, R>;

    ghost state = { λ s. unsaid s.failures };

    fn failures(&self) -> u64 {
        self.failures
    }

    fn copy_progress(&self) -> PrintedProgress<'r, R> {
        PrintedProgress::begin(self.rt)
    }

    fn drawing(&self) -> SystemDraw<'r, R> {
        SystemDraw::begin(self.rt)
    }

    fn read_text(&mut self, _alloc: Global, path: &str) -> Result<Vec<u8>, TextFault> {
        match fs::read(self.rt, path) {
            Ok(text) => Ok(text),
            Err(error) => match error.kind() {
                io::ErrorKind::NotFound => Err(TextFault::Missing),
                io::ErrorKind::OutOfMemory => Err(TextFault::Memory),
                _ => {
                    self.failures = self.failures.saturating_add(1);
                    Err(TextFault::Device(SystemCause::of(&error)))
                }
            },
        }
    }

    fn read_input(&mut self, alloc: Global, most: u64) -> Result<Vec<u8>, InputFault> {
        match read_up_to(alloc, self.rt.reader(), most) {
            Ok(read) => Ok(read),
            Err(error) => match error.kind() {
                io::ErrorKind::OutOfMemory => Err(InputFault::Memory),
                _ => {
                    self.failures = self.failures.saturating_add(1);
                    Err(InputFault::Device(SystemCause::of(&error)))
                }
            },
        }
    }

    fn draw(&mut self) -> Option<[u8; 32]> {
        match SystemDraw::begin(self.rt).draw() {
            Some(drawn) => Some(drawn),
            None => {
                self.failures = self.failures.saturating_add(1);
                None
            }
        }
    }

    fn has_name(&mut self, path: &str) -> Result<bool, SystemCause> {
        match is_there(self.rt, path) {
            Ok(is) => Ok(is),
            Err(error) => {
                self.failures = self.failures.saturating_add(1);
                Err(SystemCause::of(&error))
            }
        }
    }

    fn open(
        &mut self,
        path: &str,
        access: Access,
    ) -> Result<WriteProtected<FileDevice<SystemFile>>, OpenPathFault> {
        match open_file(self.rt, self.alloc, path, access, &self.outputs) {
            Ok(device) => Ok(WriteProtected::new(device)),
            Err(OpenPathFault::Device(cause)) => {
                self.failures = self.failures.saturating_add(1);
                Err(OpenPathFault::Device(cause))
            }
            Err(fault) => Err(fault),
        }
    }

    // With its file the device gives up the lock.
    fn close(&mut self, _path: &str, _device: WriteProtected<FileDevice<SystemFile>>) {}

    fn make(
        &mut self,
        path: &str,
        pages: u32,
    ) -> Result<WriteProtected<FileDevice<SystemFile>>, FileFault> {
        match make_file(self.rt, path, pages) {
            Ok(device) => Ok(WriteProtected::new(device)),
            Err(FileFault::Device(cause)) => {
                self.failures = self.failures.saturating_add(1);
                Err(FileFault::Device(cause))
            }
            Err(fault) => Err(fault),
        }
    }

    fn remove(
        &mut self,
        path: &str,
        _device: WriteProtected<FileDevice<SystemFile>>,
    ) -> Result<(), SystemCause> {
        match remove_name(self.rt, path) {
            Ok(()) => Ok(()),
            Err(error) => {
                self.failures = self.failures.saturating_add(1);
                Err(SystemCause::of(&error))
            }
        }
    }

    fn rename(
        &mut self,
        from: &str,
        to: &str,
        device: WriteProtected<FileDevice<SystemFile>>,
    ) -> Result<(), (WriteProtected<FileDevice<SystemFile>>, FileFault)> {
        match rename_new(self.rt, from, to) {
            Ok(()) => Ok(()),
            Err(fault) => {
                if let FileFault::Device(_) = fault {
                    self.failures = self.failures.saturating_add(1);
                }
                Err((device, fault))
            }
        }
    }

    fn bind<'p>(
        &mut self,
        place: ListenPlace<'p>,
        access: SocketAccess,
        idle: Option<Duration>,
    ) -> Result<(RealListener<'r, R>, ListenPlace<'p>), SystemCause> {
        if let ListenPlace::Each(places) = place {
            return match bind_each(self.rt, self.alloc, places) {
                Ok(listeners) => {
                    let listener = PlaceListener::Each(listeners);
                    let waiting = SystemListener::new(self.rt, self.alloc, listener, idle);
                    Ok((RealListener::new(waiting), place))
                }
                Err(Unbound { index, error }) => {
                    self.refused = index;
                    self.failures = self.failures.saturating_add(1);
                    Err(SystemCause::of(&error))
                }
            };
        }
        match PlaceListener::bind(self.rt, self.alloc, place, access) {
            Ok((listener, bound)) => {
                if let ListenPlace::Socket(path) = place {
                    self.made = file_at(self.rt, path);
                }
                if let Some(path) = listener.path_in_folder() {
                    self.made = file_at(self.rt, path);
                }
                let waiting = SystemListener::new(self.rt, self.alloc, listener, idle);
                Ok((RealListener::new(waiting), bound))
            }
            Err(error) => {
                self.failures = self.failures.saturating_add(1);
                Err(SystemCause::of(&error))
            }
        }
    }

    fn refused_place(&self) -> usize {
        self.refused
    }

    fn unbind(&mut self, place: ListenPlace<'_>, listener: RealListener<'r, R>) {
        if let Some(places) = listener.each() {
            remove_files(self.rt, places);
        }
        if let ListenPlace::Socket(path) = place {
            remove_made(self.rt, path, self.made);
        }
        if let Some(path) = listener.path_in_folder() {
            remove_made(self.rt, path, self.made);
        }
    }

    fn poll(&mut self, listener: &mut RealListener<'r, R>) -> Result<(), SystemCause> {
        match listener.poll(self.rt, self.alloc) {
            Ok(()) => Ok(()),
            Err(error) => {
                self.failures = self.failures.saturating_add(1);
                Err(SystemCause::of(&error))
            }
        }
    }

    ghost faithful_devices = { λ system path device never. absurd never };

    ghost left_now = { λ system path device never. absurd never };

    ghost no_device = { λ system path never. absurd never };

    ghost no_text = { λ system path never. absurd never };
}
