//! What names the files and the places of a program: those of a machine, or a few in memory.

ghost use Rattle.std.specs.Prelude.{◌≡◌, ◌≢◌, None, ◌≤◌, ◌*◌, ℕ, List, IfOk, IfErr, IfSome, OnOk, OnErr, take};
ghost use Rattle.channels.specs.Channels.{KeepsAll};
ghost use Rattle.systems.specs.Places.{ThePlace, the_place, IsOfKind, IsBoundFor};
ghost use Rattle.systems.specs.Systems.{At, Absent, SystemState, HasDevice, IsHeldFrom, IsOpen, IsOpenFor, IsReadable, IsReading, MayOpen, IsNamed, IsUnnamed, HasText, Hears, IsBound, Rose, IsSame, IsSameBut, IsSameButAt, IsSameButBoth, Draws, DrawsNone, HoldsZeros, LeavesAll, LeavesAlso, LeavesNoMore, LeavesOthers};

use crate::access::Access;
use crate::draw::Draw;
use crate::fault::{InputFault, OpenPathFault, TextFault};
use crate::place::{ListenPlace, SocketAccess};
use channels::attend::Attend;
use channels::channel::Channel;
use journal_store::JournalDevice;
use sector_device::{CopyProgress, Device, FileFault, SystemCause};
use std::alloc::Global;
use std::time::Duration;
use storage_sizes::{MAX_PAGES, SECTORS_PER_PAGE};
use wire::listen::Listen;

/// What names the devices, the texts and the listeners of a program.
///
/// All of it is promised of a faithful system, and no call makes a system unfaithful. What a call
/// that fails counts is promised of any system.
pub trait System {
    /// What the path of a database names. It has room for a journal.
    type Device: JournalDevice + Drop;

    /// A connection to a listener of which no call waits.
    type Channel: Channel + Drop;

    /// What the place of a server names: it gives connections, one after the other, each of which may
    /// wait; or, once it is polled, some of which none does.
    type Listener: Listen + Attend<Self::Channel> + Drop;

    /// What is told how far a copy is.
    type CopyProgress: CopyProgress + Drop;

    /// What draws bytes that nobody can foretell.
    type Draw: Draw + Drop;

    /// What the system is at one moment.
    ghost state: { Self → SystemState Self.Device Self.Listener };

    /// How often a call has failed, up to `u64::MAX`.
    fn failures(&self) -> u64
        ensures { result ≡ (state self.now).failures };

    /// What is told how far a copy is that begins now. It is no part of the system, which stays as it is, whatever is told.
    fn copy_progress(&self) -> Self::CopyProgress;

    /// What draws bytes from now on. It is no part of the system, which stays as it is, whatever is drawn.
    fn drawing(&self) -> Self::Draw;

    /// Reads the bytes of a text.
    ///
    /// `Missing`: there is nothing of that name. `Memory`: an allocation failed. `Device`: the system
    /// does not read it.
    fn read_text(&mut self, alloc: Global, path: &str) -> Result<Vec<u8>, TextFault>
        ensures counts { (state self.old).failures ≤ (state self.new).failures }
        ensures read { (state self.old).faithful
            → IfOk result (λ text. HasText (state self.old) path.now text.items) }
        ensures missing { (state self.old).faithful → IfErr result
            (λ fault. fault ≡ TextFault.Missing → IsUnnamed (state self.old) path.now) }
        ensures cause { IfErr result (λ fault. fault ≢ TextFault.Missing
            → fault ≢ TextFault.Memory → Rose (state self.old).failures (state self.new).failures) }
        ensures same { (state self.old).faithful → IsSame (state self.old) (state self.new) }
        ensures left { (state self.old).faithful → LeavesAll (state self.old) (state self.new) };

    /// Reads the bytes that stand on standard input, so many of them at most.
    ///
    /// `Memory`: an allocation failed. `Device`: the system does not read it.
    fn read_input(&mut self, alloc: Global, most: u64) -> Result<Vec<u8>, InputFault>
        ensures counts { (state self.old).failures ≤ (state self.new).failures }
        ensures read { (state self.old).faithful
            → IfOk result (λ read. read.items ≡ take most (state self.old).input) }
        ensures cause { IfErr result (λ fault. fault ≢ InputFault.Memory
            → Rose (state self.old).failures (state self.new).failures) }
        ensures same { (state self.old).faithful → IsSame (state self.old) (state self.new) }
        ensures draws { (state self.old).faithful → DrawsNone (state self.old) (state self.new) }
        ensures left { (state self.old).faithful → LeavesAll (state self.old) (state self.new) };

    /// 32 bytes, drawn anew, which are not known before. That nobody foretells them, and that they do not come
    /// again, no contract can say. `None`: the system draws none.
    fn draw(&mut self) -> Option<[u8; 32]>
        ensures counts { (state self.old).failures ≤ (state self.new).failures }
        ensures drawn { (state self.old).faithful
            → IfSome result (λ drawn. Draws (state self.old) (state self.new) drawn) }
        ensures cause { result ≡ None → Rose (state self.old).failures (state self.new).failures }
        ensures same { (state self.old).faithful → IsSame (state self.old) (state self.new) }
        ensures left { (state self.old).faithful → LeavesAll (state self.old) (state self.new) };

    /// Whether there is something of this name. An error: the system does not say.
    fn has_name(&mut self, path: &str) -> Result<bool, SystemCause>
        ensures counts { (state self.old).failures ≤ (state self.new).failures }
        ensures said { (state self.old).faithful
            → IfOk result (λ is. (state self.old).is_named path.now ≡ is) }
        ensures cause { OnErr result (Rose (state self.old).failures (state self.new).failures) }
        ensures same { (state self.old).faithful → IsSame (state self.old) (state self.new) }
        ensures left { (state self.old).faithful → LeavesAll (state self.old) (state self.new) };

    /// Opens the device of a path, and locks it, until it is closed: to be read, beside others that
    /// read it, or to be read and written, by nobody else.
    ///
    /// `Missing`: there is nothing of that name. `InUse`: this program has it open, or another has
    /// it open to write it, or another reads it and it was to be written. `PrintedTo`: what this program
    /// prints goes to it, which is so of no device of a faithful system. `Memory`: an allocation failed.
    /// `Device`: the system does not open or lock it.
    fn open(&mut self, path: &str, access: Access) -> Result<Self::Device, OpenPathFault>
        ensures counts { (state self.old).failures ≤ (state self.new).failures }
        ensures opened { (state self.old).faithful → IfOk result
            (λ device. MayOpen access (state self.old) path.now device) }
        ensures open { (state self.old).faithful → IfOk result
            (λ device. IsOpenFor access (state self.new) path.now) }
        ensures missing { (state self.old).faithful → IfErr result
            (λ fault. fault ≡ OpenPathFault.Missing → IsUnnamed (state self.old) path.now) }
        ensures in_use { (state self.old).faithful → IfErr result
            (λ fault. fault ≡ OpenPathFault.InUse
            → IsHeldFrom access (state self.old) path.now) }
        ensures printed { (state self.old).faithful
            → IfErr result (λ fault. fault ≢ OpenPathFault.PrintedTo) }
        ensures cause { IfErr result (λ fault. (cause : SystemCause)
            → fault ≡ OpenPathFault.Device cause
            → Rose (state self.old).failures (state self.new).failures) }
        ensures others { (state self.old).faithful
            → IsSameBut path.now (state self.old) (state self.new) }
        ensures kept { (state self.old).faithful
            → OnErr result (IsSame (state self.old) (state self.new)) }
        ensures left { (state self.old).faithful
            → LeavesOthers path.now (state self.old) (state self.new) };

    /// Closes the device that was opened or made at a path, which is then there as it was left. Of one
    /// that was opened to be read it may be that others read it.
    fn close(&mut self, path: &str, device: Self::Device)
        ensures counts { (state self.old).failures ≤ (state self.new).failures }
        ensures closed { (state self.old).faithful → IsOpen (state self.old) path.now
            → HasDevice (state self.new) path.now device }
        ensures released { (state self.old).faithful → IsReading (state self.old) path.now
            → IsReadable (state self.new) path.now device }
        ensures others { (state self.old).faithful
            → IsSameBut path.now (state self.old) (state self.new) }
        ensures left { (state self.old).faithful
            → LeavesOthers path.now (state self.old) (state self.new) };

    /// Makes a device of so many pages of zeros at a path, of which there was nothing, and opens and
    /// locks it. Nobody but the user of this program may ever open it.
    ///
    /// `Exists`: there is something of that name. `Memory`: an allocation failed. `Device`: the
    /// system does not make it.
    fn make(&mut self, path: &str, pages: u32) -> Result<Self::Device, FileFault>
        requires { pages ≤ MAX_PAGES }
        ensures counts { (state self.old).failures ≤ (state self.new).failures }
        ensures sectors { IfOk result
            (λ device. (Self.Device.state device).sectors ≡ SECTORS_PER_PAGE * pages) }
        ensures made { (state self.old).faithful → IfOk result
            (λ device. HoldsZeros pages (Self.Device.state device)) }
        ensures new { (state self.old).faithful → IfOk result
            (λ device. IsUnnamed (state self.old) path.now) }
        ensures open { (state self.old).faithful → IfOk result
            (λ device. IsOpen (state self.new) path.now) }
        ensures exists { (state self.old).faithful → IfErr result
            (λ fault. fault ≡ FileFault.Exists → IsNamed (state self.old) path.now) }
        ensures cause { IfErr result (λ fault. (cause : SystemCause) → fault ≡ FileFault.Device cause
            → Rose (state self.old).failures (state self.new).failures) }
        ensures others { (state self.old).faithful
            → IsSameBut path.now (state self.old) (state self.new) }
        ensures kept { (state self.old).faithful
            → OnErr result (IsSame (state self.old) (state self.new)) }
        ensures left { (state self.old).faithful
            → LeavesOthers path.now (state self.old) (state self.new) };

    /// Takes the device away that was made at a path. After an error it is closed, and there as it
    /// was left.
    fn remove(&mut self, path: &str, device: Self::Device) -> Result<(), SystemCause>
        ensures counts { (state self.old).failures ≤ (state self.new).failures }
        ensures removed { (state self.old).faithful → IsOpen (state self.old) path.now
            → OnOk result (IsUnnamed (state self.new) path.now) }
        ensures closed { (state self.old).faithful → IsOpen (state self.old) path.now
            → OnErr result (HasDevice (state self.new) path.now device) }
        ensures cause { OnErr result (Rose (state self.old).failures (state self.new).failures) }
        ensures others { (state self.old).faithful
            → IsSameBut path.now (state self.old) (state self.new) }
        ensures left { (state self.old).faithful
            → LeavesOthers path.now (state self.old) (state self.new) };

    /// Gives the device that was made at `from` the name `to`, of which there was nothing, in place of
    /// `from`, and closes it. A stop at any moment, during the call or after it, leaves nothing of the
    /// name `to`, or the device as it is handed over; of `from` it may leave it too.
    ///
    /// After an error all is as it was: the device is open, and handed back. `Exists`: there is
    /// something of the name `to`. `Memory`: an allocation failed. `Device`: the system does not
    /// rename it.
    fn rename(
        &mut self,
        from: &str,
        to: &str,
        device: Self::Device,
    ) -> Result<(), (Self::Device, FileFault)>
        ensures counts { (state self.old).failures ≤ (state self.new).failures }
        ensures renamed { (state self.old).faithful → IsOpen (state self.old) from.now
            → OnOk result (HasDevice (state self.new) to.now device) }
        ensures gone { (state self.old).faithful → IsOpen (state self.old) from.now
            → OnOk result (IsUnnamed (state self.new) from.now) }
        ensures new { (state self.old).faithful
            → OnOk result (IsUnnamed (state self.old) to.now) }
        ensures exists { (state self.old).faithful → IfErr result
            (λ it. it.1 ≡ FileFault.Exists → IsNamed (state self.old) to.now) }
        ensures cause { IfErr result (λ it. (cause : SystemCause) → it.1 ≡ FileFault.Device cause
            → Rose (state self.old).failures (state self.new).failures) }
        ensures others { (state self.old).faithful
            → IsSameButBoth from.now to.now (state self.old) (state self.new) }
        ensures kept { (state self.old).faithful
            → OnErr result (IsSame (state self.old) (state self.new)) }
        ensures handed_back { IfErr result (λ it. it.0 ≡ device) }
        ensures left { (state self.old).faithful → (path : List ℕ) → path ≢ from.now
            → path ≢ to.now → LeavesNoMore path (state self.old) (state self.new) }
        ensures left_there { (state self.old).faithful
            → LeavesAlso to.now device (state self.old) (state self.new) };

    /// Binds a place, and answers who listens there and which place that is. The file of a socket lets
    /// those connect that `access` says, from the moment that it listens; of several places each says that
    /// itself. A connection may be idle for so long. An error: the system does not bind it; of several
    /// places none is bound then, and nothing is left of those that were.
    fn bind<'p>(
        &mut self,
        place: ListenPlace<'p>,
        access: SocketAccess,
        idle: Option<Duration>,
    ) -> Result<(Self::Listener, ListenPlace<'p>), SystemCause>
        ensures counts { (state self.old).failures ≤ (state self.new).failures }
        ensures kind { IfOk result (λ it. IsOfKind (the_place place.entry) (the_place it.1)) }
        ensures place { (state self.old).faithful → IfOk result
            (λ it. IsBoundFor (the_place place.entry) (the_place it.1)) }
        ensures heard { (state self.old).faithful → IfOk result
            (λ it. Hears (state self.old) (the_place it.1) it.0) }
        ensures bound { (state self.old).faithful → IfOk result
            (λ it. IsBound (state self.new) (the_place it.1)) }
        ensures others { (state self.old).faithful → IfOk result
            (λ it. IsSameButAt (the_place it.1) (state self.old) (state self.new)) }
        ensures cause { OnErr result (Rose (state self.old).failures (state self.new).failures) }
        ensures kept { (state self.old).faithful
            → OnErr result (IsSame (state self.old) (state self.new)) }
        ensures left { (state self.old).faithful → LeavesAll (state self.old) (state self.new) };

    /// Which of several places was not bound, when that failed last, from 0 on. Nothing is promised of it.
    fn refused_place(&self) -> usize;

    /// Unbinds a place that was bound, with who listens there as it was left. The file of a socket is
    /// taken away, if it is still the one that was made.
    fn unbind(&mut self, place: ListenPlace<'_>, listener: Self::Listener)
        ensures counts { (state self.old).failures ≤ (state self.new).failures }
        ensures unbound { (state self.old).faithful
            → IsBound (state self.old) (the_place place.entry)
            → Hears (state self.new) (the_place place.entry) listener }
        ensures others { (state self.old).faithful
            → IsSameButAt (the_place place.entry) (state self.old) (state self.new) }
        ensures left { (state self.old).faithful → LeavesAll (state self.old) (state self.new) };

    /// Makes a listener one of which no call waits. An error: the system does not.
    fn poll(&mut self, listener: &mut Self::Listener) -> Result<(), SystemCause>
        ensures coming { KeepsAll (Self.Listener.coming listener.old) (Self.Listener.coming listener.new) }
        ensures closed { KeepsAll (Self.Listener.closed listener.old) (Self.Listener.closed listener.new) }
        ensures listening { Self.Listener.listening listener.new ≡ Self.Listener.listening listener.old }
        ensures counts { (state self.old).failures ≤ (state self.new).failures }
        ensures cause { OnErr result (Rose (state self.old).failures (state self.new).failures) }
        ensures same { (state self.old).faithful → IsSame (state self.old) (state self.new) }
        ensures left { (state self.old).faithful → LeavesAll (state self.old) (state self.new) };

    /// The devices of a faithful system are faithful.
    ghost faithful_devices: { (system : Self) (path : List ℕ) (device : Self.Device)
        → (state system).faithful → IsReadable (state system) path device
        → (Self.Device.state device).faithful };

    /// A stop may leave what is at a path, where nobody has it open to write it.
    ghost left_now: { (system : Self) (path : List ℕ) (device : Self.Device)
        → (state system).faithful → IsReadable (state system) path device
        → (state system).left path device };

    /// A path of which there is nothing names no device.
    ghost no_device: { (system : Self) (path : List ℕ) → (state system).faithful
        → IsUnnamed (state system) path → (state system).devices path ≡ Absent };

    /// A path of which there is nothing names no text.
    ghost no_text: { (system : Self) (path : List ℕ) → (state system).faithful
        → IsUnnamed (state system) path → (state system).texts path ≡ None };
}
