//! How a device with a journal is opened.
ghost use Rattle.std.specs.Prelude.{◌≡◌, ◌⊎◌, ◌<◌, ◌≤◌, ◌+◌, [], ℕ, List, true, false, Err, IfOk, IfErr, OnOk, length, get_or};
ghost use Rattle.sector_device.specs.Device.{KeepsHistory, HasFailed, IsSynced};
ghost use Rattle.cow_pages.specs.Held.{KeepsContent};
ghost use Rattle.cow_pages.specs.Image.{is_size};
ghost use Rattle.store.specs.Records.{Changes};
ghost use Rattle.journal.specs.Reading.{entries_of, AreWhole};
ghost use Rattle.store.specs.declared.fault.Fault.TheVariants as faults;
ghost use Rattle.journal_store.specs.Meaning.{SpellBatches};
ghost use Rattle.journal_store.specs.Opening.{Opens, AreOf, IsReplayed, NotReplayed};

use crate::devices::JournalDevice;
use crate::stores::{JOURNAL_ROOM, JOURNAL_START, JournalStore};
use cow_pages::page_count;
use journal::{JournalRecord, find_journal, read_batch, read_sectors};
use kv_store::{DEFAULT_CACHE_PAGES, MAX_CACHE_PAGES, OpenFault, TreeStore};
use sector_device::{Device, SECTOR_SIZE};
use std::alloc::Global;
use store::{Fault, Store};
use transactions::ChangeLists;

// The sectors behind the root sectors.
type JournalSectors = [[u8; SECTOR_SIZE]; JOURNAL_ROOM as usize];

// Reads the sectors behind the root sectors of a device of a size that a database may have, after a sync. After an error
// nothing is said of the bytes.
fn read_behind_roots<D: Device>(
    device: &mut D,
    sectors: &mut JournalSectors,
) -> Result<(), OpenFault>
    ensures history { KeepsHistory (D.state device.old) (D.state device.new) }
    ensures reads { (D.state device.old).faithful
        → KeepsContent (D.state device.old) (D.state device.new) }
    ensures size { OnOk result (is_size (D.state device.old).sectors ≡ true) }
    ensures synced { (D.state device.old).faithful → OnOk result (IsSynced (D.state device.new)) }
    ensures read { (D.state device.old).faithful → OnOk result ((q : ℕ) → q < JOURNAL_ROOM
        → get_or sectors.new q [] ≡ (D.state device.old).content (JOURNAL_START + q)) }
    ensures fault { IfErr result (λ fault.
        ((fault ≡ OpenFault.WrongSize) × (is_size (D.state device.old).sectors ≡ false))
        ⊎ ((fault ≡ OpenFault.Device) × HasFailed (D.state device.old) (D.state device.new))) }
{
    let Some(_pages) = page_count(device.sectors()) else {
        return Err(OpenFault::WrongSize);
    };
    device.sync()?;
    read_sectors(device, JOURNAL_START, sectors)?;
    Ok(())
}

// The batches of records, the first of them first. Damaged: a record spells none.
fn read_batches(alloc: Global, records: &[JournalRecord]) -> Result<ChangeLists, Fault>
    requires { AreWhole records.now }
    ensures read { IfOk result (λ waiting. AreOf records.now waiting) }
    ensures damaged { result ≡ Err faults.Damaged → (batches : List Changes)
        → SpellBatches (entries_of records.now) batches → ⊥ }
    ensures device { result ≡ Err faults.Device → ⊥ }
{
    let mut waiting = ChangeLists::new(alloc);
    for record in records {
        match read_batch(alloc, &record.bytes)? {
            Some(batch) => waiting.record(batch)?,
            None => return Err(Fault::Damaged),
        }
    }
    Ok(waiting)
}

// What the sectors of a journal say: the batches of its records, the greatest number in any sector, and how many sectors the
// records take.
#[derive(Drop)]
struct Replayed {
    waiting: ChangeLists,
    top: u64,
    end: u16,
}

// The journal of a root that these sectors are. Damaged: they are none, or a record of it spells no batch.
fn replay(alloc: Global, root: u64, sectors: &[[u8; SECTOR_SIZE]]) -> Result<Replayed, Fault>
    requires { length sectors.now ≡ JOURNAL_ROOM }
    ensures read { IfOk result (λ replayed. IsReplayed root sectors.now replayed) }
    ensures inside { IfOk result (λ replayed. replayed.end ≤ JOURNAL_ROOM) }
    ensures damaged { result ≡ Err faults.Damaged → NotReplayed root sectors.now }
    ensures device { result ≡ Err faults.Device → ⊥ }
{
    let journal = find_journal(alloc, root, JOURNAL_ROOM, sectors)?;
    let waiting = read_batches(alloc, &journal.records)?;
    Ok(Replayed {
        waiting,
        top: journal.top,
        end: journal.end,
    })
}

impl<D: JournalDevice> JournalStore<D> {
    /// Opens a device whose root says that there is a journal. It is synced before it is read, and nothing is written. A
    /// refusal hands it back with the content that it had: `WrongSize`, `NotADatabase`, `NewerFormat` and `Damaged` name the
    /// first fault that stands in the content, in this order: the size, the magic of the root sectors, the root sectors, the
    /// size that the root names, the map, that the root says that there is a journal, the tree of records, the sectors of
    /// the journal, the batches of its records. With `Ok` none of these faults stands in the content of a faithful device.
    /// `Device` says that the device failed, and `Memory` that memory was refused. The cache has `DEFAULT_CACHE_PAGES`.
    pub fn open(alloc: Global, device: D) -> Result<JournalStore<D>, (D, OpenFault)>
        ensures { Opens (D.state device) result }
    {
        JournalStore::open_with(alloc, device, DEFAULT_CACHE_PAGES)
    }

    /// Opens a device as `open` does, with a cache of so many pages.
    pub fn open_with(
        alloc: Global,
        device: D,
        cache_pages: usize,
    ) -> Result<JournalStore<D>, (D, OpenFault)>
        requires some { 1 ≤ cache_pages }
        requires most { cache_pages ≤ MAX_CACHE_PAGES }
        ensures { Opens (D.state device) result }
    {
        let mut device = device;
        let mut sectors = [[0; SECTOR_SIZE]; JOURNAL_ROOM as usize];
        if let Err(fault) = read_behind_roots(&mut device, &mut sectors) {
            return Err((device, fault));
        }
        let store = TreeStore::open_with(alloc, device, true, cache_pages)?;
        match replay(alloc, store.number(), &sectors) {
            Ok(replayed) => Ok(JournalStore {
                store,
                waiting: replayed.waiting,
                top: replayed.top,
                end: replayed.end,
                alloc,
            }),
            Err(Fault::Memory) => Err((store.into_device(), OpenFault::Memory)),
            Err(Fault::Damaged) => Err((store.into_device(), OpenFault::Damaged)),
            Err(Fault::Device) => unreachable!(),
        }
    }
}
