//! A new array on a device.

ghost use Rattle.std.specs.Prelude.{◌≡◌, ◌≢◌, ◌≤◌, ◌/◌, ℕ, true, OnOk, OnErr};
ghost use Rattle.sector_device.specs.Timeline.{LeavesOnly};
ghost use Rattle.sector_device.specs.Device.{KeepsHistory, IsSynced, HasFailed, Image, IsLeft, timeline};
ghost use Rattle.sector_device.specs.Page.{IsAlone, IsOutside};
ghost use Rattle.cow_pages.specs.Image.{Means, is_size, one_page, first_fault};
ghost use Rattle.cow_pages.specs.Formatting.{IsUnmarked, IsBlank, IsFirstRoot, IsLeftOrHasRoot, IsNoneOrFirst, first_entries, HasFirstPages, HasFirstBytes};

use page_roots::{ENTRIES_PER_MAP_PAGE, Format, Root, empty_sector, write_map_page};
use sector_device::{Device, DeviceFault, PAGE_SIZE, SECTORS_PER_PAGE, write_page};

// The physical pages of the first logical page and of its map page.
const FIRST_PAGE: u32 = 1;

const FIRST_MAP: u32 = 2;

// The entries of a map page where logical page 0 alone is in use.
fn first_entries() -> [u32; ENTRIES_PER_MAP_PAGE]
    ensures { result ≡ first_entries }
{
    let mut entries = [0; ENTRIES_PER_MAP_PAGE];
    entries[0] = FIRST_PAGE;
    entries
}

// Writes the first logical page, its map page, and an empty root sector.
fn lay_out<D: Device>(device: &mut D, first: &[u8; PAGE_SIZE]) -> Result<(), DeviceFault>
    requires room { 24 ≤ (D.state device.old).sectors }
    ensures history { KeepsHistory (D.state device.old) (D.state device.new) }
    ensures written { (D.state device.old).faithful
        → OnOk result (HasFirstPages first.now (D.state device.new).content) }
    ensures any_moment { (D.state device.old).faithful → IsBlank (D.state device.old)
        → LeavesOnly IsUnmarked (timeline (D.state device.old)) (timeline (D.state device.new)) }
    ensures blank { (D.state device.old).faithful → IsBlank (D.state device.old)
        → IsBlank (D.state device.new) }
    ensures alone { (D.state device.old).faithful → (s : ℕ) → 1 ≤ s → IsOutside 8 16 s
        → IsAlone (D.state device.old) (D.state device.new) s }
    ensures cause { OnErr result (HasFailed (D.state device.old) (D.state device.new)) }
{
    write_page(device, SECTORS_PER_PAGE * FIRST_PAGE, first)?;
    write_page(
        device,
        SECTORS_PER_PAGE * FIRST_MAP,
        &write_map_page(&first_entries()),
    )?;
    device.write(0, &empty_sector())
}

// Makes what was written last, and then the first root with it.
fn finish<D: Device>(device: &mut D, root: &Root) -> Result<(), DeviceFault>
    requires room { 2 ≤ (D.state device.old).sectors }
    requires first { root.now.number ≡ 1 }
    ensures history { KeepsHistory (D.state device.old) (D.state device.new) }
    ensures written { (D.state device.old).faithful
        → OnOk result (IsFirstRoot root.now ((D.state device.new).content 1)) }
    ensures any_moment { (D.state device.old).faithful
        → LeavesOnly (IsLeftOrHasRoot (D.state device.old) root.now)
        (timeline (D.state device.old)) (timeline (D.state device.new)) }
    ensures alone { (D.state device.old).faithful → (s : ℕ) → s ≢ 1
        → IsAlone (D.state device.old) (D.state device.new) s }
    ensures synced { (D.state device.old).faithful → OnOk result (IsSynced (D.state device.new)) }
    ensures cause { OnErr result (HasFailed (D.state device.old) (D.state device.new)) }
{
    device.sync()?;
    device.write(1, &root.bytes())?;
    device.sync()
}

/// Makes a new array of this format of a device of 64 to 65,536 whole pages, whose logical page 0 has these bytes and is the
/// only one in use. What was on the device before is lost, though only sectors 0 and 1 and those of pages 1 and 2 are written:
/// sector 0 with zeros, sector 1 with the root of number 1, page 1 with the bytes, page 2 with the map.
///
/// A device is blank where a stop leaves no root sector that begins with the magic of a root, as a new device of zeros is.
/// On a blank device a stop at any moment during the call or after it leaves no database or the new array whole, also where
/// the call fails. After an error on any other device nothing is said of the sectors that are written.
pub fn format<D: Device>(
    device: &mut D,
    format: Format,
    first: &[u8; PAGE_SIZE],
) -> Result<(), DeviceFault>
    requires size { is_size (D.state device.old).sectors ≡ true }
    ensures history { KeepsHistory (D.state device.old) (D.state device.new) }
    ensures means { (D.state device.old).faithful → OnOk result ((image : Image)
        → IsLeft (D.state device.new) image
        → Means ((D.state device.old).sectors / 8) format 1 (one_page first.now) image) }
    ensures bytes { (D.state device.old).faithful → OnOk result
        (HasFirstBytes ((D.state device.old).sectors / 8) format first.now (D.state device.new).content) }
    ensures any_moment { (D.state device.old).faithful → IsBlank (D.state device.old)
        → LeavesOnly (IsNoneOrFirst (D.state device.old).sectors format first.now)
        (timeline (D.state device.old)) (timeline (D.state device.new)) }
    ensures others { (D.state device.old).faithful → (s : ℕ) → 2 ≤ s → IsOutside 8 16 s
        → IsAlone (D.state device.old) (D.state device.new) s }
    ensures synced { (D.state device.old).faithful → OnOk result (IsSynced (D.state device.new)) }
    ensures cause { OnErr result (HasFailed (D.state device.old) (D.state device.new)) }
{
    let pages = device.sectors() / SECTORS_PER_PAGE;
    lay_out(device, first)?;
    finish(device, &Root::new(format, 1, pages, &[FIRST_MAP]))
}
