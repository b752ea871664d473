//! What a stop leaves while a new database is made.

ghost use Rattle.std.specs.Prelude.{◌≡◌, ◌≤◌, ℕ};
ghost use Rattle.sector_device.specs.Device.{Image, IsLeft};
ghost use Rattle.abstract_database.specs.Database.{Database};
ghost use Rattle.databases.specs.Lives.{standing_over, LeavesFound};
ghost use Rattle.databases.specs.OnDevice.{records_on};
ghost use Rattle.databases.specs.NewDatabase.{IsNone, IsNoneOr, Makes, IsLeftOf};

use journal_store::image_has_one_contents as one_contents;
use sector_device::Device;

/// After a stop at any moment while a new database is made, as `make_database` makes one on a blank
/// device, each image that the device may have holds no database or the new one. If none of them
/// holds no database, lives go on from the new one, as after a life; `live` says what it answers
/// where the device holds none.
pub fn a_stop_leaves_none_or_the_new_one<D: Device>(old: &D, new: &D, next: &D)
    ensures images { (db : Database) (stop : ℕ) → Makes db (D.state old.now) (D.state new.now)
        → (D.state new.now).sectors ≡ (D.state old.now).sectors
        → (D.state old.now).moment ≤ stop → stop ≤ (D.state new.now).moment
        → IsLeftOf (D.state new.now) stop (D.state next.now)
        → (image : Image) → IsLeft (D.state next.now) image
        → IsNoneOr db (D.state next.now).sectors image }
    ensures found { (db : Database) (stop : ℕ) → Makes db (D.state old.now) (D.state new.now)
        → (D.state new.now).sectors ≡ (D.state old.now).sectors
        → (D.state old.now).moment ≤ stop → stop ≤ (D.state new.now).moment
        → IsLeftOf (D.state new.now) stop (D.state next.now)
        → ((image : Image) → IsLeft (D.state next.now) image
        → IsNone (D.state next.now).sectors image → ⊥)
        → LeavesFound (standing_over db) (records_on (D.state next.now)) }
{
    // For the proof: an image of sectors has one contents.
    one_contents();
}
