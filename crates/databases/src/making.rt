//! A new database on a device.

ghost use Rattle.std.specs.Prelude.{◌≡◌, ◌≤◌, ◌∷◌, true, length, IfOk, OnErr};
ghost use Rattle.sql_types.specs.Name.{IsUtf8Name};
ghost use Rattle.storage_sizes.specs.Sizes.{max_value_length};
ghost use Rattle.cow_pages.specs.Image.{is_size};
ghost use Rattle.store.specs.Memory.{admin_record};
ghost use Rattle.store.specs.Records.{IsKeySize};
ghost use Rattle.databases.specs.Making.{FormatsOfKind, Makes};

use cow_pages::page_count;
use journal_store::{JournalDevice, JournalStore};
use kv_store::{Entry, OpenFault, PageStore};
use sector_device::Device;
use sql_types::name::Name;
use std::alloc::{AllocError, Global};
use storage_sizes::RecordKind;
use stored_database::new_records_stand_for_a_new_database;

/// The value of the record of a role that is a superuser (1) and may log in (2).
const SUPERUSER_WITH_LOGIN: u8 = 3;

/// Makes the new database of an administrator on a device of 64 to 65,536 whole pages of 4,096
/// bytes, with a journal or without: it has one role of this name, a superuser that may log in. What
/// was on the device before is lost.
///
/// After `Ok` each image that a stop leaves stands for the new database, under number 1. On a device
/// that is blank, as a new one of zeros is, a stop at any moment leaves no database or the new one,
/// also where the device fails. `WrongSize`, where the device has another size, and `Memory`, where an
/// allocation failed, come before anything is written; `Device`: the device failed. No other fault comes.
pub fn make_database<D: JournalDevice>(
    alloc: Global,
    device: &mut D,
    admin: &Name,
    journal: bool,
) -> Result<(), OpenFault>
    ensures { Makes D.state journal admin.now result device.old device.new }
{
    // For the proof: a name is text, and has no zero byte.
    know_name(admin);
    // For the proof: the first records are those of a new database.
    new_records_stand_for_a_new_database();
    let Some(_pages) = page_count(device.sectors()) else {
        return Err(OpenFault::WrongSize);
    };
    let first = record_of_admin(alloc, admin)?;
    format_store(alloc, device, &first, journal)
}

// Makes a new store of one record on a device, with a journal or without.
fn format_store<D: JournalDevice>(
    alloc: Global,
    device: &mut D,
    first: &Entry,
    journal: bool,
) -> Result<(), OpenFault>
    requires size { is_size (D.state device.old).sectors ≡ true }
    requires key { IsKeySize first.now.0 }
    requires value { length first.now.1 ≤ max_value_length }
    ensures { FormatsOfKind D.Device journal first.now result device.old device.new }
{
    if journal {
        JournalStore::format(alloc, device, first)
    } else {
        PageStore::format(alloc, device, first)
    }
}

// A name is one of UTF-8.
fn know_name(name: &Name)
    ensures { IsUtf8Name name.now }
{
    let _ = name.as_str().as_bytes();
}

// The one record of a new database, that of its administrator.
fn record_of_admin(alloc: Global, admin: &Name) -> Result<Entry, AllocError>
    ensures record { IfOk result (λ entry. entry ≡ admin_record admin.now) }
    ensures key { IfOk result (λ entry. IsKeySize entry.0) }
    ensures value { IfOk result (λ entry. length entry.1 ≤ max_value_length) }
{
    let mut key = Vec::from_slice(alloc, &[RecordKind::Role as u8])?;
    key.extend_from_slice(admin.as_str().as_bytes())?;
    let value = Vec::from_slice(alloc, &[SUPERUSER_WITH_LOGIN])?;
    Ok(Entry::from_parts(key, value))
}
