//! Orphans: records of no kind, and descriptors, policies and rows of a table that there is not. The
//! other rows are tested table by table.

ghost use Rattle.std.specs.Prelude.{◌≡◌, ◌∷◌, [], ◌||◌, ℕ, List, true};
ghost use Rattle.std.specs.List.{list_any};
ghost use Rattle.byteorder.specs.Endian.{big_bytes};
ghost use Rattle.storage_sizes.specs.Kinds.{kind_byte};
ghost use Rattle.store.specs.Records.{Records, entries_where, has_prefix};
ghost use Rattle.stored_database.specs.Records.{is_key_of, is_row_key_of, is_orphan, is_orphan_row};
ghost use Rattle.stored_database.specs.RecordFormat.{role_prefix, membership_prefix, table_prefix, rows_prefix};
ghost use Rattle.catalogue_loading.specs.Orphans.{KnowsPrefix, is_sought, prefix_of};
ghost use Rattle.catalogue_loading.specs.RecordChecks.{AllPass, IsNoOrphan, IsNoOrphanRow};

use row_codec::table_prefix;
use storage_sizes::RecordKind;
use store::begins_with;

// What the keys of the records of a kind and a table begin with has so many bytes.
const TABLE_PREFIX_LENGTH: usize = 5;

// What the keys of rows begin with.
const ROWS_PREFIX: [u8; 1] = [RecordKind::Row as u8];

/// Which orphans are looked for.
#[derive(Clone, Copy)]
pub enum Orphans {
    /// Records of no kind, and descriptors and policies of a table that there is not. A row passes,
    /// whatever its table.
    OfDefinitions,
    /// Rows of a table that there is not. A record of another kind passes, and so does one of no kind.
    OfRows,
}

impl Orphans {
    /// What the keys begin with among which these orphans are.
    pub fn prefix(self) -> &'static [u8]
        ensures { result.now ≡ prefix_of self }
    {
        match self {
            Orphans::OfDefinitions => &[],
            Orphans::OfRows => &ROWS_PREFIX,
        }
    }
}

/// The test that a record is no orphan.
#[derive(Drop)]
pub struct OrphanTest<'a> {
    /// Which orphans are looked for.
    pub orphans: Orphans,
    /// The numbers of the tables.
    pub ids: &'a [u32],
}

impl<'a> OrphanTest<'a> {
    /// What this key begins with that tells that it is no orphan: the byte of its kind, and behind it the number of its table
    /// where there may be orphans of the kind. No key that begins with it is an orphan. `None`: this key is one. Of rows alone
    /// it is asked where orphan rows are looked for.
    pub fn known_prefix<'k>(&self, key: &'k [u8]) -> Option<&'k [u8]>
        requires { has_prefix (prefix_of self.now.orphans) key.now ≡ true }
        ensures { KnowsPrefix (is_sought self.now.orphans self.now.ids.now)
            (prefix_of self.now.orphans) key.now result }
    {
        match self.orphans {
            Orphans::OfDefinitions => known_definition(self.ids, key),
            Orphans::OfRows => known_row(self.ids, key),
        }
    }
}

// What a key begins with that tells that it is of a kind, and where it is a descriptor or a policy, of a table of one of these
// numbers.
fn known_definition<'k>(ids: &[u32], key: &'k [u8]) -> Option<&'k [u8]>
    ensures { KnowsPrefix (is_orphan ids.now) [] key.now result }
{
    if is_of_no_table(key) {
        return Some(&key[..1]);
    }
    if is_of_a_table(ids, key) {
        return Some(&key[..TABLE_PREFIX_LENGTH]);
    }
    None
}

// What a key of a row begins with that tells that it is of a table of one of these numbers.
fn known_row<'k>(ids: &[u32], key: &'k [u8]) -> Option<&'k [u8]>
    requires { has_prefix rows_prefix key.now ≡ true }
    ensures { KnowsPrefix (is_orphan_row ids.now) rows_prefix key.now result }
{
    if is_row_of_a_table(ids, key) {
        return Some(&key[..TABLE_PREFIX_LENGTH]);
    }
    None
}

// Whether a key is that of a role, a membership, a table or a row, which is no orphan among the definitions.
fn is_of_no_table(key: &[u8]) -> bool
    ensures { result ≡ (has_prefix role_prefix key.now || has_prefix membership_prefix key.now
        || has_prefix table_prefix key.now || has_prefix rows_prefix key.now) }
{
    is_of_kind(RecordKind::Role as u8, key)
        || is_of_kind(RecordKind::Membership as u8, key)
        || is_of_kind(RecordKind::Table as u8, key)
        || is_of_kind(RecordKind::Row as u8, key)
}

// Whether a key is of the table of one of these numbers.
fn is_of_a_table(ids: &[u32], key: &[u8]) -> bool
    ensures { result ≡ list_any (is_key_of key.now) ids.now }
{
    ids.iter().any(|id| is_key_of(key, *id))
}

// Whether a key is that of a row of the table of one of these numbers.
fn is_row_of_a_table(ids: &[u32], key: &[u8]) -> bool
    ensures { result ≡ list_any (is_row_key_of key.now) ids.now }
{
    ids.iter().any(|id| is_of_table(RecordKind::Row, *id, key))
}

// Whether a key begins with the byte of this kind.
fn is_of_kind(kind: u8, key: &[u8]) -> bool
    ensures { result ≡ has_prefix (kind ∷ []) key.now }
{
    match key.split_first() {
        Some((first, _)) => kind == *first,
        None => false,
    }
}

// Whether a key is that of a privilege descriptor for the table of this number, or of a policy of it.
fn is_key_of(key: &[u8], id: u32) -> bool
    ensures { result ≡ is_key_of key.now id }
{
    is_of_table(RecordKind::Descriptor, id, key) || is_of_table(RecordKind::Policy, id, key)
}

// Whether a key begins with the byte of this kind and the number of this table.
fn is_of_table(kind: RecordKind, id: u32, key: &[u8]) -> bool
    ensures { result ≡ has_prefix (kind_byte kind ∷ big_bytes 4 id) key.now }
{
    begins_with(key, &table_prefix(kind, id))
}

/// Where no record is an orphan, the records have none.
pub fn no_orphan_is_left()
    ensures { (ids : List ℕ) (records : Records) → AllPass (IsNoOrphan ids) records []
        → entries_where (is_orphan ids) records ≡ [] }
{}

/// Where each record of a row is of a table of these numbers, the records have no orphan row, and
/// where they have none, each is.
pub fn no_orphan_row_is_left()
    ensures found { (ids : List ℕ) (records : Records)
        → AllPass (IsNoOrphanRow ids) records rows_prefix
        → entries_where (is_orphan_row ids) records ≡ [] }
    ensures only { (ids : List ℕ) (records : Records)
        → entries_where (is_orphan_row ids) records ≡ []
        → AllPass (IsNoOrphanRow ids) records rows_prefix }
{}
