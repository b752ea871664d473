//! The order of keys, which is that of their bytes.
ghost use Rattle.std.specs.Prelude.{◌≡◌, ◌≤◌, ◌+◌, length, min, take, drop};
ghost use Rattle.std.specs.Cmp.Lexicographic.{slice_cmp};
ghost use Rattle.std.specs.Ordering.{is_lt, nat_cmp};
ghost use Rattle.std.specs.Str.{bytes_eq};
ghost use Rattle.std.specs.Slice.Scan.{big_endian, differ, HoldsNowhere, Settles};

/// Whether a key comes before another in the order of their bytes.
pub fn comes_before(key: &[u8], other: &[u8]) -> bool
    ensures { result ≡ is_lt (slice_cmp nat_cmp key.now other.now) }
{
    let shared = key.len().min(other.len());
    if shared < 8 {
        return comes_before_from(key, other, 0);
    }
    let (x, y) = first_numbers(key, other, shared);
    if x != y {
        return x < y;
    }
    comes_before_from(key, other, shared.min(16))
}

// The same of keys whose bytes before an index are the same.
fn comes_before_from(key: &[u8], other: &[u8], from: usize) -> bool
    requires inside { from ≤ min (length key.now) (length other.now) }
    requires same { HoldsNowhere (differ key.now other.now) 0 from }
    ensures { result ≡ is_lt (slice_cmp nat_cmp key.now other.now) }
{
    let shared = key.len().min(other.len());
    for at in from..shared {
        if key[at] != other[at] {
            return key[at] < other[at];
        }
    }
    key.len() < other.len()
}

/// Whether two keys have the same bytes.
pub fn is_same_key(key: &[u8], other: &[u8]) -> bool
    ensures { result ≡ bytes_eq key.now other.now }
{
    let shared = key.len();
    if shared != other.len() {
        return false;
    }
    if shared < 8 {
        return is_same_from(key, other, 0);
    }
    let (x, y) = first_numbers(key, other, shared);
    if x != y {
        return false;
    }
    is_same_from(key, other, shared.min(16))
}

// The same of keys of one length whose bytes before an index are the same.
fn is_same_from(key: &[u8], other: &[u8], from: usize) -> bool
    requires long { length key.now ≡ length other.now }
    requires inside { from ≤ length key.now }
    requires same { HoldsNowhere (differ key.now other.now) 0 from }
    ensures { result ≡ bytes_eq key.now other.now }
{
    for at in from..key.len() {
        if key[at] != other[at] {
            return false;
        }
    }
    true
}

// Two numbers that are in the order of the keys, or the same where the keys begin with the same 16
// bytes, or with the same bytes up to the end of the shorter.
fn first_numbers(key: &[u8], other: &[u8], shared: usize) -> (u64, u64)
    requires long { 8 ≤ shared }
    requires inside { shared ≤ min (length key.now) (length other.now) }
    ensures { Settles key.now other.now (min 16 shared) result.0 result.1 }
{
    let (x, y) = (number_at(key, 0), number_at(other, 0));
    if x != y {
        return (x, y);
    }
    let next = (shared - 8).min(8);
    (number_at(key, next), number_at(other, next))
}

// The number of eight bytes from an index on, the highest first.
fn number_at(bytes: &[u8], at: usize) -> u64
    requires { at + 8 ≤ length bytes.now }
    ensures { result ≡ big_endian 0 (take 8 (drop at bytes.now)) }
{
    u64::from_be_bytes([
        bytes[at],
        bytes[at + 1],
        bytes[at + 2],
        bytes[at + 3],
        bytes[at + 4],
        bytes[at + 5],
        bytes[at + 6],
        bytes[at + 7],
    ])
}
