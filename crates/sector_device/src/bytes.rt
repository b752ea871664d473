//! Bytes within longer runs of bytes.
ghost use Rattle.std.specs.Prelude.{◌≡◌, ◌+◌, ◌≤◌, ◌<◌, ◌^◌, length};
ghost use Rattle.sector_device.specs.RawFile.{put};

/// Writes some bytes into others, from `start` on.
pub(crate) fn put_bytes(bytes: &mut [u8], start: usize, new: &[u8])
    requires inside { start + length new.now ≤ length bytes.old }
    requires fits { start + length new.now < 2 ^ 64 }
    ensures { bytes.new ≡ put start new.now bytes.old }
{
    bytes[start..start + new.len()].copy_from_slice(new);
}
