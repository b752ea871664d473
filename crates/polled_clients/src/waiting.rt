//! Who waits for the writer lock, the first that came first.

ghost use Rattle.std.specs.Prelude.{◌≡◌, OnOk, OnErr};
ghost use Rattle.talks.specs.Clients.{without, put_last, is_behind as comes_behind};

use std::alloc::AllocError;

/// Puts a client last. One that waits already keeps its place.
pub fn put_last(waiting: &mut Vec<u32>, client: u32) -> Result<(), AllocError>
    ensures ok { OnOk result (waiting.new.items ≡ put_last client waiting.old.items) }
    ensures err { OnErr result (waiting.new.items ≡ waiting.old.items) }
{
    if waiting.contains(&client) {
        return Ok(());
    }
    waiting.push(client)?;
    Ok(())
}

/// Takes a client out.
pub fn take_out(waiting: &mut Vec<u32>, client: u32)
    ensures { waiting.new.items ≡ without client waiting.old.items }
{
    waiting.retain(|other| *other != client);
}

/// Whether another waits before a client.
pub fn is_behind(waiting: &[u32], client: u32) -> bool
    ensures { result ≡ comes_behind client waiting.now }
{
    match waiting.first() {
        Some(first) => *first != client,
        None => false,
    }
}

/// The first that waits.
pub fn first(waiting: &[u32]) -> Option<u32> {
    waiting.first().copied()
}
