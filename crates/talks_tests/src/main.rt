//! Two clients in memory, whose conversations by a small protocol are served by a machine in memory: all that a contract of `talks` names has a value
//! here. The program writes why serving ended, and what was said to each client; `expected.py` computes the same.
#![tactic(auto)]

mod clients;
mod desk;
mod echo;
mod line;

use crate::clients::TwoClients;
use crate::desk::Desk;
use crate::echo::Echo;
use crate::line::MemoryClient;
use std::alloc::Global;
use std::io;
use talks::clients::Finish;
use talks::serving::{ServeEnd, serve_clients};

fn main(rt: HostRuntime) -> io::Result<()> {
    let first = client(rt.alloc(), b"\x04oann\x01b\x01x\x01m\x01?\x01d")?;
    let second = client(rt.alloc(), b"\x04obob\x01b\x01x")?;
    let mut clients = TwoClients::new(first, second);
    let mut desk = Desk::new(rt.alloc());
    let end = serve_clients(&mut desk, &mut clients, 100);
    println!(rt; "{}", name_of(end))?;
    write_told(&rt, &clients.first.said)?;
    write_told(&rt, &clients.second.said)
}

// A client that sends these bytes.
fn client(alloc: Global, input: &[u8]) -> io::Result<MemoryClient<Echo>> {
    let mut bytes = Vec::new(alloc);
    bytes.extend_from_slice(input)?;
    Ok(MemoryClient::new(alloc, Echo::new(alloc), bytes))
}

fn name_of(end: ServeEnd) -> &'static str {
    match end {
        ServeEnd::Ended(Finish::Done) => "done",
        ServeEnd::Ended(_) => "ended",
        ServeEnd::TurnLimit => "turn limit",
    }
}

fn write_told<R: Print>(rt: &R, told: &[u8]) -> io::Result<()> {
    match str::from_utf8(told) {
        Ok(text) => println!(rt; "{text}"),
        Err(_) => println!(rt; "no text"),
    }
}
