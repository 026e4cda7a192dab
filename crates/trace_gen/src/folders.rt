//! A trace of many hosts, made up from a number.
ghost use Rattle.std.specs.Prelude.{◌≡◌, ◌≤◌, ◌<◌, IfOk, OnOk, length};
ghost use Rattle.ht_outside.specs.Stored.{files_of};
ghost use Rattle.trace_gen.specs.Folders.{AreSame, folders, run_events, with_host};

use crate::acts::acts_of;
use crate::events::{MadeEvent, made, own};
use crate::metadata::{put_metadata, put_number};
use crate::packets::file_bytes;
use ht_outside::MemoryStore;
use std::alloc::Global;
use trace_types::OutOfMemory;

/// The folders `0`, `1`, .. of 1 to 64 hosts, each with `metadata` and `channel0_0`, that a run of 1 to 100,000 rounds
/// from this number writes. The only error is lack of memory.
pub fn make(alloc: Global, number: u64, hosts: u32, rounds: u32) -> Result<MemoryStore, OutOfMemory>
    requires some_hosts { 1 ≤ hosts }
    requires few_hosts { hosts ≤ 64 }
    requires few_rounds { rounds ≤ 100000 }
    ensures { IfOk result (λ store. AreSame (files_of store) (folders hosts (run_events number hosts rounds))) }
{
    let hosts = hosts as u8;
    let acts = acts_of(alloc, hosts, rounds)?;
    let events = made(alloc, number, &acts)?;
    let mut store = MemoryStore::new(alloc);
    for host in 0..hosts {
        put_host(alloc, host, &events, &mut store)?;
    }
    Ok(store)
}

// Puts a host's folder into a store.
fn put_host(
    alloc: Global,
    host: u8,
    events: &[MadeEvent],
    store: &mut MemoryStore,
) -> Result<(), OutOfMemory>
    requires { length events.now ≤ 600000 }
    ensures { OnOk result (AreSame (files_of store.new) (with_host host events.now (files_of store.old))) }
{
    let mut dir = Vec::new(alloc);
    put_number(host, &mut dir)?;
    let mut text = Vec::new(alloc);
    put_metadata(host, &mut text)?;
    let own = own(alloc, host, events)?;
    let bytes = file_bytes(alloc, &own)?;
    store.put(&dir, b"metadata", &text)?;
    store.put(&dir, b"channel0_0", &bytes)
}
