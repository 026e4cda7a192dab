//! The folders of made traces, written to disk.
use anyhow::bail;
use ht_outside::{MemoryStore, Store};
use std::alloc::Global;
use std::fs;
use std::process::ExitCode;
use trace_gen::make;

const PIECE: usize = 65_536;

/// Writes the folders of the traces that a number makes of so many hosts and rounds into a folder that is there.
pub fn write_made(
    rt: &HostRuntime,
    folder: &str,
    number: &str,
    hosts: &str,
    rounds: &str,
) -> anyhow::Result<ExitCode> {
    let number = number.parse::<u64>()?;
    let hosts = hosts.parse::<u32>()?;
    let rounds = rounds.parse::<u32>()?;
    if hosts < 1 || hosts > 64 || rounds > 100_000 {
        bail!("there are 1 to 64 hosts, and at most 100000 rounds");
    }
    let mut store = make(rt.alloc(), number, hosts, rounds)?;
    write_hosts(rt, folder, hosts, &mut store)
}

fn write_hosts(
    rt: &HostRuntime,
    folder: &str,
    hosts: u32,
    store: &mut MemoryStore,
) -> anyhow::Result<ExitCode> {
    for host in 0..hosts {
        write_host(rt, folder, host, store)?;
    }
    Ok(ExitCode::SUCCESS)
}

fn write_host(
    rt: &HostRuntime,
    folder: &str,
    host: u32,
    store: &mut MemoryStore,
) -> anyhow::Result<()> {
    let dir = format!(in rt.alloc(); "{host}")?;
    make_folder(rt, folder, &dir)?;
    for name in ["metadata", "channel0_0"] {
        write_file(rt, folder, &dir, name, store)?;
    }
    Ok(())
}

fn make_folder(rt: &HostRuntime, folder: &str, dir: &str) -> anyhow::Result<()> {
    let place = format!(in rt.alloc(); "{folder}/{dir}")?;
    fs::create_dir(rt, &place)?;
    Ok(())
}

fn write_file(
    rt: &HostRuntime,
    folder: &str,
    dir: &str,
    name: &str,
    store: &mut MemoryStore,
) -> anyhow::Result<()> {
    let bytes = file_of(rt.alloc(), dir, name, store)?;
    write_bytes(rt, folder, dir, name, &bytes)
}

fn write_bytes(
    rt: &HostRuntime,
    folder: &str,
    dir: &str,
    name: &str,
    bytes: &[u8],
) -> anyhow::Result<()> {
    let path = format!(in rt.alloc(); "{folder}/{dir}/{name}")?;
    fs::write(rt, &path, bytes)?;
    Ok(())
}

// The bytes of a made file.
fn file_of(
    alloc: Global,
    dir: &str,
    name: &str,
    store: &mut MemoryStore,
) -> anyhow::Result<Vec<u8>> {
    let mut bytes = Vec::new(alloc);
    read_all(dir, name, store, &mut bytes)?;
    Ok(bytes)
}

fn read_all(
    dir: &str,
    name: &str,
    store: &mut MemoryStore,
    bytes: &mut Vec<u8>,
) -> anyhow::Result<()> {
    for _ in 0..u32::MAX {
        if !read_piece(dir, name, store, bytes)? {
            return Ok(());
        }
    }
    bail!("a made file has no end")
}

// Whether there was more to read.
fn read_piece(
    dir: &str,
    name: &str,
    store: &mut MemoryStore,
    bytes: &mut Vec<u8>,
) -> anyhow::Result<bool> {
    let mut piece = [0u8; PIECE];
    let at = bytes.len() as u64;
    let Ok(count) = store.read(dir.as_bytes(), name.as_bytes(), at, &mut piece) else {
        bail!("the store gave no answer");
    };
    bytes.extend_from_slice(&piece[..count])?;
    Ok(count > 0)
}
