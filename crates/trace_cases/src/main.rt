//! Prints what the crates of metadata and streams answer of bytes: `trace_cases MODE FILE..`.
//!
//! tests/README.md tells of the modes. The program is there for the cases of tests/cases alone.
#![tactic(auto)]

mod metadata;
mod printed_tokens;
mod printed_trees;
mod streams;
mod streams_cut;
mod streams_fields;
mod streams_host;
mod streams_kinds;
mod streams_read;

use std::io::{self, Write};
use std::process::ExitCode;
use std::thread::Threads;
use std::{env, fs};

fn main(rt: HostRuntime) -> anyhow::Result<ExitCode> {
    let words = words_given(&rt)?;
    print_words(&rt, &rt, &words)
}

fn words_given(rt: &HostRuntime) -> anyhow::Result<Vec<String>> {
    let mut words = Vec::new(rt.alloc());
    for word in env::args(rt)?.skip(1) {
        words.push(word)?;
    }
    Ok(words)
}

fn print_words(
    rt: &HostRuntime,
    threads: &(impl Threads + Sync),
    words: &[String],
) -> anyhow::Result<ExitCode> {
    let Some((mode, names)) = words.split_first() else {
        return usage(rt);
    };
    let files = files_read(rt, names)?;
    print_files(rt, threads, mode.as_str(), names, &files)
}

fn files_read(rt: &HostRuntime, names: &[String]) -> anyhow::Result<Vec<Vec<u8>>> {
    let mut files = Vec::new(rt.alloc());
    for name in names {
        files.push(fs::read(rt, name.as_str())?)?;
    }
    Ok(files)
}

fn print_files(
    rt: &HostRuntime,
    threads: &(impl Threads + Sync),
    mode: &str,
    names: &[String],
    files: &[Vec<u8>],
) -> anyhow::Result<ExitCode> {
    let mut out = Vec::new(rt.alloc());
    match mode {
        "text" | "tokens" | "places" | "declarations" | "types" | "counts" | "find" => {
            metadata::print(rt.alloc(), mode, files, &mut out)?;
        }
        _ => {
            if !streams::print(rt.alloc(), threads, mode, names, files, &mut out)? {
                return usage(rt);
            }
        }
    }
    write_out(rt, &out)
}

fn write_out(rt: &HostRuntime, out: &[u8]) -> anyhow::Result<ExitCode> {
    let stdout = rt.stdout();
    io::writer(&stdout).write_all(out)?;
    Ok(ExitCode::SUCCESS)
}

fn usage(rt: &HostRuntime) -> anyhow::Result<ExitCode> {
    eprintln!(rt; "usage: trace_cases MODE FILE..")?;
    Ok(ExitCode::FAILURE)
}
