//! Times single calls, and writes made traces into folders.
//!
//! `matches EVENTS` makes so many network events in memory, and prints how long matching them takes. `decode METADATA FILE..`
//! prints how long cutting and decoding the stream files of a trace takes. `made FOLDER NUMBER HOSTS ROUNDS` writes the folders of
//! made traces into FOLDER, which is there.
#![tactic(auto)]

mod made;
mod messages;
mod streams;

use std::env;
use std::process::ExitCode;
use std::time::Instant;

fn main(rt: HostRuntime) -> anyhow::Result<ExitCode> {
    let words = words_given(&rt)?;
    do_command(&rt, &words)
}

fn words_given(rt: &HostRuntime) -> anyhow::Result<Vec<String>> {
    let mut words = Vec::new(rt.alloc());
    for word in env::args(rt)?.skip(1) {
        words.push(word)?;
    }
    Ok(words)
}

fn do_command(rt: &HostRuntime, words: &[String]) -> anyhow::Result<ExitCode> {
    let Some((command, words)) = words.split_first() else {
        return usage(rt);
    };
    match (command.as_str(), words) {
        ("matches", [events]) => messages::print_matches_time(rt, events.as_str()),
        ("decode", [metadata, files @ ..]) => {
            streams::print_decode_time(rt, metadata.as_str(), files)
        }
        ("made", [folder, number, hosts, rounds]) => made::write_made(
            rt,
            folder.as_str(),
            number.as_str(),
            hosts.as_str(),
            rounds.as_str(),
        ),
        _ => usage(rt),
    }
}

fn usage(rt: &HostRuntime) -> anyhow::Result<ExitCode> {
    eprintln!(rt;
        "usage: hosttrace_bench matches EVENTS | decode METADATA FILE.. | made FOLDER NUMBER HOSTS ROUNDS"
    )?;
    Ok(ExitCode::FAILURE)
}

/// The nanoseconds since an instant.
fn nanoseconds_since(rt: &HostRuntime, begun: Instant) -> anyhow::Result<u128> {
    Ok(begun.elapsed(rt)?.as_nanos())
}
