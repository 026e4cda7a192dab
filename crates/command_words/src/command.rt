//! What the words ask for.
use sqlite_items::Items;
use trace_types::{Path, Text};

/// Where events come from.
#[derive(Debug, Drop)]
pub enum Input {
    /// An event list in this file.
    List(Text),
    /// The traces in these folders, on one clock, by a drift in parts per million from 1 to 10,000.
    Folders { dirs: Items<Text>, drift: u32 },
}

/// A command that runs on one thread.
#[derive(Debug, Drop)]
pub enum PlainCommand {
    /// What the metadata of these folders declares, each of one host.
    Check {
        folders: Items<Text>,
    },
    /// The views of the merged events of folders, by a drift in parts per million from 1 to 10,000.
    Report {
        folders: Items<Text>,
        drift: u32,
    },
    /// The merged events of folders, by a drift in parts per million from 1 to 10,000.
    Events {
        folders: Items<Text>,
        drift: u32,
    },
    /// The state at an instant, in ns.
    State {
        input: Input,
        at: u64,
    },
    /// The answers to the questions of a file. With `once` all events are taken in before the first
    /// question.
    Ask {
        input: Input,
        questions: Text,
        once: bool,
    },
    /// Who holds a thread up at each instant of a window, in ns, from `from` on up to `to`. The host is below 64, the thread
    /// from 1 to 2^31 - 1, and `from` before `to`, which is below 2^62.
    Path {
        input: Input,
        host: u32,
        tid: u32,
        from: u64,
        to: u64,
    },
    /// The summary of traces that are made up in memory from a number: from 1 to 64 hosts, and from 1 to 100,000 rounds.
    Make {
        number: u64,
        hosts: u32,
        rounds: u32,
    },
    /// How the value of an attribute changed from `from` on up to `to`, in ns: `from` is before `to`, which is below 2^62.
    Range {
        input: Input,
        from: u64,
        to: u64,
        path: Path,
    },
    /// How many requests each disk had, and how long they took.
    Disks {
        input: Input,
    },
}

/// A command.
#[derive(Debug, Drop)]
pub enum Command {
    Plain(PlainCommand),
}
