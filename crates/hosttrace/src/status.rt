//! How a command ended.
ghost use Rattle.std.specs.Prelude.{◌≡◌};
ghost use Rattle.hosttrace.specs.Statuses.{code_of};

use std::alloc::AllocFailed;
use trace_metadata::MetaCause;
use trace_types::OutOfMemory;

/// A list that was read.
#[derive(Clone, Copy, Debug, PartialEq, Eq)]
pub enum ListFile {
    Events,
    Questions,
}

/// What has a limit.
#[derive(Clone, Copy, Debug, PartialEq, Eq)]
pub enum Limit {
    /// The folders that the words name.
    Hosts,
    /// The names in a folder that don't begin with a dot.
    Names,
    /// The bytes of a file of metadata.
    Metadata,
    /// The bytes of any other file.
    File,
    /// The bytes of all files of all folders together.
    Files,
    /// The packets of all files, accepted or refused one by one.
    Packets,
    /// The line feeds of a question file.
    Questions,
}

/// Why the input was refused. Hosts count from 0 and lines from 1.
#[derive(Clone, Copy, Debug, PartialEq, Eq)]
pub enum Refusal {
    NoMetadata { host: u32 },
    BadMetadata { host: u32, cause: MetaCause },
    BadList { file: ListFile, line: u64 },
    TooLarge { what: Limit },
    TooManyEvents,
    /// No event of the host names the thread.
    NoThread { host: u32, tid: u32 },
}

/// How a command ended.
#[derive(Clone, Copy, Debug, PartialEq, Eq)]
pub enum Status {
    /// The whole text was written.
    Done,
    /// The words are no command.
    Usage,
    Refused(Refusal),
    /// The store failed.
    ReadFault,
    /// A sink failed.
    WriteFault,
    NoMemory,
}

impl<T: Drop> From<AllocFailed<T>> for Status {
    ghost use Rattle.std.specs.Prelude.{◌≡◌};
    ghost use Rattle.hosttrace.specs.declared.status.Status.TheVariants as variant;

    ghost from_gives = { λ _ status. status ≡ variant.NoMemory };

    fn from(_error: AllocFailed<T>) -> Status {
        Status::NoMemory
    }
}

impl From<OutOfMemory> for Status {
    ghost use Rattle.std.specs.Prelude.{◌≡◌};
    ghost use Rattle.hosttrace.specs.declared.status.Status.TheVariants as variant;

    ghost from_gives = { λ _ status. status ≡ variant.NoMemory };

    fn from(_error: OutOfMemory) -> Status {
        Status::NoMemory
    }
}

impl Status {
    /// The exit status.
    pub fn code(&self) -> u8
        ensures { result ≡ code_of self.now }
    {
        match self {
            Status::Done => 0,
            Status::Usage => 1,
            Status::Refused(_) => 2,
            Status::ReadFault => 3,
            Status::WriteFault => 4,
            Status::NoMemory => 5,
        }
    }
}
