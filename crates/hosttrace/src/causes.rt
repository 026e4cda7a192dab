//! Which status tells of each cause for which a call below has no answer.
ghost use Rattle.std.specs.Prelude.{◌≡◌};
ghost use Rattle.hosttrace.specs.Statuses.{metadata_status, path_status, read_status};
ghost use Rattle.hosttrace.specs.declared.status.Refusal.TheVariants.{TooLarge};
ghost use Rattle.hosttrace.specs.declared.status.Status.TheVariants.{Refused};

use crate::questions::QuestionsError;
use crate::reading::ReadError;
use crate::status::{Limit, ListFile, Refusal, Status};
use command_words::WordsError;
use critical_path::PathError;
use decode_pool::DecodeError;
use event_list::ListError;
use ht_outside::{SinkError, StoreError};
use trace_metadata::MetadataError;

impl From<WordsError> for Status {
    ghost use Rattle.std.specs.Prelude.{◌≡◌};
    ghost use Rattle.hosttrace.specs.Statuses.{words_status};

    ghost from_gives = { λ error status. status ≡ words_status error };

    fn from(error: WordsError) -> Status {
        match error {
            WordsError::Usage => Status::Usage,
            WordsError::OutOfMemory => Status::NoMemory,
        }
    }
}

impl From<StoreError> for Status {
    ghost use Rattle.std.specs.Prelude.{◌≡◌};
    ghost use Rattle.hosttrace.specs.Statuses.{store_status};

    ghost from_gives = { λ error status. status ≡ store_status error };

    fn from(error: StoreError) -> Status {
        match error {
            StoreError::Failed => Status::ReadFault,
            StoreError::OutOfMemory => Status::NoMemory,
        }
    }
}

impl From<ListError> for Status {
    ghost use Rattle.std.specs.Prelude.{◌≡◌};
    ghost use Rattle.hosttrace.specs.Statuses.{list_status};

    ghost from_gives = { λ error status. status ≡ list_status error };

    fn from(error: ListError) -> Status {
        match error {
            ListError::BadLine { line } => {
                let file = ListFile::Events;
                Status::Refused(Refusal::BadList { file, line })
            }
            ListError::TooManyEvents => Status::Refused(Refusal::TooManyEvents),
            ListError::OutOfMemory => Status::NoMemory,
        }
    }
}

impl From<QuestionsError> for Status {
    ghost use Rattle.std.specs.Prelude.{◌≡◌};
    ghost use Rattle.hosttrace.specs.Statuses.{questions_status};

    ghost from_gives = { λ error status. status ≡ questions_status error };

    fn from(error: QuestionsError) -> Status {
        match error {
            QuestionsError::BadLine { line } => {
                let file = ListFile::Questions;
                Status::Refused(Refusal::BadList { file, line })
            }
            QuestionsError::OutOfMemory => Status::NoMemory,
        }
    }
}

impl From<DecodeError> for Status {
    ghost use Rattle.std.specs.Prelude.{◌≡◌};
    ghost use Rattle.hosttrace.specs.Statuses.{decode_status};

    ghost from_gives = { λ error status. status ≡ decode_status error };

    fn from(error: DecodeError) -> Status {
        match error {
            DecodeError::TooManyPackets => too_large(Limit::Packets),
            DecodeError::TooManyEvents => Status::Refused(Refusal::TooManyEvents),
            DecodeError::OutOfMemory => Status::NoMemory,
        }
    }
}

impl From<SinkError> for Status {
    ghost use Rattle.std.specs.Prelude.{◌≡◌};
    ghost use Rattle.hosttrace.specs.Statuses.{sink_status};

    ghost from_gives = { λ error status. status ≡ sink_status error };

    fn from(error: SinkError) -> Status {
        match error {
            SinkError::Failed => Status::WriteFault,
            SinkError::OutOfMemory => Status::NoMemory,
        }
    }
}

/// The status of a file that has this limit and wasn't read.
pub fn unread(what: Limit, error: ReadError) -> Status
    ensures { result ≡ read_status what error }
{
    match error {
        ReadError::Fault => Status::ReadFault,
        ReadError::TooLarge => too_large(what),
        ReadError::OutOfMemory => Status::NoMemory,
    }
}

/// The status of metadata of this host that declares no trace.
pub fn undeclared(host: u32, error: MetadataError) -> Status
    ensures { result ≡ metadata_status host error }
{
    match error {
        MetadataError::Refused(cause) => Status::Refused(Refusal::BadMetadata { host, cause }),
        MetadataError::OutOfMemory => Status::NoMemory,
    }
}

/// The status of a thread of this host that has no critical path.
pub fn pathless(host: u32, tid: u32, error: PathError) -> Status
    ensures { result ≡ path_status host tid error }
{
    match error {
        PathError::NoThread => Status::Refused(Refusal::NoThread { host, tid }),
        PathError::OutOfMemory => Status::NoMemory,
    }
}

/// The status of what passes a limit.
pub fn too_large(what: Limit) -> Status
    ensures { result ≡ Refused (TooLarge what) }
{
    Status::Refused(Refusal::TooLarge { what })
}
