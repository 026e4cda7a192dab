//! Reading the folders of traces whole: their metadata and their stream files.
ghost use Rattle.std.specs.Prelude.{◌≡◌, ◌≤◌, length, IfOk, IfErr, IfSome, OnOk};
ghost use Rattle.std.specs.List.{AllByRecursion};
ghost use Rattle.hosttrace.specs.Folders.{FILES_LIMIT, MAX_HOSTS};
ghost use Rattle.hosttrace.specs.Read.{AreFolderFiles, HasSmallStreams, IsFolderFiles};
ghost use Rattle.hosttrace.specs.Refusals.{TraceRefuses, TracesRefuse};
ghost use Rattle.hosttrace.specs.Seen.{FailsBy, OnlyReads, store_seen};

use crate::folders::{FILES_LIMIT, look_into, read_metadata_of};
use crate::status::Status;
use crate::streams::{read_streams, stream_names};
use decode_pool::FileBytes;
use ht_outside::Store;
use sqlite_items::Items;
use std::alloc::Global;
use trace_types::{MAX_HOSTS, Text};

/// The files of a folder: the bytes of its metadata, and its stream files in the byte order of their names.
#[derive(Debug, Drop)]
pub struct FolderFiles {
    pub metadata: Items<u8>,
    pub streams: Vec<FileBytes>,
}

/// The files of each folder.
pub fn read_trace_files<S: Store>(
    alloc: Global,
    dirs: &[Text],
    store: &mut S,
) -> Result<Vec<FolderFiles>, Status>
    requires { length dirs.now ≤ MAX_HOSTS }
    ensures read { IfOk result (λ read. IfSome (S.holds store.old) (λ files. AreFolderFiles files 0 dirs.now read.items)) }
    ensures each { IfOk result (λ read. length read.items ≡ length dirs.now) }
    ensures small { IfOk result (λ read. AllByRecursion HasSmallStreams read.items) }
    ensures fails { IfErr result (λ status. FailsBy (λ files refusal. TracesRefuse files 0 0 dirs.now refusal) (store_seen S.holds S.faults store.old store.new) status) }
    ensures reads { OnlyReads (store_seen S.holds S.faults store.old store.new) }
{
    let mut read = Vec::new(alloc);
    let mut total = 0;
    for at in 0..dirs.len() {
        let files = read_one(alloc, at as u32, dirs[at].as_bytes(), &mut total, store)?;
        read.push(files)?;
    }
    Ok(read)
}

// The files of the folder of this host. `total` is how many bytes of files were read so far, and grows by theirs.
fn read_one<S: Store>(
    alloc: Global,
    host: u32,
    dir: &[u8],
    total: &mut usize,
    store: &mut S,
) -> Result<FolderFiles, Status>
    requires { total.old ≤ FILES_LIMIT }
    ensures read { IfOk result (λ read. IfSome (S.holds store.old) (λ files. IsFolderFiles files total.old total.new dir.now read)) }
    ensures within { OnOk result (total.new ≤ FILES_LIMIT) }
    ensures small { IfOk result HasSmallStreams }
    ensures fails { IfErr result (λ status. FailsBy (λ files refusal. TraceRefuses files host total.old dir.now refusal) (store_seen S.holds S.faults store.old store.new) status) }
    ensures reads { OnlyReads (store_seen S.holds S.faults store.old store.new) }
{
    let names = look_into(host, dir, store)?;
    let metadata = read_metadata_of(alloc, *total, dir, store)?;
    *total += metadata.len();
    let Ok(chosen) = stream_names(alloc, &names) else {
        return Err(Status::NoMemory);
    };
    let streams = read_streams(alloc, dir, &chosen, total, store)?;
    Ok(FolderFiles { metadata, streams })
}
