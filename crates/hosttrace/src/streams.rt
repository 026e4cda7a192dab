//! Reading the stream files of a trace's folder.
ghost use Rattle.std.specs.Prelude.{◌≡◌, ◌+◌, ◌≤◌, length, filter, IfOk, IfErr, IfSome, OnOk, IsPermutation};
ghost use Rattle.std.specs.Cmp.Lexicographic.{slice_cmp};
ghost use Rattle.std.specs.List.{AllByRecursion, AllPairs};
ghost use Rattle.std.specs.Ordering.{nat_cmp};
ghost use Rattle.decode_pool.specs.Hosts.{IsSmall};
ghost use Rattle.ht_outside.specs.Files.{bytes_of};
ghost use Rattle.hosttrace.specs.Folders.{FILES_LIMIT};
ghost use Rattle.hosttrace.specs.Refusals.{StreamRefuses, StreamsRefuse};
ghost use Rattle.hosttrace.specs.Seen.{FailsBy, OnlyReads, store_seen};
ghost use Rattle.hosttrace.specs.Streams.{AreChosen, AreFiles, AreStreamsRead, IsNameNotAfter, StreamFits, is_stream_name, size_of, streams_size};

use crate::causes::{too_large, unread};
use crate::folders::{FILES_LIMIT, is_shown};
use crate::inputs::LIST_LIMIT;
use crate::reading::read_file;
use crate::status::{Limit, Status};
use decode_pool::FileBytes;
use ht_outside::Store;
use std::alloc::Global;
use trace_types::{OutOfMemory, Text};

/// The names of stream files among those of a folder, in the order of their bytes.
pub fn stream_names(alloc: Global, names: &[Text]) -> Result<Vec<Text>, OutOfMemory>
    ensures { IfOk result (λ chosen. AreChosen names.now chosen.items) }
{
    let mut chosen = chosen_names(alloc, names)?;
    sort_names(&mut chosen);
    Ok(chosen)
}

// The same, in any order.
fn chosen_names(alloc: Global, names: &[Text]) -> Result<Vec<Text>, OutOfMemory>
    ensures { IfOk result (λ chosen. chosen.items ≡ filter is_stream_name names.now) }
{
    let mut chosen = Vec::new(alloc);
    for name in names {
        if is_stream_name(name.as_bytes()) {
            chosen.push(Text::from_bytes(alloc, name.as_bytes())?)?;
        }
    }
    Ok(chosen)
}

fn is_stream_name(name: &[u8]) -> bool
    ensures { result ≡ is_stream_name name.now }
{
    is_shown(name) && name != b"metadata".as_slice()
}

fn sort_names(names: &mut [Text])
    ensures permutation { IsPermutation names.old names.new }
    ensures order { AllPairs IsNameNotAfter names.new }
{
    names.sort_unstable_by(
        |a: &Text, b: &Text|
            ensures { result ≡ slice_cmp nat_cmp a.now b.now }
        { a.as_bytes().cmp(b.as_bytes()) },
    );
}

/// The files of these names. `total` is how many bytes of files were read so far, and grows by theirs.
pub fn read_streams<S: Store>(
    alloc: Global,
    dir: &[u8],
    names: &[Text],
    total: &mut usize,
    store: &mut S,
) -> Result<Vec<FileBytes>, Status>
    requires { total.old ≤ FILES_LIMIT }
    ensures read { IfOk result (λ fs. IfSome (S.holds store.old) (λ files. AreStreamsRead files dir.now total.old names.now)) }
    ensures are { IfOk result (λ fs. IfSome (S.holds store.old) (λ files. AreFiles files dir.now names.now fs.items)) }
    ensures total { IfOk result (λ fs. IfSome (S.holds store.old) (λ files. total.new ≡ total.old + streams_size files dir.now names.now)) }
    ensures within { OnOk result (total.new ≤ FILES_LIMIT) }
    ensures small { IfOk result (λ fs. AllByRecursion IsSmall fs.items) }
    ensures fails { IfErr result (λ status. FailsBy (λ files refusal. StreamsRefuse files dir.now total.old names.now refusal) (store_seen S.holds S.faults store.old store.new) status) }
    ensures reads { OnlyReads (store_seen S.holds S.faults store.old store.new) }
{
    let mut files = Vec::new(alloc);
    for at in 0..names.len() {
        let file = read_stream(alloc, dir, &names[at], *total, store)?;
        *total += file.bytes.len();
        files.push(file)?;
    }
    Ok(files)
}

// One file, where so many bytes of others were read before.
fn read_stream<S: Store>(
    alloc: Global,
    dir: &[u8],
    name: &Text,
    before: usize,
    store: &mut S,
) -> Result<FileBytes, Status>
    requires { before ≤ FILES_LIMIT }
    ensures name { IfOk result (λ f. f.name ≡ name.now) }
    ensures bytes { IfOk result (λ f. IfSome (S.holds store.old) (λ files. f.bytes.items ≡ bytes_of files dir.now name.now)) }
    ensures small { IfOk result (λ f. IsSmall f) }
    ensures fits { IfOk result (λ f. StreamFits before (length f.bytes.items)) }
    ensures fails { IfErr result (λ status. FailsBy (λ files refusal. StreamRefuses before (size_of files dir.now name.now) refusal) (store_seen S.holds S.faults store.old store.new) status) }
    ensures reads { OnlyReads (store_seen S.holds S.faults store.old store.new) }
{
    let bytes = match read_file(alloc, store, dir, name.as_bytes(), LIST_LIMIT) {
        Ok(bytes) => bytes,
        Err(error) => return Err(unread(Limit::File, error)),
    };
    if bytes.len() > FILES_LIMIT - before {
        return Err(too_large(Limit::Files));
    }
    let Ok(name) = Text::from_bytes(alloc, name.as_bytes()) else {
        return Err(Status::NoMemory);
    };
    Ok(FileBytes { name, bytes })
}
