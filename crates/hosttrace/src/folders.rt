//! Reading the metadata of the folders that a command names.
ghost use Rattle.std.specs.Prelude.{◌≡◌, ◌+◌, ◌≤◌, ◌<◌, ◌^◌, ◌↔◌, length, map, count_by, codes, Contains, IsTrue, IfOk, IfErr, IfSome, OnOk};
ghost use Rattle.ht_outside.specs.Files.{ListsNames};
ghost use Rattle.hosttrace.specs.Folders.{FILES_LIMIT, MAX_HOSTS, METADATA_LIMIT, AreRead, HasFewNames, HasMetadata, IsRead, is_shown, metadata_of};
ghost use Rattle.hosttrace.specs.Refusals.{FolderRefuses, FoldersRefuse, NamesRefuse, SizeRefuses};
ghost use Rattle.hosttrace.specs.Seen.{FailsBy, OnlyReads, store_seen};

use crate::causes::{too_large, unread};
use crate::reading::read_file;
use crate::status::{Limit, Refusal, Status};
use ht_outside::Store;
use sqlite_items::Items;
use std::alloc::Global;
use trace_types::{MAX_HOSTS, Text};

/// How many names that don't begin with a dot may be in a folder.
const NAME_LIMIT: usize = 4_096;

/// How many bytes the metadata of a folder may have.
const METADATA_LIMIT: usize = 16_777_216;

/// How many bytes all files of all folders may have together.
pub const FILES_LIMIT: usize = 536_870_912;

/// Whether more folders are named than may be.
pub fn is_crowd(folders: &[Text]) -> bool
    ensures { IsTrue result ↔ (MAX_HOSTS < length folders.now) }
{
    folders.len() > MAX_HOSTS
}

/// The bytes of the metadata of each folder.
pub fn read_folders<S: Store>(
    alloc: Global,
    folders: &[Text],
    store: &mut S,
) -> Result<Vec<Items<u8>>, Status>
    requires { length folders.now ≤ MAX_HOSTS }
    ensures read { IfOk result (λ texts. IfSome (S.holds store.old) (λ files. AreRead files 0 folders.now)) }
    ensures bytes { IfOk result (λ texts. IfSome (S.holds store.old) (λ files. texts.items ≡ map (metadata_of files) folders.now)) }
    ensures each { IfOk result (λ texts. length texts.items ≡ length folders.now) }
    ensures fails { IfErr result (λ status. FailsBy (λ files refusal. FoldersRefuse files 0 0 folders.now refusal) (store_seen S.holds S.faults store.old store.new) status) }
    ensures reads { OnlyReads (store_seen S.holds S.faults store.old store.new) }
{
    let mut texts = Vec::new(alloc);
    let mut total = 0;
    for at in 0..folders.len() {
        let bytes = read_folder(alloc, at as u32, total, folders[at].as_bytes(), store)?;
        total += bytes.len();
        texts.push(bytes)?;
    }
    Ok(texts)
}

// The metadata of a folder, where so many bytes of others were read before.
fn read_folder<S: Store>(
    alloc: Global,
    host: u32,
    before: usize,
    dir: &[u8],
    store: &mut S,
) -> Result<Items<u8>, Status>
    requires { before ≤ FILES_LIMIT }
    ensures bytes { IfOk result (λ bytes. IfSome (S.holds store.old) (λ files. bytes ≡ metadata_of files dir.now)) }
    ensures read { IfOk result (λ bytes. IfSome (S.holds store.old) (λ files. IsRead files before dir.now)) }
    ensures all { IfOk result (λ bytes. before + length bytes ≤ FILES_LIMIT) }
    ensures fails { IfErr result (λ status. FailsBy (λ files refusal. FolderRefuses files host before dir.now refusal) (store_seen S.holds S.faults store.old store.new) status) }
    ensures reads { OnlyReads (store_seen S.holds S.faults store.old store.new) }
{
    look_into(host, dir, store)?;
    read_metadata_of(alloc, before, dir, store)
}

/// The names in a folder, in any order. Refused are too many, and a folder without metadata.
pub fn look_into<S: Store>(host: u32, dir: &[u8], store: &mut S) -> Result<Vec<Text>, Status>
    ensures named { OnOk result (IfSome (S.holds store.old) (λ files. HasFewNames files dir.now × HasMetadata files dir.now)) }
    ensures names { IfOk result (λ names. IfSome (S.holds store.old) (λ files. ListsNames files dir.now names.items)) }
    ensures fails { IfErr result (λ status. FailsBy (λ files refusal. NamesRefuse files host dir.now refusal) (store_seen S.holds S.faults store.old store.new) status) }
    ensures reads { OnlyReads (store_seen S.holds S.faults store.old store.new) }
{
    let names = match store.names(dir) {
        Ok(names) => names,
        Err(error) => return Err(Status::from(error)),
    };
    if shown(&names) > NAME_LIMIT {
        return Err(too_large(Limit::Names));
    }
    if !has_metadata(&names) {
        return Err(Status::Refused(Refusal::NoMetadata { host }));
    }
    Ok(names)
}

// How many names don't begin with a dot.
fn shown(names: &[Text]) -> usize
    ensures { result ≡ count_by is_shown names.now }
{
    names
        .iter()
        .filter(
            |name: &&Text|
                ensures { result ≡ is_shown name.now.now }
            { is_shown(name.as_bytes()) },
        )
        .count()
}

/// Whether a name doesn't begin with a dot.
pub fn is_shown(name: &[u8]) -> bool
    ensures { result ≡ is_shown name.now }
{
    !matches!(name, [b'.', ..])
}

// Whether one of the names is that of metadata.
fn has_metadata(names: &[Text]) -> bool
    ensures { IsTrue result ↔ Contains names.now (codes "metadata") }
{
    names
        .iter()
        .any(|name| name.as_bytes() == b"metadata".as_slice())
}

/// The metadata of a folder, where so many bytes of others were read before.
pub fn read_metadata_of<S: Store>(
    alloc: Global,
    before: usize,
    dir: &[u8],
    store: &mut S,
) -> Result<Items<u8>, Status>
    requires { before ≤ FILES_LIMIT }
    ensures bytes { IfOk result (λ bytes. IfSome (S.holds store.old) (λ files. bytes ≡ metadata_of files dir.now)) }
    ensures small { IfOk result (λ bytes. length bytes ≤ METADATA_LIMIT) }
    ensures all { IfOk result (λ bytes. before + length bytes ≤ FILES_LIMIT) }
    ensures fails { IfErr result (λ status. FailsBy (λ files refusal. SizeRefuses before (length (metadata_of files dir.now)) refusal) (store_seen S.holds S.faults store.old store.new) status) }
    ensures reads { OnlyReads (store_seen S.holds S.faults store.old store.new) }
{
    let bytes = match read_file(alloc, store, dir, b"metadata", METADATA_LIMIT) {
        Ok(bytes) => bytes,
        Err(error) => return Err(unread(Limit::Metadata, error)),
    };
    if bytes.len() > FILES_LIMIT - before {
        return Err(too_large(Limit::Files));
    }
    Ok(Items::from_vec(bytes))
}
