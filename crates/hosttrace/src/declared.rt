//! The hosts that folders declare, whose metadata is read side by side.
ghost use Rattle.std.specs.Prelude.{◌≡◌, ◌≤◌, length, map, IfOk, IfErr};
ghost use Rattle.std.specs.List.{AllByRecursion};
ghost use Rattle.decode_pool.specs.Limits.{HasSmallFiles};
ghost use Rattle.hosttrace.specs.Folders.{MAX_HOSTS};
ghost use Rattle.hosttrace.specs.Read.{AreDeclared, HasSmallStreams, IsDeclared};
ghost use Rattle.hosttrace.specs.DeclaredFolders.{HasReadMetadata};
ghost use Rattle.hosttrace.specs.Refusals.{HostsRefuse, MetadataRefuses};
ghost use Rattle.hosttrace.specs.Seen.{FailsOf};

use crate::hosts::host_meta;
use crate::status::Status;
use crate::trace_files::FolderFiles;
use decode_pool::HostFiles;
use rayon::prelude::*;
use std::alloc::Global;
use std::thread::Threads;
use trace_metadata::{MetadataError, read_metadata};
use trace_types::{MAX_HOSTS, OutOfMemory};
use type_table::TraceMeta;

// The files of a folder, and what reading its metadata gave.
#[derive(Drop)]
struct DeclaredFolder {
    folder: FolderFiles,
    meta: Result<TraceMeta, MetadataError>,
}

/// The hosts whose files were read, numbered from 0, or the status that tells of the first metadata that is refused,
/// whatever the number of processors.
pub fn declared_hosts(
    threads: &(impl Threads + Sync),
    alloc: Global,
    read: Vec<FolderFiles>,
) -> Result<Vec<HostFiles>, Status>
    requires few { length read.items ≤ MAX_HOSTS }
    requires small { AllByRecursion HasSmallStreams read.items }
    ensures hosts { IfOk result (λ hosts. AreDeclared 0 read.items hosts.items) }
    ensures small { IfOk result (λ hosts. AllByRecursion HasSmallFiles hosts.items) }
    ensures fails { IfErr result (λ status. FailsOf (HostsRefuse 0 (map (λ r. r.metadata) read.items)) status) }
{
    let folders = read_metas(threads, alloc, read)?;
    numbered_hosts(alloc, folders)
}

// The folders in their order, each with what reading its metadata gave.
fn read_metas(
    threads: &(impl Threads + Sync),
    alloc: Global,
    read: Vec<FolderFiles>,
) -> Result<Vec<DeclaredFolder>, OutOfMemory>
    ensures same { IfOk result (λ folders. map (λ f. f.folder) folders.items ≡ read.items) }
    ensures each { IfOk result (λ folders. AllByRecursion HasReadMetadata folders.items) }
{
    let folders: Vec<DeclaredFolder> = read
        .into_par_iter()
        .with_min_len(1)
        .map(
            |folder: FolderFiles| -> DeclaredFolder
                ensures { (result.folder ≡ folder) × HasReadMetadata result }
            { read_meta(alloc, folder) },
        )
        .collect(threads, alloc)?;
    Ok(folders)
}

fn read_meta(alloc: Global, folder: FolderFiles) -> DeclaredFolder
    ensures { (result.folder ≡ folder) × HasReadMetadata result }
{
    let meta = read_metadata(alloc, folder.metadata.as_slice());
    DeclaredFolder { folder, meta }
}

// The hosts of folders, numbered from 0, or the status that tells of the first metadata that is refused.
fn numbered_hosts(alloc: Global, folders: Vec<DeclaredFolder>) -> Result<Vec<HostFiles>, Status>
    requires few { length folders.items ≤ MAX_HOSTS }
    requires each { AllByRecursion HasReadMetadata folders.items }
    ensures hosts { IfOk result (λ hosts. AreDeclared 0 (map (λ f. f.folder) folders.items) hosts.items) }
    ensures fails { IfErr result (λ status. FailsOf (HostsRefuse 0 (map (λ r. r.metadata) (map (λ f. f.folder) folders.items))) status) }
{
    let mut hosts = Vec::new(alloc);
    let mut host = 0;
    for folder in folders {
        hosts.push(declared_host(host, folder)?)?;
        host += 1;
    }
    Ok(hosts)
}

// The host of this number, or the status that tells why its metadata is refused. The stream files aren't copied.
fn declared_host(host: u32, read: DeclaredFolder) -> Result<HostFiles, Status>
    requires { HasReadMetadata read }
    ensures host { IfOk result (λ h. IsDeclared host read.folder h) }
    ensures fails { IfErr result (λ status. FailsOf (MetadataRefuses host read.folder.metadata) status) }
{
    let meta = host_meta(host, read.meta)?;
    Ok(HostFiles {
        host,
        meta,
        files: read.folder.streams,
    })
}
