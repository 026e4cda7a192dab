//! What the metadata of hosts declares.
ghost use Rattle.std.specs.Prelude.{◌≡◌, ◌≤◌, ◌^◌, ◌<◌, ℕ, List, Ok, length, map, IfOk, IfErr};
ghost use Rattle.type_scope.specs.Traces.{trace};
ghost use Rattle.type_table.specs.TraceMetas.{IsSoundMeta};
ghost use Rattle.trace_metadata.specs.Files.{IsTrace, IsRefused, OnRefusal};
ghost use Rattle.hosttrace.specs.Folders.{MAX_HOSTS};
ghost use Rattle.hosttrace.specs.Hosts.{AreTraces, host_lines};
ghost use Rattle.hosttrace.specs.Refusals.{HostsRefuse, MetadataRefuses};
ghost use Rattle.hosttrace.specs.Seen.{FailsOf};

use crate::causes::undeclared;
use crate::status::Status;
use report_views::check_text;
use sqlite_items::Items;
use std::alloc::Global;
use trace_metadata::{MetadataError, read_metadata};
use trace_types::OutOfMemory;
use type_table::TraceMeta;

/// What each host's metadata declares, or the status that tells of the first that is refused.
pub fn read_hosts(alloc: Global, files: &[Items<u8>]) -> Result<Vec<TraceMeta>, Status>
    requires { length files.now ≤ MAX_HOSTS }
    ensures traces { IfOk result (λ metas. AreTraces files.now (map trace metas.items)) }
    ensures each { IfOk result (λ metas. length metas.items ≡ length files.now) }
    ensures fails { IfErr result (λ status. FailsOf (HostsRefuse 0 files.now) status) }
{
    let mut metas = Vec::new(alloc);
    for at in 0..files.len() {
        metas.push(read_host(alloc, at as u32, files[at].as_slice())?)?;
    }
    Ok(metas)
}

/// What the metadata of this host declares.
pub fn read_host(alloc: Global, host: u32, bytes: &[u8]) -> Result<TraceMeta, Status>
    ensures trace { IfOk result (λ meta. IsTrace bytes.now (trace meta)) }
    ensures sound { IfOk result IsSoundMeta }
    ensures fails { IfErr result (λ status. FailsOf (MetadataRefuses host bytes.now) status) }
{
    host_meta(host, read_metadata(alloc, bytes))
}

/// What this host's metadata declares, or the status that tells why it is refused, from what reading it gave.
pub fn host_meta(host: u32, read: Result<TraceMeta, MetadataError>) -> Result<TraceMeta, Status>
    ensures meta { IfOk result (λ meta. read ≡ Ok meta) }
    ensures fails { (bytes : List ℕ) → OnRefusal (IsRefused bytes) read → IfErr result (λ status. FailsOf (MetadataRefuses host bytes) status) }
{
    match read {
        Ok(meta) => Ok(meta),
        Err(error) => Err(undeclared(host, error)),
    }
}

/// A line for each host, with the numbers of its streams, events and clocks.
pub fn check_lines(alloc: Global, metas: &[TraceMeta]) -> Result<Vec<u8>, OutOfMemory>
    requires { length metas.now ≤ MAX_HOSTS }
    ensures { IfOk result (λ text. text.items ≡ host_lines 0 (map trace metas.now)) }
{
    let mut text = Vec::new(alloc);
    for at in 0..metas.len() {
        check_text(alloc, at as u32, &metas[at], &mut text)?;
    }
    Ok(text)
}
