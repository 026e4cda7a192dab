//! The traces of folders on one clock.
ghost use Rattle.std.specs.Prelude.{◌≡◌, ◌≤◌, length, map, IfOk, IfErr, IfSome};
ghost use Rattle.std.specs.List.{AllByRecursion};
ghost use Rattle.command_words.specs.Words.{IsDrift};
ghost use Rattle.history_core.specs.Agreement.{IsMerge};
ghost use Rattle.trace_types.specs.declared.limits.TheConstants.{MAX_EVENTS};
ghost use Rattle.decode_pool.specs.Limits.{AreHosts, HasSmallFiles};
ghost use Rattle.host_sync.specs.Hosts.{synced_of};
ghost use Rattle.host_sync.specs.Laws.{FilesAreNumbered};
ghost use Rattle.host_sync.specs.Synced.{IsSynced};
ghost use Rattle.hosttrace.specs.Clusters.{AreSyncedTraces, IsCluster, IsSyncedCluster, IsWithinLimits};
ghost use Rattle.report_views.specs.Report.{report_text};
ghost use Rattle.hosttrace.specs.Folders.{MAX_HOSTS};
ghost use Rattle.hosttrace.specs.Refusals.{ClusterRefuses, LimitsRefuse, ReadingRefuses};
ghost use Rattle.hosttrace.specs.Seen.{FailsBy, FailsOf, OnlyReads, store_seen};
ghost use Rattle.hosttrace.specs.Streams.{AreHostsOf};

use crate::causes::too_large;
use crate::declared::declared_hosts;
use crate::folders::is_crowd;
use crate::status::{Limit, Status};
use crate::trace_files::read_trace_files;
use decode_pool::{HostFiles, decode_all};
use event_list::MergedTrace;
use host_sync::{SyncedHosts, synchronize};
use ht_outside::Store;
use report_views::report;
use sqlite_items::Items;
use std::alloc::Global;
use std::thread::Threads;
use trace_types::{HostEvents, MAX_HOSTS, OutOfMemory, Text};

/// The hosts of folders, and what synchronization gives of them.
#[derive(Drop)]
pub struct Cluster {
    pub hosts: Vec<HostEvents>,
    pub synced: SyncedHosts,
}

/// The merge of folders' traces, by a drift in parts per million, or the status that tells why there is none.
pub fn read_merge<S: Store>(
    threads: &(impl Threads + Sync),
    alloc: Global,
    dirs: &[Text],
    drift: u32,
    store: &mut S,
) -> Result<MergedTrace, Status>
    requires { IsDrift drift }
    ensures trace { IfOk result (λ trace. IfSome (S.holds store.old) (λ files. IsCluster files dirs.now drift trace)) }
    ensures merge { IfOk result (λ trace. IsMerge trace.events.items) }
    ensures fails { IfErr result (λ status. FailsBy (λ files refusal. ClusterRefuses files dirs.now refusal) (store_seen S.holds S.faults store.old store.new) status) }
    ensures reads { OnlyReads (store_seen S.holds S.faults store.old store.new) }
{
    let cluster = read_cluster(threads, alloc, dirs, drift, store)?;
    Ok(merged_trace(alloc, cluster)?)
}

/// The hosts of folders on one clock, by a drift in parts per million, or the status that tells why there are none.
pub fn read_cluster<S: Store>(
    threads: &(impl Threads + Sync),
    alloc: Global,
    dirs: &[Text],
    drift: u32,
    store: &mut S,
) -> Result<Cluster, Status>
    requires { IsDrift drift }
    ensures cluster { IfOk result (λ c. IfSome (S.holds store.old) (λ files. AreSyncedTraces files dirs.now drift c.hosts.items (synced_of c.synced))) }
    ensures synced { IfOk result (λ c. IsSyncedCluster c.hosts.items drift (synced_of c.synced)) }
    ensures merge { IfOk result (λ c. IsMerge c.synced.merged.items) }
    ensures few { IfOk result (λ c. length c.synced.merged.items ≤ MAX_EVENTS) }
    ensures fails { IfErr result (λ status. FailsBy (λ files refusal. ClusterRefuses files dirs.now refusal) (store_seen S.holds S.faults store.old store.new) status) }
    ensures reads { OnlyReads (store_seen S.holds S.faults store.old store.new) }
{
    if is_crowd(dirs) {
        return Err(too_large(Limit::Hosts));
    }
    let hosts = read_host_files(threads, alloc, dirs, store)?;
    synced_hosts(threads, alloc, &hosts, drift)
}

// What the metadata of each folder declares, and its stream files.
fn read_host_files<S: Store>(
    threads: &(impl Threads + Sync),
    alloc: Global,
    dirs: &[Text],
    store: &mut S,
) -> Result<Vec<HostFiles>, Status>
    requires { length dirs.now ≤ MAX_HOSTS }
    ensures hosts { IfOk result (λ hosts. IfSome (S.holds store.old) (λ files. AreHostsOf files dirs.now hosts.items)) }
    ensures numbered { IfOk result (λ hosts. FilesAreNumbered hosts.items) }
    ensures few { IfOk result (λ hosts. length hosts.items ≤ MAX_HOSTS) }
    ensures small { IfOk result (λ hosts. AllByRecursion HasSmallFiles hosts.items) }
    ensures fails { IfErr result (λ status. FailsBy (λ files refusal. ReadingRefuses files dirs.now refusal) (store_seen S.holds S.faults store.old store.new) status) }
    ensures reads { OnlyReads (store_seen S.holds S.faults store.old store.new) }
{
    let read = read_trace_files(alloc, dirs, store)?;
    declared_hosts(threads, alloc, read)
}

// What the files of hosts hold, on one clock, or the status that tells that it is too much.
fn synced_hosts(
    threads: &(impl Threads + Sync),
    alloc: Global,
    hosts: &[HostFiles],
    drift: u32,
) -> Result<Cluster, Status>
    requires small { AllByRecursion HasSmallFiles hosts.now }
    requires numbered { FilesAreNumbered hosts.now }
    requires few { length hosts.now ≤ MAX_HOSTS }
    requires drift { IsDrift drift }
    ensures cluster { IfOk result (λ c. IsWithinLimits hosts.now × AreHosts hosts.now c.hosts.items × IsSynced c.hosts.items drift (synced_of c.synced)) }
    ensures synced { IfOk result (λ c. IsSyncedCluster c.hosts.items drift (synced_of c.synced)) }
    ensures merge { IfOk result (λ c. IsMerge c.synced.merged.items) }
    ensures few { IfOk result (λ c. length c.synced.merged.items ≤ MAX_EVENTS) }
    ensures fails { IfErr result (λ status. FailsOf (LimitsRefuse hosts.now) status) }
{
    let hosts = match decode_all(threads, alloc, hosts) {
        Ok(found) => found,
        Err(error) => return Err(Status::from(error)),
    };
    let synced = synchronize(alloc, &hosts, drift)?;
    Ok(Cluster { hosts, synced })
}

/// The report on a cluster.
pub fn report_of(alloc: Global, cluster: &Cluster, drift: u32) -> Result<Vec<u8>, OutOfMemory>
    requires synced { IsSyncedCluster cluster.now.hosts.items drift (synced_of cluster.now.synced) }
    requires merge { IsMerge cluster.now.synced.merged.items }
    ensures { IfOk result (λ text. let s = synced_of cluster.now.synced in text.items ≡ report_text cluster.now.hosts.items s.matched s.ambiguous s.fits s.parents s.merged s.placed drift) }
{
    let synced = &cluster.synced;
    let mut text = Vec::new(alloc);
    report(
        alloc,
        &cluster.hosts,
        &synced.messages,
        &synced.fits,
        &synced.forest,
        &synced.merged,
        &synced.placed,
        drift,
        &mut text,
    )?;
    Ok(text)
}

// The merge with the names of each host. The events aren't copied.
fn merged_trace(alloc: Global, cluster: Cluster) -> Result<MergedTrace, OutOfMemory>
    ensures events { IfOk result (λ trace. trace.events.items ≡ cluster.synced.merged.items) }
    ensures names { IfOk result (λ trace. trace.names.items ≡ map (λ host. host.names.items) cluster.hosts.items) }
{
    let names = names_of(alloc, cluster.hosts)?;
    Ok(MergedTrace {
        events: cluster.synced.merged,
        names,
    })
}

// The event names of each host.
fn names_of(alloc: Global, hosts: Vec<HostEvents>) -> Result<Vec<Items<Text>>, OutOfMemory>
    ensures { IfOk result (λ names. names.items ≡ map (λ host. host.names.items) hosts.items) }
{
    let mut names = Vec::new(alloc);
    for host in hosts {
        names.push(Items::from_vec(host.names))?;
    }
    Ok(names)
}
