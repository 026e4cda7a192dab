//! The summary of traces that are made up in memory.
ghost use Rattle.std.specs.Prelude.{◌≡◌, IfOk, IfErr};
ghost use Rattle.std.specs.Fmt.{decimal};
ghost use Rattle.command_words.specs.Words.{AreSizes};
ghost use Rattle.host_sync.specs.Hosts.{synced_of};
ghost use Rattle.report_views.specs.Made.{made_text};
ghost use Rattle.hosttrace.specs.Clusters.{AreSyncedTraces, IsSyncedCluster};
ghost use Rattle.hosttrace.specs.Making.{IsMakeOutput, made_files, made_folders};
ghost use Rattle.hosttrace.specs.Refusals.{MakeRefuses};
ghost use Rattle.hosttrace.specs.Seen.{FailsOf};

use crate::clusters::{Cluster, read_cluster};
use crate::status::Status;
use report_views::made_text;
use std::alloc::Global;
use std::io::Write;
use std::thread::Threads;
use trace_gen::make;
use trace_types::{OutOfMemory, Text};

/// The drift by which made traces are brought to one clock, in parts per million.
const MADE_DRIFT: u32 = 1_000;

/// The summary of the traces that a number makes of so many hosts and rounds.
pub fn text_of_make(
    threads: &(impl Threads + Sync),
    alloc: Global,
    number: u64,
    hosts: u32,
    rounds: u32,
) -> Result<Vec<u8>, Status>
    requires { AreSizes number hosts rounds }
    ensures text { IfOk result (λ text. IsMakeOutput number hosts rounds text.items) }
    ensures fails { IfErr result (λ status. FailsOf (MakeRefuses number hosts rounds) status) }
{
    let cluster = made_cluster(threads, alloc, number, hosts, rounds)?;
    Ok(summary_of(alloc, hosts, rounds, &cluster)?)
}

// The made hosts on one clock.
fn made_cluster(
    threads: &(impl Threads + Sync),
    alloc: Global,
    number: u64,
    hosts: u32,
    rounds: u32,
) -> Result<Cluster, Status>
    requires { AreSizes number hosts rounds }
    ensures cluster { IfOk result (λ c. AreSyncedTraces (made_files number hosts rounds) (made_folders hosts) 1000 c.hosts.items (synced_of c.synced)) }
    ensures synced { IfOk result (λ c. IsSyncedCluster c.hosts.items 1000 (synced_of c.synced)) }
    ensures fails { IfErr result (λ status. FailsOf (MakeRefuses number hosts rounds) status) }
{
    let mut store = make(alloc, number, hosts, rounds)?;
    let dirs = made_folders(alloc, hosts)?;
    read_cluster(threads, alloc, &dirs, MADE_DRIFT, &mut store)
}

// The names of the made folders.
fn made_folders(alloc: Global, hosts: u32) -> Result<Vec<Text>, OutOfMemory>
    ensures { IfOk result (λ dirs. dirs.items ≡ made_folders hosts) }
{
    let mut dirs = Vec::new(alloc);
    for host in 0..hosts {
        dirs.push(folder_name(alloc, host)?)?;
    }
    Ok(dirs)
}

fn folder_name(alloc: Global, host: u32) -> Result<Text, OutOfMemory>
    ensures { IfOk result (λ name. name ≡ decimal host) }
{
    let mut digits = Vec::new(alloc);
    write!(digits, "{host}").map_err(|_| OutOfMemory)?;
    Ok(Text::from_vec(digits))
}

// The summary of made hosts on one clock.
fn summary_of(
    alloc: Global,
    hosts: u32,
    rounds: u32,
    cluster: &Cluster,
) -> Result<Vec<u8>, OutOfMemory>
    requires { IsSyncedCluster cluster.now.hosts.items 1000 (synced_of cluster.now.synced) }
    ensures { IfOk result (λ text. let s = synced_of cluster.now.synced in text.items ≡ made_text hosts rounds s.matched s.ambiguous s.parents s.merged s.placed) }
{
    let synced = &cluster.synced;
    let mut text = Vec::new(alloc);
    made_text(
        alloc,
        hosts,
        rounds,
        &synced.messages,
        &synced.forest,
        &synced.merged,
        &synced.placed,
        &mut text,
    )?;
    Ok(text)
}
