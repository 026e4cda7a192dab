//! Who holds a thread up at each instant of a window.
ghost use Rattle.std.specs.Prelude.{[], IfOk, IfErr, IfSome};
ghost use Rattle.command_words.specs.Words.{HasPathRanges, InputHasRange, IsDrift, IsWindow};
ghost use Rattle.ht_outside.specs.Files.{bytes_of};
ghost use Rattle.hosttrace.specs.Paths.{ArePlacedFolders, IsPathOutput, IsPathText, IsPlacedInput, IsPlacedList};
ghost use Rattle.hosttrace.specs.Refusals.{ClusterRefuses, InputRefuses, ListRefuses, PathRefuses, ThreadRefuses};
ghost use Rattle.hosttrace.specs.Seen.{FailsBy, FailsOf, OnlyReads, store_seen};
ghost use Rattle.wait_graph.specs.Graph.{IsMergeWithMessages};

use crate::causes::pathless;
use crate::clusters::read_cluster;
use crate::inputs::read_events;
use crate::status::Status;
use command_words::Input;
use critical_path::critical;
use host_merge::Placed;
use ht_outside::Store;
use list_messages::list_messages;
use report_views::pieces_text;
use std::alloc::Global;
use std::thread::Threads;
use trace_types::{Merged, Text};
use wait_graph::graph;

/// A thread of a host, and a window from an instant on up to another, in ns.
#[derive(Clone, Copy)]
pub struct Window {
    pub host: u32,
    pub tid: u32,
    pub from: u64,
    pub to: u64,
}

// The merge of an input, and where the messages among its hosts stand in it.
#[derive(Drop)]
struct PlacedMerge {
    merged: Vec<Merged>,
    placed: Vec<Placed>,
}

/// The critical path of a thread over a window, of an input.
pub fn text_of_path<S: Store>(
    threads: &(impl Threads + Sync),
    alloc: Global,
    input: &Input,
    window: Window,
    store: &mut S,
) -> Result<Vec<u8>, Status>
    requires { HasPathRanges input.now window.host window.tid window.from window.to }
    ensures text { IfOk result (λ text. IfSome (S.holds store.old) (λ files. IsPathOutput files input.now window.host window.tid window.from window.to text.items)) }
    ensures fails { IfErr result (λ status. FailsBy (λ files refusal. PathRefuses files input.now window.host window.tid refusal) (store_seen S.holds S.faults store.old store.new) status) }
    ensures reads { OnlyReads (store_seen S.holds S.faults store.old store.new) }
{
    let found = read_placed(threads, alloc, input, store)?;
    path_text(alloc, &found, window)
}

// The merge of an input with its messages, or the status that tells why there is none.
fn read_placed<S: Store>(
    threads: &(impl Threads + Sync),
    alloc: Global,
    input: &Input,
    store: &mut S,
) -> Result<PlacedMerge, Status>
    requires { InputHasRange input.now }
    ensures placed { IfOk result (λ found. IfSome (S.holds store.old) (λ files. IsPlacedInput input.now files found.merged.items found.placed.items)) }
    ensures merge { IfOk result (λ found. IsMergeWithMessages found.merged.items found.placed.items) }
    ensures fails { IfErr result (λ status. FailsBy (InputRefuses input.now) (store_seen S.holds S.faults store.old store.new) status) }
    ensures reads { OnlyReads (store_seen S.holds S.faults store.old store.new) }
{
    match input {
        Input::List(file) => placed_list(alloc, file, store),
        Input::Folders { dirs, drift } => {
            placed_folders(threads, alloc, dirs.as_slice(), *drift, store)
        }
    }
}

// The events of an event list with their messages.
fn placed_list<S: Store>(alloc: Global, file: &Text, store: &mut S) -> Result<PlacedMerge, Status>
    ensures placed { IfOk result (λ found. IfSome (S.holds store.old) (λ files. IsPlacedList (bytes_of files [] file.now) found.merged.items found.placed.items)) }
    ensures merge { IfOk result (λ found. IsMergeWithMessages found.merged.items found.placed.items) }
    ensures fails { IfErr result (λ status. FailsBy (λ files refusal. ListRefuses (bytes_of files [] file.now) refusal) (store_seen S.holds S.faults store.old store.new) status) }
    ensures reads { OnlyReads (store_seen S.holds S.faults store.old store.new) }
{
    let trace = read_events(alloc, file, store)?;
    let placed = list_messages(&trace)?;
    let merged = trace.events;
    Ok(PlacedMerge { merged, placed })
}

// The merge of folders' traces with their messages, by a drift in parts per million.
fn placed_folders<S: Store>(
    threads: &(impl Threads + Sync),
    alloc: Global,
    dirs: &[Text],
    drift: u32,
    store: &mut S,
) -> Result<PlacedMerge, Status>
    requires { IsDrift drift }
    ensures placed { IfOk result (λ found. IfSome (S.holds store.old) (λ files. ArePlacedFolders files dirs.now drift found.merged.items found.placed.items)) }
    ensures merge { IfOk result (λ found. IsMergeWithMessages found.merged.items found.placed.items) }
    ensures fails { IfErr result (λ status. FailsBy (λ files refusal. ClusterRefuses files dirs.now refusal) (store_seen S.holds S.faults store.old store.new) status) }
    ensures reads { OnlyReads (store_seen S.holds S.faults store.old store.new) }
{
    let cluster = read_cluster(threads, alloc, dirs, drift, store)?;
    let synced = cluster.synced;
    let merged = synced.merged;
    let placed = synced.placed;
    Ok(PlacedMerge { merged, placed })
}

// The text of the critical path, or the status that tells why there is none: no event names the thread, or lack of memory.
fn path_text(alloc: Global, found: &PlacedMerge, window: Window) -> Result<Vec<u8>, Status>
    requires merge { IsMergeWithMessages found.now.merged.items found.now.placed.items }
    requires window { IsWindow window.host window.tid window.from window.to }
    ensures text { IfOk result (λ text. IsPathText found.now.merged.items found.now.placed.items window.host window.tid window.from window.to text.items) }
    ensures fails { IfErr result (λ status. FailsOf (ThreadRefuses found.now.merged.items window.host window.tid) status) }
{
    let Window {
        host,
        tid,
        from,
        to,
    } = window;
    let graph = graph(alloc, &found.merged, &found.placed)?;
    let pieces = match critical(alloc, &graph, host, tid, from, to) {
        Ok(pieces) => pieces,
        Err(error) => return Err(pathless(host, tid, error)),
    };
    let mut text = Vec::new(alloc);
    pieces_text(alloc, &pieces, &mut text)?;
    Ok(text)
}
