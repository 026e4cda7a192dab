//! The files of hosts, cut into pieces.
ghost use Rattle.std.specs.Prelude.{◌≡◌, ◌≤◌, ◌<◌, ◌^◌, ◌++◌, All, IfNone, IfOk, IfSome, OnOk, length, map};
ghost use Rattle.std.specs.List.{AllByRecursion};
ghost use Rattle.kernel_layout.specs.Tracepoints.{layout_of};
ghost use Rattle.packet_decoder.specs.Pieces.{AllLieIn, pieces};
ghost use Rattle.decode_pool.specs.Hosts.{IsSmall, all_parts};
ghost use Rattle.decode_pool.specs.Jobs.{Allows, CanDecode, IsCounted, IsCut, host_of, job_part};
ghost use Rattle.decode_pool.specs.Limits.{HasSmallFiles, host_packets, packet_count, packets_in};
ghost use Rattle.decode_pool.specs.Parts.{part_of, parts_of};

use crate::decoding::Job;
use crate::gathered::sum;
use crate::hosts::HostFiles;
use kernel_layout::Layout;
use packet_decoder::{Piece, cut_within};
use std::alloc::Global;
use trace_types::OutOfMemory;
use type_table::TraceMeta;

/// The pieces of the files of hosts, host after host and one file after the other, each with what decoding it needs, and
/// how many each host has.
#[derive(Drop)]
pub struct Pieces<'a> {
    pub jobs: Vec<Job<'a>>,
    pub hosts: Vec<HostPieces<'a>>,
}

/// How many pieces each file of a host has, how many they are together, and how many packets are among them.
#[derive(Drop)]
pub struct HostPieces<'a> {
    pub host: &'a HostFiles,
    pub counts: Vec<usize>,
    pub pieces: usize,
    pub packets: u64,
}

/// How many packets may come, and how many events of each of them are kept.
#[derive(Clone, Copy)]
pub struct Limits {
    pub packets: u64,
    pub events: u64,
}

/// The pieces of all hosts, and none where there are more packets than may come. Each file is cut once. `layouts` are
/// those of the hosts' traces.
pub fn cut_hosts<'a>(
    alloc: Global,
    hosts: &'a [HostFiles],
    layouts: &'a [Layout],
    limits: Limits,
) -> Result<Option<Pieces<'a>>, OutOfMemory>
    requires files { AllByRecursion HasSmallFiles hosts.now }
    requires layouts { layouts.now ≡ map (λ h. layout_of h.meta) hosts.now }
    ensures cut { IfOk result (λ r. IfSome r (λ cut. IsCut limits.events cut)) }
    ensures hosts { IfOk result (λ r. IfSome r (λ cut. map host_of cut.hosts.items ≡ hosts.now)) }
    ensures within { IfOk result (λ r. IfSome r (λ cut. packet_count hosts.now ≤ limits.packets)) }
    ensures more { IfOk result (λ r. IfNone r (limits.packets < packet_count hosts.now)) }
{
    let mut jobs = Vec::new(alloc);
    let mut cut = Vec::new(alloc);
    let mut left = limits;
    for at in 0..hosts.len() {
        let Some(pieces) = cut_host(alloc, &hosts[at], &layouts[at], left, &mut jobs)? else {
            return Ok(None);
        };
        left.packets -= pieces.packets;
        cut.push(pieces)?;
    }
    Ok(Some(Pieces { jobs, hosts: cut }))
}

/// Adds the pieces of a host; none where there are more packets than may come. `layout` is that of its trace.
pub fn cut_host<'a>(
    alloc: Global,
    host: &'a HostFiles,
    layout: &'a Layout,
    limits: Limits,
    jobs: &mut Vec<Job<'a>>,
) -> Result<Option<HostPieces<'a>>, OutOfMemory>
    requires layout { layout.now ≡ layout_of host.now.meta }
    requires files { AllByRecursion IsSmall host.now.files.items }
    requires can { All CanDecode jobs.old.items }
    requires allowed { All (Allows limits.events) jobs.old.items }
    ensures can { IfOk result (λ r. IfSome r (λ cut. All CanDecode jobs.new.items)) }
    ensures allowed { IfOk result (λ r. IfSome r (λ cut. All (Allows limits.events) jobs.new.items)) }
    ensures parts { IfOk result (λ r. IfSome r (λ cut. map job_part jobs.new.items ≡ map job_part jobs.old.items ++ all_parts host.now.host host.now.meta host.now.files.items)) }
    ensures counted { IfOk result (λ r. IfSome r (λ cut. IsCounted cut)) }
    ensures host { IfOk result (λ r. IfSome r (λ cut. cut.host.now ≡ host.now)) }
    ensures packets { IfOk result (λ r. IfSome r (λ cut. cut.packets ≡ host_packets host.now.meta host.now.files.items)) }
    ensures within { IfOk result (λ r. IfSome r (λ cut. cut.packets ≤ limits.packets)) }
    ensures more { IfOk result (λ r. IfNone r (limits.packets < host_packets host.now.meta host.now.files.items)) }
{
    let before = jobs.len();
    let mut counts = Vec::new(alloc);
    let mut left = limits;
    for file in host.files.as_slice() {
        let Some(own) = cut_file(alloc, host, layout, &file.bytes, left, jobs)? else {
            return Ok(None);
        };
        counts.push(own.pieces)?;
        left.packets -= own.packets;
    }
    Ok(Some(HostPieces {
        host,
        counts,
        pieces: jobs.len() - before,
        packets: limits.packets - left.packets,
    }))
}

// How many pieces a file has, and how many packets are among them.
#[derive(Clone, Copy)]
struct FilePieces {
    pieces: usize,
    packets: u64,
}

// Adds the pieces of a file; none where there are more packets than may come.
fn cut_file<'a>(
    alloc: Global,
    host: &'a HostFiles,
    layout: &'a Layout,
    file: &'a [u8],
    limits: Limits,
    jobs: &mut Vec<Job<'a>>,
) -> Result<Option<FilePieces>, OutOfMemory>
    requires layout { layout.now ≡ layout_of host.now.meta }
    requires file { length file.now ≤ 2 ^ 60 }
    requires can { All CanDecode jobs.old.items }
    requires allowed { All (Allows limits.events) jobs.old.items }
    ensures can { IfOk result (λ r. IfSome r (λ found. All CanDecode jobs.new.items)) }
    ensures allowed { IfOk result (λ r. IfSome r (λ found. All (Allows limits.events) jobs.new.items)) }
    ensures parts { IfOk result (λ r. IfSome r (λ found. map job_part jobs.new.items ≡ map job_part jobs.old.items ++ parts_of host.now.host host.now.meta file.now)) }
    ensures count { IfOk result (λ r. IfSome r (λ found. found.pieces ≡ length (parts_of host.now.host host.now.meta file.now))) }
    ensures packets { IfOk result (λ r. IfSome r (λ found. found.packets ≡ packets_in (pieces host.now.meta file.now))) }
    ensures within { IfOk result (λ r. IfSome r (λ found. found.packets ≤ limits.packets)) }
    ensures more { IfOk result (λ r. IfNone r (limits.packets < packets_in (pieces host.now.meta file.now))) }
{
    let known = layout.contexts(&host.meta);
    let Some(pieces) = cut_within(alloc, &host.meta, known, file, limits.packets)? else {
        return Ok(None);
    };
    let packets = packets_in(pieces.as_slice())?;
    add_jobs(host, layout, file, pieces.as_slice(), limits.events, jobs)?;
    Ok(Some(FilePieces {
        pieces: pieces.as_slice().len(),
        packets,
    }))
}

fn add_jobs<'a>(
    host: &'a HostFiles,
    layout: &'a Layout,
    file: &'a [u8],
    pieces: &[Piece],
    most: u64,
    jobs: &mut Vec<Job<'a>>,
) -> Result<(), OutOfMemory>
    requires layout { layout.now ≡ layout_of host.now.meta }
    requires file { length file.now ≤ 2 ^ 60 }
    requires pieces { AllLieIn file.now pieces.now }
    requires can { All CanDecode jobs.old.items }
    requires allowed { All (Allows most) jobs.old.items }
    ensures can { OnOk result (All CanDecode jobs.new.items) }
    ensures allowed { OnOk result (All (Allows most) jobs.new.items) }
    ensures parts { OnOk result (map job_part jobs.new.items ≡ map job_part jobs.old.items ++ map (part_of host.now.host host.now.meta file.now) pieces.now) }
{
    for piece in pieces {
        jobs.push(Job {
            host: host.host,
            meta: &host.meta,
            layout,
            file,
            piece: *piece,
            most,
        })?;
    }
    Ok(())
}

fn packets_in(pieces: &[Piece]) -> Result<u64, OutOfMemory>
    ensures { IfOk result (λ n. n ≡ packets_in pieces.now) }
{
    let mut count = 0;
    for piece in pieces {
        if let Piece::Packet(_) = piece {
            count = sum(count, 1)?;
        }
    }
    Ok(count)
}
