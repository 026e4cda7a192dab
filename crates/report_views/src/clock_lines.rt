//! The lines of a report that tell how clocks fit: the pairs of hosts between which messages went, and the forest.
ghost use Rattle.std.specs.Prelude.{◌≡◌, ◌++◌, ◌*◌, ◌^◌, ◌≤◌, ◌<◌, All, IfOk, OnOk, Some, length};
ghost use Rattle.host_tree.specs.Points.{IsBetween};
ghost use Rattle.report_views.specs.Report.{AreCounted, count_at, count_from, deviation, is_map, pair_line, pair_lines, pair_lines_of, tree_line, tree_lines, yes_or_no};

use clock_fraction::Slope;
use host_tree::Parent;
use hull_lines::Fit;
use message_match::Message;
use std::alloc::Global;
use std::io::Write;
use trace_types::OutOfMemory;

/// A line for each two hosts between which messages went, in the order of their numbers.
pub fn write_pairs(
    alloc: Global,
    hosts: usize,
    matched: &[Message],
    fits: &[Fit],
    out: &mut Vec<u8>,
) -> Result<(), OutOfMemory>
    requires few { hosts ≤ 64 }
    requires square { length fits.now ≡ hosts * hosts }
    requires between { All (IsBetween hosts) matched.now }
    requires count { length matched.now < 2 ^ 60 }
    ensures { OnOk result (out.new.items ≡ out.old.items ++ pair_lines hosts (count_from matched.now) fits.now) }
{
    let counts = count_messages(alloc, hosts, matched)?;
    for first in 0..hosts {
        write_pairs_of(hosts, first, &counts, fits, out)?;
    }
    Ok(())
}

// How many messages go between each two hosts.
fn count_messages(alloc: Global, hosts: usize, matched: &[Message]) -> Result<Vec<u64>, OutOfMemory>
    requires few { hosts ≤ 64 }
    requires between { All (IsBetween hosts) matched.now }
    requires count { length matched.now < 2 ^ 60 }
    ensures { IfOk result (λ counts. AreCounted hosts matched.now counts.items) }
{
    let mut counts: Vec<u64> = vec![in alloc; 0; hosts * hosts]?;
    for message in matched {
        let place = message.from as usize * hosts + message.to as usize;
        counts[place] += 1;
    }
    Ok(counts)
}

// The lines of a host with the hosts after it.
fn write_pairs_of(
    hosts: usize,
    first: usize,
    counts: &[u64],
    fits: &[Fit],
    out: &mut Vec<u8>,
) -> Result<(), OutOfMemory>
    requires few { hosts ≤ 64 }
    requires first { first < hosts }
    requires square { length fits.now ≡ hosts * hosts }
    requires counts { length counts.now ≡ hosts * hosts }
    ensures { OnOk result (out.new.items ≡ out.old.items ++ pair_lines_of hosts (count_at hosts counts.now) fits.now first) }
{
    for second in first + 1..hosts {
        write_pair(hosts, first, second, counts, fits, out)?;
    }
    Ok(())
}

fn write_pair(
    hosts: usize,
    first: usize,
    second: usize,
    counts: &[u64],
    fits: &[Fit],
    out: &mut Vec<u8>,
) -> Result<(), OutOfMemory>
    requires few { hosts ≤ 64 }
    requires first { first < hosts }
    requires second { second < hosts }
    requires square { length fits.now ≡ hosts * hosts }
    requires counts { length counts.now ≡ hosts * hosts }
    ensures { OnOk result (out.new.items ≡ out.old.items ++ pair_line hosts (count_at hosts counts.now) fits.now first second) }
{
    let there = first * hosts + second;
    let back = second * hosts + first;
    let (sent, returned) = (counts[there], counts[back]);
    if sent == 0 && returned == 0 {
        return Ok(());
    }
    write!(out, "pair {first} {second} {sent} {returned} ").map_err(|_| OutOfMemory)?;
    let usable = yes_or_no(is_map(&fits[there]));
    let back_usable = yes_or_no(is_map(&fits[back]));
    writeln!(out, "{usable} {back_usable}").map_err(|_| OutOfMemory)
}

fn is_map(fit: &Fit) -> bool
    ensures { result ≡ is_map (Some fit.now) }
{
    matches!(fit, Fit::Map(_))
}

fn yes_or_no(yes: bool) -> &'static str
    ensures { result.now ≡ yes_or_no yes }
{
    if yes { "yes" } else { "no" }
}

/// A line for each host: whose clock it is brought to, and by which slopes.
pub fn write_trees(forest: &[Parent], out: &mut Vec<u8>) -> Result<(), OutOfMemory>
    ensures { OnOk result (out.new.items ≡ out.old.items ++ tree_lines forest.now) }
{
    for host in 0..forest.len() {
        write_tree(host, &forest[host], out)?;
    }
    Ok(())
}

fn write_tree(host: usize, parent: &Parent, out: &mut Vec<u8>) -> Result<(), OutOfMemory>
    ensures { OnOk result (out.new.items ≡ out.old.items ++ tree_line host (Some parent.now)) }
{
    match *parent {
        Parent::Root => writeln!(out, "tree {host} root").map_err(|_| OutOfMemory),
        Parent::Child { parent, map } => {
            let steep = deviation(map.steep.slope);
            let flat = deviation(map.flat.slope);
            writeln!(out, "tree {host} parent {parent} steep {steep} flat {flat}").map_err(
                |_| OutOfMemory,
            )
        }
    }
}

// By how many parts in 10^9 the clock goes faster than its parent's, rounded down.
fn deviation(slope: Slope) -> i128
    ensures { result ≡ deviation slope }
{
    (slope.p as u128 * 1_000_000_000 / slope.q as u128) as i128 - 1_000_000_000
}
