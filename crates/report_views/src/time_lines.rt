//! How busy each processor was, and how long each thread ran.
ghost use Rattle.std.specs.Prelude.{◌≡◌, ◌++◌, ◌∷◌, [], if◌then◌else◌, IfOk, OnOk, filter, flat_map, IsPermutation};
ghost use Rattle.std.specs.List.{AllPairs};
ghost use Rattle.trace_types.specs.Order.{RiseFrom};
ghost use Rattle.trace_types.specs.Paths.{rank_of};
ghost use Rattle.report_views.specs.Ordered.{ordered};
ghost use Rattle.report_views.specs.TimeLines.{IsNotBelow, compare_paths, cpu_told, has_line, name_text, set_time, thread_told, time_lines};

use state_times::{StateTimes, times_of};
use std::alloc::Global;
use std::io::Write;
use trace_types::{CpuLeaf, Merged, OutOfMemory, Path, ThreadLeaf, Value, write_byte_text};

/// Appends the lines of processors and then those of threads.
pub fn write_times(alloc: Global, merged: &[Merged], out: &mut Vec<u8>) -> Result<(), OutOfMemory>
    requires { RiseFrom 0 merged.now }
    ensures { OnOk result (out.new.items ≡ out.old.items ++ time_lines merged.now) }
{
    let times = times_of(alloc, merged)?;
    let paths = lined(alloc, &times)?;
    write_cpus(&times, &paths, out)?;
    write_threads(&times, &paths, out)
}

// The processors and threads that had a value at some time, as they are listed.
fn lined(alloc: Global, times: &StateTimes) -> Result<Vec<Path>, OutOfMemory>
    ensures { IfOk result (λ paths. paths.items ≡ ordered compare_paths (filter has_line times.now.paths)) }
{
    let mut paths = with_lines(alloc, times)?;
    sort_paths(&mut paths);
    Ok(paths)
}

fn with_lines(alloc: Global, times: &StateTimes) -> Result<Vec<Path>, OutOfMemory>
    ensures { IfOk result (λ paths. paths.items ≡ filter has_line times.now.paths) }
{
    let mut paths = Vec::new(alloc);
    for number in 0..times.len() {
        keep(times.path_of(number), &mut paths)?;
    }
    Ok(paths)
}

// Keeps a path where a line tells of it.
fn keep(path: Path, paths: &mut Vec<Path>) -> Result<(), OutOfMemory>
    ensures { OnOk result (paths.new.items ≡ paths.old.items ++ (if has_line path then path ∷ [] else [])) }
{
    if has_line(path) {
        paths.push(path)?;
    }
    Ok(())
}

// Whether a line tells of it: a processor's Thread, or a thread's Status.
fn has_line(path: Path) -> bool
    ensures { result ≡ has_line path }
{
    matches!(
        path,
        Path::Cpu {
            leaf: CpuLeaf::Thread,
            ..
        } | Path::Thread {
            leaf: ThreadLeaf::Status,
            ..
        }
    )
}

fn sort_paths(paths: &mut [Path])
    ensures permutation { IsPermutation paths.old paths.new }
    ensures order { AllPairs IsNotBelow paths.new }
{
    paths.sort_unstable_by_key(
        |path: &Path|
            ensures { result ≡ rank_of path.now }
        { path.rank() },
    );
}

fn write_cpus(times: &StateTimes, paths: &[Path], out: &mut Vec<u8>) -> Result<(), OutOfMemory>
    ensures { OnOk result (out.new.items ≡ out.old.items ++ flat_map (cpu_told times.now) paths.now) }
{
    for path in paths {
        write_cpu(times, *path, out)?;
    }
    Ok(())
}

// The line of a processor, and nothing for a thread.
fn write_cpu(times: &StateTimes, path: Path, out: &mut Vec<u8>) -> Result<(), OutOfMemory>
    ensures { OnOk result (out.new.items ≡ out.old.items ++ cpu_told times.now path) }
{
    let Path::Cpu { host, cpu, .. } = path else {
        return Ok(());
    };
    let thread = Path::Cpu {
        host,
        cpu,
        leaf: CpuLeaf::Thread,
    };
    let irq = Path::Cpu {
        host,
        cpu,
        leaf: CpuLeaf::Irq,
    };
    let softirq = Path::Cpu {
        host,
        cpu,
        leaf: CpuLeaf::Softirq,
    };
    let idle = times.of(thread).zero;
    let unknown = times.of(thread).unset;
    let busy = set_time(times, thread).saturating_sub(idle);
    let irq = set_time(times, irq);
    let softirq = set_time(times, softirq);
    writeln!(
        out,
        "cpu {host} {cpu} busy {busy} idle {idle} unknown {unknown} irq {irq} softirq {softirq}"
    )
    .map_err(|_| OutOfMemory)
}

// How long an attribute had a value, in ns.
fn set_time(times: &StateTimes, path: Path) -> u64
    ensures { result ≡ set_time times.now path }
{
    times.window().saturating_sub(times.of(path).unset)
}

fn write_threads(times: &StateTimes, paths: &[Path], out: &mut Vec<u8>) -> Result<(), OutOfMemory>
    ensures { OnOk result (out.new.items ≡ out.old.items ++ flat_map (thread_told times.now) paths.now) }
{
    for path in paths {
        write_thread(times, *path, out)?;
    }
    Ok(())
}

// The line of a thread, and nothing for a processor.
fn write_thread(times: &StateTimes, path: Path, out: &mut Vec<u8>) -> Result<(), OutOfMemory>
    ensures { OnOk result (out.new.items ≡ out.old.items ++ thread_told times.now path) }
{
    let Path::Thread { host, thread, .. } = path else {
        return Ok(());
    };
    let name = times.of(Path::Thread {
        host,
        thread,
        leaf: ThreadLeaf::Name,
    });
    let status = times.of(Path::Thread {
        host,
        thread,
        leaf: ThreadLeaf::Status,
    });
    let running = status.one;
    write!(out, "thread {host} {thread} ").map_err(|_| OutOfMemory)?;
    write_name(&name.last, out)?;
    writeln!(out, " running {running}").map_err(|_| OutOfMemory)
}

// A thread's name as a small text, or that none is known.
fn write_name(name: &Value, out: &mut Vec<u8>) -> Result<(), OutOfMemory>
    ensures { OnOk result (out.new.items ≡ out.old.items ++ name_text name.now) }
{
    match *name {
        Value::Comm(comm) => write_byte_text(comm.as_bytes(), out),
        _ => {
            out.extend_from_slice(b"%-")?;
            Ok(())
        }
    }
}
