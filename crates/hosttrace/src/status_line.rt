//! The line that says on the sink for errors how a command ended.
ghost use Rattle.std.specs.Prelude.{◌≡◌, ◌++◌, ◌∷◌, [], IfOk};
ghost use Rattle.hosttrace.specs.Outcome.{IsReported};
ghost use Rattle.hosttrace.specs.Statuses.{IsToldOf, status_line, refusal_text};
ghost use Rattle.hosttrace.specs.declared.status.Refusal.{Refusal};
ghost use Rattle.hosttrace.specs.declared.status.Status.TheVariants as statuses;

use crate::status::{Limit, ListFile, Refusal, Status};
use crate::writing::write_text;
use ht_outside::Sink;
use std::alloc::Global;
use std::fmt;
use std::io::Write;
use trace_types::OutOfMemory;

impl fmt::Display for Limit {
    ghost use Rattle.std.specs.Prelude.{Some};
    ghost use Rattle.hosttrace.specs.Statuses.{limit_text};

    ghost output = { λ what. Some (limit_text what) };

    fn fmt<W: fmt::Write>(&self, f: &mut fmt::Formatter<W>) -> fmt::Result {
        f.write_str(match self {
            Limit::Hosts => "hosts",
            Limit::Names => "names",
            Limit::Metadata => "metadata",
            Limit::File => "file",
            Limit::Files => "files",
            Limit::Packets => "packets",
            Limit::Questions => "questions",
        })
    }
}

impl fmt::Display for Refusal {
    ghost use Rattle.std.specs.Prelude.{Some};
    ghost use Rattle.hosttrace.specs.Statuses.{refusal_text};

    ghost output = { λ r. Some (refusal_text r) };

    fn fmt<W: fmt::Write>(&self, f: &mut fmt::Formatter<W>) -> fmt::Result {
        match *self {
            Refusal::NoMetadata { host } => write!(f, "host {host}: no metadata"),
            Refusal::BadMetadata { host, cause } => write!(f, "host {host}: metadata {cause}"),
            Refusal::BadList {
                file: ListFile::Events,
                line,
            } => write!(f, "list line {line}"),
            Refusal::BadList {
                file: ListFile::Questions,
                line,
            } => write!(f, "questions line {line}"),
            Refusal::TooLarge { what } => write!(f, "too large: {what}"),
            Refusal::TooManyEvents => f.write_str("too many events"),
            Refusal::NoThread { host, tid } => write!(f, "host {host}: no thread {tid}"),
        }
    }
}

/// Writes the line of a status that isn't `Done`, and answers the status: another one where the
/// line couldn't be written.
pub fn write_status<E: Sink>(alloc: Global, status: Status, err: &mut E) -> Status
    ensures answer { IsReported status result (E.faults err.old) (E.faults err.new) }
    ensures told { IsToldOf status result (E.contents err.old) (E.contents err.new) (E.faults err.old) (E.faults err.new) }
{
    let Status::Refused(refusal) = status else {
        return write_line(status, fixed_line(&status), err);
    };
    match refusal_line(alloc, refusal) {
        Ok(line) => write_line(status, &line, err),
        Err(OutOfMemory) => write_line(Status::NoMemory, fixed_line(&Status::NoMemory), err),
    }
}

fn write_line<E: Sink>(status: Status, line: &[u8], err: &mut E) -> Status
    requires { line.now ≡ status_line status }
    ensures answer { IsReported status result (E.faults err.old) (E.faults err.new) }
    ensures told { IsToldOf status result (E.contents err.old) (E.contents err.new) (E.faults err.old) (E.faults err.new) }
{
    match write_text(err, line) {
        Ok(()) => status,
        Err(error) => Status::from(error),
    }
}

// The line of a status that is no refusal.
fn fixed_line(status: &Status) -> &'static [u8]
    requires { (refusal : Refusal) → status.now ≡ statuses.Refused refusal → ⊥ }
    ensures { result.now ≡ status_line status.now }
{
    match status {
        Status::Done | Status::Refused(_) => b"",
        Status::Usage => b"usage\n",
        Status::ReadFault => b"read fault\n",
        Status::WriteFault => b"write fault\n",
        Status::NoMemory => b"out of memory\n",
    }
}

fn refusal_line(alloc: Global, refusal: Refusal) -> Result<Vec<u8>, OutOfMemory>
    ensures { IfOk result (λ line. line.items ≡ refusal_text refusal ++ 10 ∷ []) }
{
    let mut line = Vec::new(alloc);
    writeln!(line, "{refusal}").map_err(|_| OutOfMemory)?;
    Ok(line)
}
