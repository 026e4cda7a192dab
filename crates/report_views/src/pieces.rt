//! The text of a critical path.
ghost use Rattle.std.specs.Prelude.{◌≡◌, ◌++◌, IfOk, OnOk, OnErr};
ghost use Rattle.report_views.specs.Pieces.{piece_line, pieces_text, what_word};

use critical_path::{PathPiece, What};
use std::alloc::Global;
use std::io::Write;
use trace_types::OutOfMemory;

/// Appends a line for each piece, in their order. The only error is lack of memory, after which nothing has changed.
pub fn pieces_text(
    alloc: Global,
    pieces: &[PathPiece],
    out: &mut Vec<u8>,
) -> Result<(), OutOfMemory>
    ensures text { OnOk result (out.new.items ≡ out.old.items ++ pieces_text pieces.now) }
    ensures err { OnErr result (out.new.items ≡ out.old.items) }
{
    out.append(&mut piece_lines(alloc, pieces)?)?;
    Ok(())
}

fn piece_lines(alloc: Global, pieces: &[PathPiece]) -> Result<Vec<u8>, OutOfMemory>
    ensures { IfOk result (λ text. text.items ≡ pieces_text pieces.now) }
{
    let mut text = Vec::new(alloc);
    for piece in pieces {
        write_piece(piece, &mut text)?;
    }
    Ok(text)
}

fn write_piece(piece: &PathPiece, out: &mut Vec<u8>) -> Result<(), OutOfMemory>
    ensures { OnOk result (out.new.items ≡ out.old.items ++ piece_line piece.now) }
{
    let PathPiece {
        from,
        to,
        host,
        tid,
        what,
    } = *piece;
    let word = what_word(what);
    writeln!(out, "piece {from} {to} {host} {tid} {word}").map_err(|_| OutOfMemory)
}

// The word of what holds a thread up.
fn what_word(what: What) -> &'static str
    ensures { result.now ≡ what_word what }
{
    match what {
        What::Running => "running",
        What::Waiting => "waiting",
        What::Unknown => "unknown",
        What::Timer => "timer",
        What::Disk => "disk",
        What::Interrupt => "interrupt",
        What::Nobody => "nobody",
        What::Transit => "transit",
    }
}
