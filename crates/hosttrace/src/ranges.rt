//! What the command `range` prints.
ghost use Rattle.std.specs.Prelude.{IfErr, IfOk, IfSome};
ghost use Rattle.command_words.specs.Words.{HasRangeRanges};
ghost use Rattle.hosttrace.specs.Means.{IsRangeOutput};
ghost use Rattle.hosttrace.specs.Refusals.{InputRefuses};
ghost use Rattle.hosttrace.specs.Seen.{FailsBy, OnlyReads, store_seen};

use crate::inputs::read_input;
use crate::status::Status;
use command_words::Input;
use ht_outside::Store;
use report_views::range_text;
use std::alloc::Global;
use std::thread::Threads;
use trace_types::Path;

/// An attribute, and a range from one instant up to another, in ns. The latter doesn't belong to it.
#[derive(Clone, Copy, Debug)]
pub struct Span {
    pub from: u64,
    pub to: u64,
    pub path: Path,
}

/// The text of how the value of an attribute changed from one instant up to another, in ns, of an input.
pub fn text_of_range<S: Store>(
    threads: &(impl Threads + Sync),
    alloc: Global,
    input: &Input,
    span: Span,
    store: &mut S,
) -> Result<Vec<u8>, Status>
    requires { HasRangeRanges input.now span.from span.to span.path }
    ensures text { IfOk result (λ text. IfSome (S.holds store.old) (λ files. IsRangeOutput files input.now span.from span.to span.path text.items)) }
    ensures fails { IfErr result (λ status. FailsBy (InputRefuses input.now) (store_seen S.holds S.faults store.old store.new) status) }
    ensures reads { OnlyReads (store_seen S.holds S.faults store.old store.new) }
{
    let trace = read_input(threads, alloc, input, store)?;
    let mut text = Vec::new(alloc);
    range_text(alloc, &trace, span.from, span.to, span.path, &mut text)?;
    Ok(text)
}
