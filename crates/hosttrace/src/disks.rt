//! What the command `disks` prints.
ghost use Rattle.std.specs.Prelude.{IfErr, IfOk, IfSome};
ghost use Rattle.command_words.specs.Words.{InputHasRange};
ghost use Rattle.hosttrace.specs.Means.{IsDisksOutput};
ghost use Rattle.hosttrace.specs.Refusals.{InputRefuses};
ghost use Rattle.hosttrace.specs.Seen.{FailsBy, OnlyReads, store_seen};

use crate::inputs::read_input;
use crate::status::Status;
use command_words::Input;
use disk_requests::requests;
use ht_outside::Store;
use report_views::disks_text;
use std::alloc::Global;
use std::thread::Threads;

/// The text of the requests of disks, of an input.
pub fn text_of_disks<S: Store>(
    threads: &(impl Threads + Sync),
    alloc: Global,
    input: &Input,
    store: &mut S,
) -> Result<Vec<u8>, Status>
    requires { InputHasRange input.now }
    ensures text { IfOk result (λ text. IfSome (S.holds store.old) (λ files. IsDisksOutput files input.now text.items)) }
    ensures fails { IfErr result (λ status. FailsBy (InputRefuses input.now) (store_seen S.holds S.faults store.old store.new) status) }
    ensures reads { OnlyReads (store_seen S.holds S.faults store.old store.new) }
{
    let trace = read_input(threads, alloc, input, store)?;
    let table = requests(alloc, &trace.events)?;
    let mut text = Vec::new(alloc);
    disks_text(alloc, &table, &mut text)?;
    Ok(text)
}
