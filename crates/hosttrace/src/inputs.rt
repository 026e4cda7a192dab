//! Reading the files that a command names.
ghost use Rattle.std.specs.Prelude.{◌≡◌, ◌≤◌, [], length, IfOk, IfErr, IfSome};
ghost use Rattle.std.specs.List.{AllByRecursion};
ghost use Rattle.ht_outside.specs.Files.{bytes_of};
ghost use Rattle.history_core.specs.Agreement.{IsMerge};
ghost use Rattle.command_words.specs.Words.{InputHasRange};
ghost use Rattle.hosttrace.specs.Inputs.{LIST_LIMIT, IsListTrace, AreAsked};
ghost use Rattle.hosttrace.specs.Clusters.{IsInput};
ghost use Rattle.hosttrace.specs.Refusals.{FileRefuses, InputRefuses, ListRefuses, QuestionsRefuse};
ghost use Rattle.hosttrace.specs.Seen.{FailsBy, OnlyReads, store_seen};
ghost use Rattle.list_messages.specs.Places.{IsReadTrace};
ghost use Rattle.report_views.specs.Asked.{IsQuestion};

use crate::causes::{too_large, unread};
use crate::clusters::read_merge;
use crate::questions::{is_crowded, read_questions};
use crate::reading::read_file;
use crate::status::{Limit, Status};
use command_words::Input;
use event_list::{MergedTrace, read_list};
use history_core::Question;
use ht_outside::Store;
use std::alloc::Global;
use std::thread::Threads;
use trace_types::Text;

/// How many bytes a list may have.
pub const LIST_LIMIT: usize = 268_435_456;

/// The trace of an input, or the status that tells why there is none.
pub fn read_input<S: Store>(
    threads: &(impl Threads + Sync),
    alloc: Global,
    input: &Input,
    store: &mut S,
) -> Result<MergedTrace, Status>
    requires { InputHasRange input.now }
    ensures trace { IfOk result (λ trace. IfSome (S.holds store.old) (λ files. IsInput input.now files trace)) }
    ensures merge { IfOk result (λ trace. IsMerge trace.events.items) }
    ensures fails { IfErr result (λ status. FailsBy (InputRefuses input.now) (store_seen S.holds S.faults store.old store.new) status) }
    ensures reads { OnlyReads (store_seen S.holds S.faults store.old store.new) }
{
    match input {
        Input::List(file) => read_events(alloc, file, store),
        Input::Folders { dirs, drift } => {
            read_merge(threads, alloc, dirs.as_slice(), *drift, store)
        }
    }
}

/// The events of an event list, or the status that tells why there are none.
pub fn read_events<S: Store>(
    alloc: Global,
    file: &Text,
    store: &mut S,
) -> Result<MergedTrace, Status>
    ensures list { IfOk result (λ trace. IfSome (S.holds store.old) (λ files. IsListTrace (bytes_of files [] file.now) trace)) }
    ensures merge { IfOk result (λ trace. IsMerge trace.events.items) }
    ensures read { IfOk result IsReadTrace }
    ensures fails { IfErr result (λ status. FailsBy (λ files refusal. ListRefuses (bytes_of files [] file.now) refusal) (store_seen S.holds S.faults store.old store.new) status) }
    ensures reads { OnlyReads (store_seen S.holds S.faults store.old store.new) }
{
    let bytes = read_bytes(alloc, file, store)?;
    Ok(read_list(alloc, &bytes)?)
}

/// The questions of a question file, or the status that tells why there are none.
pub fn read_asked<S: Store>(
    alloc: Global,
    file: &Text,
    store: &mut S,
) -> Result<Vec<Question>, Status>
    ensures asked { IfOk result (λ questions. IfSome (S.holds store.old) (λ files. AreAsked (bytes_of files [] file.now) questions.items)) }
    ensures each { IfOk result (λ questions. AllByRecursion IsQuestion questions.items) }
    ensures fails { IfErr result (λ status. FailsBy (λ files refusal. QuestionsRefuse (bytes_of files [] file.now) refusal) (store_seen S.holds S.faults store.old store.new) status) }
    ensures reads { OnlyReads (store_seen S.holds S.faults store.old store.new) }
{
    let bytes = read_bytes(alloc, file, store)?;
    if is_crowded(&bytes) {
        return Err(too_large(Limit::Questions));
    }
    Ok(read_questions(alloc, &bytes)?)
}

// The bytes of a file, or the status that tells why it wasn't read.
fn read_bytes<S: Store>(alloc: Global, file: &Text, store: &mut S) -> Result<Vec<u8>, Status>
    ensures bytes { IfOk result (λ v. IfSome (S.holds store.old) (λ files. v.items ≡ bytes_of files [] file.now)) }
    ensures small { IfOk result (λ v. length v.items ≤ LIST_LIMIT) }
    ensures fails { IfErr result (λ status. FailsBy (λ files refusal. FileRefuses (bytes_of files [] file.now) refusal) (store_seen S.holds S.faults store.old store.new) status) }
    ensures reads { OnlyReads (store_seen S.holds S.faults store.old store.new) }
{
    match read_file(alloc, store, b"", file.as_bytes(), LIST_LIMIT) {
        Ok(bytes) => Ok(bytes),
        Err(error) => Err(unread(Limit::File, error)),
    }
}
