//! The top calls, and what each command does.
ghost use Rattle.std.specs.Prelude.{◌≡◌, [], ℕ, IfOk, IfErr, IfSome, map, string_bytes};
ghost use Rattle.command_words.specs.Words.{HasRanges, InputHasRange, IsCommand, IsDrift};
ghost use Rattle.command_words.specs.declared.command.Command.TheVariants.{Plain};
ghost use Rattle.command_words.specs.declared.command.PlainCommand.TheVariants.{Make};
ghost use Rattle.event_list.specs.Names.{lines_of, names_at};
ghost use Rattle.hosttrace.specs.Means.{IsAskOutput, IsCheckOutput, IsEventsOutput, IsOutput, IsReportOutput, IsStateOutput};
ghost use Rattle.hosttrace.specs.Outcome.{IsOutcome, IsPlainOutcome, Leaves, PlainFails, PlainLeaves, PlainMeans, files_read};
ghost use Rattle.hosttrace.specs.Outputs.{output_text};
ghost use Rattle.hosttrace.specs.Refusals.{AskRefuses, CheckRefuses, ClusterRefuses, InputRefuses};
ghost use Rattle.hosttrace.specs.Seen.{FailsBy, OnlyReads, not_seen, sink_seen, store_seen};
ghost use Rattle.hosttrace.specs.Statuses.{IsTold};

use crate::causes::too_large;
use crate::clusters::{read_cluster, read_merge, report_of};
use crate::disks::text_of_disks;
use crate::folders::{is_crowd, read_folders};
use crate::hosts::{check_lines, read_hosts};
use crate::inputs::{read_asked, read_input};
use crate::making::text_of_make;
use crate::outputs::{Output, write_output};
use crate::paths::{Window, text_of_path};
use crate::ranges::{Span, text_of_range};
use crate::status::{Limit, Status};
use crate::status_line::write_status;
use command_words::{Command, Input, PlainCommand, parse_words};
use event_list::{MergedTrace, spell_bytes};
use ht_outside::{Gate, Sink, Store};
use report_views::{answers_text, state_text};
use std::alloc::Global;
use std::thread::Threads;
use trace_types::Text;

/// Runs the command of the words after the program's name: its text goes to `out`, and for every
/// status but `Done` a line goes to `err`.
pub fn run<R: Threads + Sync, S: Store, K: Sink, E: Sink, G: Gate + Sync>(
    rt: &R,
    alloc: Global,
    words: &[String],
    store: &mut S,
    out: &mut K,
    err: &mut E,
    _gate: &G,
) -> Status
    ensures headline { IsOutcome (map string_bytes words.now) (record { store = store_seen S.holds S.faults store.old store.new; out = sink_seen K.contents K.faults out.old out.new; err = sink_seen E.contents E.faults err.old err.new }) result }
    ensures leaves { Leaves (map string_bytes words.now) (record { store = store_seen S.holds S.faults store.old store.new; out = sink_seen K.contents K.faults out.old out.new; err = sink_seen E.contents E.faults err.old err.new }) result }
    ensures told { IsTold result (E.contents err.old) (E.contents err.new) (E.faults err.old) (E.faults err.new) }
    ensures reads { OnlyReads (store_seen S.holds S.faults store.old store.new) }
    ensures apart { (number hosts rounds : ℕ) → IsCommand (map string_bytes words.now) (Plain (Make number hosts rounds)) → store.new ≡ store.old }
{
    match parse_words(alloc, words) {
        Ok(Command::Plain(command)) => run_plain(rt, alloc, &command, store, out, err),
        Err(error) => write_status(alloc, Status::from(error), err),
    }
}

/// Runs a command that waits for nobody. It returns for every input.
pub fn run_plain<R: Threads + Sync, S: Store, K: Sink, E: Sink>(
    rt: &R,
    alloc: Global,
    command: &PlainCommand,
    store: &mut S,
    out: &mut K,
    err: &mut E,
) -> Status
    requires { HasRanges command.now }
    ensures headline { IsPlainOutcome command.now (record { store = store_seen S.holds S.faults store.old store.new; out = sink_seen K.contents K.faults out.old out.new; err = sink_seen E.contents E.faults err.old err.new }) result }
    ensures leaves { PlainLeaves command.now (record { store = store_seen S.holds S.faults store.old store.new; out = sink_seen K.contents K.faults out.old out.new; err = sink_seen E.contents E.faults err.old err.new }) result }
    ensures told { IsTold result (E.contents err.old) (E.contents err.new) (E.faults err.old) (E.faults err.new) }
    ensures reads { OnlyReads (store_seen S.holds S.faults store.old store.new) }
    ensures apart { (number hosts rounds : ℕ) → command.now ≡ Make number hosts rounds → store.new ≡ store.old }
{
    let status = perform(rt, alloc, command, store, out);
    write_status(alloc, status, err)
}

// Writes the text of a command.
fn perform<S: Store, K: Sink>(
    threads: &(impl Threads + Sync),
    alloc: Global,
    command: &PlainCommand,
    store: &mut S,
    out: &mut K,
) -> Status
    requires { HasRanges command.now }
    ensures means { PlainMeans command.now (record { store = store_seen S.holds S.faults store.old store.new; out = sink_seen K.contents K.faults out.old out.new; err = not_seen }) result }
    ensures leaves { PlainLeaves command.now (record { store = store_seen S.holds S.faults store.old store.new; out = sink_seen K.contents K.faults out.old out.new; err = not_seen }) result }
    ensures reads { OnlyReads (store_seen S.holds S.faults store.old store.new) }
    ensures apart { (number hosts rounds : ℕ) → command.now ≡ Make number hosts rounds → store.new ≡ store.old }
{
    let output = match output_of(threads, alloc, command, store) {
        Ok(output) => output,
        Err(status) => return status,
    };
    match write_output(threads, alloc, &output, out) {
        Ok(()) => Status::Done,
        Err(error) => Status::from(error),
    }
}

// What a command writes, or the status that tells why it writes nothing.
fn output_of<S: Store>(
    threads: &(impl Threads + Sync),
    alloc: Global,
    command: &PlainCommand,
    store: &mut S,
) -> Result<Output, Status>
    requires { HasRanges command.now }
    ensures text { IfOk result (λ output. IfSome (files_read command.now (S.holds store.old)) (λ files. IsOutput command.now files (output_text output))) }
    ensures fails { IfErr result (λ status. PlainFails command.now (store_seen S.holds S.faults store.old store.new) status) }
    ensures reads { OnlyReads (store_seen S.holds S.faults store.old store.new) }
    ensures apart { (number hosts rounds : ℕ) → command.now ≡ Make number hosts rounds → store.new ≡ store.old }
{
    match command {
        PlainCommand::Check { folders } => {
            Ok(Output::Text(text_of_check(alloc, folders.as_slice(), store)?))
        }
        PlainCommand::Report { folders, drift } => {
            Ok(Output::Text(text_of_report(threads, alloc, folders.as_slice(), *drift, store)?))
        }
        PlainCommand::Events { folders, drift } => {
            Ok(Output::Events(listed_events(threads, alloc, folders.as_slice(), *drift, store)?))
        }
        PlainCommand::State { input, at } => {
            Ok(Output::Text(text_of_state(threads, alloc, input, *at, store)?))
        }
        PlainCommand::Ask {
            input,
            questions,
            once: _,
        } => { Ok(Output::Text(text_of_ask(threads, alloc, input, questions, store)?)) }
        PlainCommand::Path {
            input,
            host,
            tid,
            from,
            to,
        } => {
            let window = Window {
                host: *host,
                tid: *tid,
                from: *from,
                to: *to,
            };
            Ok(Output::Text(text_of_path(threads, alloc, input, window, store)?))
        }
        PlainCommand::Make {
            number,
            hosts,
            rounds,
        } => { Ok(Output::Text(text_of_make(threads, alloc, *number, *hosts, *rounds)?)) }
        PlainCommand::Range {
            input,
            from,
            to,
            path,
        } => {
            let span = Span {
                from: *from,
                to: *to,
                path: *path,
            };
            Ok(Output::Text(text_of_range(threads, alloc, input, span, store)?))
        }
        PlainCommand::Disks { input } => {
            Ok(Output::Text(text_of_disks(threads, alloc, input, store)?))
        }
    }
}

// What the metadata of folders declares.
fn text_of_check<S: Store>(
    alloc: Global,
    folders: &[Text],
    store: &mut S,
) -> Result<Vec<u8>, Status>
    ensures text { IfOk result (λ text. IfSome (S.holds store.old) (λ files. IsCheckOutput files folders.now text.items)) }
    ensures fails { IfErr result (λ status. FailsBy (λ files refusal. CheckRefuses files folders.now refusal) (store_seen S.holds S.faults store.old store.new) status) }
    ensures reads { OnlyReads (store_seen S.holds S.faults store.old store.new) }
{
    if is_crowd(folders) {
        return Err(too_large(Limit::Hosts));
    }
    let files = read_folders(alloc, folders, store)?;
    let metas = read_hosts(alloc, &files)?;
    Ok(check_lines(alloc, &metas)?)
}

// The report on the hosts of folders.
fn text_of_report<S: Store>(
    threads: &(impl Threads + Sync),
    alloc: Global,
    folders: &[Text],
    drift: u32,
    store: &mut S,
) -> Result<Vec<u8>, Status>
    requires { IsDrift drift }
    ensures text { IfOk result (λ text. IfSome (S.holds store.old) (λ files. IsReportOutput files folders.now drift text.items)) }
    ensures fails { IfErr result (λ status. FailsBy (λ files refusal. ClusterRefuses files folders.now refusal) (store_seen S.holds S.faults store.old store.new) status) }
    ensures reads { OnlyReads (store_seen S.holds S.faults store.old store.new) }
{
    let cluster = read_cluster(threads, alloc, folders, drift, store)?;
    Ok(report_of(alloc, &cluster, drift)?)
}

// All events of the traces of folders.
fn listed_events<S: Store>(
    threads: &(impl Threads + Sync),
    alloc: Global,
    folders: &[Text],
    drift: u32,
    store: &mut S,
) -> Result<MergedTrace, Status>
    requires { IsDrift drift }
    ensures text { IfOk result (λ trace. IfSome (S.holds store.old) (λ files. IsEventsOutput files folders.now drift (lines_of (names_at trace.names.items) trace.events.items))) }
    ensures fails { IfErr result (λ status. FailsBy (λ files refusal. ClusterRefuses files folders.now refusal) (store_seen S.holds S.faults store.old store.new) status) }
    ensures reads { OnlyReads (store_seen S.holds S.faults store.old store.new) }
{
    let trace = read_merge(threads, alloc, folders, drift, store)?;
    spell_bytes(&trace.names, &trace.events);
    Ok(trace)
}

// The state at an instant, of an input.
fn text_of_state<S: Store>(
    threads: &(impl Threads + Sync),
    alloc: Global,
    input: &Input,
    at: u64,
    store: &mut S,
) -> Result<Vec<u8>, Status>
    requires { InputHasRange input.now }
    ensures text { IfOk result (λ text. IfSome (S.holds store.old) (λ files. IsStateOutput files input.now at text.items)) }
    ensures fails { IfErr result (λ status. FailsBy (InputRefuses input.now) (store_seen S.holds S.faults store.old store.new) status) }
    ensures reads { OnlyReads (store_seen S.holds S.faults store.old store.new) }
{
    let trace = read_input(threads, alloc, input, store)?;
    let mut text = Vec::new(alloc);
    state_text(alloc, &trace, at, &mut text)?;
    Ok(text)
}

// The answers to the questions of a file, of an input.
fn text_of_ask<S: Store>(
    threads: &(impl Threads + Sync),
    alloc: Global,
    input: &Input,
    questions: &Text,
    store: &mut S,
) -> Result<Vec<u8>, Status>
    requires { InputHasRange input.now }
    ensures text { IfOk result (λ text. IfSome (S.holds store.old) (λ files. IsAskOutput files input.now questions.now text.items)) }
    ensures fails { IfErr result (λ status. FailsBy (λ files refusal. AskRefuses files input.now questions.now refusal) (store_seen S.holds S.faults store.old store.new) status) }
    ensures reads { OnlyReads (store_seen S.holds S.faults store.old store.new) }
{
    let trace = read_input(threads, alloc, input, store)?;
    let questions = read_asked(alloc, questions, store)?;
    let mut text = Vec::new(alloc);
    answers_text(alloc, &trace, &questions, &mut text)?;
    Ok(text)
}
