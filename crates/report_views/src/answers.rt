//! The text of the answers to questions.
ghost use Rattle.std.specs.Prelude.{◌≡◌, ◌++◌, IfOk, OnOk, OnErr, flat_map};
ghost use Rattle.std.specs.List.{AllByRecursion};
ghost use Rattle.event_list.specs.Names.{names_at};
ghost use Rattle.kernel_provider.specs.Replay.{state_at};
ghost use Rattle.history_core.specs.Agreement.{IsMerge};
ghost use Rattle.report_views.specs.AnswersText.{asked_text, answer_text};
ghost use Rattle.report_views.specs.Asked.{IsTimely};

use crate::value_text::write_value;
use event_list::MergedTrace;
use history_core::{Answer, Question, history_of};
use sqlite_items::Items;
use std::alloc::Global;
use std::io::Write;
use trace_types::{OutOfMemory, Text};

/// Appends the answers to questions about any path, a line each, in their order. The only error is lack of memory, after
/// which nothing has changed.
pub fn answers_text(
    alloc: Global,
    trace: &MergedTrace,
    questions: &[Question],
    out: &mut Vec<u8>,
) -> Result<(), OutOfMemory>
    requires merge { IsMerge trace.now.events.items }
    requires questions { AllByRecursion IsTimely questions.now }
    ensures text { OnOk result (out.new.items ≡ out.old.items ++ flat_map (asked_text (names_at trace.now.names.items) (state_at trace.now.events.items)) questions.now) }
    ensures err { OnErr result (out.new.items ≡ out.old.items) }
{
    out.append(&mut answer_lines(alloc, trace, questions)?)?;
    Ok(())
}

fn answer_lines(
    alloc: Global,
    trace: &MergedTrace,
    questions: &[Question],
) -> Result<Vec<u8>, OutOfMemory>
    requires merge { IsMerge trace.now.events.items }
    requires questions { AllByRecursion IsTimely questions.now }
    ensures { IfOk result (λ text. text.items ≡ flat_map (asked_text (names_at trace.now.names.items) (state_at trace.now.events.items)) questions.now) }
{
    let history = history_of(alloc, &trace.events)?;
    let mut text = Vec::new(alloc);
    for question in questions {
        let answer = history.answer(question.t, question.path);
        write_answer(alloc, &trace.names, question, &answer, &mut text)?;
    }
    Ok(text)
}

// A question with its answer.
fn write_answer(
    alloc: Global,
    names: &[Items<Text>],
    question: &Question,
    answer: &Answer,
    out: &mut Vec<u8>,
) -> Result<(), OutOfMemory>
    ensures { OnOk result (out.new.items ≡ out.old.items ++ answer_text (names_at names.now) question.now answer.now) }
{
    let Question { t, path } = *question;
    write!(out, "{t} {path} ").map_err(|_| OutOfMemory)?;
    match answer {
        Answer::State(value) => write_value(alloc, names, path, value, out)?,
        Answer::NotYet { built } => write!(out, "not-yet {built}").map_err(|_| OutOfMemory)?,
    }
    out.push(b'\n')?;
    Ok(())
}
