//! Reading a question file.
ghost use Rattle.std.specs.Prelude.{◌≡◌, ◌≢◌, ◌++◌, ◌<◌, ◌↔◌, ℕ, List, IfOk, IfSome, IfNone, IsTrue, Err, count_by};
ghost use Rattle.hosttrace.specs.Questions.{IsQuestionLine, AreQuestions, IsFirstBadQuestion, QUESTION_LIMIT, question_text, is_feed};
ghost use Rattle.report_views.specs.Asked.{IsQuestion};
ghost use Rattle.hosttrace.specs.declared.questions.QuestionsError.TheVariants.{BadLine};
ghost use Rattle.history_core.specs.declared.question.Question.{Question};

use history_core::Question;
use std::alloc::{AllocFailed, Global};
use trace_types::{TIME_END, cut_at, read_number_below, read_path};

/// How many line feeds a question file may have.
const QUESTION_LIMIT: usize = 65_536;

/// Why a text is no list of questions. Lines count from 1.
#[derive(Clone, Copy, Debug, PartialEq, Eq)]
pub enum QuestionsError {
    BadLine { line: u64 },
    OutOfMemory,
}

impl<T: Drop> From<AllocFailed<T>> for QuestionsError {
    ghost use Rattle.std.specs.Prelude.{◌≡◌};
    ghost use Rattle.hosttrace.specs.declared.questions.QuestionsError.TheVariants as variant;

    ghost from_gives = { λ _ e. e ≡ variant.OutOfMemory };

    fn from(_error: AllocFailed<T>) -> QuestionsError {
        QuestionsError::OutOfMemory
    }
}

/// Whether a text has more line feeds than a question file may have.
pub fn is_crowded(bytes: &[u8]) -> bool
    ensures { IsTrue result ↔ (QUESTION_LIMIT < count_by is_feed bytes.now) }
{
    bytes.iter().filter(|byte| **byte == b'\n').count() > QUESTION_LIMIT
}

/// Reads a question file: a question a line, and at least one. A bad line is the first one that
/// isn't in the format.
pub fn read_questions(alloc: Global, bytes: &[u8]) -> Result<Vec<Question>, QuestionsError>
    ensures questions { IfOk result (λ questions. AreQuestions bytes.now questions.items) }
    ensures bad { (line : ℕ) → result ≡ Err (BadLine line) → (questions : List Question) → ¬ (AreQuestions bytes.now questions) }
    ensures line { (line : ℕ) → result ≡ Err (BadLine line) → IsFirstBadQuestion bytes.now line }
{
    let mut questions = Vec::new(alloc);
    let mut rest = bytes;
    while let Some((question, after)) = first_question(rest) {
        questions.push(question)?;
        rest = after;
    }
    if questions.is_empty() || !rest.is_empty() {
        let line = (questions.len() as u64).saturating_add(1);
        return Err(QuestionsError::BadLine { line });
    }
    Ok(questions)
}

// The question of the first line, and what follows it.
fn first_question(text: &[u8]) -> Option<(Question, &[u8])>
    ensures found { IfSome result (λ r. (text.now ≡ question_text r.0 ++ r.1.now) × IsQuestion r.0) }
    ensures none { IfNone result ((q : Question) (after : List ℕ) → IsQuestion q → text.now ≢ question_text q ++ after) }
{
    let (line, after) = cut_at(text, b'\n')?;
    Some((read_question(line)?, after))
}

// Reads a line without its line feed.
fn read_question(line: &[u8]) -> Option<Question>
    ensures found { IfSome result (λ q. IsQuestionLine line.now q) }
    ensures none { IfNone result ((q : Question) → ¬ (IsQuestionLine line.now q)) }
{
    let (t, path) = cut_at(line, b' ')?;
    let t = read_number_below(t, TIME_END)?;
    let path = read_path(path)?;
    Some(Question { t, path })
}
