//! Reads lines of words, and writes what they ask for.
use command_words::{Command, Input, PlainCommand, WordsError, parse_words};
use std::alloc::Global;
use std::test::Fail;
use trace_types::{Text, write_path};

/// What the words of a line, which single spaces part, ask for, as a text.
pub fn asked(alloc: Global, line: &str) -> Result<String, Fail> {
    let words = words_of(alloc, line)?;
    match parse_words(alloc, &words) {
        Ok(Command::Plain(command)) => text_of(alloc, &command),
        Err(WordsError::Usage) => Ok(String::from_str(alloc, "usage")?),
        Err(WordsError::OutOfMemory) => Ok(String::from_str(alloc, "no memory")?),
    }
}

fn words_of(alloc: Global, line: &str) -> Result<Vec<String>, Fail> {
    let mut words = Vec::new(alloc);
    for word in line.split(' ') {
        words.push(String::from_str(alloc, word)?)?;
    }
    Ok(words)
}

fn text_of(alloc: Global, command: &PlainCommand) -> Result<String, Fail> {
    match command {
        PlainCommand::Check { folders } => named(alloc, "check", folders.as_slice()),
        PlainCommand::Report { folders, drift } => {
            drifted(alloc, "report", *drift, folders.as_slice())
        }
        PlainCommand::Events { folders, drift } => {
            drifted(alloc, "events", *drift, folders.as_slice())
        }
        PlainCommand::State { input, at } => {
            let begin = format!(in alloc; "state at {at}")?;
            read_from(alloc, &begin, input)
        }
        PlainCommand::Ask {
            input,
            questions,
            once,
        } => {
            let begin = format!(in alloc; "ask {}, once {once}", name(questions)?)?;
            read_from(alloc, &begin, input)
        }
        PlainCommand::Path {
            input,
            host,
            tid,
            from,
            to,
        } => {
            let begin = format!(in alloc; "path of {tid} on {host} from {from} to {to}")?;
            read_from(alloc, &begin, input)
        }
        PlainCommand::Make {
            number,
            hosts,
            rounds,
        } => Ok(format!(in alloc; "make of {number}, hosts {hosts}, rounds {rounds}")?),
        PlainCommand::Range {
            input,
            from,
            to,
            path,
        } => {
            let mut attribute = Vec::new(alloc);
            write_path(alloc, *path, &mut attribute)?;
            let attribute = str::from_utf8(attribute.as_slice())?;
            let begin = format!(in alloc; "range of {attribute} from {from} to {to}")?;
            read_from(alloc, &begin, input)
        }
        PlainCommand::Disks { input } => read_from(alloc, "disks", input),
    }
}

// A text, and where a command reads from.
fn read_from(alloc: Global, begin: &str, input: &Input) -> Result<String, Fail> {
    match input {
        Input::List(file) => Ok(format!(in alloc; "{begin}, list {}", name(file)?)?),
        Input::Folders { dirs, drift } => drifted(alloc, begin, *drift, dirs.as_slice()),
    }
}

fn drifted(alloc: Global, begin: &str, drift: u32, folders: &[Text]) -> Result<String, Fail> {
    let begin = format!(in alloc; "{begin}, drift {drift}")?;
    named(alloc, &begin, folders)
}

fn named(alloc: Global, begin: &str, folders: &[Text]) -> Result<String, Fail> {
    let mut text = String::from_str(alloc, begin)?;
    for folder in folders {
        text.push_str(", ")?;
        text.push_str(name(folder)?)?;
    }
    Ok(text)
}

fn name(text: &Text) -> Result<&str, Fail> {
    Ok(str::from_utf8(text.as_bytes())?)
}
