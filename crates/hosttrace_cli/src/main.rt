//! The program: words, folders and the standard streams in, an exit status out.
#![tactic(auto)]

use hosttrace::{Status, run, write_status};
use ht_outside::{FolderStore, OpenGate, StdSink};
use std::process::ExitCode;
use std::{env, io};

fn main(rt: HostRuntime) -> ExitCode {
    let mut store = FolderStore::new(&rt);
    let (stdout, stderr) = (rt.stdout(), rt.stderr());
    let mut out = StdSink {
        to: io::writer(&stdout),
        faults: 0,
    };
    let mut err = StdSink {
        to: io::writer(&stderr),
        faults: 0,
    };
    let status = match words(&rt) {
        Ok(words) => run(
            &rt,
            rt.alloc(),
            &words,
            &mut store,
            &mut out,
            &mut err,
            &OpenGate,
        ),
        Err(status) => write_status(rt.alloc(), status, &mut err),
    };
    ExitCode::from(status.code())
}

// The words after the program's name. One that isn't UTF-8 belongs to no command.
fn words(rt: &HostRuntime) -> Result<Vec<String>, Status> {
    let args = env::args(rt).map_err(|error| match error.kind() {
        io::ErrorKind::OutOfMemory => Status::NoMemory,
        _ => Status::Usage,
    })?;
    let mut words = Vec::new(rt.alloc());
    for word in args.skip(1) {
        words.push(word).map_err(|_| Status::NoMemory)?;
    }
    Ok(words)
}
