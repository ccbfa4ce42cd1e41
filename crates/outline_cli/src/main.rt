//! The program `outline`: the words of the command line, the files of the current folder, standard output, and a
//! status. Stands on `outline_cmd`, which does all the work, and on `outside` for the host's files and output.
#![tactic(auto)]

use outline_cmd::{Status, Words, number_of, run, status_line};
use outside::{HostKeeper, HostSink, Tally};
use std::alloc::Global;
use std::env::{self, Env};
use std::io::ErrorKind;
use std::process::ExitCode;
use std::rt::Runtime;

fn main(rt: HostRuntime) -> ExitCode {
    let status = status_of(rt.alloc(), &rt);
    if status != Status::Done {
        // Where the line can't be made or written, the number alone says what happened.
        if let Ok(line) = status_line(rt.alloc(), &status) {
            let _ = rt.eprint(line.text());
        }
    }
    ExitCode::from(number_of(&status))
}

/// Runs the command line.
fn status_of<R: Runtime>(alloc: Global, rt: &R) -> Status {
    let words = match words_of(alloc, rt) {
        Ok(words) => words,
        Err(status) => return status,
    };
    let mut keeper = HostKeeper::new(rt);
    let mut out = HostSink::new(rt);
    let mut tally = Tally::new();
    run(alloc, &words, &mut keeper, &mut out, &mut tally)
}

/// The words behind the program's name. Arguments that are no text are wrong words.
fn words_of<R: Env + Alloc>(alloc: Global, rt: &R) -> Result<Words, Status> {
    let arguments = match env::args(rt) {
        Ok(arguments) => arguments,
        Err(error) if error.kind() == ErrorKind::OutOfMemory => return Err(Status::NoMemory),
        Err(_) => return Err(Status::Words { line: 0, word: 0 }),
    };
    let mut words = Words::new(alloc);
    for argument in arguments.skip(1) {
        if words.push(argument.as_str()).is_err() {
            return Err(Status::NoMemory);
        }
    }
    Ok(words)
}
