//! Evaluates the constants of a world: reads a world and goals in JSON from the standard input, and
//! writes a report to the standard output.
#![tactic(auto)]

use mirconst_run::{Status, run};
use std::io::ErrorKind;
use std::process::ExitCode;
use std::rt::Env;
use std::{env, io};
use streams::{StdSink, StdSource};

/// The words after the program's name. An argument that is no text is a bad word.
fn words<R: Env + AllocGlobal>(rt: &R) -> Result<Vec<String>, Status> {
    let mut words = Vec::new(rt.alloc());
    match env::args(rt) {
        Ok(args) => {
            for word in args.skip(1) {
                if words.push(word).is_err() {
                    return Err(Status::NoMemory);
                }
            }
            Ok(words)
        }
        Err(e) => {
            if e.kind() == ErrorKind::InvalidData {
                Err(Status::BadWords)
            } else {
                Err(Status::NoMemory)
            }
        }
    }
}

/// Runs the program over the standard input and output.
fn status(rt: &HostRuntime) -> Status {
    match words(rt) {
        Ok(words) => {
            let mut source = StdSource::new(rt.reader());
            let mut sink = StdSink::new(io::writer(rt));
            run(rt.alloc(), &words, &mut source, &mut sink)
        }
        Err(status) => status,
    }
}

fn main(rt: HostRuntime) -> ExitCode {
    let status = status(&rt);
    if status.code() > 1 {
        let _ = eprintln!(rt; "{status}");
    }
    ExitCode::from(status.code())
}
