//! The program: `main` hands the arguments and the standard streams to `themis`, and returns the status. This is the
//! only part of the program that no clause covers.
#![tactic(auto)]

use hss_seal::LmsMaker;
use seq_io::{RealSink, RealSource};
use std::process::ExitCode;
use std::rt::Env;
use std::{env, io};
use themis_calls::{Status, after_name, themis, unheard};

fn main(rt: HostRuntime) -> ExitCode {
    let status = match words_of(&rt) {
        Ok(words) => {
            let mut source = RealSource::new(rt.reader());
            let mut sink = RealSink::new(io::writer(&rt));
            let maker = LmsMaker::new(rt.alloc());
            let words = after_name(&words);
            themis(&rt, rt.alloc(), words, &mut source, &mut sink, &maker).status
        }
        Err(status) => status,
    };
    if let Some(line) = status.line() {
        // If the line can't be written, the status still reports the outcome.
        let _ = eprintln!(rt; "{line}");
    }
    ExitCode::from(status.number())
}

/// The arguments, the program's name first.
fn words_of(rt: &(impl Env + AllocGlobal)) -> Result<Vec<String>, Status> {
    let args = match env::args(rt) {
        Ok(args) => args,
        Err(error) => return Err(unheard(error.kind())),
    };
    let mut words = Vec::new(rt.alloc());
    for word in args {
        if words.push(word).is_err() {
            return Err(Status::NoMemory);
        }
    }
    Ok(words)
}
