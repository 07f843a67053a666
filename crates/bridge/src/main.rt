//! The program `bridge`: hands its words, the world of the machine, standard input and standard output to the
//! library, says why where it did not go well, and ends with the status that comes back.
#![tactic(auto)]

mod ending;

use crate::ending::Ending;
use bridge_program::bridge;
use program_words::Status;
use std::alloc::{AllocError, Global};
use std::env::{self, Args};
use std::io::ErrorKind;
use std::process::ExitCode;
use std_edge::{StdStream, StdWorld};

/// The words behind the program's own name.
fn words_of(alloc: Global, args: Args) -> Result<Vec<String>, AllocError> {
    let mut words = Vec::new(alloc);
    for word in args.skip(1) {
        words.push(word)?;
    }
    Ok(words)
}

fn main(rt: HostRuntime) -> ExitCode {
    let words = match env::args(&rt) {
        Ok(args) => words_of(rt.alloc(), args),
        Err(error) if error.kind() == ErrorKind::OutOfMemory => Err(AllocError),
        // Words that are not text fit no form, and neither do no words.
        Err(_) => Ok(Vec::new(rt.alloc())),
    };
    let Ok(words) = words else {
        let _ = eprintln!(rt; "bridge: there was not enough memory");
        return ExitCode::from(Status::WantOfMemory.code());
    };
    let mut world = StdWorld::new(rt, rt.alloc());
    let mut input = StdStream::new(rt.stdin());
    let mut output = StdStream::new(rt.stdout());
    let status = bridge(
        &rt,
        rt.alloc(),
        words.as_slice(),
        &mut world,
        &mut input,
        &mut output,
    );
    let ending = Ending {
        words: words.as_slice(),
        input: input.reason(),
        output: output.reason(),
        file: world.reason(),
        broken_at: world.broken_at(),
    };
    ending.say(&rt, status);
    ExitCode::from(status)
}
