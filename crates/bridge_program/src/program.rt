//! The program over words, an input, an output and a world.
ghost use Rattle.std.specs.Prelude.{map, string_bytes};
ghost use Rattle.bridge_program.specs.Ran.{IsUnasked, Ran};

use bridge_cli::execute;
use bridge_ports::{Conn, Door, Sink, Source, World, write_all};
use program_words::{Status, command_of, end_code, no_form};
use std::alloc::{AllocError, Global};
use std::sync::Wait;
use std::thread::Threads;

/// Runs the program on the words of its command line, without its own name, and answers the status that it ends with
/// ([`Status::code`]):
///
/// - 0, done: the output has the whole text;
/// - 1, exactly where the page on the input has a fault: the output has its line, with the fault's line and rule;
/// - 2, exactly where the words fit no form: the output has the line `words`, and nothing was read;
/// - 3, exactly where the count of faults of what is read rose, the input or the file of a configuration: nothing was
///   written, and no more was taken than the limit;
/// - 4, exactly where the output's count of faults rose: a front of the text was written, and not all of it;
/// - 5, exactly where the configuration has a fault: the output has its line;
/// - 6, want of memory: nothing was written, or of `replay` the bodies that were made before, without its page or with
///   it, of `load` the report of the visits that were made, or of `run` the report in which some target was halted; and
///   no more was taken than the limit. `--help`, `--version` and words that fit no form take none;
/// - 7, exactly where the script on the input has a fault: the output has its line, with the number of the fault's;
/// - 8, exactly where more than the limit was taken: the output has the line `input too long`.
///
/// The limit is 64 MiB of a page, 256 MiB of a script and 1 MiB of a configuration.
///
/// `run CONFIG` reads the configuration in the file of the path CONFIG, scrapes its targets and posts what they show over
/// the wires of the world, serves the page of what they show at the door that the configuration has, and prints a report.
/// `load`, `run`, and `replay` with several scrapers, start threads and wait for them, so what is said here holds where
/// the call returns. The answer of `replay` is the same for every number of scrapers. At status 0 of `replay` and `load`
/// the wires of the targets, which are in memory, are on the shelf of the world, where it has one, targets in order.
///
/// # Example
///
/// ```rust
/// // Two rounds of two targets that show a page, whose bodies are taken, and a door at which one connection comes.
/// let words = [String::from_str(alloc, "run")?, String::from_str(alloc, "bridge.toml")?];
/// let status = bridge(&rt, alloc, &words, &mut world, &mut input, &mut output);
/// assert_eq!(rt; status, 0);
/// let line = "target 1 a h1:80 visits 2 failed 0 points 6 markers 0 accepted 2 refused 0 givenup 0 halted 0\n";
/// assert!(rt; output.held().starts_with(line.as_bytes()));
/// ```
pub fn bridge<
    R: Threads + Wait + Sync,
    K: Conn,
    E: Door<Conn = K>,
    W: World<Door = E>,
    I: Source,
    O: Sink,
>(rt: &R, alloc: Global, words: &[String], world: &mut W, input: &mut I, output: &mut O) -> u8
    requires { IsUnasked (W.seen world.old) }
    ensures { Ran (map string_bytes words.now) I.left I.read_faults input.old input.new
        O.held O.write_faults output.old output.new W.seen world.old world.new result }
{
    match command_of(alloc, words) {
        Ok(Some(command)) => execute(rt, alloc, command, world, input, output),
        Ok(None) => end_code(Status::NoForm, write_all(output, no_form())),
        Err(AllocError) => Status::WantOfMemory.code(),
    }
}
