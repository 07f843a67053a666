//! The forms of the command line.
ghost use Rattle.std.specs.Prelude.{◌≡◌, ◌≢◌, ◌≤◌, List, ℕ, [], ◌∷◌, map, codes, string_bytes, IfOk, IfSome, IfNone, OnErr};
ghost use Rattle.page_model.specs.declared.format.Format.{Format as AnyFormat};
ghost use Rattle.program_words.specs.CommandWords.{IsCommand, FitNoForm, AskFor, takes_memory};
ghost use Rattle.program_words.specs.WordSteps.{AskForNoReplay, FitNoOther};
ghost use Rattle.std.specs.Fmt.{decimal};
ghost use Rattle.load_pages.specs.GeneratedScripts.{most_load_number};
ghost use Rattle.replay_script.specs.ScriptParts.{format_word};

use super::replay::replay_of;
use super::target::target;
use super::{Command, PageCommand};
use crate::limits::{MOST_INSTANCE_HOST_BYTES, MOST_NANOS};
use bridge_ports::MOST_JOB_BYTES;
use label_sets::Text;
use load_pages::{MOST_NUMBER, is_load};
use page_model::Format;
use plain_words::{host_and_port, number};
use std::alloc::{AllocError, Global};

/// The command that one word asks for.
fn lone_word(word: &str) -> Option<Command>
    ensures found { IfSome result (IsCommand (word.now ∷ [])) }
    ensures none { IfNone result (FitNoOther (word.now ∷ [])) }
{
    if word == "--help" {
        return Some(Command::Help);
    }
    if word == "--version" {
        return Some(Command::Version);
    }
    None
}

/// The format that a word names.
fn format_named(word: &str) -> Option<Format>
    ensures found { IfSome result (λ format. word.now ≡ format_word format) }
    ensures none { IfNone result ((format : AnyFormat) → word.now ≢ format_word format) }
{
    replay_script::format_named(word.as_bytes())
}

/// The check that the word behind `check` asks for.
fn check_of(format: &str) -> Option<Command>
    ensures found { IfSome result (IsCommand (codes "check" ∷ format.now ∷ [])) }
    ensures none { IfNone result (FitNoOther (codes "check" ∷ format.now ∷ [])) }
{
    match format_named(format) {
        Some(format) => Some(Command::OverPage {
            format,
            what: PageCommand::Check,
        }),
        None => None,
    }
}

/// The run of the configuration in the file of a path.
fn run_of(alloc: Global, path: &str) -> Result<Command, AllocError>
    ensures found { IfOk result (IsCommand (codes "run" ∷ path.now ∷ [])) }
    ensures memory { OnErr result (AskFor takes_memory (codes "run" ∷ path.now ∷ [])) }
{
    match Text::from_str(alloc, path) {
        Ok(path) => Ok(Command::Run { path }),
        Err(AllocError) => Err(AllocError),
    }
}

/// The command that two words ask for.
fn two_words(alloc: Global, verb: &str, word: &str) -> Result<Option<Command>, AllocError>
    ensures found { IfOk result (λ found. IfSome found (IsCommand (verb.now ∷ word.now ∷ []))) }
    ensures none { IfOk result (λ found. IfNone found (FitNoOther (verb.now ∷ word.now ∷ []))) }
    ensures memory { OnErr result (AskFor takes_memory (verb.now ∷ word.now ∷ [])) }
{
    if verb == "check" {
        return Ok(check_of(word));
    }
    if verb != "run" {
        return Ok(None);
    }
    match run_of(alloc, word) {
        Ok(command) => Ok(Some(command)),
        Err(AllocError) => Err(AllocError),
    }
}

/// The number that a word of a load says. The greatest first number is above the most targets and rounds, so one limit
/// serves all three words, and `is_load` asks for the limit of each.
fn load_number(word: &str) -> Option<u64>
    ensures found { IfSome result (λ n. (word.now ≡ decimal n) × (n ≤ most_load_number)) }
    ensures none { IfNone result ((n : ℕ) → n ≤ most_load_number → word.now ≢ decimal n) }
{
    number(word.as_bytes(), MOST_NUMBER)
}

/// The load that the words behind `load` ask for.
fn load_by(number: &str, targets: &str, rounds: &str) -> Option<Command>
    ensures found { IfSome result (IsCommand (codes "load" ∷ number.now ∷ targets.now ∷ rounds.now ∷ [])) }
    ensures none { IfNone result (FitNoOther (codes "load" ∷ number.now ∷ targets.now ∷ rounds.now ∷ [])) }
{
    let number = match load_number(number) {
        Some(number) => number,
        None => return None,
    };
    let targets = match load_number(targets) {
        Some(targets) => targets,
        None => return None,
    };
    let rounds = match load_number(rounds) {
        Some(rounds) => rounds,
        None => return None,
    };
    if !is_load(number, targets, rounds) {
        return None;
    }
    Some(Command::Load {
        number: number as u32,
        targets: targets as u32,
        rounds: rounds as u32,
    })
}

/// The command that four words ask for.
fn four_words(verb: &str, number: &str, targets: &str, rounds: &str) -> Option<Command>
    ensures found { IfSome result (IsCommand (verb.now ∷ number.now ∷ targets.now ∷ rounds.now ∷ [])) }
    ensures none { IfNone result (FitNoOther (verb.now ∷ number.now ∷ targets.now ∷ rounds.now ∷ [])) }
{
    if verb != "load" {
        return None;
    }
    load_by(number, targets, rounds)
}

/// The conversion that a format, a job, an instance and a time ask for.
fn conversion(
    alloc: Global,
    format: Format,
    job: &str,
    instance: &str,
    time: &str,
) -> Result<Option<Command>, AllocError>
    ensures found { IfOk result (λ found. IfSome found
        (IsCommand (codes "convert" ∷ format_word format ∷ job.now ∷ instance.now ∷ time.now ∷ []))) }
    ensures none { IfOk result (λ found. IfNone found
        (FitNoOther (codes "convert" ∷ format_word format ∷ job.now ∷ instance.now ∷ time.now ∷ []))) }
    ensures memory { OnErr result (AskFor takes_memory
        (codes "convert" ∷ format_word format ∷ job.now ∷ instance.now ∷ time.now ∷ [])) }
{
    if job.is_empty() {
        return Ok(None);
    }
    if job.len() > MOST_JOB_BYTES {
        return Ok(None);
    }
    let place = match host_and_port(MOST_INSTANCE_HOST_BYTES, instance.as_bytes()) {
        Some(place) => place,
        None => return Ok(None),
    };
    let nanos = match number(time.as_bytes(), MOST_NANOS) {
        Some(nanos) => nanos,
        None => return Ok(None),
    };
    let target = target(alloc, job, instance, place.host, place.port)?;
    Ok(Some(Command::OverPage {
        format,
        what: PageCommand::Convert { target, nanos },
    }))
}

/// The command other than a replay that the words ask for.
fn other_command(alloc: Global, words: &[String]) -> Result<Option<Command>, AllocError>
    ensures found { IfOk result (λ found. IfSome found (IsCommand (map string_bytes words.now))) }
    ensures none { IfOk result (λ found. IfNone found (FitNoOther (map string_bytes words.now))) }
    ensures memory { OnErr result (AskFor takes_memory (map string_bytes words.now)) }
{
    match words {
        [word] => Ok(lone_word(word.as_str())),
        [verb, word] => two_words(alloc, verb.as_str(), word.as_str()),
        [verb, number, targets, rounds] => Ok(four_words(
            verb.as_str(),
            number.as_str(),
            targets.as_str(),
            rounds.as_str(),
        )),
        [verb, format, job, instance, time] => {
            if verb.as_str() != "convert" {
                return Ok(None);
            }
            let format = match format_named(format.as_str()) {
                Some(format) => format,
                None => return Ok(None),
            };
            conversion(
                alloc,
                format,
                job.as_str(),
                instance.as_str(),
                time.as_str(),
            )
        }
        _ => Ok(None),
    }
}

/// The words behind `replay`, where they begin with it.
fn behind_replay(words: &[String]) -> Option<&[String]>
    ensures found { IfSome result (λ behind. map string_bytes words.now ≡ codes "replay" ∷ map string_bytes behind.now) }
    ensures none { IfNone result (AskForNoReplay (map string_bytes words.now)) }
{
    let Some((verb, behind)) = words.split_first() else {
        return None;
    };
    if verb.as_str() != "replay" {
        return None;
    }
    Some(behind)
}

/// The command that the words ask for; `None` where they fit no form.
///
/// # Errors
///
/// Want of memory.
///
/// # Example
///
/// ```rust
/// let words = [String::from_str(alloc, "check")?, String::from_str(alloc, "text")?];
/// let command = command_of(alloc, &words)?;
/// assert!(rt; matches!(command, Some(Command::OverPage { format: Format::Text, what: PageCommand::Check })));
/// assert!(rt; command_of(alloc, &[])?.is_none());
/// ```
pub fn command_of(alloc: Global, words: &[String]) -> Result<Option<Command>, AllocError>
    ensures found { IfOk result (λ found. IfSome found (IsCommand (map string_bytes words.now))) }
    ensures none { IfOk result (λ found. IfNone found (FitNoForm (map string_bytes words.now))) }
    ensures memory { OnErr result (AskFor takes_memory (map string_bytes words.now)) }
{
    match behind_replay(words) {
        Some(behind) => replay_of(alloc, behind),
        None => other_command(alloc, words),
    }
}
