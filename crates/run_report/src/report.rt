//! The text of the report.
ghost use Rattle.std.specs.Prelude.{◌≡◌, ◌++◌, OnOk};
ghost use Rattle.std.specs.Fmt.{decimal};
ghost use Rattle.run_report.specs.Reports as spec;

use crate::numbers::Numbers;
use crate::target_end::TargetEnd;
use label_sets::Memory;

/// Puts a number in decimal digits behind a text.
fn push_digits(text: &mut Vec<u8>, number: u128) -> Result<(), Memory>
    ensures { OnOk result (text.new.items ≡ text.old.items ++ decimal number) }
{
    let mut digits = itoa::Buffer::new();
    text.extend_from_slice(digits.format(number).as_bytes())
}

/// Puts a word and a number, each behind a space.
#[tactic(auto, unfolding(crate::specs::Reports::counted))]
fn push_counted(text: &mut Vec<u8>, word: &[u8], number: u128) -> Result<(), Memory>
    ensures { OnOk result (text.new.items ≡ text.old.items ++ spec.counted word.now number) }
{
    text.extend_from_slice(b" ")?;
    text.extend_from_slice(word)?;
    text.extend_from_slice(b" ")?;
    push_digits(text, number)
}

/// Puts what a line says of visits.
#[tactic(auto, unfolding(crate::specs::Reports::visits_text))]
fn push_visits(text: &mut Vec<u8>, numbers: &Numbers) -> Result<(), Memory>
    ensures { OnOk result (text.new.items ≡ text.old.items ++ spec.visits_text numbers.now) }
{
    push_counted(text, b"visits", numbers.visits)?;
    push_counted(text, b"failed", numbers.failed)?;
    push_counted(text, b"points", numbers.points)?;
    push_counted(text, b"markers", numbers.markers)
}

/// Puts what a line says of bodies and of halted targets.
#[tactic(auto, unfolding(crate::specs::Reports::bodies_text))]
fn push_bodies(text: &mut Vec<u8>, numbers: &Numbers) -> Result<(), Memory>
    ensures { OnOk result (text.new.items ≡ text.old.items ++ spec.bodies_text numbers.now) }
{
    push_counted(text, b"accepted", numbers.accepted)?;
    push_counted(text, b"refused", numbers.refused)?;
    push_counted(text, b"givenup", numbers.given_up)?;
    push_counted(text, b"halted", numbers.halted)
}

/// Puts the numbers of a line, and its end.
fn push_numbers(text: &mut Vec<u8>, numbers: &Numbers) -> Result<(), Memory>
    ensures { OnOk result (text.new.items ≡ text.old.items ++ spec.numbers_text numbers.now) }
{
    push_visits(text, numbers)?;
    push_bodies(text, numbers)?;
    text.extend_from_slice(b"\n")
}

/// Puts whose line it is.
#[tactic(auto, unfolding(crate::specs::Reports::target_text))]
fn push_target(text: &mut Vec<u8>, number: u128, end: &TargetEnd) -> Result<(), Memory>
    ensures { OnOk result (text.new.items ≡ text.old.items ++ spec.target_text number end.now) }
{
    text.extend_from_slice(b"target ")?;
    push_digits(text, number)?;
    text.extend_from_slice(b" ")?;
    text.extend_from_slice(end.job.as_bytes())?;
    text.extend_from_slice(b" ")?;
    text.extend_from_slice(end.instance.as_bytes())
}

/// Puts the line of the target of a number.
#[tactic(auto, unfolding(crate::specs::Reports::target_line))]
fn push_line(text: &mut Vec<u8>, number: u128, end: &TargetEnd) -> Result<(), Memory>
    ensures { OnOk result (text.new.items ≡ text.old.items ++ spec.target_line number end.now) }
{
    push_target(text, number, end)?;
    push_numbers(text, &Numbers::of(end))
}

/// Puts the lines of targets, which are numbered from 1.
fn push_lines(text: &mut Vec<u8>, ends: &[TargetEnd]) -> Result<(), Memory>
    ensures { OnOk result (text.new.items ≡ text.old.items ++ spec.target_lines 1 ends.now) }
{
    let mut number = 0;
    for end in ends {
        number += 1;
        push_line(text, number, end)?;
    }
    Ok(())
}

/// Puts the report of targets behind a text: a line for each, in order, and a line for all of them.
///
/// # Errors
///
/// Want of memory.
///
/// # Example
///
/// ```rust
/// // `first` is how the target `h:80` of the job `a` ended: two visits, whose bodies were taken.
/// let mut text = Vec::new(alloc);
/// push_report(&mut text, &[first, second])?;
/// let line = "target 1 a h:80 visits 2 failed 0 points 6 markers 0 accepted 2 refused 0 givenup 0 halted 0\n";
/// assert!(rt; text.as_slice().starts_with(line.as_bytes()));
/// ```
#[tactic(auto, unfolding(crate::specs::Reports::report_text, crate::specs::Reports::all_line))]
pub fn push_report(text: &mut Vec<u8>, ends: &[TargetEnd]) -> Result<(), Memory>
    ensures { OnOk result (text.new.items ≡ text.old.items ++ spec.report_text ends.now) }
{
    push_lines(text, ends)?;
    text.extend_from_slice(b"all")?;
    push_numbers(text, &Numbers::sums(ends))
}

/// Puts the line of the pages that were served behind a text.
///
/// # Errors
///
/// Want of memory.
#[tactic(auto, unfolding(crate::specs::Reports::served_line))]
pub fn push_served(text: &mut Vec<u8>, served: u32) -> Result<(), Memory>
    ensures { OnOk result (text.new.items ≡ text.old.items ++ spec.served_line served) }
{
    text.extend_from_slice(b"served ")?;
    push_digits(text, u128::from(served))?;
    text.extend_from_slice(b"\n")
}
