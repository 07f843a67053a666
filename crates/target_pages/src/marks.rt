//! The series of a page as they are kept without its values.
ghost use Rattle.std.specs.Prelude.{◌≡◌, ◌++◌, ◌∷◌, [], IfOk, OnOk};
ghost use Rattle.page_model.specs.Presence.{all_readings};
ghost use Rattle.target_pages.specs.SeriesPages as spec;

use label_sets::{List, Memory};
use page_model::{Page, Reading};
use staleness::Mark;
use start_times::has_points;
use std::alloc::Global;

/// Puts the mark of a reading behind others, where its kind has points.
fn push_mark(marks: &mut Vec<Mark>, honor: bool, reading: &Reading) -> Result<(), Memory>
    ensures { OnOk result (marks.new.items ≡ marks.old.items ++ spec.marks_where honor (reading.now ∷ [])) }
{
    if !has_points(reading.key.kind) {
        return Ok(());
    }
    let key = reading.key.copy()?;
    let own = honor && reading.stamp.is_some();
    marks.push(Mark { key, own })?;
    Ok(())
}

/// Puts the marks of readings behind others.
fn push_marks(marks: &mut Vec<Mark>, honor: bool, readings: &[Reading]) -> Result<(), Memory>
    ensures { OnOk result (marks.new.items ≡ marks.old.items ++ spec.marks_where honor readings.now) }
{
    for reading in readings {
        push_mark(marks, honor, reading)?;
    }
    Ok(())
}

/// The marks of a page: of its readings with points, in page order. `honor` says whether times of the page count.
///
/// # Errors
///
/// Want of memory.
pub fn page_marks(alloc: Global, honor: bool, page: &Page) -> Result<List<Mark>, Memory>
    ensures { IfOk result (λ marks. marks ≡ spec.marks_where honor (all_readings page.now)) }
{
    let mut marks = Vec::new(alloc);
    for family in page.families().as_slice() {
        push_marks(&mut marks, honor, family.readings.as_slice())?;
    }
    List::from_vec(marks)
}
