//! Labels as they are written, and the label set that they make (OpenMetrics 1.0, "Labels" and "LabelSet").
ghost use Rattle.std.specs.Prelude.{◌≡◌, IfOk, IsUtf8};
ghost use Rattle.std.specs.List.{list_any};
ghost use Rattle.label_sets.specs.Escapes.{is_backslash};
ghost use Rattle.label_sets.specs.Labels.{label_set};
ghost use Rattle.label_sets.specs.Lists.{when_true};
ghost use Rattle.page_model.specs.Written.{label_limit, is_label_list};
ghost use Rattle.line_scan.specs.LabelReading.{IsAfter, label_of};

use crate::quoted::{Escapes, unescaped_text};
use crate::scan::behind;
use label_sets::{Label, LabelFault, LabelSet, Memory, Name};
use page_model::Treatment;
use std::alloc::{AllocError, Global};

/// A label as it is written.
#[derive(Clone, Copy)]
pub struct LabelParts<'a> {
    pub name: &'a [u8],
    /// The value between the quotes, with its escapes.
    pub written: &'a [u8],
    /// Whether a backslash is written in the value.
    pub has_backslash: bool,
    /// What stands behind the label.
    pub rest: &'a [u8],
}

/// What follows a label.
#[derive(Clone, Copy)]
pub enum AfterLabel<'a> {
    /// The closing brace, and what stands behind it.
    End(&'a [u8]),
    /// A comma, and what stands behind it.
    More(&'a [u8]),
    /// Neither.
    Broken,
}

/// The label that written parts make.
///
/// # Errors
///
/// Want of memory.
#[inline(always)]
pub fn label_of(alloc: Global, parts: LabelParts<'_>) -> Result<Label, Memory>
    requires name { IsUtf8 parts.name.now }
    requires written { IsUtf8 parts.written.now }
    requires backslash { parts.has_backslash ≡ list_any is_backslash parts.written.now }
    ensures { IfOk result (λ label. label ≡ label_of parts.entry) }
{
    let name = Name::from_utf8(alloc, parts.name)?;
    let value = unescaped_text(alloc, Escapes::Quoted, parts.written, parts.has_backslash)?;
    Ok(Label { name, value })
}

/// What follows a label.
pub fn after_label(bytes: &[u8]) -> AfterLabel<'_>
    ensures { IsAfter bytes.now result }
{
    if let Some(after) = behind(b'}', bytes) {
        return AfterLabel::End(after);
    }
    match behind(b',', bytes) {
        Some(more) => AfterLabel::More(more),
        None => AfterLabel::Broken,
    }
}

/// The labels that were gathered, in no more room than they need. The room that they were gathered in is for
/// the next line.
///
/// # Errors
///
/// Want of memory.
#[inline(always)]
pub(crate) fn own_labels(alloc: Global, labels: &mut Vec<Label>) -> Result<Vec<Label>, Memory>
    ensures { IfOk result (λ items. items.items ≡ labels.old.items) }
{
    let mut items = Vec::with_capacity(alloc, labels.len())?;
    items.append(labels)?;
    Ok(items)
}

/// The most labels of a list.
fn label_limit(treatment: Treatment) -> u32
    ensures { result ≡ label_limit treatment }
{
    match treatment {
        Treatment::Scraped => 64,
        Treatment::Written => 66,
    }
}

/// The label set of labels; nothing where two labels have one name or there are too many.
///
/// # Errors
///
/// Want of memory.
pub fn set_of(
    alloc: Global,
    treatment: Treatment,
    labels: Vec<Label>,
) -> Result<Option<LabelSet>, Memory>
    ensures { IfOk result (λ set. set ≡ when_true (is_label_list treatment labels.items) (label_set labels.items)) }
{
    match LabelSet::build(alloc, labels, label_limit(treatment)) {
        Ok(set) => Ok(Some(set)),
        Err(LabelFault::TooMany) => Ok(None),
        Err(LabelFault::Twice(_)) => Ok(None),
        Err(LabelFault::Memory) => Err(AllocError),
    }
}
