//! Label lists (OpenMetrics 1.0, "ABNF": labels).
ghost use Rattle.std.specs.Prelude.{◌≡◌, ◌++◌, ◌∷◌, [], option_map, IfOk, IfSome, IsUtf8, MatchOption, None};
ghost use Rattle.std.specs.Option.{option_copied};
ghost use Rattle.page_model.specs.OpenReading.{label_at, more_labels_at};
ghost use Rattle.page_model.specs.declared.format.Format.TheVariants.{OpenMetrics};
ghost use Rattle.line_scan.specs.LabelReading.{IsLabelFound};
ghost use Rattle.openmetrics_grammar.specs.LabelLists.{IsTaken, IsBehindComma, braced_at};

use label_sets::{Label, Memory};
use line_scan::{
    AfterLabel, LabelChar, LabelList, LabelParts, SampleLabels, after_label, behind, behind_text,
    cut_name, label_of, labels_at, quoted_at,
};
use page_model::Format;
use std::alloc::Global;

/// The label at the front.
fn label_at(bytes: &[u8]) -> Option<LabelParts<'_>>
    ensures { MatchOption result (label_at bytes.now ≡ None) (IsLabelFound (label_at bytes.now) bytes.now) }
{
    let Some(name) = cut_name::<LabelChar>(bytes) else {
        return None;
    };
    let Some(opened) = behind_text("=\"", name.rest) else {
        return None;
    };
    let Some(quoted) = quoted_at(opened) else {
        return None;
    };
    Some(LabelParts {
        name: name.front,
        written: quoted.written,
        has_backslash: quoted.has_backslash,
        rest: quoted.rest,
    })
}

/// Adds the label at the front, and answers what stands behind it.
#[inline(always)]
fn take_label<'a>(
    alloc: Global,
    bytes: &'a [u8],
    labels: &mut Vec<Label>,
) -> Result<Option<&'a [u8]>, Memory>
    requires { IsUtf8 bytes.now }
    ensures { IfOk result (λ rest. MatchOption rest (label_at bytes.now ≡ None) (λ behind. IsTaken bytes.now labels.old.items labels.new.items behind.now)) }
{
    let Some(parts) = label_at(bytes) else {
        return Ok(None);
    };
    let label = label_of(alloc, parts)?;
    labels.push(label)?;
    Ok(Some(parts.rest))
}

/// Adds the label behind a comma, and answers what follows it.
fn after_comma<'a>(
    alloc: Global,
    bytes: &'a [u8],
    labels: &mut Vec<Label>,
) -> Result<AfterLabel<'a>, Memory>
    requires { IsUtf8 bytes.now }
    ensures { IfOk result (IsBehindComma bytes.now labels.old.items labels.new.items) }
{
    match take_label(alloc, bytes, labels)? {
        Some(rest) => Ok(AfterLabel::More(rest)),
        None => Ok(AfterLabel::Broken),
    }
}

/// The labels of a list behind the first.
struct LaterLabels;

impl LabelList for LaterLabels {
    ghost use Rattle.page_model.specs.OpenReading.{more_labels_at};
    ghost use Rattle.line_scan.proofs.Laws.{open-no_labels};

    ghost labels_at = { more_labels_at };

    fn next_label<'a>(
        alloc: Global,
        bytes: &'a [u8],
        labels: &mut Vec<Label>,
    ) -> Result<AfterLabel<'a>, Memory> {
        match after_label(bytes) {
            AfterLabel::End(rest) => Ok(AfterLabel::End(rest)),
            AfterLabel::More(more) => after_comma(alloc, more, labels),
            AfterLabel::Broken => Ok(AfterLabel::Broken),
        }
    }

    ghost nothing = { open-no_labels };
}

/// Adds the labels behind an opening brace, and answers what stands behind the closing one.
pub(crate) fn braced_at<'a>(
    alloc: Global,
    inner: &'a [u8],
    labels: &mut Vec<Label>,
) -> Result<Option<&'a [u8]>, Memory>
    requires text { IsUtf8 inner.now }
    requires none { labels.old.items ≡ [] }
    ensures labels { IfOk result (λ rest. option_map (λ cs. (labels.new.items, cs)) (option_copied rest) ≡ braced_at inner.now) }
    ensures utf8 { IfOk result (λ rest. IfSome rest (λ behind. IsUtf8 behind.now)) }
{
    if let Some(rest) = behind(b'}', inner) {
        return Ok(Some(rest));
    }
    let Some(rest) = take_label(alloc, inner, labels)? else {
        return Ok(None);
    };
    labels_at::<LaterLabels>(alloc, inner.len(), rest, labels)
}

/// The labels behind the name of a sample: a list, or none.
pub(crate) struct OptionalList;

impl SampleLabels for OptionalList {
    ghost format = { OpenMetrics };

    fn format() -> Format {
        Format::OpenMetrics
    }

    fn labels_behind<'a>(
        alloc: Global,
        bytes: &'a [u8],
        labels: &mut Vec<Label>,
    ) -> Result<Option<&'a [u8]>, Memory> {
        match behind(b'{', bytes) {
            Some(inner) => braced_at(alloc, inner, labels),
            None => Ok(Some(bytes)),
        }
    }
}
