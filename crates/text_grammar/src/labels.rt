//! The labels of a sample (Prometheus text format 0.0.4, "Line format").
ghost use Rattle.std.specs.Prelude.{◌≡◌, [], length, option_map, IfOk, IfSome, IsUtf8, MatchOption, None};
ghost use Rattle.std.specs.Option.{option_copied};
ghost use Rattle.page_model.specs.TextReading.{begins_blank, label_at, labels_at};
ghost use Rattle.page_model.specs.declared.format.Format.TheVariants.{Text};
ghost use Rattle.page_model.specs.TextItems.{without_leading_blanks};
ghost use Rattle.label_sets.specs.Lists.{when_true};
ghost use Rattle.line_scan.specs.LabelReading.{IsLabelFound};
ghost use Rattle.text_grammar.specs.LabelReading.{opened_at, then_blanks};

use crate::blanks::{begins_blank, without_leading_blanks};
use label_sets::{Label, Memory};
use line_scan::{
    AfterLabel, LabelChar, LabelList, LabelParts, SampleLabels, after_label, behind, cut_name,
    label_of, labels_at, quoted_at,
};
use page_model::Format;
use std::alloc::Global;

/// What stands behind an equals sign and the quote that opens a value, with blanks in front of each.
fn opened_behind_blanks(bytes: &[u8]) -> Option<&[u8]>
    ensures value { option_copied result ≡ opened_at bytes.now }
    ensures utf8 { IsUtf8 bytes.now → IfSome result (λ opened. IsUtf8 opened.now) }
{
    let Some(value) = behind(b'=', without_leading_blanks(bytes)) else {
        return None;
    };
    behind(b'"', without_leading_blanks(value))
}

/// The same. Most often no blanks are there.
fn opened_at(bytes: &[u8]) -> Option<&[u8]>
    ensures value { option_copied result ≡ opened_at bytes.now }
    ensures utf8 { IsUtf8 bytes.now → IfSome result (λ opened. IsUtf8 opened.now) }
{
    match bytes {
        [b'=', b'"', opened @ ..] => Some(opened),
        _ => opened_behind_blanks(bytes),
    }
}

/// The label at the front.
fn label_at(bytes: &[u8]) -> Option<LabelParts<'_>>
    ensures { MatchOption result (label_at bytes.now ≡ None) (IsLabelFound (label_at bytes.now) bytes.now) }
{
    let Some(name) = cut_name::<LabelChar>(bytes) else {
        return None;
    };
    let Some(opened) = opened_at(name.rest) else {
        return None;
    };
    let Some(quoted) = quoted_at(opened) else {
        return None;
    };
    Some(LabelParts {
        name: name.front,
        written: quoted.written,
        has_backslash: quoted.has_backslash,
        rest: without_leading_blanks(quoted.rest),
    })
}

/// The labels of a list with blanks between its parts.
pub(crate) struct BlankedList;

impl LabelList for BlankedList {
    ghost use Rattle.page_model.specs.TextReading.{labels_at};
    ghost use Rattle.line_scan.proofs.Laws.{text-no_labels};

    ghost labels_at = { labels_at };

    fn next_label<'a>(
        alloc: Global,
        bytes: &'a [u8],
        labels: &mut Vec<Label>,
    ) -> Result<AfterLabel<'a>, Memory> {
        let bytes = without_leading_blanks(bytes);
        if let Some(after) = behind(b'}', bytes) {
            return Ok(AfterLabel::End(after));
        }
        let Some(parts) = label_at(bytes) else {
            return Ok(AfterLabel::Broken);
        };
        let label = label_of(alloc, parts)?;
        labels.push(label)?;
        Ok(after_label(parts.rest))
    }

    ghost nothing = { text-no_labels };
}

/// What stands behind blanks, of which there is one at least.
fn behind_blanks(bytes: &[u8]) -> Option<&[u8]>
    ensures value { option_copied result ≡ when_true (begins_blank bytes.now) (without_leading_blanks bytes.now) }
    ensures utf8 { IsUtf8 bytes.now → IfSome result (λ rest. IsUtf8 rest.now) }
{
    if !begins_blank(bytes) {
        return None;
    }
    Some(without_leading_blanks(bytes))
}

/// Adds the labels behind an opening brace, and answers what stands behind them and blanks.
fn braced_labels<'a>(
    alloc: Global,
    inner: &'a [u8],
    labels: &mut Vec<Label>,
) -> Result<Option<&'a [u8]>, Memory>
    requires text { IsUtf8 inner.now }
    requires none { labels.old.items ≡ [] }
    ensures labels { IfOk result (λ rest. option_map (λ cs. (labels.new.items, cs)) (option_copied rest)
        ≡ then_blanks (labels_at (length inner.now) inner.now)) }
    ensures utf8 { IfOk result (λ rest. IfSome rest (λ behind. IsUtf8 behind.now)) }
{
    let Some(rest) = labels_at::<BlankedList>(alloc, inner.len(), inner, labels)? else {
        return Ok(None);
    };
    Ok(Some(without_leading_blanks(rest)))
}

impl SampleLabels for BlankedList {
    ghost format = { Text };

    fn format() -> Format {
        Format::Text
    }

    fn labels_behind<'a>(
        alloc: Global,
        bytes: &'a [u8],
        labels: &mut Vec<Label>,
    ) -> Result<Option<&'a [u8]>, Memory> {
        match behind(b'{', without_leading_blanks(bytes)) {
            Some(inner) => braced_labels(alloc, inner, labels),
            None => Ok(behind_blanks(bytes)),
        }
    }
}
