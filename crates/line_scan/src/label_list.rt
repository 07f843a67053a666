//! Label lists that are read one label after the other (Prometheus text format 0.0.4, "Line format"; OpenMetrics
//! 1.0, "ABNF": labels).
ghost use Rattle.std.specs.Prelude.{◌≡◌, ℕ, List, Option, option_map, IfOk, IfSome, IsUtf8, None};
ghost use Rattle.std.specs.Option.{option_copied};
ghost use Rattle.label_sets.specs.declared.label.Label.{Label as AnyLabel};
ghost use Rattle.line_scan.specs.LabelReading.{IsNext, behind_labels};

use crate::labels::AfterLabel;
use label_sets::{Label, Memory};
use std::alloc::Global;

/// How the labels of a list follow each other in one format.
pub trait LabelList {
    // the labels that are left, of which at most so many are read, and what stands behind the closing brace
    ghost labels_at: { ℕ → List ℕ → Option (List AnyLabel × List ℕ) };

    /// Adds the next label, and answers what follows it; at the closing brace there is none.
    fn next_label<'a>(
        alloc: Global,
        bytes: &'a [u8],
        labels: &mut Vec<Label>,
    ) -> Result<AfterLabel<'a>, Memory>
        requires { IsUtf8 bytes.now }
        ensures { IfOk result (IsNext labels_at bytes.now labels.old.items labels.new.items) };

    ghost nothing: { (cs : List ℕ) → labels_at 0 cs ≡ None };
}

/// Adds the labels up to the closing brace, at most so many, and answers what stands behind it.
///
/// # Errors
///
/// Want of memory.
pub fn labels_at<'a, L: LabelList>(
    alloc: Global,
    most: usize,
    bytes: &'a [u8],
    labels: &mut Vec<Label>,
) -> Result<Option<&'a [u8]>, Memory>
    requires { IsUtf8 bytes.now }
    ensures labels { IfOk result (λ rest. option_map (λ cs. (labels.new.items, cs)) (option_copied rest)
        ≡ behind_labels labels.old.items (L.labels_at most bytes.now)) }
    ensures utf8 { IfOk result (λ rest. IfSome rest (λ behind. IsUtf8 behind.now)) }
{
    let mut rest = bytes;
    for _ in 0..most {
        match L::next_label(alloc, rest, labels)? {
            AfterLabel::End(after) => return Ok(Some(after)),
            AfterLabel::More(more) => rest = more,
            AfterLabel::Broken => return Ok(None),
        }
    }
    Ok(None)
}
