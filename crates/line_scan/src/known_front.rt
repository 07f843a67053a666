//! A front of sample lines that is known (Prometheus text format 0.0.4, "Line format"; OpenMetrics 1.0, "ABNF": sample).
ghost use Rattle.std.specs.Prelude.{◌≡◌, List, IfOk, IfSome, IsUtf8};
ghost use Rattle.label_sets.specs.Labels.{label_set};
ghost use Rattle.label_sets.specs.declared.label.Label.{Label as AnyLabel};
ghost use Rattle.page_model.specs.LineHeads.{follows_head};
ghost use Rattle.line_scan.specs.LineHeads.{AreAlwaysList, IsFrontOf, IsKnownIn};

use crate::chars::{Blank, CharClass};
use crate::head::Head;
use crate::scan::behind_text;
use label_sets::{LabelSet, Memory, Text};
use page_model::Format;
use std::alloc::Global;
use std::marker::Model;

/// The name and labels of a sample line as they are written, and the label set that they make.
#[derive(Drop)]
pub(crate) struct KnownFront {
    format: Format,
    front: Text,
    /// How many bytes of the front are the name.
    name_len: usize,
    set: LabelSet,
}

impl Model for KnownFront {
    ghost use Rattle.line_scan.specs.LineHeads.{KnownHead, IsKnown};

    ghost Value = { KnownHead };

    ghost view = { λ k. record { format = k.format; front = k.front; name_len = k.name_len; set = k.set } };

    ghost invariant = { λ k. IsKnown (record { format = k.format; front = k.front; name_len = k.name_len; set = k.set }) };
}

/// Whether this may follow the head of a line of this format.
fn follows_head(format: Format, rest: &[u8]) -> bool
    ensures { result ≡ follows_head format rest.now }
{
    match (format, rest.split_first()) {
        (_, None) => false,
        (Format::Text, Some((first, _))) => !Blank::has(*first) && *first != b'{',
        (Format::OpenMetrics, Some((first, _))) => *first == b' ',
    }
}

impl KnownFront {
    /// The front of a head, whose labels make this set.
    ///
    /// # Errors
    ///
    /// Want of memory.
    pub(crate) fn of(
        alloc: Global,
        format: Format,
        head: Head<'_>,
        set: &LabelSet,
    ) -> Result<Option<KnownFront>, Memory>
        requires { (labels : List AnyLabel) × IsFrontOf format labels head × AreAlwaysList labels × (set.now ≡ label_set labels) }
    {
        let Some(front) = Text::from_bytes(alloc, head.front)? else {
            return Ok(None);
        };
        let set = set.copy()?;
        Ok(Some(KnownFront {
            format,
            front,
            name_len: head.name.len(),
            set,
        }))
    }

    /// The head of a line of this format, where it begins with the front.
    pub(crate) fn head_in<'a>(&self, format: Format, bytes: &'a [u8]) -> Option<Head<'a>>
        ensures { IfSome result (IsKnownIn format bytes.now self.now.set) }
    {
        if self.format != format {
            return None;
        }
        let Some(rest) = behind_text(self.front.as_str(), bytes) else {
            return None;
        };
        if !follows_head(format, rest) {
            return None;
        }
        Some(Head {
            name: &bytes[..self.name_len],
            front: &bytes[..self.front.len()],
            rest,
        })
    }

    /// The set, which has one owner more.
    ///
    /// # Errors
    ///
    /// Want of memory.
    pub(crate) fn copied_set(&self) -> Result<LabelSet, Memory>
        ensures { IfOk result (λ set. set ≡ self.now.set) }
    {
        self.set.copy()
    }
}
