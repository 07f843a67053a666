//! Exemplars (OpenMetrics 1.0, "ABNF": exemplar).
ghost use Rattle.std.specs.Prelude.{◌≡◌, IfOk, IsUtf8, MatchOption, None};
ghost use Rattle.page_model.specs.OpenReading.{exemplar_of};
ghost use Rattle.page_model.specs.declared.format.Format.TheVariants.{OpenMetrics};
ghost use Rattle.openmetrics_grammar.specs.Samples.{IsExemplarIn, IsMaybeExemplarIn, exemplar_behind};

use crate::labels::braced_at;
use crate::numbers::{are_in_range, stamp_at, value_at};
use exact_decimal::Number;
use label_sets::{Label, Memory};
use line_scan::behind_text;
use std::alloc::Global;

/// An exemplar as it is written, its numbers read.
#[derive(Drop)]
pub(crate) struct ExemplarRead {
    pub labels: Vec<Label>,
    pub value: Number,
    pub stamp: Option<Number>,
    pub in_range: bool,
}

/// The exemplar behind its mark and the opening brace of its labels, where it is all that is left of a line.
fn exemplar_behind(alloc: Global, inner: &[u8]) -> Result<Option<ExemplarRead>, Memory>
    requires { IsUtf8 inner.now }
    ensures { IfOk result (λ read. MatchOption read (exemplar_behind inner.now ≡ None) (IsExemplarIn (exemplar_behind inner.now))) }
{
    let mut labels = Vec::new(alloc);
    let Some(rest) = braced_at(alloc, inner, &mut labels)? else {
        return Ok(None);
    };
    let Some(value) = value_at(rest) else {
        return Ok(None);
    };
    let Some(stamp) = stamp_at(value.rest) else {
        return Ok(None);
    };
    if !stamp.rest.is_empty() {
        return Ok(None);
    }
    let in_range = are_in_range(&value, &stamp);
    Ok(Some(ExemplarRead {
        labels,
        value: value.value,
        stamp: stamp.stamp,
        in_range,
    }))
}

/// The exemplar that is all that is left of a line, or that there is none.
pub(crate) fn exemplar_of(
    alloc: Global,
    bytes: &[u8],
) -> Result<Option<Option<ExemplarRead>>, Memory>
    requires { IsUtf8 bytes.now }
    ensures { IfOk result (λ read. MatchOption read (exemplar_of bytes.now ≡ None) (IsMaybeExemplarIn (exemplar_of bytes.now))) }
{
    if bytes.is_empty() {
        return Ok(Some(None));
    }
    let Some(inner) = behind_text(" # {", bytes) else {
        return Ok(None);
    };
    match exemplar_behind(alloc, inner)? {
        Some(exemplar) => Ok(Some(Some(exemplar))),
        None => Ok(None),
    }
}
