//! The exemplars of points.
ghost use Rattle.std.specs.Prelude.{◌≡◌, ◌==◌, ◌&&◌, not, filter, length, map, IfOk};
ghost use Rattle.std.specs.Char.{is_ascii_hexdigit};
ghost use Rattle.std.specs.List.{list_all, list_any};
ghost use Rattle.family_metrics.specs.Shots as spec;

use exact_decimal::{Number, nanos};
use label_sets::{Label, LabelSet, List, Memory};
use otlp_tree::Shot;
use page_model::Exemplar;
use std::alloc::Global;

/// The latest time of an exemplar: 2^62, in nanoseconds since the Unix epoch.
const LATEST_TIME: u64 = 1 << 62;

/// Whether each of the bytes is a hexadecimal digit.
fn are_digits(bytes: &[u8]) -> bool
    ensures { result ≡ list_all is_ascii_hexdigit bytes.now }
{
    bytes.iter().all(|byte| byte.is_ascii_hexdigit())
}

/// Whether a text is so many hexadecimal digits.
fn is_hexadecimal(places: usize, text: &str) -> bool
    ensures { result ≡ (length text.now == places && list_all is_ascii_hexdigit text.now) }
{
    text.len() == places && are_digits(text.as_bytes())
}

/// The id of a trace that a text is, where it is one (W3C Trace Context, "trace-id").
#[tactic(auto, unfolding(crate::specs::Shots::id_of))]
fn trace_id(text: &str) -> Option<u128>
    ensures { result ≡ spec.id_of 32 text.now }
{
    if !is_hexadecimal(32, text) {
        return None;
    }
    let Ok(trace) = u128::from_str_radix(text, 16) else {
        return None;
    };
    if trace == 0 { None } else { Some(trace) }
}

/// The id of a span that a text is, where it is one (W3C Trace Context, "parent-id").
#[tactic(auto, unfolding(crate::specs::Shots::id_of))]
fn span_id(text: &str) -> Option<u64>
    ensures { result ≡ spec.id_of 16 text.now }
{
    if !is_hexadecimal(16, text) {
        return None;
    }
    let Ok(span) = u64::from_str_radix(text, 16) else {
        return None;
    };
    if span == 0 { None } else { Some(span) }
}

/// The trace that labels name.
fn trace_in(labels: &LabelSet) -> Option<u128>
    ensures { result ≡ spec.trace_in labels.now }
{
    match labels.value(b"trace_id") {
        Some(value) => trace_id(value.as_str()),
        None => None,
    }
}

/// The span that labels name.
fn span_in(labels: &LabelSet) -> Option<u64>
    ensures { result ≡ spec.span_in labels.now }
{
    match labels.value(b"span_id") {
        Some(value) => span_id(value.as_str()),
        None => None,
    }
}

/// Whether a label is the id of a trace or of a span.
fn is_id(label: &Label) -> bool
    ensures { result ≡ spec.is_id label.now }
{
    let name = label.name.as_str();
    let value = label.value.as_str();
    (name == "trace_id" && trace_id(value).is_some())
        || (name == "span_id" && span_id(value).is_some())
}

/// Whether some of the labels is an id.
fn has_id(labels: &LabelSet) -> bool
    ensures { result ≡ list_any spec.is_id labels.now }
{
    labels.labels().iter().any(|label| is_id(label))
}

/// The labels that are no ids.
fn labels_left(alloc: Global, labels: &[Label]) -> Result<Vec<Label>, Memory>
    ensures { IfOk result (λ left. left.items ≡ filter (λ l. not (spec.is_id l)) labels.now) }
{
    let mut left = Vec::with_capacity(alloc, labels.len())?;
    for label in labels {
        if !is_id(label) {
            left.push(label.copy()?)?;
        }
    }
    Ok(left)
}

/// The set without the labels that are ids. Where none is one, it has one owner more.
fn attributes(alloc: Global, labels: &LabelSet) -> Result<LabelSet, Memory>
    ensures { IfOk result (λ left. left ≡ filter (λ l. not (spec.is_id l)) labels.now) }
{
    if !has_id(labels) {
        return labels.copy();
    }
    labels.in_order();
    let left = labels_left(alloc, labels.labels())?;
    LabelSet::from_sorted(left)
}

/// The time of an exemplar of a point at this time: its own, where it has one that can be told.
fn time_of(time: u64, stamp: Option<Number>) -> u64
    ensures { result ≡ spec.shot_time time stamp }
{
    let Some(stamp) = stamp else {
        return time;
    };
    match nanos(&stamp) {
        Some(own) => own.min(LATEST_TIME),
        None => time,
    }
}

/// An exemplar as one of a point at this time.
#[tactic(auto, unfolding(crate::specs::Shots::shot_of))]
fn shot(alloc: Global, time: u64, exemplar: &Exemplar) -> Result<Shot, Memory>
    ensures { IfOk result (λ shot. shot ≡ spec.shot_of time exemplar.now) }
{
    let attributes = attributes(alloc, &exemplar.labels)?;
    Ok(Shot {
        attributes,
        time: time_of(time, exemplar.stamp),
        value: exemplar.value,
        trace: trace_in(&exemplar.labels),
        span: span_in(&exemplar.labels),
    })
}

/// The exemplars of a reading as those of its point, which is at this time in nanoseconds since the Unix epoch.
pub(crate) fn shots(alloc: Global, time: u64, exemplars: &[Exemplar]) -> Result<List<Shot>, Memory>
    ensures { IfOk result (λ shots. shots ≡ map (spec.shot_of time) exemplars.now) }
{
    if exemplars.is_empty() {
        return Ok(List::new(alloc));
    }
    let mut shots = Vec::with_capacity(alloc, exemplars.len())?;
    for exemplar in exemplars {
        let shot = shot(alloc, time, exemplar)?;
        shots.push(shot)?;
    }
    List::from_vec(shots)
}
