//! Descriptor lines (OpenMetrics 1.0, "ABNF": metric-descriptor).
ghost use Rattle.std.specs.Prelude.{◌≡◌, IfOk, IsUtf8, MatchOption, None};
ghost use Rattle.std.specs.List.{list_all};
ghost use Rattle.label_sets.specs.Names.{is_metric_char};
ghost use Rattle.page_model.specs.declared.format.Format.TheVariants.{OpenMetrics};
ghost use Rattle.page_model.specs.declared.format.Treatment.{Treatment as AnyTreatment};
ghost use Rattle.page_model.specs.OpenReading.{kind_named, named_at, descriptor_of};
ghost use Rattle.line_scan.specs.Cuts.{IsCutAt};
ghost use Rattle.line_scan.specs.LineReading.{Reads};
ghost use Rattle.openmetrics_grammar.specs.Descriptors.{open_help_of, open_type_of, open_unit_of};

use label_sets::{Kind, Memory, Name, Text};
use line_scan::{
    CharClass, Cut, Escapes, LineRead, MetricChar, behind, behind_text, cut_name, has_backslash,
    is_word, unescaped_text,
};
use page_model::{Item, Rule};
use std::alloc::Global;

/// The metric name at the front, and what stands behind it and a space.
fn named_at(bytes: &[u8]) -> Option<Cut<'_>>
    ensures { MatchOption result (named_at bytes.now ≡ None) (IsCutAt (named_at bytes.now) bytes.now) }
{
    let Some(name) = cut_name::<MetricChar>(bytes) else {
        return None;
    };
    let Some(rest) = behind(b' ', name.rest) else {
        return None;
    };
    Some(Cut {
        front: name.front,
        rest,
    })
}

/// The kind of a word.
#[tactic(auto, unfolding(page_model::specs::OpenReading::kind_named))]
fn kind_named(word: &[u8]) -> Option<Kind>
    ensures { result ≡ kind_named word.now }
{
    if is_word(word, "counter") {
        return Some(Kind::Counter);
    }
    if is_word(word, "gauge") {
        return Some(Kind::Gauge);
    }
    if is_word(word, "histogram") {
        return Some(Kind::Histogram);
    }
    if is_word(word, "gaugehistogram") {
        return Some(Kind::GaugeHistogram);
    }
    if is_word(word, "stateset") {
        return Some(Kind::StateSet);
    }
    if is_word(word, "info") {
        return Some(Kind::Info);
    }
    if is_word(word, "summary") {
        return Some(Kind::Summary);
    }
    if is_word(word, "unknown") {
        return Some(Kind::Unknown);
    }
    None
}

/// A TYPE line, from behind its word.
fn type_line(alloc: Global, bytes: &[u8]) -> Result<LineRead, Memory>
    ensures { (t : AnyTreatment) → IfOk result (Reads OpenMetrics t (open_type_of bytes.now)) }
{
    let Some(cut) = named_at(bytes) else {
        return Ok(LineRead::Refused(Rule::Syntax));
    };
    let Some(kind) = kind_named(cut.rest) else {
        return Ok(LineRead::Refused(Rule::Syntax));
    };
    let name = Name::from_utf8(alloc, cut.front)?;
    Ok(LineRead::Item(Item::KindOf { name, kind }))
}

/// A HELP line, from behind its word.
fn help_line(alloc: Global, bytes: &[u8]) -> Result<LineRead, Memory>
    requires { IsUtf8 bytes.now }
    ensures { (t : AnyTreatment) → IfOk result (Reads OpenMetrics t (open_help_of bytes.now)) }
{
    let Some(cut) = named_at(bytes) else {
        return Ok(LineRead::Refused(Rule::Syntax));
    };
    let name = Name::from_utf8(alloc, cut.front)?;
    let text = unescaped_text(alloc, Escapes::Quoted, cut.rest, has_backslash(cut.rest))?;
    Ok(LineRead::Item(Item::Help { name, text }))
}

/// Whether each byte may stand in a unit.
fn are_unit_chars(bytes: &[u8]) -> bool
    ensures { result ≡ list_all is_metric_char bytes.now }
{
    bytes.iter().all(|byte| MetricChar::has(*byte))
}

/// A UNIT line, from behind its word.
fn unit_line(alloc: Global, bytes: &[u8]) -> Result<LineRead, Memory>
    requires { IsUtf8 bytes.now }
    ensures { (t : AnyTreatment) → IfOk result (Reads OpenMetrics t (open_unit_of bytes.now)) }
{
    let Some(cut) = named_at(bytes) else {
        return Ok(LineRead::Refused(Rule::Syntax));
    };
    if !are_unit_chars(cut.rest) {
        return Ok(LineRead::Refused(Rule::Syntax));
    }
    let name = Name::from_utf8(alloc, cut.front)?;
    let unit = Text::from_utf8(alloc, cut.rest)?;
    Ok(LineRead::Item(Item::Unit { name, unit }))
}

/// A line that begins with `#`.
pub(crate) fn descriptor_line(alloc: Global, line: &[u8]) -> Result<LineRead, Memory>
    requires { IsUtf8 line.now }
    ensures { (t : AnyTreatment) → IfOk result (Reads OpenMetrics t (descriptor_of line.now)) }
{
    if let Some(rest) = behind_text("# TYPE ", line) {
        return type_line(alloc, rest);
    }
    if let Some(rest) = behind_text("# HELP ", line) {
        return help_line(alloc, rest);
    }
    if let Some(rest) = behind_text("# UNIT ", line) {
        return unit_line(alloc, rest);
    }
    if is_word(line, "# EOF") {
        return Ok(LineRead::Item(Item::Eof));
    }
    Ok(LineRead::Refused(Rule::Syntax))
}
