//! Families with the lines above their samples, and the end of a page (OpenMetrics 1.0, "MetricFamily",
//! "Overall Structure").

ghost use Rattle.std.specs.Prelude.{◌≡◌, fold};
ghost use Rattle.std.specs.List.{flat_map};
ghost use Rattle.page_model.specs.OpenItems.{kind_word as word_of};
ghost use Rattle.open_writing.specs.Pieces.{family_text, help_line_text, readings_text, type_text, unit_text};
ghost use Rattle.open_writing.specs.Writing.{line_text, page_items};

use crate::readings::emit_reading;
use crate::strings::emit_escaped;
use label_sets::{Kind, List, Name, Text};
use page_model::{Family, Reading};
use text_emitter::{Emit, Emitter};

/// The word of a kind.
fn kind_word(kind: Kind) -> &'static [u8]
    ensures { result.now ≡ word_of kind }
{
    match kind {
        Kind::Counter => b"counter",
        Kind::Gauge => b"gauge",
        Kind::Histogram => b"histogram",
        Kind::GaugeHistogram => b"gaugehistogram",
        Kind::StateSet => b"stateset",
        Kind::Info => b"info",
        Kind::Summary => b"summary",
        Kind::Unknown => b"unknown",
    }
}

/// Emits a TYPE line.
#[tactic(auto, unfolding(crate::specs::Writing::item_text, crate::specs::Pieces::type_text))]
fn emit_type<E: Emitter>(out: &mut E, name: &Name, kind: Kind)
    ensures { out.new ≡ fold E.push out.old (type_text name.now kind) }
{
    out.put(b"# TYPE ");
    out.put(name.as_bytes());
    out.put(b" ");
    out.put(kind_word(kind));
    out.put(b"\n");
}

/// Emits a UNIT line, unless the unit is empty.
#[tactic(auto, unfolding(crate::specs::Writing::item_text, crate::specs::Pieces::unit_text))]
fn emit_unit<E: Emitter>(out: &mut E, name: &Name, unit: &Text)
    ensures { out.new ≡ fold E.push out.old (unit_text name.now unit.now) }
{
    if unit.as_bytes().is_empty() {
        return;
    }
    out.put(b"# UNIT ");
    out.put(name.as_bytes());
    out.put(b" ");
    out.put(unit.as_bytes());
    out.put(b"\n");
}

/// Emits a HELP line, unless the text is empty.
#[tactic(auto, unfolding(crate::specs::Writing::item_text, crate::specs::Pieces::help_line_text))]
fn emit_help<E: Emitter>(out: &mut E, name: &Name, text: &Text)
    ensures { out.new ≡ fold E.push out.old (help_line_text name.now text.now) }
{
    if text.as_bytes().is_empty() {
        return;
    }
    out.put(b"# HELP ");
    out.put(name.as_bytes());
    out.put(b" ");
    emit_escaped(out, text.as_bytes());
    out.put(b"\n");
}

/// Emits the samples of a family's readings.
#[tactic(auto, unfolding(crate::specs::Pieces::readings_text))]
fn emit_readings<E: Emitter>(out: &mut E, kind: Kind, family: &Name, readings: &[Reading])
    ensures { out.new ≡ fold E.push out.old (readings_text kind family.now readings.now) }
{
    for reading in readings {
        emit_reading(out, kind, family, reading);
    }
}

/// Emits a family.
fn emit_family<E: Emitter>(out: &mut E, family: &Family)
    ensures { out.new ≡ fold E.push out.old (family_text family.now) }
{
    emit_type(out, &family.name, family.kind);
    emit_unit(out, &family.name, &family.unit);
    emit_help(out, &family.name, &family.help);
    emit_readings(out, family.kind, &family.name, family.readings.as_slice());
}

/// Emits families.
fn emit_families<E: Emitter>(out: &mut E, families: &[Family])
    ensures { out.new ≡ fold E.push out.old (flat_map family_text families.now) }
{
    for family in families {
        emit_family(out, family);
    }
}

/// Families with the text of their page.
#[derive(Clone, Copy)]
pub(crate) struct FamiliesText<'a>(pub(crate) &'a List<Family>);

impl Emit for FamiliesText<'_> {
    ghost text = { λ families. flat_map line_text (page_items families.0.now) };

    fn emit<E: Emitter>(&self, out: &mut E) {
        emit_families(out, self.0.as_slice());
        out.put(b"# EOF\n");
    }
}
