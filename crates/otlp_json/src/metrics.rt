//! Metrics with their points, scopes and resources.

ghost use Rattle.std.specs.Prelude.{◌≡◌, codes, fold};
ghost use Rattle.otlp_json.specs.Pieces.{each_behind_comma, each_before_comma};
ghost use Rattle.otlp_json.specs.Texts.{metric_text, resource_text, scope_text, shape_member, sum_member, text_member, truth_text};

use crate::json::{Json, emit_between, emit_member};
use label_sets::{List, Text};
use otlp_tree::{Metric, NumberPoint, ResourceMetrics, ScopeMetrics, Shape};
use text_emitter::Emitter;

/// Emits a text as a member with the comma behind it, unless the text is empty.
fn emit_text_member<E: Emitter>(out: &mut E, key: &[u8], text: &Text)
    ensures { out.new ≡ fold E.push out.old (each_before_comma (text_member key.now text.now)) }
{
    if text.as_bytes().is_empty() {
        return;
    }
    out.put(b"\"");
    out.put(key);
    out.put(b"\":");
    text.emit(out);
    out.put(b",");
}

/// The text of a truth value.
fn truth(value: bool) -> &'static [u8]
    ensures { result.now ≡ truth_text value }
{
    if value { b"true" } else { b"false" }
}

/// Emits the member with the points of a sum.
#[tactic(auto, unfolding(crate::specs::Texts::sum_member))]
fn emit_sum<E: Emitter>(out: &mut E, points: &List<NumberPoint>, monotonic: bool)
    ensures { out.new ≡ fold E.push out.old (sum_member points.now monotonic) }
{
    out.put(b"\"sum\":{\"dataPoints\":");
    points.emit(out);
    out.put(b",\"aggregationTemporality\":2,\"isMonotonic\":");
    out.put(truth(monotonic));
    out.put(b"}");
}

impl Json for Shape {
    ghost text = { shape_member };

    #[tactic(auto, unfolding(crate::specs::Texts::shape_member, crate::specs::Texts::gauge_member, crate::specs::Texts::histogram_member, crate::specs::Texts::summary_member))]
    fn emit<E: Emitter>(&self, out: &mut E) {
        match self {
            Shape::Gauge(points) => emit_between(out, b"\"gauge\":{\"dataPoints\":", points, b"}"),
            Shape::Sum { points, monotonic } => emit_sum(out, points, *monotonic),
            Shape::Histogram(points) => emit_between(
                out,
                b"\"histogram\":{\"dataPoints\":",
                points,
                b",\"aggregationTemporality\":2}",
            ),
            Shape::Summary(points) => emit_between(
                out,
                b"\"summary\":{\"dataPoints\":",
                points,
                b"}",
            ),
        }
    }
}

impl Json for Metric {
    ghost text = { metric_text };

    fn emit<E: Emitter>(&self, out: &mut E) {
        out.put(b"{\"name\":");
        self.name.emit(out);
        out.put(b",");
        emit_text_member(out, b"description", &self.description);
        emit_text_member(out, b"unit", &self.unit);
        self.shape.emit(out);
        out.put(b"}");
    }
}

/// Emits the version of a scope behind a comma, unless it is empty.
fn emit_version<E: Emitter>(out: &mut E, version: &Text)
    ensures { out.new ≡ fold E.push out.old (each_behind_comma (text_member (codes "version") version.now)) }
{
    if version.as_bytes().is_empty() {
        return;
    }
    emit_member(out, b",\"version\":", version);
}

impl Json for ScopeMetrics {
    ghost text = { scope_text };

    fn emit<E: Emitter>(&self, out: &mut E) {
        out.put(b"{\"scope\":{\"name\":");
        self.name.emit(out);
        emit_version(out, &self.version);
        out.put(b"},\"metrics\":");
        self.metrics.emit(out);
        out.put(b"}");
    }
}

impl Json for ResourceMetrics {
    ghost text = { resource_text };

    #[tactic(auto, unfolding(crate::specs::Texts::resource_text))]
    fn emit<E: Emitter>(&self, out: &mut E) {
        out.put(b"{\"resource\":{\"attributes\":");
        self.resource.emit(out);
        out.put(b"},\"scopeMetrics\":");
        self.scopes.emit(out);
        out.put(b"}");
    }
}
