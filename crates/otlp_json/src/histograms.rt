//! The points of histograms.

ghost use Rattle.std.specs.Prelude.{◌≡◌, fold};
ghost use Rattle.otlp_json.specs.Pieces.{each_behind_comma};
ghost use Rattle.otlp_json.specs.Texts.{histogram_point_text, known_sum_member, observation_members};

use crate::exemplars::emit_exemplars;
use crate::json::{Json, emit_member};
use crate::points::{PointValue, emit_open_point};
use exact_decimal::Number;
use otlp_tree::{HistogramPoint, HistogramValue};
use text_emitter::Emitter;

/// Emits a sum behind a comma, where it is known.
#[tactic(auto, unfolding(crate::specs::Texts::known_sum_member))]
fn emit_sum<E: Emitter>(out: &mut E, sum: &Option<Number>)
    ensures { out.new ≡ fold E.push out.old (each_behind_comma (known_sum_member sum.now)) }
{
    if let Some(n) = sum {
        emit_member(out, b",\"sum\":", n);
    }
}

impl PointValue for HistogramValue {
    ghost members = { observation_members };

    #[tactic(auto, unfolding(crate::specs::Texts::observation_members))]
    fn emit_members<E: Emitter>(&self, out: &mut E) {
        emit_member(out, b",\"count\":", &self.layout.count);
        emit_sum(out, &self.sum);
        emit_member(out, b",\"bucketCounts\":", &self.layout.counts);
        emit_member(out, b",\"explicitBounds\":", &self.layout.bounds);
    }
}

impl Json for HistogramPoint {
    ghost text = { histogram_point_text };

    fn emit<E: Emitter>(&self, out: &mut E) {
        emit_open_point(out, &self.labels, Some(self.start), self.time, &self.value);
        emit_exemplars(out, &self.exemplars);
        out.put(b"}");
    }
}
