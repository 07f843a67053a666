//! The points of summaries.

ghost use Rattle.std.specs.Prelude.{◌≡◌, fold};
ghost use Rattle.otlp_json.specs.Texts.{quantile_members, quantile_text, summary_point_text};

use crate::json::{Json, emit_member, emit_pair};
use crate::points::{PointValue, emit_open_point};
use otlp_tree::{SummaryPoint, SummaryValue};
use page_model::Quantile;
use text_emitter::Emitter;

impl Json for Quantile {
    ghost text = { quantile_text };

    #[tactic(auto, unfolding(crate::specs::Texts::quantile_text))]
    fn emit<E: Emitter>(&self, out: &mut E) {
        emit_pair(out, b"\"quantile\":", &self.at, b"\"value\":", &self.value);
    }
}

impl PointValue for SummaryValue {
    ghost members = { quantile_members };

    #[tactic(auto, unfolding(crate::specs::Texts::quantile_members))]
    fn emit_members<E: Emitter>(&self, out: &mut E) {
        emit_member(out, b",\"count\":", &self.count);
        emit_member(out, b",\"sum\":", &self.sum);
        emit_member(out, b",\"quantileValues\":", &self.quantiles);
    }
}

impl Json for SummaryPoint {
    ghost text = { summary_point_text };

    fn emit<E: Emitter>(&self, out: &mut E) {
        emit_open_point(out, &self.labels, Some(self.start), self.time, &self.value);
        out.put(b"}");
    }
}
