//! Whole requests.

ghost use Rattle.std.specs.Prelude.{◌≡◌, fold};
ghost use Rattle.otlp_json.specs.Texts.{request_text};

use crate::json::emit_between;
use otlp_tree::Request;
use text_emitter::{Emit, Emitter};

/// A request with its text.
#[derive(Clone, Copy)]
pub(crate) struct RequestText<'a>(pub(crate) &'a Request);

impl Emit for RequestText<'_> {
    ghost text = { λ r. request_text r.0.now };

    #[tactic(auto, unfolding(crate::specs::Texts::request_text))]
    fn emit<E: Emitter>(&self, out: &mut E) {
        emit_between(out, b"{\"resourceMetrics\":", &self.0.parts, b"}");
    }
}
