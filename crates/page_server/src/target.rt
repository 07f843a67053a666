//! What the method and the target of a request ask for (RFC 9110, section 9.3.1; RFC 3986, sections 3.3 and 3.4;
//! Prometheus, "Federation").
ghost use Rattle.std.specs.Prelude.{◌≡◌, IfOk};
ghost use Rattle.page_server.specs.Serving.{QueryAsks, RequestAsks, is_path_byte, path_of, query_of};

use crate::asked::Asked;
use label_sets::Memory;
use line_scan::{CharClass, behind, cut_chars, is_word};
use series_select::{QueryFault, query};
use std::alloc::{AllocError, Global};

/// A byte of a path: any but a question mark, which begins a query.
struct PathByte;

impl CharClass for PathByte {
    ghost test = { is_path_byte };

    fn has(byte: u8) -> bool {
        byte != b'?'
    }
}

/// A target in two.
#[derive(Clone, Copy)]
struct Parts<'a> {
    path: &'a [u8],
    query: &'a [u8],
}

/// A target, cut at its first question mark. The query is empty where there is none.
#[tactic(auto, unfolding(crate::specs::Serving::path_of, crate::specs::Serving::query_of))]
fn parts_of(target: &[u8]) -> Parts<'_>
    ensures path { result.path.now ≡ path_of target.now }
    ensures query { result.query.now ≡ query_of target.now }
{
    let cut = cut_chars::<PathByte>(target);
    Parts {
        path: cut.front,
        query: behind(b'?', cut.rest).unwrap_or(b""),
    }
}

/// What the query of a request for the page asks for.
fn query_asks(alloc: Global, text: &[u8]) -> Result<Asked, Memory>
    ensures { IfOk result (QueryAsks text.now) }
{
    match query(alloc, text) {
        Ok(selectors) => Ok(Asked::Page(selectors)),
        Err(QueryFault::Selector(_)) => Ok(Asked::BadRequest),
        Err(QueryFault::Memory) => Err(AllocError),
    }
}

/// What a request with this method and this target asks for.
pub(crate) fn request_asks(alloc: Global, method: &[u8], target: &[u8]) -> Result<Asked, Memory>
    ensures { IfOk result (RequestAsks method.now target.now) }
{
    if !is_word(method, "GET") {
        return Ok(Asked::NotAllowed);
    }
    let parts = parts_of(target);
    if !is_word(parts.path, "/federate") {
        return Ok(Asked::NotFound);
    }
    query_asks(alloc, parts.query)
}
