//! The request that a visit posts. Its body lies where it was written, and its head beside it.
ghost use Rattle.std.specs.Prelude.{◌≡◌, IfOk, length};
ghost use Rattle.http_talk.specs.Requests.{post_request};
ghost use Rattle.series_table.specs.Making.{whole_request};

use bridge_ports::Address;
use http_talk::post_head;
use label_sets::Memory;
use std::alloc::Global;

/// A request in two parts.
#[derive(Drop)]
pub(crate) struct PostText {
    head: Vec<u8>,
    body: Vec<u8>,
}

impl PostText {
    /// The request that carries a body to this address.
    #[tactic(auto, unfolding(http_talk::specs::Requests::post_request))]
    pub(crate) fn new(alloc: Global, to: &Address, body: Vec<u8>) -> Result<PostText, Memory>
        ensures text { IfOk result (λ text. whole_request text ≡ post_request to.now body.items) }
        ensures body { IfOk result (λ text. text.body.items ≡ body.items) }
    {
        let head = post_head(alloc, to, body.len() as u64)?.into_vec();
        Ok(PostText { head, body })
    }

    /// How many bytes it has.
    pub(crate) fn len(&self) -> u64
        ensures { result ≡ length (whole_request self.now) }
    {
        self.head.len() as u64 + self.body.len() as u64
    }

    /// Its head, and its body.
    pub(crate) fn parts(&self) -> (&[u8], &[u8])
        ensures head { result.0.now ≡ self.now.head.items }
        ensures body { result.1.now ≡ self.now.body.items }
    {
        (self.head.as_slice(), self.body.as_slice())
    }

    /// Its body alone.
    pub(crate) fn into_body(self) -> Vec<u8>
        ensures { result ≡ self.body }
    {
        self.body
    }
}
