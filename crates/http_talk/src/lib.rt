//! HTTP as a client speaks it: the texts of requests, and what the bytes of a reply come to.
#![tactic(auto)]

mod chunk_place;
mod chunk_reader;
mod fault;
mod flow;
mod head;
mod head_facts;
mod long_head;
mod part;
mod reply;
pub mod reply_laws;
mod seen;
mod stream;
mod texts;
mod words;

pub use fault::{Body, Progress, ReplyFault};
pub use flow::Flow;
pub use head::{FIELD_LIMIT, HEAD_LIMIT, status_of};
pub use reply::Reply;
pub use seen::HeadSeen;
pub use stream::Stream;
pub use texts::{get_text, post_head, post_text};
