//! One connection that asks for a page: its request, read within its limits until it is certain what it asks for, and the
//! reply.
#![tactic(auto)]

mod asked;
mod reply;
mod request;
pub mod serving_laws;
mod status;
mod target;

pub use asked::Asked;
pub use reply::say_reply;
pub use request::hear_request;
pub use status::{ReplyStatus, ServeFault};
