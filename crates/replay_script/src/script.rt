//! What a script says.
use crate::header::Header;
use bridge_ports::{MemoryReply, Target};
use label_sets::List;

/// A target, and what its two wires answer in order.
#[derive(Drop)]
pub struct ScriptTarget {
    pub target: Target,
    /// The replies to its scrapes, of which there is one for each round.
    pub scrapes: List<MemoryReply>,
    /// The replies to its posts.
    pub posts: List<MemoryReply>,
}

/// What a script says.
#[derive(Drop)]
pub struct Script {
    pub header: Header,
    pub targets: List<ScriptTarget>,
}
