//! Replies for a wire in memory.
use bridge_ports::{End, MemoryReply};
use label_sets::{Bytes, List};
use std::alloc::{AllocError, Global};

/// A reply, and how its talk ends.
pub type Planned<'a> = (&'a [u8], End);

/// The replies, each as it comes at the time 7.
pub fn replies(alloc: Global, plan: &[Planned<'_>]) -> Result<List<MemoryReply>, AllocError> {
    let mut replies = Vec::new(alloc);
    for (got, end) in plan {
        let reply = MemoryReply {
            at: 7,
            got: Bytes::from_slice(alloc, got)?,
            end: *end,
        };
        if replies.push(reply).is_err() {
            return Err(AllocError);
        }
    }
    List::from_vec(replies)
}
