//! The outside of the bridge: the traits of what it reads from and writes to, and implementations in
//! memory that tell their bytes and fail where they are told to.
#![tactic(auto)]

mod all_bytes;
mod conn;
mod copy_front;
mod door;
mod kept;
mod limits;
mod memory_door;
mod memory_sink;
mod memory_source;
mod memory_wire;
mod memory_world;
mod notice;
mod reason;
mod settings;
mod sink;
mod source;
mod talk;
mod target;
mod wire;
mod world;
mod writing;

pub use all_bytes::{AllBytes, Piece};
pub use conn::Conn;
pub use door::Door;
pub use limits::{BLOCK_BYTES, MILLISECOND, MOST_HOST_BYTES, MOST_JOB_BYTES, MOST_TARGETS, SECOND};
pub use memory_door::{MemoryConn, MemoryDoor};
pub use memory_sink::MemorySink;
pub use memory_source::{MemorySource, SureSource};
pub use memory_wire::MemoryWire;
pub use memory_world::{MemoryFile, MemoryListen, MemoryPair, Shelved};
pub use notice::{BodyFault, Notice, RunNotice, TalkFault};
pub use reason::Reason;
pub use settings::Settings;
pub use sink::Sink;
pub use source::Source;
pub use talk::{Address, End, MemoryReply, Place, Stage, Talk};
pub use target::Target;
pub use wire::Wire;
pub use world::World;
pub use writing::write_all;

/// A call on the outside failed; its count of faults tells so.
#[derive(Clone, Copy, Debug, PartialEq, Eq)]
pub struct Failed;
