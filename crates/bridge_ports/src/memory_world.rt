//! What a world in memory is made of.
use crate::memory_door::MemoryDoor;
use crate::memory_wire::MemoryWire;
use crate::talk::Address;
use label_sets::{Bytes, Text};

/// A pair of wires.
#[derive(Drop)]
pub struct Shelved {
    /// The wire of scrapes.
    pub scrape: MemoryWire,
    /// The wire of posts.
    pub post: MemoryWire,
}

/// A file.
#[derive(Drop)]
pub struct MemoryFile {
    /// Its path.
    pub path: Text,
    /// Its bytes.
    pub bytes: Bytes,
}

/// The pair of wires of a target.
#[derive(Drop)]
pub struct MemoryPair {
    /// The number of the target, from 1 to 256.
    pub number: u32,
    /// Its wires.
    pub wires: Shelved,
}

/// The door of an address.
#[derive(Drop)]
pub struct MemoryListen {
    /// Where the door is asked for.
    pub at: Address,
    /// The door.
    pub door: MemoryDoor,
}
