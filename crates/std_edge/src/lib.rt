//! The outside as the machine has it: its streams, connections, doors and wires over TCP, and a world of these and of
//! files. They tell no bytes, and count each call that fails. A call stands still at most [`MOST_WAIT`], a post's wait for
//! its reply at most [`MOST_POST`], and a talk as a whole has a limit too; readings go by a clock that doesn't step. What
//! an operator is to know while a run goes on is written to the error output.
#![tactic(auto)]

mod conn;
mod deadline;
mod door;
mod lines;
mod pace;
mod pairs;
mod peer;
mod steady_clock;
mod stream;
mod wire;
mod world;

pub use conn::NetConn;
pub use deadline::{MOST_LINGER, MOST_POST, MOST_SCRAPE, MOST_SERVED, MOST_WAIT};
pub use door::NetDoor;
pub use lines::{Line, Lines};
pub use stream::StdStream;
pub use wire::{MOST_PEERS, NetWire};
pub use world::StdWorld;
