//! Byte strings that lie one behind the other, each once, found by their hashes; no strings make that slow.
//!
//! The strings of a bucket are chained, and a look-up walks along a chain. The hash has no secret, so whoever
//! chooses the strings can make all of them fall into one bucket, where each new one would be compared with all
//! before it. So where a new string passed more than 16 others, the table goes over to ordered maps for good:
//! there a look-up among n strings takes some log n comparisons, whatever they are. Growth only parts chains, so
//! before that none is longer than 17; strings that nobody chose so have no such chain. No contract speaks of
//! time.
#![tactic(auto)]

mod byte_table;
mod chains;
mod hashes;
mod ordered;
mod strings;

pub use byte_table::ByteTable;
