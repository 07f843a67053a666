//! What a series is known by: names, texts, label sets and kinds, and the small list types that
//! contracts see as plain lists. A copy of any of them is one owner more and no copy of the bytes.
#![tactic(auto)]

mod bytes;
mod kind;
mod label;
mod label_set;
mod list;
mod renaming;
mod series_key;
pub mod set_laws;
mod shared;
mod short_text;
mod sorting;
mod text;

pub use bytes::Bytes;
pub use kind::Kind;
pub use label::Label;
pub use label_set::{LabelFault, LabelSet};
pub use list::List;
pub use series_key::SeriesKey;
pub use text::{Name, Text};

/// Want of memory: the one answer that no clause ties to a cause.
pub type Memory = std::alloc::AllocError;
