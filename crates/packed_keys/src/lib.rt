//! Keys of samples, label sets and names as bytes that no others have, in tables that no page makes slow; what
//! was put in is read back, so that nobody has to keep it beside.
#![tactic(auto)]

mod key_row;
mod keys;
mod packed_sets;
mod packing;
mod parting;
mod sample_key;
mod seen_keys;
mod seen_names;
mod seen_sets;
mod series_places;
mod unpacking;

pub use keys::Keys;
pub use packed_sets::PackedSets;
pub use packing::kind_byte;
pub use parting::{Parted, part};
pub use sample_key::SampleKey;
pub use seen_keys::SeenKeys;
pub use seen_names::SeenNames;
pub use seen_sets::SeenSets;
pub use series_places::SeriesPlaces;
