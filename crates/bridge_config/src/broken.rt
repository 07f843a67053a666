//! Where bytes are no document of TOML.
use std::alloc::Global;

/// Up to which line and column, each counted from 1, these bytes are a document of TOML that is none. Nothing where they
/// are one, and for want of memory.
pub fn broken_at(alloc: Global, bytes: &[u8]) -> Option<(u32, u32)> {
    match toml::table_from_slice(alloc, bytes) {
        Ok(document) => {
            drop(document);
            None
        }
        Err(error) => {
            let place = error.span()?.start;
            Some(place_behind(bytes.get(..place)?))
        }
    }
}

/// The line and the column behind these bytes. A column is a character.
fn place_behind(bytes: &[u8]) -> (u32, u32) {
    let mut line = 1u32;
    let mut column = 1u32;
    for byte in bytes {
        if *byte == b'\n' {
            line = line.saturating_add(1);
            column = 1;
        } else if *byte & 0xc0 != 0x80 {
            column = column.saturating_add(1);
        }
    }
    (line, column)
}
