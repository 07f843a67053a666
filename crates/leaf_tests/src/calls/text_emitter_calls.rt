//! Tests of `text_emitter`.
use bridge_ports::MemorySink;
use label_sets::List;
use std::alloc::{AllocError, Global};
use text_emitter::{Emit, Emitter, print_line, write};

/// A text of any length.
#[derive(Drop)]
struct Long {
    bytes: Vec<u8>,
}

impl Emit for Long {
    ghost use Rattle.std.specs.Prelude.{◌++◌, codes};

    ghost text = { λ l. codes "<" ++ l.bytes.items ++ codes ">" };

    fn emit<E: Emitter>(&self, out: &mut E) {
        out.put(b"<");
        out.put(self.bytes.as_slice());
        out.put(b">");
    }
}

fn text_with(alloc: Global, len: usize) -> Result<Long, AllocError> {
    let mut bytes = Vec::with_capacity(alloc, len)?;
    for at in 0..len {
        bytes.push((at % 251) as u8)?;
    }
    Ok(Long { bytes })
}

/// A text, and the line feed behind it.
fn line_of(alloc: Global, text: &Long) -> Result<Vec<u8>, AllocError> {
    let mut line = Vec::new(alloc);
    write(text, &mut line)?;
    line.push(b'\n')?;
    Ok(line)
}

/// Whether a line is printed as far as an output has room, and the call says whether that was all of it.
fn is_printed_into(
    alloc: Global,
    text: &Long,
    line: &[u8],
    room: usize,
) -> Result<bool, AllocError> {
    let mut out = MemorySink::new(alloc, room as u64, List::new(alloc))?;
    let printed = print_line(text, &mut out).is_ok();
    let end = line.len().min(room);
    let is_held = out.held() == &line[..end];
    drop(out);
    Ok(is_held && printed == (line.len() <= room))
}

const ROOMS: &[usize] = &[0, 1, 32_768, 69_000, 200_000];

/// Into how many of the outputs a text of this length is printed as it should be.
fn right_rooms(alloc: Global, len: usize) -> Result<usize, AllocError> {
    let text = text_with(alloc, len)?;
    let line = line_of(alloc, &text)?;
    let mut right = 0usize;
    for room in ROOMS {
        if is_printed_into(alloc, &text, line.as_slice(), *room) == Ok(true) {
            right = right.saturating_add(1);
        }
    }
    drop(line);
    drop(text);
    Ok(right)
}

const LENGTHS: &[usize] = &[32_765, 32_766, 32_767, 32_768, 32_769, 70_000];

#[test]
fn prints_what_is_longer_than_its_room(rt: HostRuntime) {
    for len in LENGTHS {
        assert!(rt; right_rooms(rt.alloc(), *len) == Ok(ROOMS.len()));
    }
}
