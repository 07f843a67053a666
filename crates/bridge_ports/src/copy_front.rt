//! Copying the front of some bytes.
ghost use Rattle.std.specs.Prelude.{◌≡◌, length, take, min};
ghost use Rattle.bridge_ports.specs.InMemory.{most_at_once};

/// Copies as much of the front of `from` as fits `into` and a u32 counts.
pub(crate) fn copy_front(from: &[u8], into: &mut [u8]) -> u32
    ensures count { result ≡ min (min (length from.now) (length into.old)) most_at_once }
    ensures copied { take result into.new ≡ take result from.now }
{
    let count = from.len().min(into.len()).min(u32::MAX as usize);
    into[..count].copy_from_slice(&from[..count]);
    count as u32
}
