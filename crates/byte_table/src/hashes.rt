//! The hashes of byte strings.
ghost use Rattle.std.specs.Prelude.{◌≡◌};
ghost use Rattle.byte_table.specs.Hashes.{hash_of, second_hash};

use std::hash::{DefaultHasher, FoldHasher, Hasher};

/// The low half of the hash of bytes.
#[tactic(auto, unfolding(crate::specs::Hashes::hash_of))]
pub(crate) fn hash_of(bytes: &[u8]) -> u32
    ensures { result ≡ hash_of bytes.now }
{
    let mut state = FoldHasher::default();
    state.write(bytes);
    (state.finish() & 0xffff_ffff) as u32
}

/// The hash of bytes by SipHash-1-3. It takes longer, and no way is known to write down many strings that share it.
#[tactic(auto, unfolding(crate::specs::Hashes::second_hash))]
pub(crate) fn second_hash(bytes: &[u8]) -> u64
    ensures { result ≡ second_hash bytes.now }
{
    let mut state = DefaultHasher::default();
    state.write(bytes);
    state.finish()
}
