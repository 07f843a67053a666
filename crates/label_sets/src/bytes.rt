//! Bytes of any value.
ghost use Rattle.std.specs.Prelude.{◌≡◌, ◌==◌, IfOk, length};

use std::alloc::{AllocError, Global};
use std::marker::Model;

/// Bytes of any value.
#[derive(Drop)]
pub struct Bytes {
    items: Vec<u8>,
}

impl Model for Bytes {
    ghost use Rattle.std.specs.Prelude as spec;

    ghost Value = { spec.List spec.ℕ };

    ghost view = { λ b. b.items.items };
}

impl Bytes {
    /// The bytes of a vector, without a copy.
    pub fn from_vec(items: Vec<u8>) -> Bytes
        ensures { result ≡ items.items }
    {
        Bytes { items }
    }

    /// A copy of a slice.
    ///
    /// # Errors
    ///
    /// Want of memory.
    pub fn from_slice(alloc: Global, slice: &[u8]) -> Result<Bytes, AllocError>
        ensures { IfOk result (λ b. b ≡ slice.now) }
    {
        let mut items = Vec::new(alloc);
        items.extend_from_slice(slice)?;
        Ok(Bytes { items })
    }

    /// The vector of the bytes, without a copy.
    pub fn into_vec(self) -> Vec<u8>
        ensures { result.items ≡ self }
    {
        self.items
    }

    /// The bytes as a slice.
    pub fn as_slice(&self) -> &[u8]
        ensures { result.now ≡ self.now }
    {
        self.items.as_slice()
    }

    /// How many bytes there are.
    pub fn len(&self) -> usize
        ensures { result ≡ length self.now }
    {
        self.items.len()
    }

    /// Whether there is no byte.
    pub fn is_empty(&self) -> bool
        ensures { result ≡ (length self.now == 0) }
    {
        self.items.is_empty()
    }

    /// Equal bytes in memory of their own.
    ///
    /// # Errors
    ///
    /// Want of memory.
    pub fn copy(&self) -> Result<Bytes, AllocError>
        ensures { IfOk result (λ b. b ≡ self.now) }
    {
        Ok(Bytes {
            items: self.items.clone()?,
        })
    }
}
