//! Lists that contracts see as plain lists.
ghost use Rattle.std.specs.Prelude.{◌≡◌, [], length, ◌==◌, IfOk};

use crate::shared::Shared;
use std::alloc::{AllocError, Global};
use std::marker::Model;

/// Values in order. Whoever makes a list puts its values into a vector first.
#[derive(Drop)]
pub struct List<T> {
    items: Shared<T>,
}

const _: () = prove!(std::mem::size_of::<List<u64>>() <= 16);

impl<T> Model for List<T> {
    ghost use Rattle.std.specs.Prelude as spec;

    ghost Value = { spec.List T };

    ghost view = { λ l. l.items };
}

impl<T> List<T> {
    /// A list without values. It takes no memory.
    pub fn new(_alloc: Global) -> List<T>
        ensures { result ≡ [] }
    {
        List {
            items: Shared::none(),
        }
    }

    /// The values as a slice.
    pub fn as_slice(&self) -> &[T]
        ensures { result.now ≡ self.now }
    {
        self.items.as_slice()
    }

    /// How many values there are.
    pub fn len(&self) -> usize
        ensures { result ≡ length self.now }
    {
        self.items.as_slice().len()
    }

    /// Whether there is no value.
    pub fn is_empty(&self) -> bool
        ensures { result ≡ (length self.now == 0) }
    {
        self.items.as_slice().is_empty()
    }
}

impl<T: Drop> List<T> {
    /// The values of a vector, without a copy.
    ///
    /// # Errors
    ///
    /// Want of memory.
    pub fn from_vec(items: Vec<T>) -> Result<List<T>, AllocError>
        ensures { IfOk result (λ l. l ≡ items.items) }
    {
        let items = Shared::of(items)?;
        Ok(List { items })
    }

    /// The same values, with one owner more.
    ///
    /// # Errors
    ///
    /// Want of memory.
    pub fn copy(&self) -> Result<List<T>, AllocError>
        ensures { IfOk result (λ l. l ≡ self.now) }
    {
        let items = self.items.copy()?;
        Ok(List { items })
    }
}
