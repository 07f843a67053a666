//! The parts of a group, of which one alone takes no memory.
ghost use Rattle.std.specs.Prelude.{◌≡◌, [], ◌∷◌, ◌++◌, IfOk, OnOk, OnErr};

use crate::part::Part;
use label_sets::Memory;
use std::alloc::Global;
use std::marker::Model;
use std::slice;

/// Where the parts lie. Many groups have one: each counter without a created time.
#[derive(Drop)]
enum Held {
    Nothing,
    One(Part),
    Many(Vec<Part>),
}

/// The parts of a group, in the order of their lines.
#[derive(Drop)]
pub(crate) struct PartList {
    held: Held,
}

impl Model for PartList {
    ghost use Rattle.std.specs.Prelude as spec;
    ghost use Rattle.sample_groups.specs.declared.part.Part.{Part as AnyPart};
    ghost use Rattle.sample_groups.specs.PartLists.{parts_held};

    ghost Value = { spec.List AnyPart };

    ghost view = { λ l. parts_held l.held };
}

/// Two values.
fn both<T: Drop>(alloc: Global, first: T, second: T) -> Result<Vec<T>, Memory>
    ensures { IfOk result (λ values. values.items ≡ first ∷ second ∷ []) }
{
    let mut values = Vec::with_capacity(alloc, 2)?;
    values.push(first)?;
    values.push(second)?;
    Ok(values)
}

impl PartList {
    /// No parts.
    pub(crate) fn new() -> PartList
        ensures { result ≡ [] }
    {
        PartList {
            held: Held::Nothing,
        }
    }

    /// The parts as a slice.
    pub(crate) fn as_slice(&self) -> &[Part]
        ensures { result.now ≡ self.now }
    {
        match &self.held {
            Held::Nothing => &[],
            Held::One(part) => slice::from_ref(part),
            Held::Many(parts) => parts.as_slice(),
        }
    }

    /// Puts a part behind the others. The first takes no memory.
    pub(crate) fn put(&mut self, alloc: Global, part: Part) -> Result<(), Memory>
        ensures ok { OnOk result (self.new ≡ self.old ++ part ∷ []) }
        ensures err { OnErr result (self.new ≡ self.old) }
    {
        match &mut self.held {
            Held::Nothing => {
                self.held = Held::One(part);
                Ok(())
            }
            Held::One(first) => {
                let parts = both(alloc, *first, part)?;
                self.held = Held::Many(parts);
                Ok(())
            }
            Held::Many(parts) => {
                parts.push(part)?;
                Ok(())
            }
        }
    }
}
