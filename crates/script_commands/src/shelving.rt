//! The wires of a run that is over are put on the shelf of the world.
ghost use Rattle.std.specs.Prelude.{◌≡◌, OnOk};
ghost use Rattle.std.specs.List.{AllByRecursion};
ghost use Rattle.script_commands.specs.Shelves.{IsFreePair, with_shelved, KeepsAllButShelf};

use bridge_ports::{Shelved, World};
use label_sets::Memory;
use std::alloc::{AllocError, Global};

/// Puts pairs of wires on the shelf of a world, in order.
pub(crate) fn shelve<W: World>(
    alloc: Global,
    wires: Vec<Shelved>,
    world: &mut W,
) -> Result<(), Memory>
    requires { AllByRecursion IsFreePair wires.items }
    ensures done { OnOk result (W.seen world.new ≡ with_shelved wires.items (W.seen world.old)) }
    ensures kept { KeepsAllButShelf (W.seen world.old) (W.seen world.new) }
{
    let mut left = wires;
    left.reverse();
    for _ in 0..left.len() {
        let Shelved { scrape, post } = left.take_last();
        match world.shelve(alloc, scrape, post) {
            Ok(()) => {}
            Err(AllocError) => return Err(AllocError),
        }
    }
    Ok(())
}
