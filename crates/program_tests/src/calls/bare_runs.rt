//! Runs of the commands over a world to which nothing was given.
ghost use Rattle.memory_world.specs.WorldParts.{outside_of};
ghost use Rattle.bridge_program.specs.Ran.{IsUnasked};

use bridge_ports::{MemorySink, Source};
use bridge_program::bridge;
use label_sets::{List, Memory};
use memory_world::MemoryWorld;
use std::alloc::Global;
use std::sync::Wait;
use std::thread::Threads;

/// A world to which nothing was given.
pub(crate) fn bare_world(alloc: Global) -> MemoryWorld
    ensures { IsUnasked (outside_of result) }
{
    MemoryWorld::new(
        alloc,
        List::new(alloc),
        Vec::new(alloc),
        Vec::new(alloc),
        List::new(alloc),
    )
}

/// These words.
pub(crate) fn strings(alloc: Global, words: &[&str]) -> Result<Vec<String>, Memory> {
    let mut all = Vec::new(alloc);
    for word in words {
        all.push(String::from_str(alloc, word)?)?;
    }
    Ok(all)
}

/// The status of the program on these words and this input in a world, how long its output is, and whether that ends so.
pub(crate) fn run_in<R: Threads + Wait + Sync, I: Source>(
    rt: &R,
    alloc: Global,
    words: &[&str],
    world: &mut MemoryWorld,
    input: &mut I,
    end: &[u8],
) -> Result<(u8, usize, bool), Memory>
    requires { IsUnasked (outside_of world.old) }
{
    let words = strings(alloc, words)?;
    let mut output = MemorySink::new(alloc, 65_536, List::new(alloc))?;
    let status = bridge(rt, alloc, words.as_slice(), world, input, &mut output);
    let ended = (status, output.held().len(), output.held().ends_with(end));
    drop(output);
    drop(words);
    Ok(ended)
}

/// The same in a world to which nothing was given.
pub(crate) fn run<R: Threads + Wait + Sync, I: Source>(
    rt: &R,
    alloc: Global,
    words: &[&str],
    input: &mut I,
    end: &[u8],
) -> Result<(u8, usize, bool), Memory> {
    let mut world = bare_world(alloc);
    let ended = run_in(rt, alloc, words, &mut world, input, end);
    drop(world);
    ended
}
