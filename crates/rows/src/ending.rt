//! How the bridge ends over the memory of a row.
ghost use Rattle.std.specs.Prelude.{◌≡◌, ◌≤◌, ◌↔◌, length, IfOk, IsNone};
ghost use Rattle.memory_world.specs.WorldParts.{outside_of};
ghost use Rattle.bridge_program.specs.Ran.{IsUnasked};

use crate::row::Row;
use bridge_ports::{MemoryFile, MemorySink, MemorySource};
use bridge_program::bridge;
use label_sets::{Bytes, List, Memory, Text};
use memory_world::MemoryWorld;
use std::alloc::Global;
use std::sync::Wait;
use std::thread::Threads;

/// How a row ended.
#[derive(Clone, Copy)]
pub(crate) struct Ending {
    pub(crate) status: u8,
    /// The place, counted from 1, of the first byte in which what was printed differs from what is wanted, if in any.
    pub(crate) difference: Option<usize>,
}

/// The place, counted from 1, of the first byte in which these differ, if in any.
fn first_difference(held: &[u8], wanted: &[u8]) -> Option<usize>
    ensures { IsNone result ↔ (held.now ≡ wanted.now) }
{
    if held == wanted {
        return None;
    }
    let same = held
        .iter()
        .zip(wanted.iter())
        .take_while(|(a, b)| a == b)
        .count();
    Some(same.saturating_add(1))
}

/// The path of the file that is to be run, where the words say so.
fn run_path(row: &Row) -> Option<&str> {
    match row.asked.words.as_slice() {
        [verb, path] if verb.as_str() == "run" => Some(path.as_str()),
        _ => None,
    }
}

/// The file of a path.
fn file(alloc: Global, path: &str, bytes: &[u8]) -> Result<List<MemoryFile>, Memory>
    ensures { IfOk result (λ files. length files ≤ 1) }
{
    let file = MemoryFile {
        path: Text::from_str(alloc, path)?,
        bytes: Bytes::from_slice(alloc, bytes)?,
    };
    List::from_vec(Vec::from_array(alloc, [file])?)
}

/// The file that a row gives to the world, if any.
fn files(alloc: Global, row: &Row) -> Result<List<MemoryFile>, Memory>
    ensures { IfOk result (λ files. length files ≤ 1) }
{
    match run_path(row) {
        Some(path) => file(alloc, path, row.input.as_slice()),
        None => Ok(List::new(alloc)),
    }
}

/// The bytes that a row puts on the input.
fn input(alloc: Global, row: &Row) -> Result<Bytes, Memory> {
    let bytes = match run_path(row) {
        Some(_) => b"".as_slice(),
        None => row.input.as_slice(),
    };
    Bytes::from_slice(alloc, bytes)
}

/// The numbers of the calls that fail.
fn failing(alloc: Global, row: &Row) -> Result<List<u64>, Memory> {
    let mut calls = Vec::new(alloc);
    if let Some(call) = row.asked.setting.bad_read {
        calls.push(call)?;
    }
    List::from_vec(calls)
}

/// A world of at most one file.
fn world(alloc: Global, files: List<MemoryFile>, failing: List<u64>) -> MemoryWorld
    requires { length files ≤ 1 }
    ensures { IsUnasked (outside_of result) }
{
    MemoryWorld::new(alloc, files, Vec::new(alloc), Vec::new(alloc), failing)
}

/// The world of a row.
fn world_of(alloc: Global, row: &Row) -> Result<MemoryWorld, Memory>
    ensures { IfOk result (λ w. IsUnasked (outside_of w)) }
{
    let files = files(alloc, row)?;
    let failing = failing(alloc, row)?;
    Ok(world(alloc, files, failing))
}

/// The input of a row.
fn source(alloc: Global, row: &Row) -> Result<MemorySource, Memory> {
    let bytes = input(alloc, row)?;
    let failing = failing(alloc, row)?;
    Ok(MemorySource::new(bytes, failing))
}

/// Runs the bridge over the memory of a row, in its world.
fn run_in<R: Threads + Wait + Sync>(
    rt: &R,
    alloc: Global,
    row: &Row,
    world: &mut MemoryWorld,
) -> Result<Ending, Memory>
    requires { IsUnasked (outside_of world.old) }
{
    let mut input = source(alloc, row)?;
    let mut output = MemorySink::new(alloc, row.asked.setting.room, List::new(alloc))?;
    let words = row.asked.words.as_slice();
    let status = bridge(rt, alloc, words, world, &mut input, &mut output);
    Ok(Ending {
        status,
        difference: first_difference(output.held(), row.printed.as_slice()),
    })
}

/// Runs the bridge over the memory of a row.
pub(crate) fn run_row<R: Threads + Wait + Sync>(
    rt: &R,
    alloc: Global,
    row: &Row,
) -> Result<Ending, Memory> {
    let mut world = world_of(alloc, row)?;
    run_in(rt, alloc, row, &mut world)
}
