//! The program `rows`: runs the bridge over memory on each row of the folder that it is run in and of the folders below
//! that, and prints those that come out otherwise. A row is three files:
//!
//! - `NAME.words`: its first line is the status that is wanted, behind which may stand `read N`, the read that fails,
//!   and `room N`, how many bytes the output takes; each further line is a word;
//! - `NAME.in`: what is on the input or, where the words are `run PATH`, in the file of this path;
//! - `NAME.out`: what is to be printed.
#![tactic(auto)]

mod ending;
mod names;
mod row;
mod words;

use crate::ending::{Ending, run_row};
use crate::names::row_names;
use crate::row::row_of;
use anyhow::Result;
use std::alloc::{AllocError, Global};
use std::io;
use std::process::ExitCode;
use std::rt::Files;
use std::sync::Wait;
use std::thread::Threads;

/// What is wrong with an end of a row, if anything.
fn fault_of(alloc: Global, ending: Ending, wanted: u8) -> Result<Option<String>, AllocError> {
    let status = ending.status;
    match ending.difference {
        None if status == wanted => Ok(None),
        None => Ok(Some(format!(in alloc; "status {status}, where {wanted} is wanted")?)),
        Some(place) => Ok(Some(format!(in alloc;
            "status {status}, where {wanted} is wanted, and the output differs at byte {place}"
        )?)),
    }
}

/// What is wrong with how the row of a name ends, if anything.
fn fault<R: Files + AllocGlobal + Threads + Wait + Sync>(
    rt: &R,
    name: &str,
) -> Result<Option<String>> {
    let row = row_of(rt, name)?;
    let ending = run_row(rt, rt.alloc(), &row)?;
    Ok(fault_of(rt.alloc(), ending, row.asked.setting.status)?)
}

/// Whether the row of a name ends as it is to end. Where it does not, or is no row, this is printed.
fn is_as_wanted<R: Files + Print + AllocGlobal + Threads + Wait + Sync>(
    rt: &R,
    name: &str,
) -> io::Result<bool> {
    match fault(rt, name) {
        Ok(None) => return Ok(true),
        Ok(Some(fault)) => println!(rt; "{name}: {fault}")?,
        Err(error) => println!(rt; "{name}: {error}")?,
    }
    Ok(false)
}

/// Whether all rows end as they are to end.
fn are_as_wanted<R: Files + Print + AllocGlobal + Threads + Wait + Sync>(
    rt: &R,
    names: &[String],
) -> io::Result<bool> {
    let mut all = true;
    for name in names {
        all &= is_as_wanted(rt, name.as_str())?;
    }
    Ok(all)
}

fn main(rt: HostRuntime) -> io::Result<ExitCode> {
    let names = row_names(&rt, ".")?;
    if names.is_empty() {
        println!(rt; "there is no row")?;
        return Ok(ExitCode::FAILURE);
    }
    if are_as_wanted(&rt, names.as_slice())? {
        Ok(ExitCode::SUCCESS)
    } else {
        Ok(ExitCode::FAILURE)
    }
}
