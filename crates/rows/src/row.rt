//! A row: what is asked, what is on the input, and what is to be printed.
use crate::words::{Asked, asked_by};
use anyhow::{Context, Result, bail};
use std::fs;
use std::rt::Files;

/// What the three files of a row have.
#[derive(Drop)]
pub(crate) struct Row {
    /// What is asked.
    pub(crate) asked: Asked,
    /// What is on the input.
    pub(crate) input: Vec<u8>,
    /// What is to be printed.
    pub(crate) printed: Vec<u8>,
}

/// The bytes of the file of a row with this end.
fn bytes_of<R: Files + AllocGlobal>(rt: &R, name: &str, end: &str) -> Result<Vec<u8>> {
    let path = format!(in rt.alloc(); "{name}{end}")?;
    fs::read(rt, path.as_str()).context(format_args!("there is no file {end} to be read"))
}

/// What the words of a row ask for.
fn asked_of<R: Files + AllocGlobal>(rt: &R, name: &str) -> Result<Asked> {
    let words = bytes_of(rt, name, ".words")?;
    match asked_by(rt.alloc(), words.as_slice())? {
        Some(asked) => Ok(asked),
        None => bail!("its words are out of form"),
    }
}

/// The row of a name.
pub(crate) fn row_of<R: Files + AllocGlobal>(rt: &R, name: &str) -> Result<Row> {
    let asked = asked_of(rt, name)?;
    let input = bytes_of(rt, name, ".in")?;
    let printed = bytes_of(rt, name, ".out")?;
    Ok(Row {
        asked,
        input,
        printed,
    })
}
