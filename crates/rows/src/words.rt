//! What the words of a row ask for.
use std::alloc::{AllocError, Global};

/// The room of an output of which nothing else is said.
const AMPLE: u64 = 1_048_576;

/// What the first line of the words says.
#[derive(Clone, Copy)]
pub(crate) struct Setting {
    /// The status that is wanted.
    pub(crate) status: u8,
    /// The read that fails, counted from 1.
    pub(crate) bad_read: Option<u64>,
    /// How many bytes the output takes.
    pub(crate) room: u64,
}

/// What is asked by the words of a row.
#[derive(Drop)]
pub(crate) struct Asked {
    pub(crate) setting: Setting,
    /// The words of the command line.
    pub(crate) words: Vec<String>,
}

impl Setting {
    /// Sets what a name stands for, if for anything.
    fn set(&mut self, name: &str, number: u64) -> Option<()> {
        match name {
            "read" => self.bad_read = Some(number),
            "room" => self.room = number,
            _ => return None,
        }
        Some(())
    }
}

/// Sets what pairs of a name and a number stand for, if each stands for something.
fn set_pairs(setting: &mut Setting, pairs: &str) -> Option<()> {
    let mut name = None;
    for part in pairs.split(' ') {
        match name {
            None => name = Some(part),
            Some(before) => {
                setting.set(before, part.parse::<u64>().ok()?)?;
                name = None;
            }
        }
    }
    if name.is_some() {
        return None;
    }
    Some(())
}

/// What a first line says.
fn first_line(line: &str) -> Option<Setting> {
    let (status, pairs) = match line.split_once(' ') {
        Some((status, pairs)) => (status, Some(pairs)),
        None => (line, None),
    };
    let mut setting = Setting {
        status: status.parse::<u8>().ok()?,
        bad_read: None,
        room: AMPLE,
    };
    if let Some(pairs) = pairs {
        set_pairs(&mut setting, pairs)?;
    }
    Some(setting)
}

/// What is asked by the bytes of a file: lines, of which each has its end.
pub(crate) fn asked_by(alloc: Global, bytes: &[u8]) -> Result<Option<Asked>, AllocError> {
    let text = std::str::from_utf8(bytes)
        .ok()
        .and_then(|text| text.strip_suffix('\n'));
    let Some(text) = text else {
        return Ok(None);
    };
    let mut lines = text.split('\n');
    let Some(setting) = lines.next().and_then(|line| first_line(line)) else {
        return Ok(None);
    };
    let mut words = Vec::new(alloc);
    for word in lines {
        words.push(String::from_str(alloc, word)?)?;
    }
    Ok(Some(Asked { setting, words }))
}
