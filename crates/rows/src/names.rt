//! The names of the rows of a folder.
use std::alloc::Global;
use std::fs::DirEntry;
use std::rt::Files;
use std::{fs, io};

/// The name of the row that the file of a path belongs to, if to any.
fn name_in(path: &str) -> Option<&str> {
    for end in [".words", ".in", ".out"] {
        if let Some(name) = path.strip_suffix(end) {
            return Some(name);
        }
    }
    None
}

/// Appends a copy of a path.
fn push_path(alloc: Global, paths: &mut Vec<String>, path: &str) -> io::Result<()> {
    paths.push(String::from_str(alloc, path)?)?;
    Ok(())
}

/// Appends an entry to the folders, where it is one, and else the name of the row that it belongs to, if to any.
fn take_entry<R: Files>(
    alloc: Global,
    entry: &DirEntry<R>,
    folders: &mut Vec<String>,
    names: &mut Vec<String>,
) -> io::Result<()> {
    let path = entry.path().as_str();
    if entry.file_type()?.is_dir() {
        return push_path(alloc, folders, path);
    }
    match name_in(path) {
        Some(name) => push_path(alloc, names, name),
        None => Ok(()),
    }
}

/// Appends the folders of a folder, and the names of the rows that its files belong to.
fn look_into<R: Files + AllocGlobal + Clone + Drop>(
    rt: &R,
    folder: &str,
    folders: &mut Vec<String>,
    names: &mut Vec<String>,
) -> io::Result<()> {
    for entry in fs::read_dir(rt, folder)? {
        take_entry(rt.alloc(), &entry?, folders, names)?;
    }
    Ok(())
}

/// Appends the names of the rows of a folder and of all folders below it, one for each of their files.
fn look_below<R: Files + AllocGlobal + Clone + Drop>(
    rt: &R,
    top: &str,
    names: &mut Vec<String>,
) -> io::Result<()> {
    let mut folders = Vec::new(rt.alloc());
    push_path(rt.alloc(), &mut folders, top)?;
    for _ in 0..u64::MAX {
        let Some(folder) = folders.pop() else {
            break;
        };
        look_into(rt, folder.as_str(), &mut folders, names)?;
    }
    Ok(())
}

/// The names of the rows of a folder and of all folders below it, sorted, each once. A row has its name from each of
/// its files, so that one that lacks a file is not passed over.
pub(crate) fn row_names<R: Files + AllocGlobal + Clone + Drop>(
    rt: &R,
    top: &str,
) -> io::Result<Vec<String>> {
    let mut names = Vec::new(rt.alloc());
    look_below(rt, top, &mut names)?;
    names.sort()?;
    names.dedup();
    Ok(names)
}
