//! The files of a world in memory.
ghost use Rattle.std.specs.Prelude.{◌≡◌, ◌<◌, map, length, take, min, true, false, Some, None, IsSome};
ghost use Rattle.std.specs.Counts.{IsPrefixLen};
ghost use Rattle.bridge_ports.specs.InMemory.{most_at_once};

use crate::keyed::{Keyed, place_of};
use bridge_ports::MemoryFile;
use label_sets::{List, Text};
use std::marker::Model;

impl Keyed<Text> for MemoryFile {
    ghost use Rattle.std.specs.Prelude.{bytes_eq};

    ghost has_key = { λ file path. bytes_eq file.path path };

    fn is_of(&self, key: &Text) -> bool {
        self.path.as_bytes() == key.as_bytes()
    }
}

/// Files, and the one that is open: its place, and how many of its bytes were read.
#[derive(Drop)]
pub(crate) struct MemoryFiles {
    files: List<MemoryFile>,
    is_open: bool,
    place: usize,
    read: usize,
}

impl Model for MemoryFiles {
    ghost use Rattle.memory_world.specs.WorldParts.{FilesState, files_state, IsOpenWithin};

    ghost Value = { FilesState };

    ghost view = { λ f. files_state f.files f.is_open f.place f.read };

    ghost invariant = { λ f. IsOpenWithin f.files f.is_open f.place f.read };
}

impl MemoryFiles {
    ghost use Rattle.bridge_ports.specs.MemoryWorlds.{file_of};
    ghost use Rattle.memory_world.specs.WorldParts.{file_given, IsFileRead, IsFileClosed};

    /// Files of which none is open. It takes no memory.
    pub(crate) fn new(files: List<MemoryFile>) -> MemoryFiles
        ensures { result ≡ record { files = map file_given files; left = None } }
    {
        MemoryFiles {
            files,
            is_open: false,
            place: 0,
            read: 0,
        }
    }

    /// Opens the file of this path, where there is one and it is not refused; and tells whether it is open.
    pub(crate) fn open(&mut self, path: &Text, is_refused: bool) -> bool
        ensures files { self.new.files ≡ self.old.files }
        ensures opened { result ≡ true → (is_refused ≡ false)
            × IsSome self.new.left × (self.new.left ≡ file_of self.old.files path.now) }
        ensures closed { result ≡ false → IsFileClosed self.old self.new path.now is_refused }
    {
        self.is_open = false;
        if is_refused {
            return false;
        }
        let place = place_of(self.files.as_slice(), path);
        if place >= self.files.len() {
            return false;
        }
        self.is_open = true;
        self.place = place;
        self.read = 0;
        true
    }

    /// Reads the file that is open, and answers how many bytes; 0 exactly at its end.
    pub(crate) fn read(&mut self, into: &mut [u8]) -> u32
        requires { IsSome self.old.left }
        ensures bound { IsPrefixLen result into.new }
        ensures files { self.new.files ≡ self.old.files }
        ensures read { IsFileRead self.old.left self.new.left result into.new }
    {
        let left = &self.files.as_slice()[self.place].bytes.as_slice()[self.read..];
        let count = copy_front(left, into);
        self.read += count as usize;
        count
    }
}

/// Copies as much of the front of `from` as fits `into` and a u32 counts.
fn copy_front(from: &[u8], into: &mut [u8]) -> u32
    ensures count { result ≡ min (min (length from.now) (length into.old)) most_at_once }
    ensures copied { take result into.new ≡ take result from.now }
{
    let count = from.len().min(into.len()).min(u32::MAX as usize);
    into[..count].copy_from_slice(&from[..count]);
    count as u32
}
