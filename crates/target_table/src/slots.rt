//! The slots of the targets' tracks, and the pages that readers see.
ghost use Rattle.std.specs.Prelude.{◌≡◌, ◌<◌, ◌≤◌, [], length, map, All, Some, None, IfOk, IsSome, is_none, unwrap_or, count_by};
ghost use Rattle.std.specs.List.{slice_get};
ghost use Rattle.std.specs.Vec.{vec_capacity};
ghost use Rattle.page_model.specs.declared.event.Shown.{Shown as OneShown};
ghost use Rattle.series_table.specs.Records.{Kept};
ghost use Rattle.target_table.specs.Machine.{changed_at};

use bridge_ports::Wire;
use label_sets::Memory;
use page_model::Shown;
use series_table::Track;
use std::alloc::{AllocError, Global};
use std::mem;

/// Takes the track out of a slot.
pub(crate) fn take_out<W: Wire>(slots: &mut Vec<Option<Track<W>>>, place: usize) -> Option<Track<W>>
    requires { place < length slots.old.items }
    ensures was { slice_get slots.old.items place ≡ Some result }
    ensures after { slots.new.items ≡ changed_at (λ _. None) slots.old.items place }
{
    mem::replace(&mut slots[place], None)
}

/// Puts a track into an empty slot.
pub(crate) fn put_in<W: Wire>(slots: &mut Vec<Option<Track<W>>>, place: usize, track: Track<W>)
    requires within { place < length slots.old.items }
    requires empty { slice_get slots.old.items place ≡ Some None }
    ensures after { slots.new.items ≡ changed_at (λ _. Some track) slots.old.items place }
{
    match mem::replace(&mut slots[place], Some(track)) {
        None => {}
        Some(_) => unreachable!(),
    }
}

/// Puts a page in its place, where there is one.
pub(crate) fn put_seen(seen: &mut Vec<Shown>, place: usize, second: Option<Shown>)
    requires within { place < length seen.old.items }
    ensures after { seen.new.items ≡ changed_at (λ before. unwrap_or second before) seen.old.items place }
{
    match second {
        Some(shown) => seen[place] = shown,
        None => {}
    }
}

/// What each track shows.
pub(crate) fn pages_of<W: Wire>(alloc: Global, tracks: &[Track<W>]) -> Result<Vec<Shown>, Memory>
    ensures { IfOk result (λ seen. seen.items ≡ map (λ (k : Kept). k.shown) tracks.now) }
{
    let mut seen = Vec::new(alloc);
    for track in tracks {
        let shown = track.shown().copy()?;
        if seen.push(shown).is_err() {
            return Err(AllocError);
        }
    }
    Ok(seen)
}

/// Moves tracks into slots, in order. It takes no memory.
pub(crate) fn fill<W: Wire>(slots: &mut Vec<Option<Track<W>>>, tracks: &mut Vec<Track<W>>)
    requires empty { slots.old.items ≡ [] }
    requires room { length tracks.old.items ≤ vec_capacity slots.old }
    ensures filled { slots.new.items ≡ map Some tracks.old.items }
    ensures moved { tracks.new.items ≡ [] }
    ensures room { vec_capacity tracks.new ≡ vec_capacity tracks.old }
{
    for _ in 0..tracks.len() {
        slots.push_reserved(Some(tracks.take_last()));
    }
    slots.reverse();
}

/// Moves the tracks out of slots of which none is empty, in order. It takes no memory.
pub(crate) fn clear<W: Wire>(slots: &mut Vec<Option<Track<W>>>, tracks: &mut Vec<Track<W>>)
    requires full { All IsSome slots.old.items }
    requires empty { tracks.old.items ≡ [] }
    requires room { length slots.old.items ≤ vec_capacity tracks.old }
    ensures moved { map Some tracks.new.items ≡ slots.old.items }
    ensures cleared { slots.new.items ≡ [] }
{
    for _ in 0..slots.len() {
        match slots.take_last() {
            Some(track) => tracks.push_reserved(track),
            None => unreachable!(),
        }
    }
    tracks.reverse();
}

fn is_empty<W: Wire>(slot: &Option<Track<W>>) -> bool
    ensures { result ≡ is_none slot.now }
{
    match slot {
        None => true,
        Some(_) => false,
    }
}

/// How many slots are empty.
pub(crate) fn count_empty<W: Wire>(slots: &[Option<Track<W>>]) -> usize
    ensures { result ≡ count_by is_none slots.now }
{
    let mut empty = 0;
    for slot in slots {
        if is_empty(slot) {
            empty += 1;
        }
    }
    empty
}
