//! Whose turn it is: of the targets that may be taken, the first of those with the fewest visits.
ghost use Rattle.std.specs.Prelude.{◌≡◌};
ghost use Rattle.target_table.specs.Tables.{next_place};
ghost use Rattle.target_table.specs.Search.{visits_due, nearer};

use bridge_ports::Wire;
use series_table::Track;

/// A target that may be taken: where it stands, and its visits.
#[derive(Clone, Copy)]
pub(crate) struct Next {
    place: usize,
    visits: u64,
}

/// The visits of the track in a slot, where it may be taken.
fn visits_due<W: Wire>(slot: &Option<Track<W>>, rounds: u32) -> Option<u64>
    ensures { result ≡ visits_due rounds slot.now }
{
    let Some(track) = slot else {
        return None;
    };
    let visits = track.counts().visits;
    if !track.halted() && visits < u64::from(rounds) {
        Some(visits)
    } else {
        None
    }
}

/// The one at a place, where it may be taken, unless one behind it has fewer visits.
fn nearer(here: Option<u64>, place: usize, behind: Option<Next>) -> Option<Next>
    ensures { result ≡ nearer here place behind }
{
    let Some(visits) = here else {
        return behind;
    };
    let Some(next) = behind else {
        return Some(Next { place, visits });
    };
    if next.visits < visits {
        Some(next)
    } else {
        Some(Next { place, visits })
    }
}

/// The place of the target whose turn it is.
pub(crate) fn whose_turn<W: Wire>(slots: &[Option<Track<W>>], rounds: u32) -> Option<usize>
    ensures { result ≡ next_place rounds slots.now }
{
    let mut next: Option<Next> = None;
    for behind in 0..slots.len() {
        let place = slots.len() - 1 - behind;
        next = nearer(visits_due(&slots[place], rounds), place, next);
    }
    match next {
        Some(next) => Some(next.place),
        None => None,
    }
}
