//! When scrapes and posts are due, which no output tells. What comes of each body stands in the rows of `rows`.
use crate::calls::noted_wire::{NotedWire, Timed, noted_track, noted_wire, visit_often};
use series_table::Track;
use std::alloc::{AllocError, Global};

const PAGE: &[u8] = b"HTTP/1.1 200 OK\r\n\r\nx 1\n";

const TAKEN: &[u8] = b"HTTP/1.1 200 OK\r\n\r\n";

const LATER: &[u8] = b"HTTP/1.1 503 Later\r\n\r\n";

/// When the talks of both wires were due, the last first, once so many visits were made.
fn due_of(alloc: Global, mut track: Track<NotedWire>, rounds: u32) -> ([u64; 4], [u64; 4]) {
    visit_often(alloc, &mut track, rounds);
    let (scrape, post) = track.into_wires();
    let due = (scrape.due, post.due);
    drop(scrape);
    drop(post);
    due
}

/// When the scrapes and the posts of so many visits are due, the last first, where the clock reads so as they begin.
fn due_times(
    alloc: Global,
    scrapes: &[Timed<'_>],
    posts: &[Timed<'_>],
    rounds: u32,
) -> Result<([u64; 4], [u64; 4]), AllocError> {
    let scrape = noted_wire(alloc, false, scrapes)?;
    let post = match noted_wire(alloc, true, posts) {
        Ok(post) => post,
        Err(AllocError) => {
            drop(scrape);
            return Err(AllocError);
        }
    };
    let track = noted_track(alloc, scrape, post)?;
    Ok(due_of(alloc, track, rounds))
}

// The first scrape is due at once, and each other an interval of 10 behind the one before it, from the reading of the
// first on, though the second comes late. A body is due at once.
#[test]
fn scrapes_are_due_in_even_steps(rt: HostRuntime) {
    const SCRAPES: &[Timed<'static>] = &[(7, PAGE), (22, PAGE), (31, PAGE)];
    const POSTS: &[Timed<'static>] = &[(8, TAKEN), (23, TAKEN), (32, TAKEN)];
    assert!(rt; due_times(rt.alloc(), SCRAPES, POSTS, 3) == Ok(([27, 17, 0, 0], [0; 4])));
}

// A second lies between two tries of a body, from the reading of the one before on.
#[test]
fn tries_are_due_a_second_apart(rt: HostRuntime) {
    const SCRAPES: &[Timed<'static>] = &[(7, PAGE), (22, PAGE)];
    const POSTS: &[Timed<'static>] = &[(8, LATER), (9, LATER), (10, TAKEN), (23, TAKEN)];
    assert!(rt;
        due_times(rt.alloc(), SCRAPES, POSTS, 2)
            == Ok(([17, 0, 0, 0], [0, 1_000_000_009, 1_000_000_008, 0]))
    );
}
