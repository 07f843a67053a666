//! Two lists of keys without those that stand in both at like places.
ghost use Rattle.std.specs.Prelude.{◌≡◌, ◌≤◌, ◌++◌, [], length, take, IfOk, OnOk};
ghost use Rattle.packed_keys.specs.Partings.{IsParted, PartsOneMore, keys_behind, parted_to};

use crate::key_row::{KeyRefs, near};
use label_sets::{List, Memory, SeriesKey};
use std::alloc::Global;

/// What is left of two lists of keys, where keys that stand in both were taken away by pairs.
#[derive(Drop)]
pub struct Parted {
    /// What is left of the keys that were asked for, in order.
    pub strays: List<SeriesKey>,
    /// What is left of the other keys, in order.
    pub left: List<SeriesKey>,
}

/// Puts keys behind others.
fn put_keys(out: &mut Vec<SeriesKey>, keys: &[&SeriesKey]) -> Result<(), Memory>
    ensures { OnOk result (out.new.items ≡ out.old.items ++ keys_behind keys.now) }
{
    for at in 0..keys.len() {
        out.push(keys[at].copy()?)?;
    }
    Ok(())
}

/// Takes away a key that is asked for, where it is near, and leaves the keys before it; else it is a stray. The
/// answer is the place up to which keys were taken or left.
fn take_away(
    keys: &[&SeriesKey],
    next: usize,
    key: &SeriesKey,
    strays: &mut Vec<SeriesKey>,
    left: &mut Vec<SeriesKey>,
) -> Result<usize, Memory>
    requires { next ≤ length keys.now }
    ensures next { IfOk result (λ place. place ≤ length keys.now) }
    ensures parted { IfOk result (λ place. PartsOneMore keys.now key.now
        (parted_to next strays.old.items left.old.items) (parted_to place strays.new.items left.new.items)) }
{
    let Some(at) = near(&KeyRefs { keys }, next, key) else {
        strays.push(key.copy()?)?;
        return Ok(next);
    };
    put_keys(left, &keys[next..at])?;
    Ok(at + 1)
}

/// Takes away the keys that are asked for, as far as they are near.
fn take_near(
    keys: &[&SeriesKey],
    asked: &[&SeriesKey],
    strays: &mut Vec<SeriesKey>,
    left: &mut Vec<SeriesKey>,
) -> Result<usize, Memory>
    requires strays { strays.old.items ≡ [] }
    requires left { left.old.items ≡ [] }
    ensures next { IfOk result (λ place. place ≤ length keys.now) }
    ensures parted { IfOk result (λ place. IsParted (keys_behind asked.now) (take place (keys_behind keys.now)) strays.new.items left.new.items) }
{
    let mut next = 0usize;
    for at in 0..asked.len() {
        let place = take_away(keys, next, asked[at], strays, left)?;
        next = place;
    }
    Ok(next)
}

/// Two lists of keys without pairs of equal ones: a key that is asked for is looked for among the few behind the one
/// found last, so lists that have the same series in one order lose all but those that one of them lacks. No key is
/// hashed, and only keys that are left are copied.
///
/// # Errors
///
/// Want of memory.
pub fn part(alloc: Global, keys: &[&SeriesKey], asked: &[&SeriesKey]) -> Result<Parted, Memory>
    ensures { IfOk result (λ parted. IsParted (keys_behind asked.now) (keys_behind keys.now) parted.strays parted.left) }
{
    let mut strays = Vec::new(alloc);
    let mut left = Vec::new(alloc);
    let next = take_near(keys, asked, &mut strays, &mut left)?;
    put_keys(&mut left, &keys[next..])?;
    let strays = List::from_vec(strays)?;
    let left = List::from_vec(left)?;
    Ok(Parted { strays, left })
}
