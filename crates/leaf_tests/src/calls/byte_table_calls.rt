//! Strings of which many share their hashes: a table goes over to ordered maps there, and answers as before. That this
//! spares time is shown by `bench/colliding.py`.
use byte_table::ByteTable;
use std::alloc::{AllocError, Global};

/// Before 32 bytes the first hash has this state, and a word equal to the state makes it forget what comes with
/// that word: these words and any number behind share the hash.
const SAME_HASH: &[u64] = &[0x243f_6a88_85a3_08f3];

/// The same for 64 bytes, and a second hash of that hasher too: the third word is its state, and the fourth,
/// the hasher's multiplier, makes the first forget it again.
const SAME_FOLDED: &[u64] = &[
    0x243f_6a88_85a3_0913,
    1,
    0x096a_5c8f_229b_0a20,
    0x9e37_79b9_7f4a_7c15,
    0,
];

/// Words whose strings have hashes of their own.
const HONEST: &[u64] = &[1];

/// Two words that share the second hash, found by a search of some 2^32 steps.
const SAME_SECOND: [u64; 2] = [0x2855_8660_04d6_e65f, 0x7d2d_609b_d50a_0c3b];

/// A string that begins with words, then has a number.
fn string(alloc: Global, words: &[u64], number: u64) -> Result<Vec<u8>, AllocError> {
    let mut string = Vec::new(alloc);
    for word in words {
        string.extend_from_slice(&word.to_le_bytes())?;
    }
    string.extend_from_slice(&number.to_le_bytes())?;
    string.extend_from_slice(b"0123456789abcdef")?;
    Ok(string)
}

/// Puts such a string in, and answers where it was, if it was in.
fn put_in(
    alloc: Global,
    table: &mut ByteTable,
    words: &[u64],
    number: u64,
) -> Result<Option<usize>, AllocError> {
    let string = string(alloc, words, number)?;
    table.insert(string.as_slice())
}

/// A table of forty strings that begin with these words.
fn forty(alloc: Global, words: &[u64]) -> Result<ByteTable, AllocError> {
    let mut table = ByteTable::new(alloc);
    for number in 0..40 {
        put_in(alloc, &mut table, words, number)?;
    }
    Ok(table)
}

/// Where a table finds such a string.
fn place(
    alloc: Global,
    table: &ByteTable,
    words: &[u64],
    number: u64,
) -> Result<Option<usize>, AllocError> {
    let string = string(alloc, words, number)?;
    Ok(table.find(string.as_slice()))
}

/// How many of fifty such strings a table finds at their numbers.
fn found(alloc: Global, table: &ByteTable, words: &[u64]) -> Result<usize, AllocError> {
    let mut found = 0usize;
    for number in 0..50 {
        if place(alloc, table, words, number)? == Some(number as usize) {
            found = found.saturating_add(1);
        }
    }
    Ok(found)
}

/// How many strings a table of forty has, how many it finds, and where it finds one that is put in once more.
fn kept(alloc: Global, words: &[u64]) -> Result<(usize, usize, Option<usize>), AllocError> {
    let mut table = forty(alloc, words)?;
    let found = found(alloc, &table, words);
    let place = put_in(alloc, &mut table, words, 7);
    let count = table.len();
    drop(table);
    Ok((count, found?, place?))
}

const BEGINNINGS: &[&[u64]] = &[SAME_HASH, SAME_FOLDED, HONEST];

#[test]
fn strings_are_found_whatever_their_hashes(rt: HostRuntime) {
    for words in BEGINNINGS {
        assert!(rt; kept(rt.alloc(), words) == Ok((40, 40, Some(7))));
    }
}

/// Where a table finds the second of two strings that share their second hash, once the first was put in; where it
/// finds the first, once both were; and where the second was, as it is put in once more.
fn second_put_in(table: &mut ByteTable) -> Result<[Option<usize>; 3], AllocError> {
    let [first, second] = SAME_SECOND;
    table.insert(&first.to_le_bytes())?;
    let unknown = table.find(&second.to_le_bytes());
    table.insert(&second.to_le_bytes())?;
    let found = table.find(&first.to_le_bytes());
    let known = table.insert(&second.to_le_bytes())?;
    Ok([unknown, found, known])
}

/// The same, where forty strings stand in the table that share their hash.
fn second_behind_forty(alloc: Global) -> Result<[Option<usize>; 3], AllocError> {
    let mut table = forty(alloc, SAME_HASH)?;
    let places = second_put_in(&mut table);
    drop(table);
    places
}

#[test]
fn strings_are_found_where_second_hashes_collide(rt: HostRuntime) {
    assert!(rt; second_behind_forty(rt.alloc()) == Ok([None, Some(40), Some(41)]));
}
