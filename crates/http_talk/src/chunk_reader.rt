//! Bodies in chunks that are read as they come (RFC 9112, section 7.1).
ghost use Rattle.std.specs.Prelude.{◌≡◌, ◌+◌, ◌*◌, ◌<◌, ◌≤◌, ℕ, false, List, length, take};
ghost use Rattle.http_talk.specs.declared.chunk_place.ChunkPlace.TheVariants.{Bytes};
ghost use Rattle.http_talk.specs.Chunks.{total_limit, place_after, is_body_end, is_wrong};
ghost use Rattle.http_talk.specs.ChunkFeeding.{is_in_chunk};

use crate::chunk_place::ChunkPlace;
use crate::fault::{Progress, ReplyFault};
use crate::part::Part;
use std::marker::Model;

/// A body in chunks, of which some bytes came: where they end, how many bytes the chunks held, and how many
/// bytes of the reply came in all.
#[derive(Drop)]
pub(crate) struct ChunkReader {
    place: ChunkPlace,
    body: u64,
    got: u64,
}

impl Model for ChunkReader {
    ghost use Rattle.http_talk.specs.ChunkFeeding.{Counted, IsChunkPlace};

    ghost Value = { Counted };

    ghost view = { λ c. record { place = c.place; body = c.body; got = c.got } };

    ghost invariant = { λ c. IsChunkPlace c.place };
}

/// Where the bytes of a chunk stand in a piece.
#[derive(Clone, Copy)]
pub(crate) struct Run {
    pub(crate) from: usize,
    pub(crate) to: usize,
}

/// Whether a place is behind the last byte.
fn is_body_end(place: ChunkPlace) -> bool
    ensures { result ≡ is_body_end place }
{
    matches!(place, ChunkPlace::Whole)
}

/// Whether a place is behind a byte that no body has there.
fn is_wrong(place: ChunkPlace) -> bool
    ensures { result ≡ is_wrong place }
{
    matches!(place, ChunkPlace::Wrong)
}

/// Whether a place is within a chunk.
fn is_in_chunk(place: ChunkPlace) -> bool
    ensures { result ≡ is_in_chunk place }
{
    matches!(place, ChunkPlace::Bytes { .. })
}

/// The most bytes of a reply in all, where its body may have so many.
fn total_limit(most: u32) -> u64
    ensures { result ≡ total_limit most }
{
    8 * u64::from(most) + 65_536
}

impl ChunkReader {
    ghost use Rattle.http_talk.specs.ChunkFeeding.{IsChunkPlace, IsChunkAnswer, SkipsTo, TakesRun, TakesFront, is_past, is_over, part_behind};
    ghost use Rattle.http_talk.specs.Streams.{IsSoundPart};

    /// A body whose chunks held so many bytes.
    pub(crate) fn at(place: ChunkPlace, body: u64, got: u64) -> ChunkReader
        requires { IsChunkPlace place }
        ensures { result ≡ record { place = place; body = body; got = got } }
    {
        ChunkReader { place, body, got }
    }

    /// How many bytes of the reply came in all.
    pub(crate) fn total(&self) -> u64
        ensures { result ≡ self.now.got }
    {
        self.got
    }

    /// How many bytes the chunks held so far.
    pub(crate) fn body(&self) -> u64
        ensures { result ≡ self.now.body }
    {
        self.body
    }

    /// What is read next.
    pub(crate) fn part(&self) -> Part
        ensures part { result ≡ part_behind self.now.place }
        ensures sound { (most body : ℕ) → IsSoundPart result most body }
    {
        match self.place {
            ChunkPlace::Whole => Part::Whole,
            place => Part::Chunked { place },
        }
    }

    /// What is certain of the body. Whole goes before too many bytes, and that before a wrong byte.
    pub(crate) fn progress(&self, most: u32) -> Result<Progress, ReplyFault>
        ensures { IsChunkAnswer most self.now result }
    {
        if is_body_end(self.place) {
            return Ok(Progress::Whole);
        }
        if self.is_past(most) {
            return Err(ReplyFault::TooLong);
        }
        if is_wrong(self.place) {
            return Err(ReplyFault::Chunk);
        }
        Ok(Progress::More)
    }

    /// Whether too many bytes came.
    fn is_past(&self, most: u32) -> bool
        ensures { result ≡ is_past most self.now }
    {
        self.body > u64::from(most) || self.got > total_limit(most)
    }

    /// Whether something is certain.
    fn is_over(&self, most: u32) -> bool
        ensures { result ≡ is_over most self.now }
    {
        is_body_end(self.place) || self.is_past(most) || is_wrong(self.place)
    }

    /// Takes a byte that is none of a chunk's.
    fn take_byte(&mut self, most: u32, byte: u8)
        requires { is_over most self.old ≡ false }
        ensures { self.new ≡ record {
          place = place_after self.old.place byte;
          body = self.old.body;
          got = self.old.got + 1;
        } }
    {
        self.place = self.place.after(byte);
        self.got += 1;
    }

    /// Takes the bytes in front of a chunk's, and answers how many.
    fn skip(&mut self, most: u32, piece: &[u8]) -> usize
        ensures { SkipsTo most self.old self.new piece.now result }
    {
        let mut at = 0;
        while at < piece.len() && !self.is_over(most) && !is_in_chunk(self.place) {
            self.take_byte(most, piece[at]);
            at += 1;
        }
        at
    }

    /// Takes bytes of the chunk that goes on, as many as there are and one more than may come at most, and
    /// answers how many.
    fn take_run(&mut self, most: u32, left: u32, piece: &[u8]) -> usize
        requires going { is_over most self.old ≡ false }
        requires place { self.old.place ≡ Bytes left }
        ensures { TakesRun most self.old self.new piece.now result }
    {
        let room = u64::from(most) + 1 - self.body;
        let total = total_limit(most) + 1 - self.got;
        let count = piece
            .len()
            .min(left as usize)
            .min(room as usize)
            .min(total as usize);
        self.body += count as u64;
        self.got += count as u64;
        self.place = ChunkPlace::behind_bytes(left, count);
        count
    }

    /// Takes bytes of a chunk, where one goes on, and answers how many.
    fn take_bytes(&mut self, most: u32, piece: &[u8]) -> usize
        ensures { TakesRun most self.old self.new piece.now result }
    {
        if piece.is_empty() || self.is_over(most) {
            return 0;
        }
        match self.place {
            ChunkPlace::Bytes { left } => self.take_run(most, left, piece),
            _ => 0,
        }
    }

    /// Takes a front of a piece: what stands in front of a chunk's bytes, and as many of these as there are.
    pub(crate) fn take_front(&mut self, most: u32, piece: &[u8]) -> Run
        ensures { TakesFront most self.old self.new piece.now result.from result.to }
    {
        let from = self.skip(most, piece);
        let to = from + self.take_bytes(most, &piece[from..]);
        Run { from, to }
    }
}
