//! The lines of a page whose bytes come in pieces of any size.
#![tactic(auto)]

ghost use Rattle.std.specs.Prelude.{◌≡◌, ◌≢◌, ℕ, ◌+◌, ◌-◌, ◌^◌, ◌<◌, ◌≤◌, ◌↔◌, IsTrue, true, IfOk, IfSome, IfNone, List, [], ◌∷◌, ◌++◌, length, map, take};
ghost use Rattle.page_lines.specs.Lines.{Plain};

pub mod line_laws;

use memchr::memchr;
use std::alloc::{AllocError, Global};
use std::marker::Model;

/// What a piece held.
#[derive(Clone, Copy, Debug, PartialEq, Eq)]
pub enum Step {
    /// The next line is whole.
    Line,
    /// The piece is used up, and no line is whole.
    More,
    /// The next line has more bytes than it may have. The rest of it is passed over.
    TooLong,
}

/// How a page ended.
#[derive(Clone, Copy, Debug, PartialEq, Eq)]
pub enum Last {
    /// No byte stands behind the last line feed.
    Clean,
    /// The last line has no line feed.
    Open,
}

/// Where the bytes fed so far end.
#[derive(Clone, Copy)]
enum Place {
    /// Within a line that is under way, or in front of it.
    Within,
    /// Behind the line feed of the line that was handed out last.
    Behind,
    /// Past the limit of a line, of which the rest is passed over.
    Passing,
}

/// A reader of lines: it is fed the bytes of a page in pieces of any size, and hands out each line
/// without its line feed, with its number.
#[derive(Drop)]
pub struct Lines {
    line: Vec<u8>,
    most: u32,
    fed: u32,
    number: u32,
    place: Place,
}

impl Model for Lines {
    ghost use Rattle.std.specs.Prelude.{vec_len};
    ghost use Rattle.std.specs.Vec.{vec_capacity};
    ghost use Rattle.page_lines.specs.Feeding.{Feeding, IsSound};

    ghost Value = { Feeding };

    ghost view = { λ l. record {
      most = l.most;
      fed = l.fed;
      line = l.line.items;
      number = l.number;
      place = l.place;
    } };

    ghost invariant = { λ l.
        IsSound l.most l.fed l.number l.place l.line.items (vec_len l.line) (vec_capacity l.line) };
}

impl Lines {
    ghost use Rattle.page_lines.specs.declared.Step.TheVariants.{Line, More, TooLong};
    ghost use Rattle.page_lines.specs.declared.Place.TheVariants.{Within};
    ghost use Rattle.page_lines.specs.Told.{told_of};
    ghost use Rattle.page_lines.specs.Feeding.{Stands, HasLine, HasLongLine, told_by, IsStep, IsEnd, Reaches};

    /// A reader that was fed nothing, of lines of at most `most` bytes each. It takes the memory of
    /// one line here, and no later call takes memory.
    ///
    /// # Errors
    ///
    /// Want of memory.
    pub fn new(alloc: Global, most: u32) -> Result<Lines, AllocError>
        ensures value { IfOk result (λ lines. lines ≡
            record { most = most; fed = 0; line = []; number = 1; place = Within }) }
        ensures stands { IfOk result (λ lines. Stands [] lines) }
    {
        Ok(Lines {
            line: Vec::with_capacity(alloc, most as usize)?,
            most,
            fed: 0,
            number: 1,
            place: Place::Within,
        })
    }

    /// The line that was told of last, without its line feed: after [`Step::TooLong`] its first
    /// `most` bytes. After [`Step::More`] what came of the line that is under way.
    pub fn line(&self) -> &[u8]
        ensures value { result.now ≡ self.now.line }
        ensures short { length result.now ≤ self.now.most }
        ensures plain { Plain result.now }
    {
        self.line.as_slice()
    }

    /// The number of that line, counted from 1.
    pub fn number(&self) -> u32
        ensures { result ≡ self.now.number }
    {
        self.number
    }

    /// Whether a piece may be fed: a reader takes fewer than 2^32 - 1 bytes in all, so that the
    /// line past the last has a number.
    pub fn has_room(&self, piece: &[u8]) -> bool
        ensures { IsTrue result ↔ (self.now.fed + length piece.now < 2 ^ 32 - 1) }
    {
        piece.len() < (u32::MAX - self.fed) as usize
    }

    /// Goes on with the page up to the end of the next line, or to the end of the piece. `taken` is
    /// how much of the piece was used; the rest is to be fed again.
    ///
    /// # Example
    ///
    /// ```rust
    /// let mut lines = Lines::new(alloc, 4)?;
    /// let mut taken = 0;
    /// assert_eq!(rt; lines.feed(b"a\r\nbc", &mut taken), Step::Line);
    /// assert_eq!(rt; (taken, lines.number(), lines.line()), (3, 1, b"a\r".as_slice()));
    /// assert_eq!(rt; lines.feed(b"bc", &mut taken), Step::More);
    /// assert_eq!(rt; lines.finish(), Last::Open);
    /// assert_eq!(rt; (lines.number(), lines.line()), (2, b"bc".as_slice()));
    /// ```
    pub fn feed(&mut self, piece: &[u8], taken: &mut u32) -> Step
        requires { self.old.fed + length piece.now < 2 ^ 32 - 1 }
        ensures most { self.new.most ≡ self.old.most }
        ensures fed { self.new.fed ≡ self.old.fed + taken.new }
        ensures taken { taken.new ≤ length piece.now }
        ensures stands { (fed : List ℕ) → Stands fed self.old
            → Stands (fed ++ take taken.new piece.now) self.new }
        ensures told { (fed : List ℕ) → Stands fed self.old
            → told_of self.old.most (fed ++ take taken.new piece.now)
            ≡ told_of self.old.most fed ++ told_by result self.new.line }
        ensures soonest { result ≢ More → (fed : List ℕ) → Stands fed self.old
            → told_of self.old.most (fed ++ take (taken.new - 1) piece.now)
            ≡ told_of self.old.most fed }
        ensures more { result ≡ More → taken.new ≡ length piece.now }
        ensures only { (fed : List ℕ) → Stands fed self.old
            → told_of self.old.most (fed ++ piece.now) ≡ told_of self.old.most fed
            → result ≡ More }
        ensures number { result ≢ More → (fed : List ℕ) → Stands fed self.old
            → self.new.number ≡ length (told_of self.old.most (fed ++ take taken.new piece.now)) }

        // In terms of the page alone, however it goes on.
        ensures line { result ≡ Line → (fed : List ℕ) → Stands fed self.old
            → HasLine (fed ++ take taken.new piece.now) self.new }
        ensures too_long { result ≡ TooLong → (fed : List ℕ) → Stands fed self.old
            → HasLongLine (fed ++ take taken.new piece.now) self.new }
    {
        match self.reach(piece) {
            None => {
                *taken = piece.len() as u32;
                Step::More
            }
            Some(passed) => {
                let (step, used) = self.gather(&piece[passed as usize..]);
                *taken = passed + used;
                step
            }
        }
    }

    // Goes to the next line, past the rest of one that is too long, and answers how much of the
    // piece that takes; None where the rest of that line takes all of it.
    fn reach(&mut self, piece: &[u8]) -> Option<u32>
        requires { self.old.fed + length piece.now < 2 ^ 32 - 1 }
        ensures reached { IfSome result (λ passed. Reaches self.old self.new piece.now passed) }
        ensures passing { IfNone result
            (IsStep self.old self.new piece.now (length piece.now) More) }
    {
        match self.place {
            Place::Within => Some(0),
            Place::Behind => {
                self.begin();
                Some(0)
            }
            Place::Passing => {
                let Some(at) = find_line_feed(piece) else {
                    self.fed += piece.len() as u32;
                    return None;
                };
                self.fed += at as u32 + 1;
                self.begin();
                Some(at as u32 + 1)
            }
        }
    }

    // Begins the line behind a line feed.
    fn begin(&mut self)
        requires { self.old.number ≤ self.old.fed }
        ensures { self.new ≡ record {
          most = self.old.most;
          fed = self.old.fed;
          line = [];
          number = self.old.number + 1;
          place = Within;
        } }
    {
        self.line.clear();
        self.number += 1;
        self.place = Place::Within;
    }

    // Goes on with the line that is under way, and answers how much of the piece that takes.
    fn gather(&mut self, piece: &[u8]) -> (Step, u32)
        requires within { self.old.place ≡ Within }
        requires room { self.old.fed + length piece.now < 2 ^ 32 - 1 }
        ensures { IsStep self.old self.new piece.now result.1 result.0 }
    {
        let room = self.most as usize - self.line.len();
        let window = piece.len().min(room + 1);
        if let Some(at) = find_line_feed(&piece[..window]) {
            self.line.extend_from_slice(&piece[..at]).unwrap();
            self.fed += at as u32 + 1;
            self.place = Place::Behind;
            return (Step::Line, at as u32 + 1);
        }
        self.fed += window as u32;
        if window <= room {
            self.line.extend_from_slice(piece).unwrap();
            return (Step::More, window as u32);
        }
        self.line.extend_from_slice(&piece[..room]).unwrap();
        self.place = Place::Passing;
        (Step::TooLong, window as u32)
    }

    /// Ends the page. Where its last line has no line feed, that line is handed out, and of one that
    /// is passed over its first `most` bytes. At [`Last::Clean`] there is no line, and the number is
    /// that of the line past the last.
    pub fn finish(&mut self) -> Last
        ensures most { self.new.most ≡ self.old.most }
        ensures fed { self.new.fed ≡ self.old.fed }
        ensures stands { (fed : List ℕ) → Stands fed self.old → Stands fed self.new }
        ensures end { (fed : List ℕ) → Stands fed self.old → IsEnd fed self.new result }
    {
        match self.place {
            Place::Behind => {
                self.begin();
                Last::Clean
            }
            Place::Within if self.line.is_empty() => Last::Clean,
            Place::Within => Last::Open,
            Place::Passing => Last::Open,
        }
    }
}

// Where the first line feed stands.
fn find_line_feed(piece: &[u8]) -> Option<usize>
    ensures within { IfSome result (λ at. at < length piece.now) }
    ensures found { IfSome result (λ at. take (at + 1) piece.now ≡ take at piece.now ++ 10 ∷ []) }
    ensures first { IfSome result (λ at. Plain (take at piece.now)) }
    ensures none { IfNone result (Plain piece.now) }
{
    memchr(b'\n', piece)
}
