//! Lanes: a ledger each, whose one share has every part.
ghost use Rattle.std.specs.Prelude.{◌≡◌, ℕ, ◌+◌, ◌<◌};
ghost use Rattle.series_table.specs.Counting.{as_count};

use std::marker::{Brand, PhantomData};
use std::sync::ledger::{self, Blank, Book, Ledger};

/// The ledger of one lane, whose total is the number of the target that is out with it, or 0.
pub trait Lane: Ledger {
    /// All its parts.
    ghost all: { ℕ };
}

impl Lane for Brand {
    ghost all = { 0 };
}

/// The mark of the first lane.
pub struct First;

/// The mark of the second lane.
pub struct Second;

/// The mark of the third lane.
pub struct Third;

/// The mark of the fourth lane.
pub struct Fourth;

/// What the four ledgers are opened from, each with one part.
#[derive(Drop)]
pub struct Blanks {
    pub a: Blank,
    pub b: Blank,
    pub c: Blank,
    pub d: Blank,
}

/// The share of a lane's ledger with every part: so whoever has it and the table knows what the lane's book has.
#[derive(Drop)]
pub struct Share<P, L: Lane> {
    token: ledger::Share<L>,
    held: u32,
    taken: u64,
    idle: u64,
    mark: PhantomData<P>,
    ghost whole: { token.parts ≡ L.all },
    ghost same: { token.amount ≡ held },
}

/// The shares of the four lanes.
#[derive(Drop)]
pub struct Shares<A: Lane, B: Lane, C: Lane, D: Lane> {
    pub a: Share<First, A>,
    pub b: Share<Second, B>,
    pub c: Share<Third, C>,
    pub d: Share<Fourth, D>,
}

/// The book of a new ledger, and the share with all its parts.
pub(crate) fn open_lane<P, L: Lane>(blank: Blank) -> (Book<L>, Share<P, L>)
    requires name { blank.name ≡ L.name }
    requires parts { (blank.parts ≡ L.parts) × (L.all ≡ L.parts) }
    ensures book { result.0.total ≡ 0 }
    ensures share { (result.1.held ≡ 0) × (result.1.taken ≡ 0) × (result.1.idle ≡ 0) }
{
    let (book, token) = blank.open::<L>();
    let share = Share {
        token,
        held: 0,
        taken: 0,
        idle: 0,
        mark: PhantomData,
    };
    (book, share)
}

impl<P, L: Lane> Share<P, L> {
    /// The number of the target that is out with the lane, or 0.
    pub fn held(&self) -> u32
        ensures { result ≡ self.now.held }
    {
        self.held
    }

    /// How often a target was taken. It stands still at 2^64 - 1.
    pub fn taken(&self) -> u64
        ensures { result ≡ self.now.taken }
    {
        self.taken
    }

    /// How often there was none to take. It stands still at 2^64 - 1.
    pub fn idle(&self) -> u64
        ensures { result ≡ self.now.idle }
    {
        self.idle
    }

    /// That the lane's book has what the share has.
    pub(crate) fn audit_with(self, book: Book<L>)
        requires { L.all ≡ L.parts }
        ensures { book.total ≡ self.held }
    {
        let (mut share, mut book) = (self, book);
        book.audit(&mut share.token);
    }

    /// Puts a number into the lane's book.
    pub(crate) fn lease_with(&mut self, book: &mut Book<L>, number: u32)
        requires lane { (L.all ≡ L.parts) × (0 < L.all) }
        requires free { self.old.held ≡ 0 }
        ensures was { book.old.total ≡ 0 }
        ensures book { book.new.total ≡ number }
        ensures out { (self.new.held ≡ number) × (self.new.taken ≡ as_count (self.old.taken + 1)) × (self.new.idle ≡ self.old.idle) }
    {
        let Share {
            token,
            held,
            taken,
            idle: _,
            mark: _,
        } = self;
        book.audit(token);
        book.add(token, u64::from(number));
        *held = number;
        *taken = taken.saturating_add(1);
    }

    /// Takes the number out of the lane's book.
    pub(crate) fn release_with(&mut self, book: &mut Book<L>)
        requires lane { (L.all ≡ L.parts) × (0 < L.all) }
        ensures was { book.old.total ≡ self.old.held }
        ensures book { book.new.total ≡ 0 }
        ensures out { (self.new.held ≡ 0) × (self.new.taken ≡ self.old.taken) × (self.new.idle ≡ self.old.idle) }
    {
        let Share {
            token,
            held,
            taken: _,
            idle: _,
            mark: _,
        } = self;
        book.audit(token);
        book.sub(token, u64::from(*held));
        *held = 0;
    }

    /// Counts that there was none to take.
    pub(crate) fn rest_with(&mut self)
        ensures { (self.new.held ≡ self.old.held) × (self.new.taken ≡ self.old.taken) × (self.new.idle ≡ as_count (self.old.idle + 1)) }
    {
        self.idle = self.idle.saturating_add(1);
    }
}
