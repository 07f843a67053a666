//! The books of the four lanes, and the shares of any lane as one.
ghost use Rattle.std.specs.Prelude.{◌≡◌, ℕ, ◌+◌, ◌<◌, ◌∷◌, [], Some};
ghost use Rattle.std.specs.List.{slice_get};
ghost use Rattle.series_table.specs.Counting.{as_count};
ghost use Rattle.target_table.specs.Machine.{changed_at};

use crate::lane::{Blanks, First, Fourth, Lane, Second, Share, Shares, Third, open_lane};
use std::marker::Model;
use std::sync::ledger::Book;

/// The books of the four lanes, seen as their totals. Only the table has them.
#[derive(Drop)]
pub struct Books<A: Lane, B: Lane, C: Lane, D: Lane> {
    a: Book<A>,
    b: Book<B>,
    c: Book<C>,
    d: Book<D>,
}

impl<A: Lane, B: Lane, C: Lane, D: Lane> Model for Books<A, B, C, D> {
    ghost use Rattle.std.specs.Prelude as spec;
    ghost use Rattle.std.specs.Prelude.{◌∷◌, [], ℕ};

    ghost Value = { spec.List ℕ };

    ghost view = { λ s. s.a.total ∷ s.b.total ∷ s.c.total ∷ s.d.total ∷ [] };
}

impl<A: Lane, B: Lane, C: Lane, D: Lane> Books<A, B, C, D> {
    /// The books of four new ledgers, and their shares.
    pub(crate) fn open(blanks: Blanks) -> (Books<A, B, C, D>, Shares<A, B, C, D>)
        requires a { (blanks.a.name ≡ A.name) × (blanks.a.parts ≡ A.parts) × (A.all ≡ A.parts) }
        requires b { (blanks.b.name ≡ B.name) × (blanks.b.parts ≡ B.parts) × (B.all ≡ B.parts) }
        requires c { (blanks.c.name ≡ C.name) × (blanks.c.parts ≡ C.parts) × (C.all ≡ C.parts) }
        requires d { (blanks.d.name ≡ D.name) × (blanks.d.parts ≡ D.parts) × (D.all ≡ D.parts) }
        ensures books { result.0 ≡ 0 ∷ 0 ∷ 0 ∷ 0 ∷ [] }
        ensures held { (result.1.a.held ≡ 0) × (result.1.b.held ≡ 0) × (result.1.c.held ≡ 0) × (result.1.d.held ≡ 0) }
        ensures taken { (result.1.a.taken ≡ 0) × (result.1.b.taken ≡ 0) × (result.1.c.taken ≡ 0) × (result.1.d.taken ≡ 0) }
        ensures idle { (result.1.a.idle ≡ 0) × (result.1.b.idle ≡ 0) × (result.1.c.idle ≡ 0) × (result.1.d.idle ≡ 0) }
    {
        let Blanks { a, b, c, d } = blanks;
        let (a, share_a) = open_lane(a);
        let (b, share_b) = open_lane(b);
        let (c, share_c) = open_lane(c);
        let (d, share_d) = open_lane(d);
        let shares = Shares {
            a: share_a,
            b: share_b,
            c: share_c,
            d: share_d,
        };
        (Books { a, b, c, d }, shares)
    }

    /// That each book has what its lane's share has.
    pub(crate) fn close(self, shares: Shares<A, B, C, D>)
        requires lanes { (A.all ≡ A.parts) × (B.all ≡ B.parts) × (C.all ≡ C.parts) × (D.all ≡ D.parts) }
        ensures { self ≡ shares.a.held ∷ shares.b.held ∷ shares.c.held ∷ shares.d.held ∷ [] }
    {
        let Books { a, b, c, d } = self;
        shares.a.audit_with(a);
        shares.b.audit_with(b);
        shares.c.audit_with(c);
        shares.d.audit_with(d);
    }
}

/// The share of any lane. What changes one needs the books, which only the table has.
pub trait Seat<A: Lane, B: Lane, C: Lane, D: Lane> {
    /// Which of the lanes it is, from 0 on.
    ghost lane: { ℕ };

    /// The number that it has.
    ghost out: { Self → ℕ };

    /// How often a target was taken.
    ghost takes: { Self → ℕ };

    /// How often there was none to take.
    ghost rests: { Self → ℕ };

    /// That the share has every part of its ledger.
    ghost right: { Type 0 };

    /// Puts a number into the lane's book.
    fn lease(&mut self, books: &mut Books<A, B, C, D>, number: u32)
        requires lane { right }
        requires free { out self.old ≡ 0 }
        ensures was { slice_get books.old lane ≡ Some 0 }
        ensures books { books.new ≡ changed_at (λ _. number) books.old lane }
        ensures out { (out self.new ≡ number) × (takes self.new ≡ as_count (takes self.old + 1)) × (rests self.new ≡ rests self.old) };

    /// Takes the number out of the lane's book.
    fn release(&mut self, books: &mut Books<A, B, C, D>)
        requires { right }
        ensures was { slice_get books.old lane ≡ Some (out self.old) }
        ensures books { books.new ≡ changed_at (λ _. 0) books.old lane }
        ensures out { (out self.new ≡ 0) × (takes self.new ≡ takes self.old) × (rests self.new ≡ rests self.old) };

    /// Counts that there was none to take.
    fn rest(&mut self, books: &Books<A, B, C, D>)
        ensures { (out self.new ≡ out self.old) × (takes self.new ≡ takes self.old) × (rests self.new ≡ as_count (rests self.old + 1)) };
}

impl<A: Lane, B: Lane, C: Lane, D: Lane> Seat<A, B, C, D> for Share<First, A> {
    ghost lane = { 0 };

    ghost out = { λ s. s.held };

    ghost takes = { λ s. s.taken };

    ghost rests = { λ s. s.idle };

    ghost right = { (A.all ≡ A.parts) × (0 < A.all) };

    fn lease(&mut self, books: &mut Books<A, B, C, D>, number: u32) {
        self.lease_with(&mut books.a, number);
    }

    fn release(&mut self, books: &mut Books<A, B, C, D>) {
        self.release_with(&mut books.a);
    }

    fn rest(&mut self, _books: &Books<A, B, C, D>) {
        self.rest_with();
    }
}

impl<A: Lane, B: Lane, C: Lane, D: Lane> Seat<A, B, C, D> for Share<Second, B> {
    ghost lane = { 1 };

    ghost out = { λ s. s.held };

    ghost takes = { λ s. s.taken };

    ghost rests = { λ s. s.idle };

    ghost right = { (B.all ≡ B.parts) × (0 < B.all) };

    fn lease(&mut self, books: &mut Books<A, B, C, D>, number: u32) {
        self.lease_with(&mut books.b, number);
    }

    fn release(&mut self, books: &mut Books<A, B, C, D>) {
        self.release_with(&mut books.b);
    }

    fn rest(&mut self, _books: &Books<A, B, C, D>) {
        self.rest_with();
    }
}

impl<A: Lane, B: Lane, C: Lane, D: Lane> Seat<A, B, C, D> for Share<Third, C> {
    ghost lane = { 2 };

    ghost out = { λ s. s.held };

    ghost takes = { λ s. s.taken };

    ghost rests = { λ s. s.idle };

    ghost right = { (C.all ≡ C.parts) × (0 < C.all) };

    fn lease(&mut self, books: &mut Books<A, B, C, D>, number: u32) {
        self.lease_with(&mut books.c, number);
    }

    fn release(&mut self, books: &mut Books<A, B, C, D>) {
        self.release_with(&mut books.c);
    }

    fn rest(&mut self, _books: &Books<A, B, C, D>) {
        self.rest_with();
    }
}

impl<A: Lane, B: Lane, C: Lane, D: Lane> Seat<A, B, C, D> for Share<Fourth, D> {
    ghost lane = { 3 };

    ghost out = { λ s. s.held };

    ghost takes = { λ s. s.taken };

    ghost rests = { λ s. s.idle };

    ghost right = { (D.all ≡ D.parts) × (0 < D.all) };

    fn lease(&mut self, books: &mut Books<A, B, C, D>, number: u32) {
        self.lease_with(&mut books.d, number);
    }

    fn release(&mut self, books: &mut Books<A, B, C, D>) {
        self.release_with(&mut books.d);
    }

    fn rest(&mut self, _books: &Books<A, B, C, D>) {
        self.rest_with();
    }
}
