//! The table of all targets of a run: what a lock keeps.
ghost use Rattle.std.specs.Prelude.{◌≡◌, ◌∷◌, [], ◌+◌, ◌≤◌, length, map, Some, None, IfOk, IfErr, IfSome, IfNone};
ghost use Rattle.std.specs.Vec.{vec_capacity};
ghost use Rattle.open_writing.specs.OpenForms.{IsOpenForm};
ghost use Rattle.federation_page.specs.Gathering.{AreShowable, federated_page};
ghost use Rattle.series_table.specs.Counting.{as_count};
ghost use Rattle.series_table.specs.HttpTalks.{talking};
ghost use Rattle.series_table.specs.Records.{Kept};
ghost use Rattle.target_table.specs.declared.table.TableFault.TheVariants as faults;
ghost use Rattle.target_table.specs.Runs.{IsRightRun};
ghost use Rattle.series_table.specs.Tracks.{AreTracks, AreUnvisited};
ghost use Rattle.target_table.specs.Tables.{next_place, targets_out, TakesTarget, MayBePut, PutsTarget, IsTable, IsRunOver};

use crate::books::{Books, Seat};
use crate::lane::{Blanks, Lane, Shares};
use crate::lease::{Lease, RunName};
use crate::page::copies_of;
use crate::slots::{clear, count_empty, fill, pages_of, put_in, put_seen, take_out};
use crate::turn::whose_turn;
use bridge_ports::Wire;
use federation_page::gather;
use label_sets::Memory;
use page_model::{Page, Shown};
use series_table::Track;
use std::alloc::Global;
use std::marker::{Model, PhantomData};

/// All targets of a run: the tracks that are at home, the books of the lanes with which the others are out, and what
/// readers see of each.
pub struct Table<N: RunName, A: Lane, B: Lane, C: Lane, D: Lane, W: Wire> {
    slots: Vec<Option<Track<W>>>,
    books: Books<A, B, C, D>,
    seen: Vec<Shown>,
    rounds: u32,
    /// Without values: the room of the tracks that are given back.
    home: Vec<Track<W>>,
    name: PhantomData<N>,
}

/// Why there is no table.
pub enum TableFault<W: Wire> {
    /// There was no memory; these are its tracks.
    Memory(Vec<Track<W>>),
}

impl<N: RunName, A: Lane, B: Lane, C: Lane, D: Lane, W: Wire> Model for Table<N, A, B, C, D, W> {
    ghost use Rattle.std.specs.Prelude.{◌≡◌, ◌≤◌, length, []};
    ghost use Rattle.std.specs.Vec.{vec_capacity};
    ghost use Rattle.series_table.specs.HttpTalks.{talking};
    ghost use Rattle.target_table.specs.Tables.{Held, IsTable};

    ghost Value = { Held };

    ghost view = { λ t. record { slots = t.slots.items; books = t.books; seen = t.seen.items } };

    ghost invariant = { λ t. (t.rounds ≡ N.run.rounds)
        × IsTable talking N.run (record { slots = t.slots.items; books = t.books; seen = t.seen.items })
        × (t.home.items ≡ [])
        × (length t.slots.items ≤ vec_capacity t.home) };
}

/// The empty slots of so many tracks, and what each shows.
fn rooms<W: Wire>(
    alloc: Global,
    tracks: &[Track<W>],
) -> Result<(Vec<Option<Track<W>>>, Vec<Shown>), Memory>
    ensures empty { IfOk result (λ rooms. rooms.0.items ≡ []) }
    ensures room { IfOk result (λ rooms. length tracks.now ≤ vec_capacity rooms.0) }
    ensures seen { IfOk result (λ rooms. rooms.1.items ≡ map (λ (k : Kept). k.shown) tracks.now) }
{
    let seen = pages_of(alloc, tracks)?;
    let slots = Vec::with_capacity(alloc, tracks.len())?;
    Ok((slots, seen))
}

impl<N: RunName, A: Lane, B: Lane, C: Lane, D: Lane, W: Wire> Table<N, A, B, C, D, W> {
    /// The table of the tracks of a run's targets, none of which was visited, and the shares of its lanes.
    ///
    /// # Errors
    ///
    /// Want of memory: the tracks are given back.
    pub fn new(
        alloc: Global,
        tracks: Vec<Track<W>>,
        rounds: u32,
        blanks: Blanks,
    ) -> Result<(Table<N, A, B, C, D, W>, Shares<A, B, C, D>), TableFault<W>>
        requires run { IsRightRun N.run }
        requires rounds { rounds ≡ N.run.rounds }
        requires tracks { AreTracks talking 0 N.run.targets tracks.items }
        requires unvisited { AreUnvisited tracks.items }
        requires a { (blanks.a.name ≡ A.name) × (blanks.a.parts ≡ A.parts) × (A.all ≡ A.parts) }
        requires b { (blanks.b.name ≡ B.name) × (blanks.b.parts ≡ B.parts) × (B.all ≡ B.parts) }
        requires c { (blanks.c.name ≡ C.name) × (blanks.c.parts ≡ C.parts) × (C.all ≡ C.parts) }
        requires d { (blanks.d.name ≡ D.name) × (blanks.d.parts ≡ D.parts) × (D.all ≡ D.parts) }
        ensures slots { IfOk result (λ made. made.0.slots ≡ map Some tracks.items) }
        ensures books { IfOk result (λ made. made.0.books ≡ 0 ∷ 0 ∷ 0 ∷ 0 ∷ []) }
        ensures seen { IfOk result (λ made. made.0.seen ≡ map (λ (k : Kept). k.shown) tracks.items) }
        ensures held { IfOk result (λ made. (made.1.a.held ≡ 0) × (made.1.b.held ≡ 0) × (made.1.c.held ≡ 0) × (made.1.d.held ≡ 0)) }
        ensures taken { IfOk result (λ made. (made.1.a.taken ≡ 0) × (made.1.b.taken ≡ 0) × (made.1.c.taken ≡ 0) × (made.1.d.taken ≡ 0)) }
        ensures idle { IfOk result (λ made. (made.1.a.idle ≡ 0) × (made.1.b.idle ≡ 0) × (made.1.c.idle ≡ 0) × (made.1.d.idle ≡ 0)) }
        ensures back { IfErr result (λ fault. fault ≡ faults.Memory tracks) }
    {
        match rooms(alloc, tracks.as_slice()) {
            Ok((slots, seen)) => {
                let (mut slots, mut home) = (slots, tracks);
                fill(&mut slots, &mut home);
                let (books, shares) = Books::open(blanks);
                let table = Table {
                    slots,
                    books,
                    seen,
                    rounds,
                    home,
                    name: PhantomData,
                };
                Ok((table, shares))
            }
            Err(_) => Err(TableFault::Memory(tracks)),
        }
    }

    /// Takes, of the targets that are at home, not halted and have a visit left, the one with the fewest visits, and
    /// among equals the one with the lowest number.
    ///
    /// # Example
    ///
    /// ```rust
    /// // The table has one target, `h:1` of the job `j`, which shows `x 1` and was not visited.
    /// if let Some(mut lease) = table.take(&mut shares.a) {
    ///     let _visited = lease.track.visit(alloc);
    ///     table.put(&mut shares.a, lease);
    /// }
    /// let mut text = Vec::new(alloc);
    /// federation_page::text(&table.gathered(alloc)?, &mut text)?;
    /// let wanted = "# TYPE x unknown\nx{instance=\"h:1\",job=\"j\"} 1\n# EOF\n";
    /// assert_eq!(rt; text.as_slice(), wanted.as_bytes());
    /// ```
    pub fn take<S: Seat<A, B, C, D>>(&mut self, seat: &mut S) -> Option<Lease<N, W>>
        requires lane { S.right }
        requires free { S.out seat.old ≡ 0 }
        ensures taken { IfSome result (λ l. TakesTarget talking N.run S.lane self.old self.new (record { number = l.number; track = l.track; from = l.from })) }
        ensures out { IfSome result (λ l. (S.out seat.new ≡ l.number) × (S.takes seat.new ≡ as_count (S.takes seat.old + 1)) × (S.rests seat.new ≡ S.rests seat.old)) }
        ensures none { IfNone result ((self.new ≡ self.old) × (next_place N.run.rounds self.old.slots ≡ None)) }
        ensures idle { IfNone result ((S.out seat.new ≡ 0) × (S.takes seat.new ≡ S.takes seat.old) × (S.rests seat.new ≡ as_count (S.rests seat.old + 1))) }
    {
        let Some(place) = whose_turn(self.slots.as_slice(), self.rounds) else {
            seat.rest(&self.books);
            return None;
        };
        let Some(track) = take_out(&mut self.slots, place) else {
            unreachable!()
        };
        let number = place as u32 + 1;
        seat.lease(&mut self.books, number);
        let from = track.counts().visits;
        Some(Lease {
            number,
            track,
            from,
            name: PhantomData,
        })
    }

    /// Puts a track back that was visited once since it was taken, or is halted. A second page that it holds is moved
    /// to where readers see it.
    pub fn put<S: Seat<A, B, C, D>>(&mut self, seat: &mut S, lease: Lease<N, W>)
        requires lane { S.right }
        requires held { S.out seat.old ≡ lease.number }
        requires due { MayBePut (record { number = lease.number; track = lease.track; from = lease.from }) }
        ensures put { PutsTarget S.lane self.old self.new (record { number = lease.number; track = lease.track; from = lease.from }) }
        ensures out { (S.out seat.new ≡ 0) × (S.takes seat.new ≡ S.takes seat.old) × (S.rests seat.new ≡ S.rests seat.old) }
    {
        let Lease {
            number,
            track,
            from: _,
            name: _,
        } = lease;
        track.facts();
        seat.release(&mut self.books);
        let place = number as usize - 1;
        let mut track = track;
        let second = track.take_second();
        put_in(&mut self.slots, place, track);
        put_seen(&mut self.seen, place, second);
    }

    /// What readers see of each target, in order. It may be gathered.
    ///
    /// # Errors
    ///
    /// Want of memory.
    pub fn shown(&self, alloc: Global) -> Result<Vec<Shown>, Memory>
        ensures shown { IfOk result (λ shown. shown.items ≡ self.now.seen) }
        ensures table { IsTable talking N.run self.now }
        ensures showable { AreShowable self.now.seen }
    {
        copies_of(alloc, self.seen.as_slice())
    }

    /// The federation page of what readers see, targets in order. Of a target that is out they see what they saw when it
    /// was taken.
    ///
    /// What they see may be gathered, so the page is in OpenMetrics form, and its text reads back as it
    /// (`federation_page::gathered_pages`).
    ///
    /// # Errors
    ///
    /// Want of memory.
    pub fn gathered(&self, alloc: Global) -> Result<Page, Memory>
        ensures page { IfOk result (λ page. page ≡ federated_page self.now.seen) }
        ensures form { IfOk result (λ page. IsOpenForm page) }
        ensures showable { AreShowable self.now.seen }
    {
        gather(alloc, self.seen.as_slice())
    }

    /// How many targets are out.
    pub fn out(&self) -> u32
        ensures { result ≡ targets_out self.now.books }
    {
        self.count_out()
    }

    // As many targets are out as slots are empty. It stands apart from `out`, since the toolchain passes over a
    // folder of that name, in which its proof would lie.
    fn count_out(&self) -> u32
        ensures { result ≡ targets_out self.now.books }
    {
        count_empty(self.slots.as_slice()) as u32
    }

    /// The tracks of all targets, in order, where each share holds none. It takes no memory.
    pub fn into_tracks(self, shares: Shares<A, B, C, D>) -> Vec<Track<W>>
        requires lanes { (A.all ≡ A.parts) × (B.all ≡ B.parts) × (C.all ≡ C.parts) × (D.all ≡ D.parts) }
        requires home { (shares.a.held ≡ 0) × (shares.b.held ≡ 0) × (shares.c.held ≡ 0) × (shares.d.held ≡ 0) }
        ensures tracks { map Some result.items ≡ self.slots }
        ensures are { AreTracks talking 0 N.run.targets result.items }
        ensures over { next_place N.run.rounds self.slots ≡ None → IsRunOver talking N.run result.items }
    {
        let Table {
            slots,
            books,
            seen: _,
            rounds: _,
            home,
            name: _,
        } = self;
        books.close(shares);
        let (mut slots, mut home) = (slots, home);
        clear(&mut slots, &mut home);
        slots.destroy_empty();
        home
    }
}
