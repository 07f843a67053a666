//! The track of one target: its wires, its state, what it shows and what it counts.
ghost use Rattle.std.specs.Prelude.{◌≡◌, ◌<◌, ◌≤◌, [], IfOk, IfErr, IfSome};
ghost use Rattle.target_core.specs.Events.{latest_shown};
ghost use Rattle.target_core.specs.States.{StandsFor};
ghost use Rattle.series_table.specs.declared.track.TrackFault.TheVariants as faults;
ghost use Rattle.series_table.specs.Talking.{AreInRange};
ghost use Rattle.series_table.specs.HttpTalks.{talking};
ghost use Rattle.series_table.specs.Moving.{without_second};
ghost use Rattle.series_table.specs.Records.{IsBodyOf, IsFree, IsFresh, IsNew, IsTrack, PostsWhatItsTalksTell, Visits, most_visits, visited_as};

use crate::aim::Aim;
use crate::counts::Counts;
use crate::faults::told_body;
use crate::making::{Earlier, due_after, prepare};
use crate::visited::Visited;
use bridge_ports::{Address, BodyFault, Notice, Settings, TalkFault, Target, Wire};
use label_sets::Memory;
use otlp_sender::post_parts;
use page_model::Shown;
use scrape_client::KnownFronts;
use std::alloc::Global;
use std::marker::Model;
use std::mem;
use target_core::TargetState;

/// A target that is visited over its two wires. What it posted is, in order, the texts of a function of its own
/// scrape talks, whatever becomes of them; its type keeps that. No field holds a list of events or of talks.
pub struct Track<W: Wire> {
    aim: Aim,
    scrape: W,
    post: W,
    state: TargetState,
    /// The fronts of the page that was scraped last.
    fronts: KnownFronts,
    /// The reading of the first visit, in nanoseconds since the Unix epoch.
    first: Option<u64>,
    shown: Shown,
    second: Option<Shown>,
    counts: Counts,
    halted: bool,
    /// How long the last body was, in bytes: the next one mostly is about as long.
    last_len: usize,
    /// Why the scrape of the last visit failed, where it did.
    scrape_fault: Option<TalkFault>,
    /// Why the body of the last visit was not taken, where it was not.
    body_fault: Option<BodyFault>,
}

/// Why there is no track.
pub enum TrackFault<W: Wire> {
    /// There was no memory; these are its two wires, that of scrapes first.
    Memory(W, W),
}

impl<W: Wire> Model for Track<W> {
    ghost use Rattle.series_table.specs.Records.{Kept, IsTrack};
    ghost use Rattle.series_table.specs.Keeping.{kept_with};
    ghost use Rattle.series_table.specs.HttpTalks.{talking};

    ghost Value = { Kept };

    ghost view = { λ t. kept_with t.aim (W.state t.scrape) (W.state t.post) t.state t.shown t.second t.counts t.halted };

    ghost invariant = { λ t.
        IsTrack talking (kept_with t.aim (W.state t.scrape) (W.state t.post) t.state t.shown t.second t.counts t.halted) };
}

/// What a target's track begins with: its state, and what it shows.
fn begin(alloc: Global, target: &Target, keep: u32) -> Result<(TargetState, Shown), Memory>
    requires { keep ≤ 4 }
    ensures state { IfOk result (λ b. StandsFor target.now (record { keep = keep; honor = target.now.honor }) b.0 []) }
    ensures shown { IfOk result (λ b. b.1 ≡ latest_shown target.now []) }
{
    let state = TargetState::new(alloc, target.copy()?, keep)?;
    let shown = state.latest()?;
    Ok((state, shown))
}

impl<W: Wire> Track<W> {
    /// The track of a target that was not visited: its bodies go to the address `to`, over the wire `post`.
    ///
    /// # Errors
    ///
    /// Want of memory: the two wires are given back.
    pub fn new(
        alloc: Global,
        target: Target,
        to: Address,
        settings: Settings,
        scrape: W,
        post: W,
    ) -> Result<Track<W>, TrackFault<W>>
        requires ranges { AreInRange settings }
        requires scrape { IsFresh (W.state scrape) }
        requires post { IsFresh (W.state post) }
        ensures made { IfOk result (λ track. IsNew target to settings (W.state scrape) (W.state post) track) }
        ensures back { IfErr result (λ fault. fault ≡ faults.Memory scrape post) }
    {
        match begin(alloc, &target, settings.keep) {
            Ok((state, shown)) => Ok(Track {
                aim: Aim {
                    target,
                    to,
                    settings,
                },
                scrape,
                post,
                state,
                fronts: KnownFronts::new(alloc),
                first: None,
                shown,
                second: None,
                counts: Counts::BEFORE_VISITS,
                halted: false,
                last_len: 0,
                scrape_fault: None,
                body_fault: None,
            }),
            Err(_) => Err(TrackFault::Memory(scrape, post)),
        }
    }

    /// Visits the target: one scrape, whose event becomes a tree and its JSON text, and the posts of that. All that
    /// takes memory comes before the posts. The first visit is due at once, and each later one `interval` behind
    /// the one before, from the reading of the first on. `Halted` stands for want of memory, in this visit or an
    /// earlier one: then nothing of this visit was posted, it is not counted, what is shown stays, and every later
    /// visit does nothing. The wire of its scrapes is told what the visit came to.
    ///
    /// # Example
    ///
    /// ```rust
    /// // The first scrape finds a page of one sample, the second the status 404; both bodies are taken.
    /// let mut track = Track::new(alloc, target, to, settings, scrape, post)?;
    /// let _first = track.visit(alloc);
    /// let _second = track.visit(alloc);
    /// let counts = track.counts();
    /// assert_eq!(rt; (counts.visits, counts.failed, counts.accepted), (2, 1, 2));
    /// assert_eq!(rt; (counts.points, counts.markers), (5, 1));
    /// ```
    pub fn visit(&mut self, alloc: Global) -> Visited
        requires { self.old.counts.visits < most_visits }
        ensures visit { Visits talking self.old self.new result }
        ensures sentence { PostsWhatItsTalksTell talking self.new }
    {
        match self.next_body(alloc) {
            Some(_) => {
                let notice = Notice::Visited {
                    scrape: self.scrape_fault,
                    body: self.body_fault,
                };
                self.tell(notice);
                Visited::Done
            }
            None => {
                self.tell(Notice::Halted);
                Visited::Halted
            }
        }
    }

    // Tells the wire of scrapes what a visit came to.
    fn tell(&mut self, notice: Notice)
        ensures kept { self.new ≡ self.old }
        ensures sentence { PostsWhatItsTalksTell talking self.new }
    {
        self.scrape.notice(notice);
    }

    /// Visits the target, and gives the body that was posted, which is the JSON text of the scrape's event, whatever
    /// became of the posts. `None` stands for want of memory, as `Halted` does.
    pub fn next_body(&mut self, alloc: Global) -> Option<Vec<u8>>
        requires { self.old.counts.visits < most_visits }
        ensures visit { Visits talking self.old self.new (visited_as result) }
        ensures sentence { PostsWhatItsTalksTell talking self.new }
        ensures body { IfSome result (λ body. IsBodyOf talking self.old self.new body.items) }
    {
        if self.halted {
            return None;
        }
        let due = due_after(self.first, self.counts.visits, self.aim.settings.interval);
        let earlier = Earlier {
            due,
            last_len: self.last_len,
        };
        match prepare(
            alloc,
            &self.aim,
            &mut self.scrape,
            &mut self.post,
            &mut self.state,
            &mut self.fronts,
            earlier,
        ) {
            Ok(made) => {
                let (head, body) = made.text.parts();
                let posted = post_parts(&mut self.post, head, body, self.aim.settings.tries);
                self.last_len = body.len();
                self.first = Some(self.first.unwrap_or(made.reading));
                self.counts = self.counts.with_visit(made.failed, made.points, posted);
                self.scrape_fault = made.fault;
                self.body_fault = told_body(posted);
                self.shown = made.shown;
                self.second = Some(made.second);
                Some(made.text.into_body())
            }
            Err(_) => {
                self.halted = true;
                None
            }
        }
    }

    /// The wire of its scrapes.
    pub fn scrape_wire(&self) -> &W
        ensures wire { W.state result.now ≡ self.now.scrape }
        ensures free { IsFree self.now.followed.scrape_plan self.now.scrape }
    {
        &self.scrape
    }

    /// What the target shows: the page of its last visit that was made, which is empty where that scrape failed or
    /// where there was none.
    pub fn shown(&self) -> &Shown
        ensures { result.now ≡ self.now.shown }
    {
        &self.shown
    }

    /// What was counted over its visits.
    pub fn counts(&self) -> &Counts
        ensures { result.now ≡ self.now.counts }
    {
        &self.counts
    }

    /// Whether memory was wanted; then no further visit is made.
    pub fn halted(&self) -> bool
        ensures { result ≡ self.now.halted }
    {
        self.halted
    }

    /// Moves out the second page of the last visit, which whoever keeps tracks shows to readers while this one is out.
    pub fn take_second(&mut self) -> Option<Shown>
        ensures second { result ≡ self.old.second }
        ensures after { self.new ≡ without_second self.old }
    {
        mem::replace(&mut self.second, None)
    }

    /// For the proof of a caller: what every track keeps. It does nothing.
    pub fn facts(&self)
        ensures { IsTrack talking self.now }
    {
        let _halted = self.halted;
    }

    /// Gives the wires back, that of scrapes first. No talk is under way on either.
    pub fn into_wires(self) -> (W, W)
        ensures wires { (W.state result.0 ≡ self.scrape) × (W.state result.1 ≡ self.post) }
        ensures track { IsTrack talking self }
    {
        let Track {
            aim,
            scrape,
            post,
            state,
            fronts,
            first: _,
            shown,
            second,
            counts: _,
            halted: _,
            last_len: _,
            scrape_fault: _,
            body_fault: _,
        } = self;
        drop(aim);
        drop(state);
        drop(fronts);
        drop(shown);
        drop(second);
        (scrape, post)
    }
}
