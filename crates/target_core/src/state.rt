//! What is kept of a target between its scrapes.
ghost use Rattle.std.specs.Prelude.{◌≡◌, ◌≤◌, [], false, Some, None, IfOk, OnOk, OnErr};
ghost use Rattle.page_model.specs.declared.event.Event.{Event as AnyEvent};
ghost use Rattle.start_times.specs.Scrapes as scrapes;
ghost use Rattle.start_times.specs.Starts.{Tracking};
ghost use Rattle.target_pages.specs.Stretches.{without_info};
ghost use Rattle.target_core.specs.Events.{event_request};
ghost use Rattle.target_core.specs.Keeping.{HasParts, HasRows, TakesUp};
ghost use Rattle.target_core.specs.States.{Steps, StandsFor, HasNextMoment, IsFirstTree, ShowsLatest, shown_by, shown_again};
ghost use Rattle.target_core.specs.Stepping.{IsEventNext, marks_held, next_state};

mod event_trees;

use crate::moments::moment_after;
use crate::parts::Parts;
use bridge_ports::Target;
use label_sets::{LabelSet, List, Memory};
use otlp_tree::Request;
use page_model::{Event, Outcome, Shown};
use staleness::Mark;
use start_times::{Kept, Tracker};
use std::alloc::Global;
use std::marker::Model;
use target_pages::{LastPage, Seen, page_marks};

/// What is kept of a target between its scrapes: the attributes that its pages give it, a row for each series that
/// can still come back, and the last page as it is shown. It has no history. Rows are of a stretch: the scrapes since
/// the attributes last changed.
#[derive(Drop)]
pub struct TargetState {
    target: Target,
    /// Over how many scrapes that miss a series its row is kept.
    keep: u32,
    /// What the last page that was scraped says of the target as a resource.
    resource: LabelSet,
    tracker: Tracker,
    /// Whether the rows are still to be told of the last page: those of the first page are made when a
    /// second one comes.
    pending: bool,
    page: LastPage,
    /// What stands for the last page where a checkpoint kept no more of it.
    marks: Option<List<Mark>>,
    moment: Option<u64>,
}

impl Model for TargetState {
    ghost use Rattle.target_core.specs.States.{Following};

    ghost Value = { Following };

    ghost view = { λ s. record { target = s.target; keep = s.keep; resource = s.resource; tracked = s.tracker; pending = s.pending; page = s.page; marks = s.marks; moment = s.moment } };
}

impl TargetState {
    /// A target that was never scraped, whose series keep their starts over so many scrapes that miss
    /// them: at most 4. It takes no memory.
    ///
    /// # Errors
    ///
    /// Want of memory.
    pub fn new(alloc: Global, target: Target, keep: u32) -> Result<TargetState, Memory>
        requires { keep ≤ 4 }
        ensures { IfOk result (λ s. StandsFor target (record { keep = keep; honor = target.honor }) s []) }
    {
        let honor = target.honor();
        Ok(TargetState {
            target,
            keep,
            resource: LabelSet::empty(alloc),
            tracker: Tracker::new(alloc, keep, honor),
            pending: false,
            page: LastPage::none(alloc),
            marks: None,
            moment: None,
        })
    }

    /// A target of whose scrapes so far these parts were kept, and whose series keep their starts over so many scrapes
    /// that miss them: at most 4. Where they are the [`parts`](TargetState::parts) of a target with the same job and
    /// instance, and with the same `keep`, it goes on as that one would. Until it is scraped it shows a page without
    /// families. The rows of the parts are copied, the rest is taken over.
    ///
    /// # Errors
    ///
    /// Want of memory.
    ///
    /// # Example
    ///
    /// ```rust
    /// // The state was scraped once, at the moment 1,000.
    /// let parts = state.parts(alloc)?;
    /// let again = TargetState::from_parts(alloc, target, 2, parts)?;
    /// let shown = again.latest()?;
    /// assert!(rt; shown.moment == Some(1_000) && shown.page.families().is_empty());
    /// ```
    pub fn from_parts(
        alloc: Global,
        target: Target,
        keep: u32,
        parts: Parts,
    ) -> Result<TargetState, Memory>
        requires { keep ≤ 4 }
        ensures state { IfOk result (λ s. (t : Tracking) → t.keep ≡ keep → t.honor ≡ target.honor → TakesUp target t parts s) }
        ensures shown { IfOk result (λ s. shown_by s ≡ shown_again target parts.moment) }
    {
        match Tracker::from_kept(alloc, keep, target.honor(), &parts.rows) {
            Ok(tracker) => Ok(TargetState {
                target,
                keep,
                resource: parts.resource,
                tracker,
                pending: false,
                page: LastPage::none(alloc),
                marks: Some(parts.marks),
                moment: parts.moment,
            }),
            Err(fault) => {
                drop(target);
                drop(parts);
                Err(fault)
            }
        }
    }

    /// Takes over what is seen of an event, and whether the rows are still to be told of its page.
    fn take_page(&mut self, pending: bool, seen: Seen, moment: u64)
        ensures { self.new ≡ next_state self.old seen.resource self.old.tracked pending seen.last moment }
    {
        self.resource = seen.resource;
        self.pending = pending;
        self.page = seen.last;
        self.marks = None;
        self.moment = Some(moment);
    }

    /// Takes over what is kept behind an event: these rows, which are told of its page, and what is seen of it.
    fn follow(&mut self, tracker: Tracker, seen: Seen, moment: u64)
        ensures { self.new ≡ next_state self.old seen.resource tracker false seen.last moment }
    {
        self.tracker = tracker;
        self.take_page(false, seen, moment);
    }

    /// The first step: what the target showed before does not count.
    fn first_step(
        &mut self,
        alloc: Global,
        moment: u64,
        outcome: Outcome,
    ) -> Result<Request, Memory>
        requires { self.old.moment ≡ None }
        ensures ok { (e : AnyEvent) → IsEventNext None e outcome moment → IfOk result (λ request. Steps self.old e request self.new) }
        ensures moment { OnOk result (self.new.moment ≡ Some moment) }
        ensures tree { (e : AnyEvent) → IsEventNext None e outcome moment → IfOk result (λ request. request ≡ event_request self.old.target moment e.outcome) }
        ensures err { OnErr result (self.new ≡ self.old) }
    {
        let seen = Seen::first(alloc, outcome)?;
        match self.first_tree(alloc, moment, &seen) {
            Ok(tree) => {
                self.take_page(true, seen, moment);
                Ok(tree)
            }
            Err(fault) => {
                drop(seen);
                Err(fault)
            }
        }
    }

    /// A step behind others.
    fn later_step(
        &mut self,
        alloc: Global,
        moment: u64,
        outcome: Outcome,
    ) -> Result<Request, Memory>
        ensures ok { (e : AnyEvent) → IsEventNext self.old.moment e outcome moment → IfOk result (λ request. Steps self.old e request self.new) }
        ensures moment { OnOk result (self.new.moment ≡ Some moment) }
        ensures err { OnErr result (self.new ≡ self.old) }
    {
        let seen = Seen::of(alloc, &self.resource, outcome)?;
        match self.later_tree(alloc, moment, &seen) {
            Ok((tree, tracker)) => {
                self.follow(tracker, seen, moment);
                Ok(tree)
            }
            Err(fault) => {
                drop(seen);
                Err(fault)
            }
        }
    }

    /// Takes the next event, and gives its tree (OTLP 1.x, `ExportMetricsServiceRequest`). The moment of
    /// an event is the reading of its clock, in nanoseconds since the Unix epoch, at most 2^62, and later
    /// than the moment before. Each reading of its page has a point with the start of its series, unless
    /// the target's times count and it is not later than the reading of its series that was taken before;
    /// each series of the page before that it lacks has a point without a value, unless that page gave it
    /// a time that counts.
    ///
    /// A reading named `target_info` of the value 1 is no series: its labels are attributes of the resource. A scrape
    /// that fails leaves the attributes as they were. A page that changes them begins all series anew, and ends those
    /// of the page before, whose points without a value stand in a second part of the tree, under the attributes
    /// before. Want of memory is the only error, and changes nothing.
    ///
    /// # Errors
    ///
    /// Want of memory.
    ///
    /// # Example
    ///
    /// ```rust
    /// // `page` has the gauge `t` alone. The second scope tells whether the target is up, and its number of samples.
    /// let mut state = TargetState::new(alloc, target, 2)?;
    /// let outcome = Outcome::Page(page);
    /// let request = state.step(alloc, Event { reading: 1_000, outcome })?;
    /// if let [part] = request.parts.as_slice() {
    ///     if let [own, told] = part.scopes.as_slice() {
    ///         assert_eq!(rt; (own.name.as_str(), own.metrics.len()), ("bridge", 1));
    ///         assert_eq!(rt; (told.name.as_str(), told.metrics.len()), ("bridge.target", 2));
    ///     }
    /// }
    /// ```
    pub fn step(&mut self, alloc: Global, event: Event) -> Result<Request, Memory>
        requires { HasNextMoment self.old.moment }
        ensures ok { IfOk result (λ request. Steps self.old event request self.new) }
        ensures moment { OnOk result (self.new.moment ≡ Some (scrapes.moment_after self.old.moment event.reading)) }
        ensures first { IsFirstTree self.old event result }
        ensures err { OnErr result (self.new ≡ self.old) }
    {
        let moment = moment_after(self.moment, event.reading);
        match self.moment {
            Some(_) => self.later_step(alloc, moment, event.outcome),
            None => self.first_step(alloc, moment, event.outcome),
        }
    }

    /// What the target shows: its last page without its exemplars and without the families that have no reading, which
    /// is empty where that scrape failed or where there was none, and the moment. The page has one owner more.
    ///
    /// # Errors
    ///
    /// Want of memory.
    pub fn latest(&self) -> Result<Shown, Memory>
        ensures shown { IfOk result (λ shown. shown ≡ shown_by self.now) }
        ensures latest { IfOk result (ShowsLatest self.now) }
    {
        let job = self.target.job().copy()?;
        let instance = self.target.instance().copy()?;
        let page = self.page.page().copy()?;
        Ok(Shown {
            job,
            instance,
            moment: self.moment,
            page,
        })
    }

    /// The marks of the last page, or what stands for it.
    fn marks_held(&self, alloc: Global) -> Result<List<Mark>, Memory>
        ensures { IfOk result (λ marks. (t : Tracking) → t.honor ≡ self.now.target.honor → marks ≡ marks_held t self.now.marks (without_info self.now.page)) }
    {
        match &self.marks {
            Some(marks) => marks.copy(),
            None => page_marks(alloc, self.target.honor(), self.page.series()),
        }
    }

    /// The rows behind all scrapes since the attributes last changed, in the order of keys.
    fn told_rows(&self, alloc: Global) -> Result<List<Kept>, Memory>
        ensures { IfOk result (HasRows self.now) }
    {
        let tracker = self.told_tracker(alloc)?;
        let rows = tracker.kept(alloc);
        drop(tracker);
        rows
    }

    /// All that later events depend on, as a checkpoint keeps it: the moment of the last event in nanoseconds since the
    /// Unix epoch, what the pages say of the target as a resource, a row for each series that can still come back, in
    /// the order of keys, and the series of the last page. [`from_parts`](TargetState::from_parts) goes on from them.
    ///
    /// # Errors
    ///
    /// Want of memory.
    ///
    /// # Example
    ///
    /// ```rust
    /// // The state was scraped once, and the page had the gauge `t` alone.
    /// let parts = state.parts(alloc)?;
    /// let first = parts.marks.as_slice().first();
    /// assert!(rt; parts.rows.len() == 1 && first.is_some_and(|mark| mark.key.name.as_str() == "t"));
    /// ```
    pub fn parts(&self, alloc: Global) -> Result<Parts, Memory>
        ensures { IfOk result (HasParts self.now) }
    {
        let rows = self.told_rows(alloc)?;
        let marks = self.marks_held(alloc)?;
        let resource = self.resource.copy()?;
        Ok(Parts {
            moment: self.moment,
            resource,
            rows,
            marks,
        })
    }
}
