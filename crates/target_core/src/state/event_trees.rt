//! The trees of a target's events, and the rows behind them.
ghost use Rattle.std.specs.Prelude.{◌≡◌, [], IfOk};
ghost use Rattle.std.specs.Option.{option_copied};
ghost use Rattle.staleness.specs.Vanished.{page_or_empty};
ghost use Rattle.start_times.specs.Starts.{Tracking};
ghost use Rattle.start_times.specs.Rows.{Tracks};
ghost use Rattle.target_core.specs.Stepping.{AdvancesAnew, AreKeysLacked, AreMarkersLacked, AreMarkersMissed, IsToldBehind, IsTreeAnew, IsTreeWithin, ReadsWithin, ReadsAnew, StepsBySeen, first_request};

use super::TargetState;
use crate::gone::markers_of;
use crate::places::first_places;
use crate::tree::{request_alone, request_anew};
use family_metrics::Marker;
use label_sets::{List, Memory, SeriesKey};
use otlp_tree::Request;
use page_model::Page;
use staleness::{vanished, vanished_marks};
use start_times::{Placed, Starts, Tracker};
use std::alloc::Global;
use target_pages::Seen;

impl TargetState {
    /// The rows behind all scrapes since the attributes last changed.
    pub(crate) fn told_tracker(&self, alloc: Global) -> Result<Tracker, Memory>
        ensures { IfOk result (IsToldBehind self.now) }
    {
        let Some(moment) = self.moment else {
            return self.tracker.copy();
        };
        if !self.pending {
            return self.tracker.copy();
        }
        let (_, tracker) = self.tracker.advance(alloc, self.page.series(), moment)?;
        Ok(tracker)
    }

    /// No rows, to be kept as those of the target are.
    fn no_rows(&self, alloc: Global) -> Result<Tracker, Memory>
        ensures { IfOk result (λ tracker. (t : Tracking) → t.honor ≡ self.now.target.honor → self.now.keep ≡ t.keep → Tracks t tracker []) }
    {
        let none = List::new(alloc);
        Tracker::from_kept(alloc, self.keep, self.target.honor(), &none)
    }

    /// The series of the last page that a page now lacks; all of them where there is none.
    fn keys_lacked(&self, alloc: Global, now: Option<&Page>) -> Result<List<SeriesKey>, Memory>
        ensures { IfOk result (AreKeysLacked self.now (page_or_empty (option_copied now.entry))) }
    {
        match &self.marks {
            Some(marks) => vanished_marks(alloc, marks, now),
            None => vanished(alloc, self.page.series(), now, self.target.honor()),
        }
    }

    /// The markers of the series of the last page that a page now lacks, or of all of them where there is none, with
    /// the starts that are kept of them.
    fn markers(
        &self,
        alloc: Global,
        tracker: &Tracker,
        now: Option<&Page>,
        moment: u64,
    ) -> Result<Vec<Marker>, Memory>
        ensures { IfOk result (λ markers. AreMarkersLacked self.now tracker.now.rows moment (page_or_empty (option_copied now.entry)) markers.items) }
    {
        let gone = self.keys_lacked(alloc, now)?;
        let starts = tracker.starts_of(alloc, &gone)?;
        markers_of(alloc, gone.as_slice(), starts.list.as_slice(), moment)
    }

    /// The markers of the series of the last page that a page now lacks. Most pages miss nothing: then no series is
    /// sought.
    fn markers_missed(
        &self,
        alloc: Global,
        misses: bool,
        tracker: &Tracker,
        now: &Page,
        moment: u64,
    ) -> Result<Vec<Marker>, Memory>
        ensures { IfOk result (λ markers. AreMarkersMissed self.now tracker.now.rows misses moment now.now markers.items) }
    {
        if !misses {
            return Ok(Vec::new(alloc));
        }
        self.markers(alloc, tracker, Some(now), moment)
    }

    /// The tree of a first event.
    pub(crate) fn first_tree(
        &self,
        alloc: Global,
        moment: u64,
        seen: &Seen,
    ) -> Result<Request, Memory>
        ensures { IfOk result (λ tree. tree ≡ first_request self.now.target moment seen.now) }
    {
        let places = first_places(alloc, self.target.honor(), moment, &seen.series)?;
        let markers = Vec::new(alloc);
        request_alone(
            alloc,
            &self.target,
            &seen.resource,
            moment,
            seen,
            places.as_slice(),
            markers,
        )
    }

    /// The tree of such an event, whose readings have these places.
    fn read_within(
        &self,
        alloc: Global,
        tracker: &Tracker,
        moment: u64,
        seen: &Seen,
        starts: &Starts,
    ) -> Result<Request, Memory>
        ensures { IfOk result (IsTreeWithin self.now tracker.now.rows starts.now.list starts.now.misses moment seen.now.up seen.now.series) }
    {
        let markers = self.markers_missed(alloc, starts.misses, tracker, &seen.series, moment)?;
        let places = starts.list.as_slice();
        let attributes = &self.resource;
        request_alone(
            alloc,
            &self.target,
            attributes,
            moment,
            seen,
            places,
            markers,
        )
    }

    /// The tree of an event that leaves the attributes as they were, behind these rows, and the rows behind it.
    fn tree_within(
        &self,
        alloc: Global,
        tracker: &Tracker,
        moment: u64,
        seen: &Seen,
    ) -> Result<(Request, Tracker), Memory>
        ensures { IfOk result (λ r. ReadsWithin self.now tracker.now moment seen.now.up seen.now.series r.0 r.1) }
    {
        let (starts, next) = tracker.advance(alloc, &seen.series, moment)?;
        let tree = self.read_within(alloc, tracker, moment, seen, &starts);
        drop(starts);
        match tree {
            Ok(tree) => Ok((tree, next)),
            Err(fault) => {
                drop(next);
                Err(fault)
            }
        }
    }

    /// The places of the readings of a page without a past, and the rows behind it.
    fn rows_anew(
        &self,
        alloc: Global,
        series: &Page,
        moment: u64,
    ) -> Result<(Starts, Tracker), Memory>
        ensures { IfOk result (λ r. AdvancesAnew self.now series.now moment r.0 r.1) }
    {
        let none = self.no_rows(alloc)?;
        let rows = none.advance(alloc, series, moment);
        drop(none);
        rows
    }

    /// The tree of an event that changes the attributes, whose readings have these places.
    fn read_anew(
        &self,
        alloc: Global,
        tracker: &Tracker,
        moment: u64,
        seen: &Seen,
        places: &[Option<Placed>],
    ) -> Result<Request, Memory>
        ensures { IfOk result (IsTreeAnew self.now tracker.now.rows places.now moment seen.now.up seen.now.resource seen.now.series) }
    {
        let gone = self.markers(alloc, tracker, None, moment)?;
        let before = &self.resource;
        request_anew(alloc, &self.target, before, moment, seen, places, gone)
    }

    /// The tree of an event that changes the attributes, where these rows were kept before, and the rows behind it:
    /// its page has no past, and all series of the last page are gone under the attributes before, in a second part.
    fn tree_anew(
        &self,
        alloc: Global,
        tracker: &Tracker,
        moment: u64,
        seen: &Seen,
    ) -> Result<(Request, Tracker), Memory>
        ensures { IfOk result (λ r. ReadsAnew self.now tracker.now.rows moment seen.now.up seen.now.resource seen.now.series r.0 r.1) }
    {
        let (starts, next) = self.rows_anew(alloc, &seen.series, moment)?;
        let tree = self.read_anew(alloc, tracker, moment, seen, starts.list.as_slice());
        drop(starts);
        match tree {
            Ok(tree) => Ok((tree, next)),
            Err(fault) => {
                drop(next);
                Err(fault)
            }
        }
    }

    /// The tree of an event behind others, and the rows behind it.
    pub(crate) fn later_tree(
        &self,
        alloc: Global,
        moment: u64,
        seen: &Seen,
    ) -> Result<(Request, Tracker), Memory>
        ensures { IfOk result (λ r. StepsBySeen self.now moment seen.now r.0 r.1) }
    {
        let tracker = self.told_tracker(alloc)?;
        if seen.leaves(&self.resource) {
            return self.tree_within(alloc, &tracker, moment, seen);
        }
        self.tree_anew(alloc, &tracker, moment, seen)
    }
}
