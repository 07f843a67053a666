//! What a visit makes before its posts: each step is a decision, and none posts anything.
ghost use Rattle.std.specs.Prelude.{◌≡◌, IfOk};
ghost use Rattle.bridge_ports.specs.declared.talk.Stage.TheVariants as stages;
ghost use Rattle.target_core.specs.States.{HasNextMoment};
ghost use Rattle.otlp_json.specs.Texts.{request_text};
ghost use Rattle.http_talk.specs.Requests.{post_request};
ghost use Rattle.series_table.specs.Talking.{AreInRange};
ghost use Rattle.series_table.specs.Counting as counting;
ghost use Rattle.series_table.specs.Making.{due_after, whole_request, TakesEvent, ShowsTwice, IsOfTaken, Prepares};

use crate::aim::Aim;
use crate::faults::told_scrape;
use crate::point_counts::{PointCounts, of_tree};
use crate::post_text::PostText;
use bridge_ports::{Address, TalkFault, Wire};
use label_sets::Memory;
use otlp_json::write;
use otlp_tree::Request;
use page_model::{Event, Outcome, Shown};
use scrape_client::{KnownFronts, scrape_again};
use std::alloc::{AllocError, Global};
use target_core::TargetState;

/// The event of a scrape, as its tree and what else is kept of it.
#[derive(Drop)]
pub(crate) struct Taken {
    tree: Request,
    reading: u64,
    failed: bool,
    fault: Option<TalkFault>,
}

/// All that the posts of a visit, and its end, need.
#[derive(Drop)]
pub(crate) struct Prepared {
    /// The reading of the clock at the scrape, in nanoseconds since the Unix epoch.
    pub(crate) reading: u64,
    pub(crate) failed: bool,
    /// Why the scrape failed, as it is told.
    pub(crate) fault: Option<TalkFault>,
    pub(crate) points: PointCounts,
    /// The request that is posted.
    pub(crate) text: PostText,
    pub(crate) shown: Shown,
    pub(crate) second: Shown,
}

/// What a visit goes by of those before it.
#[derive(Clone, Copy)]
pub(crate) struct Earlier {
    /// When this visit is due, in nanoseconds since the Unix epoch.
    pub(crate) due: u64,
    /// How long the last body was, in bytes.
    pub(crate) last_len: usize,
}

/// When a visit is due behind so many others, of which the first had this reading.
pub(crate) fn due_after(first: Option<u64>, visits: u64, interval: u64) -> u64
    ensures { result ≡ due_after first visits interval }
{
    match first {
        Some(first) => first.saturating_add(visits.saturating_mul(interval)),
        None => 0,
    }
}

fn has_failed(event: &Event) -> bool
    ensures { result ≡ counting.has_failed event.now }
{
    match event.outcome {
        Outcome::Page(_) => false,
        Outcome::Failed(_) => true,
    }
}

/// Scrapes once, and has the state take the event. The fronts of its page are left in `fronts`.
fn take_event<W: Wire>(
    alloc: Global,
    aim: &Aim,
    wire: &mut W,
    state: &mut TargetState,
    fronts: &mut KnownFronts,
    due: u64,
) -> Result<Taken, Memory>
    requires free { (W.state wire.old).stage ≡ stages.Idle }
    requires ranges { AreInRange aim.now.settings }
    requires next { HasNextMoment state.old.moment }
    ensures { TakesEvent aim.now (W.state wire.old) (W.state wire.new) state.old state.new result }
{
    let settings = &aim.settings;
    let Ok(event) = scrape_again(
        alloc,
        wire,
        &aim.target,
        due,
        settings.limit,
        settings.max_page,
        fronts,
    ) else {
        return Err(AllocError);
    };
    let reading = event.reading;
    let failed = has_failed(&event);
    let fault = told_scrape(&event);
    match state.step(alloc, event) {
        Ok(tree) => Ok(Taken {
            tree,
            reading,
            failed,
            fault,
        }),
        Err(AllocError) => Err(AllocError),
    }
}

/// The request that posts a tree's text. The text before was so long: this one is written in room for it and an eighth
/// more, so that one that is much like it is not moved while it grows.
fn body_request(
    alloc: Global,
    to: &Address,
    tree: &Request,
    last_len: usize,
) -> Result<PostText, Memory>
    ensures text { IfOk result (λ text. whole_request text ≡ post_request to.now (request_text tree.now)) }
    ensures body { IfOk result (λ text. text.body.items ≡ request_text tree.now) }
{
    let mut body = Vec::with_capacity(alloc, last_len.saturating_add(last_len / 8))?;
    write(tree, &mut body)?;
    PostText::new(alloc, to, body)
}

/// What a state shows, twice.
fn shown_twice(state: &TargetState) -> Result<(Shown, Shown), Memory>
    ensures { IfOk result (λ pages. ShowsTwice state.now pages) }
{
    let shown = state.latest()?;
    let second = shown.copy()?;
    Ok((shown, second))
}

/// All that the posts of a visit whose event was taken, and its end, need. The text before was so long.
fn all_made(
    alloc: Global,
    to: &Address,
    taken: Taken,
    state: &TargetState,
    last_len: usize,
) -> Result<Prepared, Memory>
    ensures { IfOk result (IsOfTaken to.now taken state.now) }
{
    let text = body_request(alloc, to, &taken.tree, last_len)?;
    let (shown, second) = shown_twice(state)?;
    Ok(Prepared {
        reading: taken.reading,
        failed: taken.failed,
        fault: taken.fault,
        points: of_tree(&taken.tree),
        text,
        shown,
        second,
    })
}

/// Does all of a visit that can want memory: the scrape, the step, the texts, what is shown then, and the
/// room of the posts.
pub(crate) fn prepare<W: Wire>(
    alloc: Global,
    aim: &Aim,
    wire: &mut W,
    post: &mut W,
    state: &mut TargetState,
    fronts: &mut KnownFronts,
    earlier: Earlier,
) -> Result<Prepared, Memory>
    requires free { (W.state wire.old).stage ≡ stages.Idle }
    requires post_free { (W.state post.old).stage ≡ stages.Idle }
    requires ranges { AreInRange aim.now.settings }
    requires next { HasNextMoment state.old.moment }
    ensures { Prepares aim.now (W.state wire.old) (W.state wire.new) (W.state post.old) (W.state post.new) state.old state.new result }
{
    let Ok(taken) = take_event(alloc, aim, wire, state, fronts, earlier.due) else {
        return Err(AllocError);
    };
    let Ok(made) = all_made(alloc, &aim.to, taken, state, earlier.last_len) else {
        return Err(AllocError);
    };
    match post.ready(alloc, aim.settings.tries, made.text.len()) {
        Ok(()) => Ok(made),
        Err(AllocError) => Err(AllocError),
    }
}
