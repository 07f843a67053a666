//! One scrape: what it does to a wire, and the event that it gives.
ghost use Rattle.std.specs.Prelude.{◌≡◌, ◌≢◌, ℕ, ◌≤◌, [], List, IfOk};
ghost use Rattle.bridge_ports.specs.declared.talk.Stage.TheVariants as stages;
ghost use Rattle.bridge_ports.specs.declared.talk.End.TheVariants as ends;
ghost use Rattle.http_talk.specs.Replies.{IsBodyLimit, HasOutcome};
ghost use Rattle.scrape_client.specs.Scraping.{IsSampleLimit, ScrapeAnswer};
ghost use Rattle.scrape_client.specs.Exchanges.{IsOutcomeAt};
ghost use Rattle.scrape_client.specs.PageReplies.{ReadsPage, most_of};

use crate::page_reply::PageReply;
use crate::talk::exchange;
use bridge_ports::{End, Target, Wire};
use http_talk::{Progress, get_text};
use label_sets::Memory;
use page_model::{Cause, Event, Outcome};
use page_reader::KnownFronts;
use std::alloc::{AllocError, Global};
use std::mem;

/// Makes one talk over the wire, that begins once the clock reads `due` at least, in nanoseconds since the
/// Unix epoch: it asks for the target's page, and reads until a verdict on the reply is there, or the talk
/// ends. `limit` is the most samples of the page, from 1 to 200,000, and `max_page` the most bytes of the
/// body, from 1,024 to 67,108,864. After want of memory no talk is under way.
///
/// # Errors
///
/// Want of memory alone: a scrape that fails is an event too.
///
/// # Example
///
/// ```rust
/// // `wire` answers `HTTP/1.1 200 OK` with a page of two lines, `x 1` and `x`.
/// let event = scrape(alloc, &mut wire, &target, 0, 1_000, 1_024)?;
/// let cause = Cause::Page { line: 2, rule: Rule::Syntax };
/// assert!(rt; matches!(event.outcome, Outcome::Failed(failed) if failed == cause));
/// ```
pub fn scrape<W: Wire>(
    alloc: Global,
    wire: &mut W,
    target: &Target,
    due: u64,
    limit: u32,
    max_page: u32,
) -> Result<Event, Memory>
    requires free { (W.state wire.old).stage ≡ stages.Idle }
    requires samples { IsSampleLimit limit }
    requires page { IsBodyLimit max_page }
    ensures { ScrapeAnswer limit max_page target.now.address
        (W.state wire.old) (W.state wire.new) result }
{
    let mut fronts = KnownFronts::none(alloc);
    scrape_again(alloc, wire, target, due, limit, max_page, &mut fronts)
}

/// As [`scrape`], of a target that may have been scraped before: lines that begin as those of the page before are read
/// in less time, and share their label sets with it. The event is the same. Where a page was read whole, its fronts are
/// left in `fronts`; else there are none.
///
/// # Errors
///
/// Want of memory alone, as there.
pub fn scrape_again<W: Wire>(
    alloc: Global,
    wire: &mut W,
    target: &Target,
    due: u64,
    limit: u32,
    max_page: u32,
    fronts: &mut KnownFronts,
) -> Result<Event, Memory>
    requires free { (W.state wire.old).stage ≡ stages.Idle }
    requires samples { IsSampleLimit limit }
    requires page { IsBodyLimit max_page }
    ensures { ScrapeAnswer limit max_page target.now.address
        (W.state wire.old) (W.state wire.new) result }
{
    let Ok(text) = get_text(alloc, target.address()) else {
        return Err(AllocError);
    };
    let Ok(()) = wire.ready(alloc, 1, text.len() as u64) else {
        return Err(AllocError);
    };
    let known = mem::replace(fronts, KnownFronts::new(alloc));
    let Ok(reply) = PageReply::new(alloc, limit, max_page, known) else {
        return Err(AllocError);
    };
    let reading = wire.begin(due);
    match exchange(wire, text.as_slice(), reply, fronts) {
        Ok(outcome) => Ok(Event { reading, outcome }),
        Err(AllocError) => Err(AllocError),
    }
}

/// What a talk comes to that got these bytes and ended so, by itself; it was not left. `limit` is the most
/// samples of a page, and `max_page` the most bytes of a body, as in [`scrape`].
///
/// # Errors
///
/// Want of memory alone: a talk without a page is an outcome too.
pub fn outcome(
    alloc: Global,
    got: &[u8],
    end: End,
    limit: u32,
    max_page: u32,
) -> Result<Outcome, Memory>
    requires samples { IsSampleLimit limit }
    requires page { IsBodyLimit max_page }
    requires ended { end ≢ ends.Left }
    ensures { IfOk result (λ outcome. (at : ℕ) (sent : List ℕ) → HasOutcome limit max_page
        (record { at = at; sent = sent; got = got.now; end = end }) outcome) }
{
    let mut fronts = KnownFronts::none(alloc);
    match PageReply::new(alloc, limit, max_page, KnownFronts::none(alloc)) {
        Ok(reply) => outcome_at(reply, got, end, &mut fronts),
        Err(AllocError) => Err(AllocError),
    }
}

/// What a reply of which nothing came comes to, once it is fed these bytes and the talk ends so.
fn outcome_at(
    reply: PageReply,
    got: &[u8],
    end: End,
    fronts: &mut KnownFronts,
) -> Result<Outcome, Memory>
    requires fresh { ReadsPage reply.limit [] reply }
    requires ended { end ≢ ends.Left }
    ensures { IfOk result (IsOutcomeAt reply.limit (most_of reply) got.now end) }
{
    let mut reply = reply;
    match reply.feed_all(got) {
        Ok(Progress::Whole) => reply.finish(fronts),
        Ok(Progress::More) => match end {
            End::ConnectFailed => Ok(reply.fail(Cause::Connect)),
            End::WriteFailed => Ok(reply.fail(Cause::Write)),
            End::ReadFailed => Ok(reply.fail(Cause::Read)),
            End::Ended | End::Left => reply.finish(fronts),
        },
        Err(fault) => reply.refuse(fault),
    }
}
