//! The reply of a scrape, whose page is read as it comes.
ghost use Rattle.std.specs.Prelude.{◌≡◌, ◌<◌, ◌≤◌, ◌^◌, ◌++◌, ℕ, List, [], length, IfOk, IfErr};
ghost use Rattle.bridge_ports.specs.declared.talk.End.TheVariants as ends;
ghost use Rattle.page_model.specs.declared.event.Outcome.TheVariants.{Failed};
ghost use Rattle.http_talk.specs.declared.fault.ReplyFault.TheVariants.{Memory as WantsMemory};
ghost use Rattle.http_talk.specs.Replies.{Judged, IsJudged, IsBodyLimit, IsOutcomeOf};
ghost use Rattle.scrape_client.specs.PageReplies.{ReadsPage, HasRead, ReadStepAnswer, ReadAnswer, IsFaultOutcome, IsPeerOutcome, most_of};

use crate::page_so_far::PageSoFar;
use crate::turn::Turn;
use http_talk::{Flow, Progress, ReplyFault, Stream};
use label_sets::Memory;
use page_model::{Cause, Outcome};
use page_reader::KnownFronts;
use std::alloc::{AllocError, Global};
use std::mem;

/// The reply of a scrape, whose page is read as it comes: of what it was fed it keeps the front of a head, and what
/// the reader of the page keeps, the readings and one line.
pub(crate) struct PageReply {
    pub(crate) alloc: Global,
    /// The most samples of the page.
    pub(crate) limit: u32,
    /// The fronts of the page before, until its reader has them.
    pub(crate) fronts: KnownFronts,
    pub(crate) stream: Stream,
    pub(crate) page: PageSoFar,
}

/// The most bytes that a stream is fed at once.
const MOST_BLOCK: usize = 1 << 30;

/// What a reply with this fault comes to.
fn fault_outcome(fault: ReplyFault) -> Result<Outcome, Memory>
    ensures outcome { IfOk result (IsFaultOutcome fault) }
    ensures memory { IfErr result (λ wanting. fault ≡ WantsMemory) }
{
    match fault {
        ReplyFault::Head => Ok(Outcome::Failed(Cause::Head)),
        ReplyFault::Status(status) => Ok(Outcome::Failed(Cause::Status(status))),
        ReplyFault::Encoding => Ok(Outcome::Failed(Cause::Encoding)),
        ReplyFault::MediaType => Ok(Outcome::Failed(Cause::MediaType)),
        ReplyFault::TooLong => Ok(Outcome::Failed(Cause::TooLong)),
        ReplyFault::Chunk => Ok(Outcome::Failed(Cause::Chunk)),
        ReplyFault::Truncated => Ok(Outcome::Failed(Cause::Truncated)),
        ReplyFault::Memory => Err(AllocError),
    }
}

impl PageReply {
    /// A reply of which nothing came, of a body of at most `max_page` bytes.
    pub(crate) fn new(
        alloc: Global,
        limit: u32,
        max_page: u32,
        fronts: KnownFronts,
    ) -> Result<PageReply, Memory>
        requires { IsBodyLimit max_page }
        ensures { IfOk result (λ reply. (most_of reply ≡ max_page) × ReadsPage limit [] reply) }
    {
        let stream = Stream::new(alloc, max_page)?;
        Ok(PageReply {
            alloc,
            limit,
            fronts,
            stream,
            page: PageSoFar::Unbegun,
        })
    }

    /// Goes on with the reply up to the next thing that its stream tells, and hands that to the page.
    fn turn(&mut self, piece: &[u8]) -> Result<Turn, ReplyFault>
        requires small { length piece.now < 2 ^ 32 }
        requires reads { HasRead self.old }
        ensures same { most_of self.new ≡ most_of self.old }
        ensures answer { (limit : ℕ) (fed : List ℕ) → ReadsPage limit fed self.old
            → ReadStepAnswer limit fed piece.now self.old self.new result }
    {
        let mut taken = 0u32;
        match self.stream.feed(piece, &mut taken) {
            Ok(Flow::More) => Ok(Turn::Over(Progress::More)),
            Ok(Flow::Page(format)) => {
                let fronts = mem::replace(&mut self.fronts, KnownFronts::none(self.alloc));
                let page = PageSoFar::begin(self.alloc, format, self.limit, fronts);
                mem::replace(&mut self.page, page).leave();
                Ok(Turn::On { taken })
            }
            Ok(Flow::Body { from, to }) => {
                self.page.take(&piece[from as usize..to as usize]);
                Ok(Turn::On { taken })
            }
            Ok(Flow::Whole) => Ok(Turn::Over(Progress::Whole)),
            Err(fault) => Err(fault),
        }
    }

    /// Goes on with the reply.
    pub(crate) fn feed(&mut self, block: &[u8]) -> Result<Progress, ReplyFault>
        requires small { length block.now < 2 ^ 32 }
        requires reads { HasRead self.old }
        ensures same { most_of self.new ≡ most_of self.old }
        ensures answer { (limit : ℕ) (fed : List ℕ) → ReadsPage limit fed self.old
            → ReadAnswer limit (fed ++ block.now) self.new result }
    {
        let mut at = 0;
        loop {
            match self.turn(&block[at..]) {
                Ok(Turn::On { taken }) => at += taken as usize,
                Ok(Turn::Over(progress)) => return Ok(progress),
                Err(fault) => return Err(fault),
            }
        }
    }

    /// Goes on with the reply, block by block.
    pub(crate) fn feed_all(&mut self, piece: &[u8]) -> Result<Progress, ReplyFault>
        requires { HasRead self.old }
        ensures same { most_of self.new ≡ most_of self.old }
        ensures answer { (limit : ℕ) (fed : List ℕ) → ReadsPage limit fed self.old
            → ReadAnswer limit (fed ++ piece.now) self.new result }
    {
        let mut at = 0;
        while piece.len() - at > MOST_BLOCK {
            let end = at + MOST_BLOCK;
            match self.feed(&piece[at..end]) {
                Ok(_) => at = end,
                Err(fault) => return Err(fault),
            }
        }
        self.feed(&piece[at..])
    }

    /// What the reply comes to, of which no more bytes come. The fronts for the next page are left in `fronts`.
    pub(crate) fn finish(self, fronts: &mut KnownFronts) -> Result<Outcome, Memory>
        requires { HasRead self }
        ensures outcome { (limit : ℕ) (fed : List ℕ) → ReadsPage limit fed self → (known : Judged) → IsJudged (most_of self) fed known
            → IfOk result (IsOutcomeOf ends.Ended limit known) }
        ensures peer { IfOk result IsPeerOutcome }
    {
        let PageReply {
            alloc: _,
            limit: _,
            fronts: unused,
            stream,
            page,
        } = self;
        drop(unused);
        match stream.finish() {
            Ok(()) => page.end(fronts),
            Err(fault) => {
                page.leave();
                fault_outcome(fault)
            }
        }
    }

    /// What the reply comes to that has this fault.
    pub(crate) fn refuse(self, fault: ReplyFault) -> Result<Outcome, Memory>
        ensures { IfOk result (IsFaultOutcome fault) }
    {
        let outcome = fault_outcome(fault);
        self.leave();
        outcome
    }

    /// What a talk comes to that failed for this cause.
    pub(crate) fn fail(self, cause: Cause) -> Outcome
        ensures { result ≡ Failed cause }
    {
        self.leave();
        Outcome::Failed(cause)
    }

    /// Gives the reply up, of which nothing is asked any more.
    fn leave(self) {
        let PageReply {
            alloc: _,
            limit: _,
            fronts,
            stream,
            page,
        } = self;
        drop(fronts);
        drop(stream);
        page.leave();
    }
}
