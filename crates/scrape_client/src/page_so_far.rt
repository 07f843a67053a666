//! What was read of a page while its reply comes.
ghost use Rattle.std.specs.Prelude.{◌++◌, ℕ, List, [], length, IfOk, IfErr};
ghost use Rattle.page_model.specs.declared.format.Format.{Format as AnyFormat};
ghost use Rattle.page_model.specs.declared.format.Treatment.TheVariants.{Scraped};
ghost use Rattle.page_feeding.specs.PageFeeding.{Answers};
ghost use Rattle.page_reader.specs.AnyReading.{StandsIn};
ghost use Rattle.line_scan.specs.LineReading.{setting_of};
ghost use Rattle.http_talk.specs.Replies.{IsPageOutcome};
ghost use Rattle.scrape_client.specs.PageReplies.{PageHasRead, PageHasRoom, IsPageBegun, FeedsOn};

use label_sets::Memory;
use page_model::{Cause, Format, Outcome, Page, PageFault, Treatment};
use page_reader::{AnyReader, KnownFronts};
use std::alloc::{AllocError, Global};
use std::mem;

/// What was read of a page so far.
pub(crate) enum PageSoFar {
    /// The head of its reply is not there yet.
    Unbegun,
    /// It has no fault yet.
    Reading(AnyReader),
    /// It has this first fault, however it goes on, or memory was wanted. Nothing of it is kept.
    Stopped(PageFault),
}

impl PageSoFar {
    /// A page in this format of which no byte came. `limit` is the most samples that it may have.
    pub(crate) fn begin(alloc: Global, format: Format, limit: u32, fronts: KnownFronts) -> PageSoFar
        ensures { PageHasRead limit format [] result }
    {
        match AnyReader::with_fronts(alloc, format, Treatment::Scraped, limit, fronts) {
            Ok(reader) => PageSoFar::Reading(reader),
            Err(AllocError) => PageSoFar::Stopped(PageFault::Memory),
        }
    }

    /// Feeds the next bytes to the reader, where there is one.
    fn feed(&mut self, piece: &[u8]) -> Result<(), PageFault>
        requires { PageHasRoom (length piece.now) self.old }
        ensures { (limit : ℕ) (format : AnyFormat) (bytes : List ℕ) → PageHasRead limit format bytes self.old
            → FeedsOn limit format bytes piece.now self.new result }
    {
        match self {
            PageSoFar::Unbegun => Ok(()),
            PageSoFar::Reading(reader) => reader.feed(piece),
            PageSoFar::Stopped(_) => Ok(()),
        }
    }

    /// Takes the next bytes of the page. Behind its first fault they are let go.
    pub(crate) fn take(&mut self, piece: &[u8])
        requires { PageHasRoom (length piece.now) self.old }
        ensures { (limit : ℕ) (format : AnyFormat) (bytes : List ℕ) → PageHasRead limit format bytes self.old
            → PageHasRead limit format (bytes ++ piece.now) self.new }
    {
        match self.feed(piece) {
            Ok(()) => {}
            Err(fault) => mem::replace(self, PageSoFar::Stopped(fault)).leave(),
        }
    }

    /// The page, or its first fault, once all of its bytes were taken. The fronts for the next page are left in `fronts`.
    fn finish(self, fronts: &mut KnownFronts) -> Result<Page, PageFault>
        requires { IsPageBegun self }
        ensures { (limit : ℕ) (format : AnyFormat) (bytes : List ℕ) → PageHasRead limit format bytes self
            → Answers (setting_of format Scraped limit) bytes result }
    {
        match self {
            PageSoFar::Unbegun => unreachable!(),
            PageSoFar::Reading(reader) => reader.finish_with(fronts),
            PageSoFar::Stopped(fault) => Err(fault),
        }
    }

    /// What the page comes to, once all of its bytes were taken. The fronts for the next page are left in `fronts`.
    pub(crate) fn end(self, fronts: &mut KnownFronts) -> Result<Outcome, Memory>
        requires { IsPageBegun self }
        ensures { (limit : ℕ) (format : AnyFormat) (bytes : List ℕ) → PageHasRead limit format bytes self
            → IfOk result (IsPageOutcome limit format bytes) }
    {
        match self.finish(fronts) {
            Ok(page) => Ok(Outcome::Page(page)),
            Err(PageFault::Refused { line, rule }) => {
                let cause = Cause::Page { line, rule };
                Ok(Outcome::Failed(cause))
            }
            Err(PageFault::Memory) => Err(AllocError),
        }
    }

    /// Gives the page up, of which nothing is asked any more.
    pub(crate) fn leave(self) {
        match self {
            PageSoFar::Unbegun => {}
            PageSoFar::Reading(reader) => reader.leave(),
            PageSoFar::Stopped(_) => {}
        }
    }
}
