//! The page on an input.
ghost use Rattle.std.specs.Prelude.{◌≡◌, ◌++◌, [], ℕ, List, length, IfOk, IfErr};
ghost use Rattle.page_model.specs.declared.format.Format.{Format as AnyFormat};
ghost use Rattle.page_model.specs.declared.page.Page.{Page as AnyPage};
ghost use Rattle.page_model.specs.declared.format.Treatment.TheVariants.{Scraped};
ghost use Rattle.page_feeding.specs.PageFeeding.{Answers, CountAnswers};
ghost use Rattle.page_reader.specs.AnyReading.{format_of, StandsIn};
ghost use Rattle.program_words.specs.Limits.{most_page, most_samples};
ghost use Rattle.program_words.specs.declared.stop.Stop.TheVariants.{Memory};
ghost use Rattle.page_commands.specs.PageAnswers.{page_setting, IsPageAnswer};
ghost use Rattle.page_commands.specs.PageInputs.{IsFed, HasRoomFor, IsFedWhole, HoldsPage, HoldsCounts};
ghost use Rattle.program_words.specs.StopInputs.{Leaves};
ghost use Rattle.program_words.specs.StopAnswers.{StopsAs};

use bridge_ports::{BLOCK_BYTES, Failed, Source};
use page_model::{Format, Page, PageCounts, PageFault, Rule, Treatment};
use page_reader::AnyReader;
use program_words::Stop;
use std::alloc::Global;

/// The most bytes of a page: 64 MiB.
const MOST_PAGE_BYTES: usize = 1 << 26;

/// The most samples of a page.
const MOST_SAMPLES: u32 = 200_000;

/// A page that is fed while it is read.
pub(crate) enum FedPage {
    /// It has no fault yet.
    Reading(AnyReader),
    /// It has this first fault, however it goes on.
    Faulty { line: u32, rule: Rule },
}

impl FedPage {
    /// Takes the next bytes of the page.
    fn take(self, piece: &[u8]) -> Result<FedPage, Stop>
        requires { HasRoomFor (length piece.now) self }
        ensures fed { (format : AnyFormat) (bytes : List ℕ) → IsFed format bytes self → IfOk result (IsFed format (bytes ++ piece.now)) }
        ensures memory { IfErr result (λ stop. stop ≡ Memory) }
    {
        match self {
            FedPage::Reading(mut page) => match page.feed(piece) {
                Ok(()) => Ok(FedPage::Reading(page)),
                Err(PageFault::Refused { line, rule }) => {
                    page.leave();
                    Ok(FedPage::Faulty { line, rule })
                }
                Err(PageFault::Memory) => {
                    page.leave();
                    Err(Stop::Memory)
                }
            },
            FedPage::Faulty { line, rule } => Ok(FedPage::Faulty { line, rule }),
        }
    }

    /// Gives the page up, of which nothing is asked any more.
    fn leave(self) {
        match self {
            FedPage::Reading(page) => page.leave(),
            FedPage::Faulty { line: _, rule: _ } => {}
        }
    }

    /// The page, or its first fault, once all of its bytes were taken.
    fn finish(self) -> Result<Page, PageFault>
        ensures { (format : AnyFormat) (bytes : List ℕ) → IsFed format bytes self → Answers (page_setting format) bytes result }
    {
        match self {
            FedPage::Reading(page) => page.finish(),
            FedPage::Faulty { line, rule } => Err(PageFault::Refused { line, rule }),
        }
    }

    /// How many families and samples the page has, or its first fault, once all of its bytes were taken.
    fn count(self) -> Result<PageCounts, PageFault>
        ensures { (format : AnyFormat) (bytes : List ℕ) → IsFed format bytes self → CountAnswers (page_setting format) bytes result }
    {
        match self {
            FedPage::Reading(page) => page.count(),
            FedPage::Faulty { line, rule } => Err(PageFault::Refused { line, rule }),
        }
    }
}

/// Reads an input to its end, or until it is too long, and feeds its page. It reads on behind a fault,
/// since a failed read and too many bytes go before that.
fn read_page<I: Source>(input: &mut I, reader: AnyReader) -> Result<FedPage, Stop>
    requires { StandsIn (format_of reader) Scraped most_samples [] reader }
    ensures fed { IfOk result (IsFedWhole (format_of reader) (I.left input.old)) }
    ensures stop { (format : AnyFormat) (text_of : AnyPage → List ℕ) → IfErr result (StopsAs (IsPageAnswer (page_setting format) text_of) (I.left input.old)) }
    ensures input { Leaves most_page (I.left input.old) (I.left input.new)
        (I.read_faults input.old) (I.read_faults input.new) result }
{
    let mut page = FedPage::Reading(reader);
    let mut taken = 0usize;
    let mut block = [0u8; BLOCK_BYTES];
    loop {
        let count = match input.read(&mut block) {
            Ok(count) => count as usize,
            Err(Failed) => {
                page.leave();
                return Err(Stop::Read);
            }
        };
        if count == 0 {
            return Ok(page);
        }
        if count > MOST_PAGE_BYTES - taken {
            page.leave();
            return Err(Stop::TooLong);
        }
        taken += count;
        page = page.take(&block[..count])?;
    }
}

/// The page of this format that an input holds.
pub(crate) fn whole_page<I: Source>(
    alloc: Global,
    format: Format,
    input: &mut I,
) -> Result<Page, Stop>
    ensures page { IfOk result (HoldsPage format (I.left input.old)) }
    ensures stop { (text_of : AnyPage → List ℕ) → IfErr result (StopsAs (IsPageAnswer (page_setting format) text_of) (I.left input.old)) }
    ensures input { Leaves most_page (I.left input.old) (I.left input.new)
        (I.read_faults input.old) (I.read_faults input.new) result }
{
    let reader = AnyReader::new(alloc, format, Treatment::Scraped, MOST_SAMPLES)?;
    let page = read_page(input, reader)?;
    Ok(page.finish()?)
}

/// How many families and samples the page of this format has that an input holds. No page is made.
pub(crate) fn page_counts<I: Source>(
    alloc: Global,
    format: Format,
    input: &mut I,
) -> Result<PageCounts, Stop>
    ensures counts { IfOk result (HoldsCounts format (I.left input.old)) }
    ensures stop { (text_of : AnyPage → List ℕ) → IfErr result (StopsAs (IsPageAnswer (page_setting format) text_of) (I.left input.old)) }
    ensures input { Leaves most_page (I.left input.old) (I.left input.new)
        (I.read_faults input.old) (I.read_faults input.new) result }
{
    let reader = AnyReader::counting(alloc, format, Treatment::Scraped, MOST_SAMPLES)?;
    let page = read_page(input, reader)?;
    Ok(page.count()?)
}
