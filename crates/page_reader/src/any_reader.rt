//! Pages of either format that are fed in pieces (Prometheus text format 0.0.4, "Text-based format"; OpenMetrics 1.0,
//! "Overall Structure").
ghost use Rattle.std.specs.Prelude.{◌≡◌, ◌<◌, ◌+◌, ◌-◌, ◌^◌, ◌↔◌, ℕ, List, [], length, IfOk, IfErr, Err, IsTrue};
ghost use Rattle.page_model.specs.declared.fault.PageFault.{PageFault as AnyFault};
ghost use Rattle.page_model.specs.declared.format.Format.{Format as AnyFormat};
ghost use Rattle.page_model.specs.declared.format.Treatment.{Treatment as AnyTreatment};
ghost use Rattle.line_scan.specs.LineReading.{setting_of};
ghost use Rattle.page_feeding.specs.PageFeeding.{HasStopped, Answers, CountAnswers};
ghost use Rattle.page_reader.specs.AnyReading.{fed_of, StandsIn, TakesPieceIn};

use label_sets::Memory;
use line_scan::KnownFronts;
use openmetrics_grammar::OpenPage;
use page_model::{Format, Page, PageCounts, PageFault, Treatment};
use std::alloc::Global;
use text_grammar::TextPage;

/// A reader of one page of either format: it is fed the bytes of the page in pieces of any size, and at the end gives
/// the page, or the first fault, as the reader of that format does.
///
/// It can't be dropped: `finish`, `count` or `leave` ends it. So no crate that has one proves how its parts are dropped.
///
/// # Example
///
/// ```rust
/// // In the text format `# EOF` is a comment, and a counter is named as its sample is.
/// let mut reader = AnyReader::counting(alloc, Format::OpenMetrics, Treatment::Scraped, 200_000)?;
/// assert_eq!(rt; reader.feed(b"# TYPE x counter\nx_to"), Ok(()));
/// assert_eq!(rt; reader.feed(b"tal 1\n# EOF\n"), Ok(()));
/// let counts = PageCounts { families: 1, samples: 1 };
/// assert_eq!(rt; reader.count(), Ok(counts));
/// ```
pub enum AnyReader {
    /// It reads the Prometheus text format 0.0.4.
    Text(TextPage),
    /// It reads OpenMetrics 1.0.
    OpenMetrics(OpenPage),
}

impl AnyReader {
    /// A reader that was fed nothing. `limit` is the most samples that the page may have.
    ///
    /// # Errors
    ///
    /// Want of memory.
    pub fn new(
        alloc: Global,
        format: Format,
        treatment: Treatment,
        limit: u32,
    ) -> Result<AnyReader, Memory>
        ensures { IfOk result (StandsIn format treatment limit []) }
    {
        AnyReader::with_fronts(alloc, format, treatment, limit, KnownFronts::none(alloc))
    }

    /// A reader that was fed nothing, for a page that mostly has the lines of an earlier page of the same target, in the
    /// same order: a sample line that begins with a front that is known is not read again up to its value, and shares its
    /// label set. So less time and memory is taken; the answers are those of any reader.
    ///
    /// # Errors
    ///
    /// Want of memory.
    pub fn with_fronts(
        alloc: Global,
        format: Format,
        treatment: Treatment,
        limit: u32,
        fronts: KnownFronts,
    ) -> Result<AnyReader, Memory>
        ensures { IfOk result (StandsIn format treatment limit []) }
    {
        match format {
            Format::Text => {
                let page = TextPage::with_fronts(alloc, treatment, limit, fronts)?;
                Ok(AnyReader::Text(page))
            }
            Format::OpenMetrics => {
                let page = OpenPage::with_fronts(alloc, treatment, limit, fronts)?;
                Ok(AnyReader::OpenMetrics(page))
            }
        }
    }

    /// A reader that was fed nothing, for a page that will be counted: it takes less memory, and `finish` more time.
    ///
    /// # Errors
    ///
    /// Want of memory.
    pub fn counting(
        alloc: Global,
        format: Format,
        treatment: Treatment,
        limit: u32,
    ) -> Result<AnyReader, Memory>
        ensures { IfOk result (StandsIn format treatment limit []) }
    {
        match format {
            Format::Text => {
                let counted = TextPage::counting(alloc, treatment, limit)?;
                Ok(AnyReader::Text(counted))
            }
            Format::OpenMetrics => {
                let counted = OpenPage::counting(alloc, treatment, limit)?;
                Ok(AnyReader::OpenMetrics(counted))
            }
        }
    }

    /// Whether a piece may be fed: a page has fewer than 2^32 - 1 bytes.
    pub fn has_room(&self, piece: &[u8]) -> bool
        ensures { IsTrue result ↔ ((fed_of self.now).lines.fed + length piece.now < 2 ^ 32 - 1) }
    {
        match self {
            AnyReader::Text(page) => page.has_room(piece),
            AnyReader::OpenMetrics(page) => page.has_room(piece),
        }
    }

    /// Goes on with the page. A refusal is the first fault of the page, however it goes on, and is answered
    /// again from then on; so is want of memory.
    ///
    /// # Errors
    ///
    /// [`PageFault::Refused`] with the line and the rule of the page's first fault; and want of memory.
    pub fn feed(&mut self, piece: &[u8]) -> Result<(), PageFault>
        requires { (fed_of self.old).lines.fed + length piece.now < 2 ^ 32 - 1 }
        ensures answer { TakesPieceIn self.old self.new piece.now result }
        ensures stops { IfErr result (λ fault. HasStopped fault (fed_of self.new)) }
        ensures stopped { (fault : AnyFault) → HasStopped fault (fed_of self.old) → (result ≡ Err fault) × HasStopped fault (fed_of self.new) }
    {
        match self {
            AnyReader::Text(page) => page.feed(piece),
            AnyReader::OpenMetrics(page) => page.feed(piece),
        }
    }

    /// Gives the page up, of which nothing is asked any more.
    pub fn leave(self) {
        match self {
            AnyReader::Text(page) => page.leave(),
            AnyReader::OpenMetrics(page) => page.leave(),
        }
    }

    /// Ends the page: its families and readings, or its first fault. An earlier refusal, or want of memory,
    /// is answered again.
    ///
    /// # Errors
    ///
    /// [`PageFault::Refused`] with the line and the rule of the page's first fault; and want of memory.
    pub fn finish(self) -> Result<Page, PageFault>
        ensures answer { (f : AnyFormat) (t : AnyTreatment) (limit : ℕ) (fed : List ℕ) → StandsIn f t limit fed self → Answers (setting_of f t limit) fed result }
        ensures stopped { (fault : AnyFault) → HasStopped fault (fed_of self) → result ≡ Err fault }
    {
        match self {
            AnyReader::Text(page) => page.finish(),
            AnyReader::OpenMetrics(page) => page.finish(),
        }
    }

    /// Ends the page as `finish` does, and leaves its fronts for the next page of the same target in `fronts`.
    ///
    /// # Errors
    ///
    /// As `finish`.
    pub fn finish_with(self, fronts: &mut KnownFronts) -> Result<Page, PageFault>
        ensures answer { (f : AnyFormat) (t : AnyTreatment) (limit : ℕ) (fed : List ℕ) → StandsIn f t limit fed self → Answers (setting_of f t limit) fed result }
        ensures stopped { (fault : AnyFault) → HasStopped fault (fed_of self) → result ≡ Err fault }
    {
        match self {
            AnyReader::Text(page) => page.finish_with(fronts),
            AnyReader::OpenMetrics(page) => page.finish_with(fronts),
        }
    }

    /// Ends the page as `finish` does, and answers how many families and samples it has: no page is made.
    ///
    /// # Errors
    ///
    /// As `finish`.
    pub fn count(self) -> Result<PageCounts, PageFault>
        ensures answer { (f : AnyFormat) (t : AnyTreatment) (limit : ℕ) (fed : List ℕ) → StandsIn f t limit fed self → CountAnswers (setting_of f t limit) fed result }
        ensures stopped { (fault : AnyFault) → HasStopped fault (fed_of self) → result ≡ Err fault }
    {
        match self {
            AnyReader::Text(page) => page.count(),
            AnyReader::OpenMetrics(page) => page.count(),
        }
    }
}
