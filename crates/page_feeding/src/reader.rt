//! Pages that are fed in pieces (Prometheus text format 0.0.4, "Text-based format"; OpenMetrics 1.0, "Overall
//! Structure").
ghost use Rattle.std.specs.Prelude.{◌≡◌, ◌<◌, ◌≤◌, ◌+◌, ◌-◌, ◌^◌, ◌++◌, ◌↔◌, ℕ, List, [], ◌∷◌, length, min, IfOk, OnOk, IfErr, Some, None, Err, false, IsTrue, IsOk};
ghost use Rattle.page_model.specs.Written.{line_limit};
ghost use Rattle.line_scan.specs.LineReading.{setting_of};
ghost use Rattle.page_model.specs.declared.fault.PageFault.{PageFault as AnyFault};
ghost use Rattle.page_model.specs.declared.fault.PageFault.TheVariants.{Refused};
ghost use Rattle.page_model.specs.declared.format.Treatment.{Treatment as AnyTreatment};
ghost use Rattle.page_model.specs.declared.rule.Rule.TheVariants as rules;
ghost use Rattle.page_lines.specs.declared.Step.TheVariants.{Line, More, TooLong};

use crate::grammar::{Grammar, read_line};
use family_rules::Checker;
use label_sets::Memory;
use line_scan::{KnownFronts, LineRead, LineRoom};
use page_lines::{Last, Lines, Step};
use page_model::{Page, PageCounts, PageFault, Rule, Treatment};
use std::alloc::Global;
use std::marker::{Model, PhantomData};

/// A reader of one page in the format of a grammar: it is fed the bytes of the page in pieces of
/// any size, and at the end gives the page, or the first fault: the least line that breaks a rule, with the
/// least rule that it breaks.
///
/// # Example
///
/// ```rust
/// let mut reader = PageReader::<TextLines>::new(alloc, Treatment::Scraped, 200_000)?;
/// reader.feed(b"# TYPE x counter\ny")?;
/// let fault = PageFault::Refused { line: 3, rule: Rule::Split };
/// assert_eq!(rt; reader.feed(b" 1\nx 2\n"), Err(fault));
/// assert_eq!(rt; reader.finish().err(), Some(fault));
/// ```
#[derive(Drop)]
pub struct PageReader<G: Grammar> {
    alloc: Global,
    treatment: Treatment,
    lines: Lines,
    checker: Checker,
    room: LineRoom,
    /// The first refusal, or want of memory.
    stopped: Option<PageFault>,
    grammar: PhantomData<G>,
}

/// The lines of a page, all taken: the line past the last, and whether the page is empty or ends with a line feed.
#[derive(Clone, Copy)]
pub struct PageEnd {
    line: u32,
    clean: bool,
}

impl<G: Grammar> Model for PageReader<G> {
    ghost use Rattle.page_feeding.specs.PageFeeding.{Fed, FitsTogether};

    ghost Value = { Fed };

    ghost view = { λ p. record {
      treatment = p.treatment;
      lines = p.lines;
      checker = p.checker;
      stopped = p.stopped;
    } };

    ghost invariant = { λ p. FitsTogether G.format p.treatment p.lines p.checker };
}

/// The most bytes of a line.
fn line_limit(treatment: Treatment) -> u32
    ensures { result ≡ line_limit treatment }
{
    match treatment {
        Treatment::Scraped => 65_536,
        Treatment::Written => 262_144,
    }
}

impl<G: Grammar> PageReader<G> {
    ghost use Rattle.page_lines.specs.Feeding as feeding;
    ghost use Rattle.family_rules.specs.Checking as checking;
    ghost use Rattle.page_feeding.specs.PageFeeding.{Stands, GoesBy, HasStopped, TakesLine, TakesStep, TakesPiece, line_result, AtLast, EndAnswer, LastAnswer, Answers, CountAnswers};

    /// A reader that was fed nothing. `limit` is the most samples that the page may have.
    ///
    /// # Errors
    ///
    /// Want of memory.
    pub fn new(alloc: Global, treatment: Treatment, limit: u32) -> Result<PageReader<G>, Memory>
        ensures { IfOk result (Stands G.format treatment limit []) }
    {
        PageReader::with_fronts(alloc, treatment, limit, KnownFronts::none(alloc))
    }

    /// A reader that was fed nothing, for a page that mostly has the lines of an earlier page of the same target, in the
    /// same order: a sample line that begins with a front that is known is not read again up to its value, and shares its
    /// label set. So less time and memory is taken; the answers are those of any reader.
    ///
    /// # Errors
    ///
    /// Want of memory.
    pub fn with_fronts(
        alloc: Global,
        treatment: Treatment,
        limit: u32,
        fronts: KnownFronts,
    ) -> Result<PageReader<G>, Memory>
        ensures { IfOk result (Stands G.format treatment limit []) }
    {
        let lines = Lines::new(alloc, line_limit(treatment))?;
        let checker = Checker::new(alloc, G::format(), treatment, limit)?;
        Ok(PageReader::over(alloc, treatment, lines, checker, fronts))
    }

    /// A reader that was fed nothing, for a page that will be counted: it takes less memory, and `finish` more time.
    ///
    /// # Errors
    ///
    /// Want of memory.
    pub fn counting(
        alloc: Global,
        treatment: Treatment,
        limit: u32,
    ) -> Result<PageReader<G>, Memory>
        ensures { IfOk result (Stands G.format treatment limit []) }
    {
        let lines = Lines::new(alloc, line_limit(treatment))?;
        let checker = Checker::counting(alloc, G::format(), treatment, limit)?;
        let fronts = KnownFronts::none(alloc);
        Ok(PageReader::over(alloc, treatment, lines, checker, fronts))
    }

    /// A reader that was fed nothing, over lines that were fed nothing and a checker that has taken no line.
    fn over(
        alloc: Global,
        treatment: Treatment,
        lines: Lines,
        checker: Checker,
        fronts: KnownFronts,
    ) -> PageReader<G>
        requires most { lines.most ≡ line_limit treatment }
        requires fed { lines.fed ≡ 0 }
        requires stands { feeding.Stands [] lines }
        requires checker { GoesBy G.format treatment checker }
        ensures { (limit : ℕ) → checking.Stands (setting_of G.format treatment limit) checker [] → Stands G.format treatment limit [] result }
    {
        PageReader {
            alloc,
            treatment,
            lines,
            checker,
            room: LineRoom::new(alloc, fronts),
            stopped: None,
            grammar: PhantomData,
        }
    }

    /// Whether a piece may be fed: a page has fewer than 2^32 - 1 bytes.
    pub fn has_room(&self, piece: &[u8]) -> bool
        ensures { IsTrue result ↔ (self.now.lines.fed + length piece.now < 2 ^ 32 - 1) }
    {
        self.lines.has_room(piece)
    }

    /// Keeps what the reader answers from now on.
    fn stop(&mut self, fault: PageFault) -> PageFault
        ensures answer { result ≡ fault }
        ensures stopped { self.new ≡ record self.old { stopped = Some fault } }
    {
        self.stopped = Some(fault);
        fault
    }

    /// Reads the line that was told of last, and answers the refusal at it.
    fn read_line(&mut self) -> Result<(), PageFault>
        ensures { TakesLine G.format self.old self.new result }
    {
        let line = self.lines.number();
        match read_line::<G>(
            self.alloc,
            self.treatment,
            self.lines.line(),
            &mut self.room,
        ) {
            Ok(LineRead::Item(item)) => self.checker.item(line, item),
            Ok(LineRead::Refused(rule)) => Err(PageFault::Refused { line, rule }),
            Err(_) => Err(PageFault::Memory),
        }
    }

    /// What a step over the lines comes to that took so many bytes: its line is read, or it is too long.
    fn after_step(&mut self, step: Step, taken: usize) -> Result<usize, PageFault>
        ensures taken { IfOk result (λ used. used ≡ taken) }
        ensures more { step ≡ More → IsOk result × (self.new ≡ self.old) }
        ensures line { step ≡ Line → TakesLine G.format self.old self.new (line_result result) }
        ensures too_long { step ≡ TooLong → (self.new ≡ self.old) × (result ≡ Err (Refused self.old.lines.number rules.TooLong)) }
    {
        match step {
            Step::More => Ok(taken),
            Step::Line => match self.read_line() {
                Ok(()) => Ok(taken),
                Err(fault) => Err(fault),
            },
            Step::TooLong => Err(PageFault::Refused {
                line: self.lines.number(),
                rule: Rule::TooLong,
            }),
        }
    }

    /// Goes on up to the end of the next line, or of the piece, and answers how much of the piece that takes.
    fn take_step(&mut self, piece: &[u8]) -> Result<usize, PageFault>
        requires { self.old.lines.fed + length piece.now < 2 ^ 32 - 1 }
        ensures { TakesStep G.format self.old self.new piece.now result }
    {
        let mut taken = 0;
        let step = self.lines.feed(piece, &mut taken);
        self.after_step(step, taken as usize)
    }

    /// Goes on up to the end of the piece.
    fn take_piece(&mut self, piece: &[u8]) -> Result<(), PageFault>
        requires { self.old.lines.fed + length piece.now < 2 ^ 32 - 1 }
        ensures stopped { self.new.stopped ≡ self.old.stopped }
        ensures answer { TakesPiece G.format self.old self.new piece.now result }
    {
        let mut at = 0;
        // Each step takes bytes, so there are no more steps than bytes.
        for _ in 0..piece.len() {
            if at == piece.len() {
                return Ok(());
            }
            match self.take_step(&piece[at..]) {
                Ok(used) => at += used,
                Err(fault) => return Err(fault),
            }
        }
        Ok(())
    }

    /// Goes on with the page. A refusal is the first fault of the page, however it goes on, and is answered
    /// again from then on; so is want of memory.
    ///
    /// # Errors
    ///
    /// [`PageFault::Refused`] with the line and the rule of the page's first fault; and want of memory.
    pub fn feed(&mut self, piece: &[u8]) -> Result<(), PageFault>
        requires { self.old.lines.fed + length piece.now < 2 ^ 32 - 1 }
        ensures answer { TakesPiece G.format self.old self.new piece.now result }
        ensures stops { IfErr result (λ fault. HasStopped fault self.new) }
        ensures stopped { (fault : AnyFault) → HasStopped fault self.old → (result ≡ Err fault) × HasStopped fault self.new }
    {
        if let Some(fault) = self.stopped {
            return Err(fault);
        }
        match self.take_piece(piece) {
            Ok(()) => Ok(()),
            Err(fault) => Err(self.stop(fault)),
        }
    }

    /// The end behind the line that was told of last, which has no line feed.
    fn open_end(&self) -> PageEnd
        ensures line { result.line ≡ min (self.now.lines.number + 1) (2 ^ 32 - 1) }
        ensures clean { result.clean ≡ false }
    {
        PageEnd {
            line: self.lines.number().saturating_add(1),
            clean: false,
        }
    }

    /// Takes the last line, which has no line feed.
    fn read_last(&mut self) -> Result<PageEnd, PageFault>
        ensures { (t : AnyTreatment) (limit : ℕ) (fed : List ℕ) → AtLast G.format t limit fed self.old → EndAnswer G.format t limit fed self.new.checker result }
    {
        match self.read_line() {
            Ok(()) => {}
            Err(fault) => return Err(fault),
        }
        Ok(self.open_end())
    }

    /// Takes what is left of the lines. An earlier refusal, or want of memory, is answered again.
    fn read_rest(&mut self) -> Result<PageEnd, PageFault>
        ensures answer { (t : AnyTreatment) (limit : ℕ) (fed : List ℕ) → Stands G.format t limit fed self.old → EndAnswer G.format t limit fed self.new.checker result }
        ensures stopped { (fault : AnyFault) → HasStopped fault self.old → result ≡ Err fault }
    {
        if let Some(fault) = self.stopped {
            return Err(fault);
        }
        match self.lines.finish() {
            Last::Clean => Ok(PageEnd {
                line: self.lines.number(),
                clean: true,
            }),
            Last::Open => self.read_last(),
        }
    }

    /// The checker of the page, and the room of its lines.
    fn into_parts(self) -> (Checker, LineRoom)
        ensures { result.0 ≡ self.checker }
    {
        (self.checker, self.room)
    }

    /// Gives the page up, of which nothing is asked any more.
    pub fn leave(self) {}

    /// Takes what is left of the lines, and gives the checker that took them all. The fronts for the next page are left
    /// in `fronts`.
    fn end(self, fronts: &mut KnownFronts) -> Result<(Checker, PageEnd), PageFault>
        ensures answer { (t : AnyTreatment) (limit : ℕ) (fed : List ℕ) → Stands G.format t limit fed self → LastAnswer G.format t limit fed result }
        ensures stopped { (fault : AnyFault) → HasStopped fault self → result ≡ Err fault }
    {
        let mut page = self;
        let alloc = page.alloc;
        match page.read_rest() {
            Ok(end) => {
                let (checker, room) = page.into_parts();
                *fronts = room.into_fronts(alloc);
                Ok((checker, end))
            }
            Err(fault) => {
                page.leave();
                Err(fault)
            }
        }
    }

    /// Ends the page: its families and readings, or its first fault. An earlier refusal, or want of memory,
    /// is answered again.
    ///
    /// # Errors
    ///
    /// [`PageFault::Refused`] with the line and the rule of the page's first fault; and want of memory.
    pub fn finish(self) -> Result<Page, PageFault>
        ensures answer { (t : AnyTreatment) (limit : ℕ) (fed : List ℕ) → Stands G.format t limit fed self → Answers (setting_of G.format t limit) fed result }
        ensures stopped { (fault : AnyFault) → HasStopped fault self → result ≡ Err fault }
    {
        let mut fronts = KnownFronts::none(self.alloc);
        self.finish_with(&mut fronts)
    }

    /// Ends the page as `finish` does, and leaves its fronts for the next page of the same target in `fronts`.
    ///
    /// # Errors
    ///
    /// As `finish`.
    pub fn finish_with(self, fronts: &mut KnownFronts) -> Result<Page, PageFault>
        ensures answer { (t : AnyTreatment) (limit : ℕ) (fed : List ℕ) → Stands G.format t limit fed self → Answers (setting_of G.format t limit) fed result }
        ensures stopped { (fault : AnyFault) → HasStopped fault self → result ≡ Err fault }
    {
        match self.end(fronts) {
            Ok((checker, end)) => checker.close(end.line, end.clean),
            Err(fault) => Err(fault),
        }
    }

    /// Ends the page as `finish` does, and answers how many families and samples it has: no page is made.
    ///
    /// # Errors
    ///
    /// As `finish`.
    pub fn count(self) -> Result<PageCounts, PageFault>
        ensures answer { (t : AnyTreatment) (limit : ℕ) (fed : List ℕ) → Stands G.format t limit fed self → CountAnswers (setting_of G.format t limit) fed result }
        ensures stopped { (fault : AnyFault) → HasStopped fault self → result ≡ Err fault }
    {
        let mut fronts = KnownFronts::none(self.alloc);
        match self.end(&mut fronts) {
            Ok((checker, end)) => checker.count(end.line, end.clean),
            Err(fault) => Err(fault),
        }
    }
}
