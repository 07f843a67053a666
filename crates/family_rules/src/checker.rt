//! The checker of items: items in, and the first fault, the parts of a page or its counts out.
ghost use Rattle.std.specs.Prelude.{◌≡◌, List, [], ◌∷◌, Err, IfErr, Some, IfOk, OnOk};
ghost use Rattle.page_model.specs.Written.{Setting};
ghost use Rattle.page_model.specs.declared.item.Item.{Item};
ghost use Rattle.page_model.specs.declared.item.Item.TheVariants as items;
ghost use Rattle.page_model.specs.declared.fault.PageFault.{PageFault};
ghost use Rattle.page_model.specs.Faults.{item_fault, end_fault};
ghost use Rattle.page_model.specs.Readings.{page_of};
ghost use Rattle.page_model.specs.Counts.{counts_of};

mod places;
mod sample_lines;
mod samples;

use crate::family::{Current, Descriptor};
use crate::group_keys::GroupKeys;
use crate::keyed_values::KeyedValues;
use crate::left::LeftFamilies;
use crate::pages::families_in;
use crate::runs::GroupRuns;
use label_sets::{List, Memory};
use page_model::{Family, Format, Item, PageCounts, PageFault, Rule, Treatment};
use places::put_left;
use std::alloc::Global;
use std::marker::Model;

/// Checks the rules of a page in one pass over its items and builds the parts of its page. It takes any items, also
/// such as no line spells, so it can't know that the page is right.
#[derive(Drop)]
pub(crate) struct ItemChecker {
    alloc: Global,
    format: Format,
    treatment: Treatment,
    limit: u32,
    left: LeftFamilies,
    current: Option<Current>,
    /// The groups of the current family, where the format has rule 12.
    runs: GroupRuns,
    /// Which keys tell that a group of the current family is new.
    group_keys: GroupKeys,
    seen: KeyedValues,
    samples: u32,
    /// A line `# EOF` was taken.
    ended: bool,
    /// The first refusal, or want of memory.
    stopped: Option<PageFault>,
}

impl Model for ItemChecker {
    ghost use Rattle.family_rules.specs.Checking.{Checking};
    ghost use Rattle.family_rules.specs.GroupKeys.{TellTrue};

    ghost Value = { Checking };

    ghost view = { λ c. record {
      setting = record { format = c.format; treatment = c.treatment; limit = c.limit };
      left = c.left;
      current = c.current;
      runs = c.runs;
      seen = c.seen;
      samples = c.samples;
      ended = c.ended;
      stopped = c.stopped;
    } };

    ghost invariant = { λ c. TellTrue c.group_keys c.current c.seen };
}

impl ItemChecker {
    ghost use Rattle.family_rules.specs.Checking.{Stands, Answers, TellsEnd, HasStopped};
    ghost use Rattle.family_rules.specs.Steps.{Takes, TakesAny, has_ended, end_stop, with_left};
    ghost use Rattle.family_rules.specs.Made.{ArePartsOf, page_at};

    /// A checker that has taken no line, and will make a page. `limit` is the most samples that the page may have.
    ///
    /// # Errors
    ///
    /// Want of memory.
    pub fn new(
        alloc: Global,
        format: Format,
        treatment: Treatment,
        limit: u32,
    ) -> Result<ItemChecker, Memory>
        ensures { IfOk result (λ c. Stands (record { format = format; treatment = treatment; limit = limit }) c []) }
    {
        Ok(ItemChecker::over(alloc, format, treatment, limit, true))
    }

    /// A checker that has taken no line, for a page that will be counted: it takes less memory, and `close` more time.
    ///
    /// # Errors
    ///
    /// Want of memory.
    pub fn counting(
        alloc: Global,
        format: Format,
        treatment: Treatment,
        limit: u32,
    ) -> Result<ItemChecker, Memory>
        ensures { IfOk result (λ c. Stands (record { format = format; treatment = treatment; limit = limit }) c []) }
    {
        Ok(ItemChecker::over(alloc, format, treatment, limit, false))
    }

    /// A checker that has taken no line.
    fn over(
        alloc: Global,
        format: Format,
        treatment: Treatment,
        limit: u32,
        keeps: bool,
    ) -> ItemChecker
        ensures { Stands (record { format = format; treatment = treatment; limit = limit }) result [] }
    {
        ItemChecker {
            alloc,
            format,
            treatment,
            limit,
            left: LeftFamilies::new(alloc),
            current: None,
            runs: GroupRuns::new(alloc),
            group_keys: GroupKeys::NoGroups,
            seen: KeyedValues::new(alloc, keeps),
            samples: 0,
            ended: false,
            stopped: None,
        }
    }

    /// Rule 7: the page has ended.
    fn has_ended(&self) -> bool
        ensures { result ≡ has_ended self.now }
    {
        match self.format {
            Format::Text => false,
            Format::OpenMetrics => self.ended,
        }
    }

    /// Takes `# EOF`, and answers the rule that it breaks.
    fn take_end(&mut self) -> Option<Rule>
        ensures { Takes items.Eof self.old self.new result }
    {
        self.ended = true;
        self.left_rule()
    }

    /// Takes an item of a page that goes on, and answers the rule that it breaks.
    fn take_more(&mut self, item: Item) -> Result<Option<Rule>, Memory>
        ensures { IfOk result (Takes item self.old self.new) }
    {
        match item {
            Item::Blank | Item::Comment => Ok(None),
            Item::Eof => Ok(self.take_end()),
            Item::Help { name, text } => self.take_descriptor(name, Descriptor::Help(text)),
            Item::KindOf { name, kind } => self.take_descriptor(name, Descriptor::Type(kind)),
            Item::Unit { name, unit } => self.take_descriptor(name, Descriptor::Unit(unit)),
            Item::Sample(sample) => self.take_sample(sample),
        }
    }

    /// Takes an item, and answers the rule that it breaks.
    fn take(&mut self, item: Item) -> Result<Option<Rule>, Memory>
        ensures { IfOk result (TakesAny item self.old self.new) }
    {
        if self.has_ended() {
            drop(item);
            return Ok(Some(Rule::AfterEof));
        }
        self.take_more(item)
    }

    /// Keeps what the checker answers from now on.
    fn stop(&mut self, fault: PageFault) -> PageFault
        ensures answer { result ≡ fault }
        ensures stopped { HasStopped self.new fault }
    {
        self.stopped = Some(fault);
        fault
    }

    /// Takes the item of a line. It is refused where it breaks a rule, the least of which is named, and the
    /// checker goes on answering its first refusal, or `Memory` after that.
    ///
    /// # Errors
    ///
    /// [`PageFault::Refused`] with the line and the least rule that it breaks, or that an earlier item broke; and want
    /// of memory.
    #[inline(always)]
    pub fn item(&mut self, line: u32, item: Item) -> Result<(), PageFault>
        ensures answer { (st : Setting) (earlier : List Item) → Stands st self.old earlier → Answers line (item_fault st earlier item) result }
        ensures stands { (st : Setting) (earlier : List Item) → Stands st self.old earlier → OnOk result (Stands st self.new (item ∷ earlier)) }
        ensures stops { IfErr result (HasStopped self.new) }
        ensures stopped { (fault : PageFault) → HasStopped self.old fault → (result ≡ Err fault) × HasStopped self.new fault }
    {
        if let Some(fault) = self.stopped {
            drop(item);
            return Err(fault);
        }
        match self.take(item) {
            Ok(None) => Ok(()),
            Ok(Some(rule)) => Err(self.stop(PageFault::Refused { line, rule })),
            Err(_) => Err(self.stop(PageFault::Memory)),
        }
    }

    /// The families with the current one, and the samples.
    fn into_kept(self) -> Result<(LeftFamilies, KeyedValues), Memory>
        ensures left { IfOk result (λ kept. kept.0 ≡ with_left self.left self.current) }
        ensures seen { IfOk result (λ kept. kept.1 ≡ self.seen) }
    {
        let ItemChecker {
            mut left,
            current,
            runs,
            group_keys,
            seen,
            ..
        } = self;
        drop(runs);
        drop(group_keys);
        match put_left(&mut left, current) {
            Ok(()) => Ok((left, seen)),
            Err(fault) => {
                drop(left);
                drop(seen);
                Err(fault)
            }
        }
    }

    /// The families and the number of samples of the lines that were taken.
    fn into_parts(self) -> Result<(List<Family>, u32), Memory>
        ensures { IfOk result (λ parts. page_at self ≡ record { families = parts.0; samples = parts.1 }) }
    {
        let (alloc, format, samples) = (self.alloc, self.format, self.samples);
        let (left, seen) = self.into_kept()?;
        let families = families_in(alloc, format, left, seen.into_entries())?;
        Ok((families, samples))
    }

    /// How many families and samples the lines that were taken have.
    fn into_counts(self) -> Result<PageCounts, Memory>
        ensures { IfOk result (λ counts. counts ≡ counts_of (page_at self)) }
    {
        let samples = self.samples;
        let (left, seen) = self.into_kept()?;
        drop(seen);
        let families = left.len();
        drop(left);
        Ok(PageCounts { families, samples })
    }

    /// The rule that the end breaks: a missing line feed in a text, a missing `# EOF` in OpenMetrics, or a
    /// histogram that is left incomplete.
    #[tactic(auto, unfolding(crate::specs::Steps::end_stop))]
    fn end_rule(&self, clean: bool) -> Option<Rule>
        ensures { result ≡ end_stop self.now clean }
    {
        match self.format {
            Format::Text if !clean => Some(Rule::NoNewline),
            Format::OpenMetrics if !self.ended => Some(Rule::NoEof),
            Format::Text | Format::OpenMetrics => self.left_rule(),
        }
    }

    /// The fault of the end: an earlier refusal or want of memory, then the rule that the end breaks.
    fn end_fault(&self, line: u32, clean: bool) -> Option<PageFault>
        ensures answer { (st : Setting) (earlier : List Item) → Stands st self.now earlier → TellsEnd line (end_fault st earlier clean) result }
        ensures stopped { (fault : PageFault) → HasStopped self.now fault → result ≡ Some fault }
    {
        if let Some(fault) = self.stopped {
            return Some(fault);
        }
        match self.end_rule(clean) {
            Some(rule) => Some(PageFault::Refused { line, rule }),
            None => None,
        }
    }

    /// The families and the number of samples of all lines. `line` is the line past the last, and `clean` says that
    /// the page is empty or ends with a line feed. An earlier refusal, or want of memory, is answered again.
    ///
    /// # Errors
    ///
    /// [`PageFault::Refused`] with the line and the rule of the first fault; and want of memory.
    pub fn close(self, line: u32, clean: bool) -> Result<(List<Family>, u32), PageFault>
        ensures answer { (st : Setting) (earlier : List Item) → Stands st self earlier → Answers line (end_fault st earlier clean) result }
        ensures page { (st : Setting) (earlier : List Item) → Stands st self earlier → IfOk result (ArePartsOf st earlier) }
        ensures stopped { (fault : PageFault) → HasStopped self fault → result ≡ Err fault }
    {
        if let Some(fault) = self.end_fault(line, clean) {
            drop(self);
            return Err(fault);
        }
        Ok(self.into_parts()?)
    }

    /// How many families and samples the page of all lines has. It answers as `close` does, and makes no families.
    ///
    /// # Errors
    ///
    /// As `close`.
    pub fn count(self, line: u32, clean: bool) -> Result<PageCounts, PageFault>
        ensures answer { (st : Setting) (earlier : List Item) → Stands st self earlier → Answers line (end_fault st earlier clean) result }
        ensures counts { (st : Setting) (earlier : List Item) → Stands st self earlier → IfOk result (λ counts. counts ≡ counts_of (page_of st earlier)) }
        ensures stopped { (fault : PageFault) → HasStopped self fault → result ≡ Err fault }
    {
        if let Some(fault) = self.end_fault(line, clean) {
            drop(self);
            return Err(fault);
        }
        Ok(self.into_counts()?)
    }
}
