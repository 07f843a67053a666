//! The checker of a page: the items of its lines in, and the first fault, the page or its counts out.
ghost use Rattle.std.specs.Prelude.{◌≡◌, List, [], ◌∷◌, Err, IfErr, IfOk, OnOk};
ghost use Rattle.page_model.specs.Written.{Setting};
ghost use Rattle.page_model.specs.declared.item.Item.{Item};
ghost use Rattle.page_model.specs.declared.fault.PageFault.{PageFault};
ghost use Rattle.page_model.specs.Faults.{item_fault, end_fault};
ghost use Rattle.page_model.specs.Readings.{page_of};
ghost use Rattle.page_model.specs.Counts.{counts_of};

use crate::checker::ItemChecker;
use label_sets::Memory;
use page_model::{Format, Item, Page, PageCounts, PageFault, Treatment};
use std::alloc::Global;
use std::marker::Model;

/// Checks the rules of a page in one pass over the items of its lines and builds its page. It keeps that lines spell
/// the items that it took, so the page that it makes is right.
#[derive(Drop)]
pub struct Checker {
    items: ItemChecker,
}

impl Model for Checker {
    ghost use Rattle.family_rules.specs.Checking.{Checking};
    ghost use Rattle.family_rules.specs.TakenLines.{KeepsLines};

    ghost Value = { Checking };

    ghost view = { λ c. c.items };

    ghost invariant = { λ c. KeepsLines c.items };
}

impl Checker {
    ghost use Rattle.family_rules.specs.Checking.{Stands, Answers, HasStopped};
    ghost use Rattle.family_rules.specs.TakenLines.{MayTake};

    /// A checker that has taken no line, and will make a page. `limit` is the most samples that the page may have.
    ///
    /// # Errors
    ///
    /// Want of memory.
    pub fn new(
        alloc: Global,
        format: Format,
        treatment: Treatment,
        limit: u32,
    ) -> Result<Checker, Memory>
        ensures { IfOk result (λ c. Stands (record { format = format; treatment = treatment; limit = limit }) c []) }
    {
        let items = ItemChecker::new(alloc, format, treatment, limit)?;
        Ok(Checker { items })
    }

    /// A checker that has taken no line, for a page that will be counted: it takes less memory, and `close` more time.
    ///
    /// # Errors
    ///
    /// Want of memory.
    pub fn counting(
        alloc: Global,
        format: Format,
        treatment: Treatment,
        limit: u32,
    ) -> Result<Checker, Memory>
        ensures { IfOk result (λ c. Stands (record { format = format; treatment = treatment; limit = limit }) c []) }
    {
        let items = ItemChecker::counting(alloc, format, treatment, limit)?;
        Ok(Checker { items })
    }

    /// Takes the item of a line, which a line of the format spells that breaks no rule of a line alone. It is refused
    /// where it breaks a rule, the least of which is named, and the checker goes on answering its first refusal, or
    /// `Memory` after that.
    ///
    /// # Errors
    ///
    /// [`PageFault::Refused`] with the line and the least rule that it breaks, or that an earlier item broke; and want
    /// of memory.
    ///
    /// # Example
    ///
    /// ```rust
    /// // The page says twice that `x` is a counter.
    /// let (kind, rule) = (Kind::Counter, Rule::Descriptor);
    /// let mut checker = Checker::new(alloc, Format::Text, Treatment::Scraped, 2)?;
    /// checker.item(1, Item::KindOf { name: Name::from_str(alloc, "x")?, kind })?;
    /// let second = checker.item(2, Item::KindOf { name: Name::from_str(alloc, "x")?, kind });
    /// assert_eq!(rt; second, Err(PageFault::Refused { line: 2, rule }));
    /// ```
    pub fn item(&mut self, line: u32, item: Item) -> Result<(), PageFault>
        requires { MayTake self.old item }
        ensures answer { (st : Setting) (earlier : List Item) → Stands st self.old earlier → Answers line (item_fault st earlier item) result }
        ensures stands { (st : Setting) (earlier : List Item) → Stands st self.old earlier → OnOk result (Stands st self.new (item ∷ earlier)) }
        ensures setting { OnOk result (self.new.setting ≡ self.old.setting) }
        ensures stops { IfErr result (HasStopped self.new) }
        ensures stopped { (fault : PageFault) → HasStopped self.old fault → (result ≡ Err fault) × HasStopped self.new fault }
    {
        self.items.item(line, item)
    }

    /// The page of all lines. `line` is the line past the last, and `clean` says that the page is empty or
    /// ends with a line feed. An earlier refusal, or want of memory, is answered again.
    ///
    /// # Errors
    ///
    /// [`PageFault::Refused`] with the line and the rule of the first fault; and want of memory.
    pub fn close(self, line: u32, clean: bool) -> Result<Page, PageFault>
        ensures answer { (st : Setting) (earlier : List Item) → Stands st self earlier → Answers line (end_fault st earlier clean) result }
        ensures page { (st : Setting) (earlier : List Item) → Stands st self earlier → IfOk result (λ page. page ≡ page_of st earlier) }
        ensures stopped { (fault : PageFault) → HasStopped self fault → result ≡ Err fault }
    {
        match self.items.close(line, clean) {
            Ok((families, samples)) => Ok(Page::new(families, samples)),
            Err(fault) => Err(fault),
        }
    }

    /// How many families and samples the page of all lines has. It answers as `close` does, and makes no page.
    ///
    /// # Errors
    ///
    /// As `close`.
    pub fn count(self, line: u32, clean: bool) -> Result<PageCounts, PageFault>
        ensures answer { (st : Setting) (earlier : List Item) → Stands st self earlier → Answers line (end_fault st earlier clean) result }
        ensures counts { (st : Setting) (earlier : List Item) → Stands st self earlier → IfOk result (λ counts. counts ≡ counts_of (page_of st earlier)) }
        ensures stopped { (fault : PageFault) → HasStopped self fault → result ≡ Err fault }
    {
        self.items.count(line, clean)
    }
}
