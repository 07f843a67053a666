//! Laws of the definitions: each call ensures one and does nothing.

ghost use Rattle.page_model.specs.Laws.{
  SpellsOnce,
  ReadsLines,
  ReadsFaults,
  ReadsPages,
  FaultIsLeast,
  FaultOnce,
  PageOnce,
  NeverBoth,
  FaultStays,
  FrontFault,
  DistinctKeys,
  TextsAreRight,
  ItemsMakeTexts,
  KindOfPage,
  KindStays,
  NothingIsRight,
  FilledAreRead,
  FilledLoseNothing,
};

/// A line spells at most one item, and the plain reader of one line finds it.
pub fn spells_once()
    ensures once { SpellsOnce }
    ensures read { ReadsLines }
{}

/// A text has at most one fault and at most one page, never both, and the plain readers find them.
pub fn one_fault_or_page()
    ensures fault { FaultOnce }
    ensures page { PageOnce }
    ensures apart { NeverBoth }
    ensures faults_read { ReadsFaults }
    ensures pages_read { ReadsPages }
{}

/// The fault of a page is the least line that breaks a rule, with the least rule that it breaks.
pub fn fault_is_least()
    ensures { FaultIsLeast }
{}

/// The fault of a page's first lines stays its fault, however the page goes on.
pub fn fault_stays()
    ensures lines { FaultStays }
    ensures texts { FrontFault }
{}

/// The keys of a right page's readings are distinct.
pub fn distinct_keys()
    ensures { DistinctKeys }
{}

/// The page of a text is right, and so are the page of items without a fault and the page without families.
#[tactic(auto, using(crate::proofs::RightPages::nothing_is_right, crate::proofs::Texts::items_make_text))]
pub fn right_pages()
    ensures texts { TextsAreRight }
    ensures items { ItemsMakeTexts }
    ensures nothing { NothingIsRight }
{}

/// A page that was read is still one without the families that have no reading, and its readings are the same.
pub fn filled_pages_lose_nothing()
    ensures read { FilledAreRead }
    ensures readings { FilledLoseNothing }
{}

/// A family's kind at one of its samples is its kind on the page.
pub fn kind_stays()
    ensures stays { KindStays }
    ensures page { KindOfPage }
{}
