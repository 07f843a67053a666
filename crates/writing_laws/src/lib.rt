//! That what is written reads back: laws of the definitions, each carried by a call that does nothing.
#![tactic(auto)]

ghost use Rattle.writing_laws.specs.WritingLaws.{
  ReadPagesAreFormed,
  OpenFormsAreWritable,
  ReadsBack,
  WritablesAreOpenForms,
  OpenFormsReadBack,
  ThinnerAreWritable,
  FewerAreWritable,
  WritesFewLines,
  ReadsFewReadings,
  WritesShortLines,
};

/// Each page that a text says has the form of such pages, in either format and under either treatment.
///
/// So has a page with families, readings, timestamps or exemplars taken out.
pub fn read_pages_are_formed()
    ensures { ReadPagesAreFormed }
{}

/// The text of families that can be written reads back as their page.
///
/// Families can be written where they have the form of what a text says, no timestamps and no exemplars,
/// no names that clash, and no line that is too long.
///
/// So `# TYPE x unknown`, `x 1` and `# EOF`, which are written of a family `x` with one reading, read back as it.
pub fn read_back()
    ensures { ReadsBack }
{}

/// Families that can be written make a page that some text of OpenMetrics says, and each such page can be
/// written and reads back as its families.
pub fn open_forms()
    ensures writable { OpenFormsAreWritable }
    ensures back { OpenFormsReadBack }
    ensures made { WritablesAreOpenForms }
{}

/// Families that can be written can be written without some of their readings, and without some of the families.
pub fn thinner_pages()
    ensures readings { ThinnerAreWritable }
    ensures families { FewerAreWritable }
{}

/// A page that was read has at most twice as many written sample lines as it was read from, and at most as many
/// readings, and the lines of a page of a target are at most twice as long as those that were read, and 2,048 bytes
/// more.
pub fn written_sizes()
    ensures lines { WritesFewLines }
    ensures readings { ReadsFewReadings }
    ensures bytes { WritesShortLines }
{}
