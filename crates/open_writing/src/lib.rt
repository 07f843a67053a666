//! Pages written as OpenMetrics 1.0 in its text form, so that they read back as they were.
#![tactic(auto)]

ghost use Rattle.std.specs.Prelude.{◌≡◌, ◌++◌, ◌^◌, ◌<◌, OnOk, OnErr};
ghost use Rattle.page_model.specs.Pages.{IsRightPage};
ghost use Rattle.open_writing.specs.Writing.{page_with, sample_lines, written_text};

mod counting;
mod families;
mod labels;
mod readings;
mod samples;
mod strings;
mod suffixes;

use families::FamiliesText;
use label_sets::{List, Memory};
use page_model::{Family, Page};
pub use suffixes::open_suffixes;

/// Puts the text of a page at the end of `out` (OpenMetrics 1.0, "Text Format").
///
/// Of each family TYPE, UNIT and HELP stand above its samples, and `# EOF` stands last. Timestamps and exemplars are
/// not written. `out` grows as the text does.
///
/// # Errors
///
/// Want of memory: then `out` holds what it held.
///
/// # Example
///
/// ```rust
/// // `page` was read of `# TYPE x unknown`, `x +inf`, `# TYPE e stateset` and `# EOF`.
/// let mut out = Vec::from_slice(alloc, b"> ")?;
/// write(&page, &mut out)?;
/// let text = "> # TYPE x unknown\nx +Inf\n# TYPE e stateset\n# EOF\n";
/// assert_eq!(rt; out.as_slice(), text.as_bytes());
/// ```
#[tactic(auto, unfolding(crate::specs::Writing::written_text))]
pub fn write(page: &Page, out: &mut Vec<u8>) -> Result<(), Memory>
    ensures ok { OnOk result (out.new.items ≡ out.old.items ++ written_text page.now) }
    ensures err { OnErr result (out.new.items ≡ out.old.items) }
{
    text_emitter::write(&FamiliesText(page.families()), out)
}

/// The page of families, with as many samples as [`write`] writes sample lines for them. Some text says it; what
/// is written of families that can be written does.
#[tactic(auto, unfolding(crate::specs::Writing::sample_lines), using(crate::proofs::LineCounts::families_counted))]
pub fn page_of_families(families: List<Family>) -> Page
    requires few { sample_lines families < 2 ^ 32 }
    requires right { IsRightPage (page_with families) }
    ensures page { result ≡ page_with families }
{
    let samples = counting::lines_of_families(families.as_slice());
    Page::new(families, samples)
}
