//! The federation page: what all targets showed last, gathered into one page of OpenMetrics.
#![tactic(auto)]

ghost use Rattle.std.specs.Prelude.{◌≡◌, ◌++◌, IfOk, OnOk, OnErr};
ghost use Rattle.open_writing.specs.OpenForms.{IsOpenForm};
ghost use Rattle.open_writing.specs.Writing.{written_text};
ghost use Rattle.federation_page.specs.Gathering.{AreShowable, federated_page};
ghost use Rattle.federation_page.specs.Laws.{
  FilledGatherTheSame,
  GatheredAreApart,
  GatheredAreFew,
  GatheredAreOpenForms,
  GatheredAreWritable,
  GatheredReadBack,
};

mod candidates;
mod conflicts;
mod names;
mod pages;
mod rooms;
mod target_sets;
mod targets;

use label_sets::Memory;
use page_model::{Page, Shown};
use pages::gathered_families;
use std::alloc::Global;

/// Gathers what targets show, in their order, into one page (Prometheus, "Federation").
///
/// Families stand in byte order of their names, each with the readings of all targets. Where two families can't
/// stand on one page, that of the earlier target stays. The values of readings are shared, not copied. The page is in
/// OpenMetrics form.
///
/// # Errors
///
/// Want of memory.
///
/// # Example
///
/// ```rust
/// // The target `h1:80` of the job `a` shows `# TYPE x_total counter` and `x_total 2`, and two others nothing.
/// let page = gather(alloc, &[first, second, third])?;
/// let mut out = Vec::new(alloc);
/// text(&page, &mut out)?;
/// let wanted = "# TYPE x counter\nx_total{instance=\"h1:80\",job=\"a\"} 2\n# EOF\n";
/// assert_eq!(rt; out.as_slice(), wanted.as_bytes());
/// ```
pub fn gather(alloc: Global, shown: &[Shown]) -> Result<Page, Memory>
    requires { AreShowable shown.now }
    ensures page { IfOk result (λ page. page ≡ federated_page shown.now) }
    ensures form { IfOk result (λ page. IsOpenForm page) }
{
    let families = gathered_families(alloc, shown)?;
    Ok(open_writing::page_of_families(families))
}

/// Puts the text of a page at the end of `out`, as [`open_writing::write`] does.
///
/// # Errors
///
/// Want of memory: then `out` holds what it held.
pub fn text(page: &Page, out: &mut Vec<u8>) -> Result<(), Memory>
    ensures ok { OnOk result (out.new.items ≡ out.old.items ++ written_text page.now) }
    ensures err { OnErr result (out.new.items ≡ out.old.items) }
{
    open_writing::write(page, out)
}

/// No two families of the federation page clash, whatever is shown.
pub fn gathered_apart()
    ensures { GatheredAreApart }
{}

/// 32 bits count the sample lines of the federation page of what may be gathered.
pub fn gathered_few()
    ensures { GatheredAreFew }
{}

/// The federation page of what may be gathered can be written, some text says it, and its own text reads back as
/// the page.
pub fn gathered_pages()
    ensures writable { GatheredAreWritable }
    ensures forms { GatheredAreOpenForms }
    ensures back { GatheredReadBack }
{}

/// Families that have no reading are nothing on the federation page: it is the same where they are not shown.
pub fn filled_gathered()
    ensures { FilledGatherTheSame }
{}
