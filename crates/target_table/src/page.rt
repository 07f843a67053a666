//! What readers of a table get: what each target shows.
ghost use Rattle.std.specs.Prelude.{◌≡◌, IfOk};

use label_sets::Memory;
use page_model::Shown;
use std::alloc::Global;

/// What is shown, once more.
pub(crate) fn copies_of(alloc: Global, shown: &[Shown]) -> Result<Vec<Shown>, Memory>
    ensures { IfOk result (λ copies. copies.items ≡ shown.now) }
{
    let mut copies = Vec::with_capacity(alloc, shown.len())?;
    for one in shown {
        copies.push(one.copy()?)?;
    }
    Ok(copies)
}
