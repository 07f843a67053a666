//! The text of the page with the readings that selectors match.
ghost use Rattle.std.specs.Prelude.{◌≡◌, ◌++◌, OnOk, OnErr};
ghost use Rattle.open_writing.specs.OpenForms.{IsOpenForm};
ghost use Rattle.series_select.specs.Selection.{selected_text};

use crate::selecting::select;
use crate::selector::Selector;
use label_sets::{List, Memory};
use page_model::Page;
use std::alloc::AllocError;

/// Puts the text of the page that [`select`] gives behind what `out` holds.
///
/// # Errors
///
/// Want of memory: then `out` holds what it held.
///
/// # Example
///
/// ```rust
/// // `page` was read of `# TYPE x gauge`, `x{job="a"} 1`, `x{job="b"} 2`, `y 3` and `# EOF`.
/// let list = query(alloc, b"match[]={job=\"b\"}")?;
/// let mut out = Vec::new(alloc);
/// write_selected(&page, &list, &mut out)?;
/// assert_eq!(rt; out.as_slice(), b"# TYPE x gauge\nx{job=\"b\"} 2\n# EOF\n".as_slice());
/// ```
pub fn write_selected(page: &Page, list: &List<Selector>, out: &mut Vec<u8>) -> Result<(), Memory>
    requires { IsOpenForm page.now }
    ensures ok { OnOk result (out.new.items ≡ out.old.items ++ selected_text list.now page.now) }
    ensures err { OnErr result (out.new.items ≡ out.old.items) }
{
    match select(*out.allocator(), page, list) {
        Ok(selected) => open_writing::write(&selected, out),
        Err(AllocError) => Err(AllocError),
    }
}
