//! Reads the selectors that a query carries (URL Standard, section 5; Prometheus, "Federation").
ghost use Rattle.std.specs.Prelude.{IfErr, IfOk, OnOk};
ghost use Rattle.series_select.specs.QuerySteps.{AddsSelector, StopsAt, StopsAtPair, TakesPair};
ghost use Rattle.series_select.specs.Selectors.{HasOther, SpellEach, match_values};

use crate::fault::{QueryFault, SelectFault};
use crate::parsing::parse;
use crate::selector::Selector;
use label_sets::List;
use std::alloc::Global;

/// Adds the selector that a value is.
fn take_value(alloc: Global, selectors: &mut Vec<Selector>, value: &str) -> Result<(), QueryFault>
    ensures ok { OnOk result (AddsSelector value.now selectors.old.items selectors.new.items) }
    ensures other { IfErr result (StopsAt value.now selectors.old.items) }
{
    let number = selectors.len() as u64 + 1;
    let selector = match parse(alloc, value.as_bytes()) {
        Ok(selector) => selector,
        Err(SelectFault::Form) => return Err(QueryFault::Selector(number)),
        Err(SelectFault::Memory) => return Err(QueryFault::Memory),
    };
    match selectors.push(selector) {
        Ok(()) => Ok(()),
        Err(_) => Err(QueryFault::Memory),
    }
}

/// Adds the selector that a pair carries, where its name says that it carries one.
fn take_pair(
    alloc: Global,
    selectors: &mut Vec<Selector>,
    name: &str,
    value: &str,
) -> Result<(), QueryFault>
    ensures ok { OnOk result (TakesPair name.now value.now selectors.old.items selectors.new.items) }
    ensures other { IfErr result (StopsAtPair name.now value.now selectors.old.items) }
{
    if name != "match[]" {
        return Ok(());
    }
    take_value(alloc, selectors, value)
}

/// The selectors that a query carries as values of `match[]`, in their order; other pairs are passed over.
///
/// # Errors
///
/// [`QueryFault::Selector`] with the number of the first of these values that is no selector; and want of memory.
///
/// # Example
///
/// ```rust
/// let selectors = query(alloc, b"match[]=up&a=b&match%5B%5D=%7Bjob%3D%22node%22%7D")?;
/// assert_eq!(rt; selectors.len(), 2);
/// let fault = query(alloc, b"match[]=up&match[]=%7B");
/// assert!(rt; matches!(fault, Err(QueryFault::Selector(2))));
/// ```
pub fn query(alloc: Global, text: &[u8]) -> Result<List<Selector>, QueryFault>
    ensures ok { IfOk result (λ selectors. SpellEach (match_values text.now) selectors) }
    ensures other { IfErr result (HasOther (match_values text.now)) }
{
    let mut selectors = Vec::new(alloc);
    for pair in form_urlencoded::parse(alloc, text) {
        let (name, value) = match pair {
            Ok(pair) => pair,
            Err(_) => return Err(QueryFault::Memory),
        };
        match take_pair(alloc, &mut selectors, name.as_str(), value.as_str()) {
            Ok(()) => {}
            Err(fault) => return Err(fault),
        }
    }
    match List::from_vec(selectors) {
        Ok(selectors) => Ok(selectors),
        Err(_) => Err(QueryFault::Memory),
    }
}
