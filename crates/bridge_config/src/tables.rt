//! The tables of targets.
ghost use Rattle.std.specs.Prelude.{◌≡◌, [], ◌++◌, IfOk, OnOk, option_map};
ghost use Rattle.toml.specs.Data.{as_table};
ghost use Rattle.toml.specs.View.{view, table_view, array_view, items_view};
ghost use Rattle.bridge_config.specs.Configurations as spec;
ghost use Rattle.bridge_config.specs.Tables.{all_numbered};

use crate::key::Key;
use crate::values::value_at;
use label_sets::Memory;
use std::alloc::{AllocError, Global};
use toml::value::Array;
use toml::{Table, Value};

/// The table of a target, with its number from 1.
#[derive(Clone, Copy)]
pub(crate) struct TargetTable<'a> {
    pub(crate) number: u32,
    pub(crate) table: &'a Table,
}

/// Puts an element behind those before it, where it is a table.
fn push_table<'a>(
    tables: &mut Vec<TargetTable<'a>>,
    number: u32,
    item: &'a Value,
) -> Result<(), Memory>
    ensures { OnOk result (all_numbered tables.new.items ≡ all_numbered tables.old.items ++ spec.with_table number (as_table (view item.now)) []) }
{
    match item.as_table() {
        Some(table) => {
            tables.push(TargetTable { number, table })?;
            Ok(())
        }
        None => Ok(()),
    }
}

/// The elements that are tables.
fn numbered_tables(alloc: Global, items: &[Value]) -> Result<Vec<TargetTable<'_>>, Memory>
    ensures { IfOk result (λ tables. all_numbered tables.items ≡ spec.numbered_tables 1 (items_view items.now)) }
{
    let mut tables = Vec::new(alloc);
    let mut number = 0u32;
    for item in items {
        number = match number.checked_add(1) {
            Some(next) => next,
            None => return Err(AllocError),
        };
        push_table(&mut tables, number, item)?;
    }
    Ok(tables)
}

/// The elements of `target`.
fn target_items(document: &Table) -> Option<&Array>
    ensures { option_map (λ items. array_view items.now) result ≡ spec.found_items (table_view document.now) }
{
    match value_at(document, Key::Target.word()) {
        Some(value) => value.as_array(),
        None => None,
    }
}

/// The elements of `target` that are tables. An element past the 2^32nd counts as want of memory.
#[tactic(auto, unfolding(crate::specs::Configurations::target_tables))]
pub(crate) fn target_tables(alloc: Global, document: &Table) -> Result<Vec<TargetTable<'_>>, Memory>
    ensures { IfOk result (λ tables. all_numbered tables.items ≡ spec.target_tables (table_view document.now)) }
{
    match target_items(document) {
        Some(items) => numbered_tables(alloc, items.as_slice()),
        None => Ok(Vec::new(alloc)),
    }
}
