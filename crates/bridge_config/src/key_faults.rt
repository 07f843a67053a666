//! The first fault in the keys of a document.
ghost use Rattle.std.specs.Prelude.{◌≡◌, IfOk, option_map, option_copied};
ghost use Rattle.std.specs.Option.{option_or};
ghost use Rattle.label_sets.specs.Lists.{first_some};
ghost use Rattle.toml.specs.View.{table_view};
ghost use Rattle.bridge_config.specs.declared.key.Level.TheVariants as level;
ghost use Rattle.bridge_config.specs.ConfigKeys as keys;
ghost use Rattle.bridge_config.specs.Configurations.{target_tables};
ghost use Rattle.bridge_config.specs.KeyFaults as spec;
ghost use Rattle.bridge_config.specs.ConfigFaults.{Checks};
ghost use Rattle.bridge_config.specs.Tables.{all_numbered, key_text};

use crate::fault::ConfigFault;
use crate::key::{JOB, KEYS, Key, Level, URL};
use crate::key_class::{CLASSES, KeyClass};
use crate::tables::TargetTable;
use crate::values::{has_form, is_in_form, is_not_zero, text_at, value_at};
use bridge_ports::MOST_JOB_BYTES;
use label_sets::{Memory, Text};
use std::alloc::Global;
use toml::Table;

/// A key, as a fault names it.
#[derive(Clone, Copy)]
pub(crate) enum KeyPlace<'a> {
    Top(&'a str),
    /// The number of the target, and its key.
    InTarget(u32, &'a str),
}

impl KeyPlace<'_> {
    /// The name of the key: that of a target's key begins with `target` and the target's number.
    fn name(self, alloc: Global) -> Result<Text, Memory>
        ensures { IfOk result (λ text. text ≡ key_text self.entry) }
    {
        match self {
            KeyPlace::Top(word) => Text::from_str(alloc, word),
            KeyPlace::InTarget(number, word) => target_name(alloc, number, word),
        }
    }
}

/// `target`, a number and a key.
fn target_name(alloc: Global, number: u32, word: &str) -> Result<Text, Memory>
    ensures { IfOk result (λ text. text ≡ spec.target_name number word.now) }
{
    let mut digits = itoa::Buffer::new();
    let mut name = String::from_str(alloc, "target ")?;
    name.push_str(digits.format(number))?;
    name.push_str(" ")?;
    name.push_str(word)?;
    Text::from_string(name)
}

/// Whether a word is a key of the document.
fn is_top_word(word: &str) -> bool
    ensures { result ≡ keys.is_word_of (spec.level_words level.Top) word.now }
{
    for key in KEYS.iter() {
        if word == key.word() {
            return true;
        }
    }
    false
}

/// Whether a word is a key of such a table.
fn is_known(level: Level, word: &str) -> bool
    ensures { result ≡ keys.is_word_of (spec.level_words level) word.now }
{
    match level {
        Level::Top => is_top_word(word),
        Level::InTarget => word == JOB || word == URL,
    }
}

/// The first key of a table that is unknown; its keys stand in byte order.
fn first_unknown(level: Level, table: &Table) -> Option<&str>
    ensures { option_copied result ≡ first_some (spec.unknown_among (spec.level_words level)) (keys.member_keys (table_view table.now)) }
{
    for (key, _value) in table.iter() {
        if !is_known(level, key.as_str()) {
            return Some(key.as_str());
        }
    }
    None
}

/// Whether the key is needed.
fn is_needed(document: &Table, key: Key) -> bool
    ensures { result ≡ spec.is_needed (table_view document.now) key }
{
    match key {
        Key::Collector => true,
        Key::Rounds => true,
        Key::Target => true,
        Key::Listen => match value_at(document, Key::Pages.word()) {
            Some(value) => is_not_zero(value),
            None => false,
        },
        Key::Scrapers => false,
        Key::Keep => false,
        Key::Tries => false,
        Key::MaxPage => false,
        Key::SampleLimit => false,
        Key::Interval => false,
        Key::Honor => false,
        Key::Pages => false,
    }
}

/// Whether the key has a fault of this class.
#[tactic(auto, unfolding(crate::specs::KeyFaults::is_faulty))]
fn is_faulty(class: KeyClass, document: &Table, key: Key) -> bool
    ensures { result ≡ spec.is_faulty class (table_view document.now) key }
{
    let value = value_at(document, key.word());
    match class {
        KeyClass::Unknown => false,
        KeyClass::Kind => match value {
            Some(value) => !has_form(key.form(), value),
            None => false,
        },
        KeyClass::Missing => is_needed(document, key) && value.is_none(),
        KeyClass::Range => match value {
            Some(value) => !is_in_form(key.form(), value),
            None => false,
        },
    }
}

/// The first key with a fault of this class.
fn first_faulty(class: KeyClass, document: &Table) -> Option<&'static str>
    ensures { option_copied result ≡ first_some (spec.faulty_key class (table_view document.now)) keys.all_keys }
{
    for key in KEYS.iter() {
        if is_faulty(class, document, *key) {
            return Some(key.word());
        }
    }
    None
}

/// The first key of the document with a fault of this class.
#[tactic(auto, unfolding(crate::specs::KeyFaults::top_key))]
fn top_key(class: KeyClass, document: &Table) -> Option<&str>
    ensures { option_copied result ≡ spec.top_key class (table_view document.now) }
{
    match class {
        KeyClass::Unknown => first_unknown(Level::Top, document),
        KeyClass::Kind => first_faulty(KeyClass::Kind, document),
        KeyClass::Missing => first_faulty(KeyClass::Missing, document),
        KeyClass::Range => first_faulty(KeyClass::Range, document),
    }
}

/// Whether the value of a key is there and no text.
fn is_other_than_text(table: &Table, word: &str) -> bool
    ensures { result ≡ spec.is_other_than_text (table_view table.now) word.now }
{
    match value_at(table, word) {
        Some(value) => !value.is_str(),
        None => false,
    }
}

/// The first key of a target with a value that is no text.
fn first_other(table: &Table) -> Option<&'static str>
    ensures { option_copied result ≡ first_some (spec.other_than_text (table_view table.now)) keys.target_words }
{
    if is_other_than_text(table, JOB) {
        return Some(JOB);
    }
    if is_other_than_text(table, URL) {
        return Some(URL);
    }
    None
}

/// The first key of a target that is missing.
fn first_absent(table: &Table) -> Option<&'static str>
    ensures { option_copied result ≡ first_some (spec.absent (table_view table.now)) keys.target_words }
{
    if value_at(table, JOB).is_none() {
        return Some(JOB);
    }
    if value_at(table, URL).is_none() {
        return Some(URL);
    }
    None
}

/// Whether a job has 1 to 256 bytes.
fn is_job(job: &str) -> bool
    ensures { result ≡ spec.is_job job.now }
{
    1 <= job.len() && job.len() <= MOST_JOB_BYTES
}

/// The first key of a target with a fault of this class.
#[tactic(auto, unfolding(crate::specs::KeyFaults::key_within))]
fn key_within(class: KeyClass, table: &Table) -> Option<&str>
    ensures { option_copied result ≡ spec.key_within class (table_view table.now) }
{
    match class {
        KeyClass::Unknown => first_unknown(Level::InTarget, table),
        KeyClass::Kind => first_other(table),
        KeyClass::Missing => first_absent(table),
        KeyClass::Range => {
            if is_job(text_at(table, JOB)) {
                return None;
            }
            Some(JOB)
        }
    }
}

/// The first key of some targets with a fault of this class.
fn key_among<'a>(class: KeyClass, tables: &[TargetTable<'a>]) -> Option<KeyPlace<'a>>
    ensures { option_map key_text result ≡ spec.key_among class (all_numbered tables.now) }
{
    for found in tables {
        if let Some(word) = key_within(class, found.table) {
            return Some(KeyPlace::InTarget(found.number, word));
        }
    }
    None
}

/// The first key with a fault of this class.
fn first_key<'a>(
    class: KeyClass,
    document: &'a Table,
    tables: &[TargetTable<'a>],
) -> Option<KeyPlace<'a>>
    ensures { option_map key_text result ≡ option_or (spec.top_key class (table_view document.now)) (spec.key_among class (all_numbered tables.now)) }
{
    match top_key(class, document) {
        Some(word) => Some(KeyPlace::Top(word)),
        None => key_among(class, tables),
    }
}

/// The first fault of this class.
#[tactic(auto, unfolding(crate::specs::KeyFaults::class_fault))]
fn check_class(
    alloc: Global,
    class: KeyClass,
    document: &Table,
    tables: &[TargetTable<'_>],
) -> Result<(), ConfigFault>
    requires { all_numbered tables.now ≡ target_tables (table_view document.now) }
    ensures { Checks (spec.class_fault class (table_view document.now)) result }
{
    match first_key(class, document, tables) {
        Some(place) => {
            let key = place.name(alloc)?;
            Err(class.fault(key))
        }
        None => Ok(()),
    }
}

/// The first fault in the keys.
#[tactic(auto, unfolding(crate::specs::KeyFaults::key_fault))]
pub(crate) fn check_keys(
    alloc: Global,
    document: &Table,
    tables: &[TargetTable<'_>],
) -> Result<(), ConfigFault>
    requires { all_numbered tables.now ≡ target_tables (table_view document.now) }
    ensures { Checks (spec.key_fault (table_view document.now)) result }
{
    for class in CLASSES.iter() {
        check_class(alloc, *class, document, tables)?;
    }
    Ok(())
}
