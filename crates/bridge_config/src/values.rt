//! The values of keys (TOML 1.1), and whether they have the form and the range of their key.
ghost use Rattle.std.specs.Prelude.{◌≡◌, option_map, option_copied};
ghost use Rattle.std.specs.Int.{is_in_range};
ghost use Rattle.toml.specs.Data.{Data, get_member, as_str};
ghost use Rattle.toml.specs.View.{view, table_view, items_view};
ghost use Rattle.bridge_ports.specs.Targets.{most_targets};
ghost use Rattle.bridge_config.specs.ConfigKeys as keys;
ghost use Rattle.bridge_config.specs.Configurations as spec;
ghost use Rattle.bridge_config.specs.KeyFaults.{is_not_zero};

use crate::key::{Form, Key};
use bridge_ports::MOST_TARGETS;
use plain_words::host_and_port;
use toml::{Table, Value};

/// The most bytes of the host of the door.
pub(crate) const MOST_DOOR_HOST_BYTES: usize = 255;

/// The value of a key.
pub(crate) fn value_at<'a>(table: &'a Table, word: &str) -> Option<&'a Value>
    ensures { option_map (λ v. view v.now) result ≡ get_member word.now (table_view table.now) }
{
    table.get(word)
}

/// The text of a key, or none.
#[tactic(auto, unfolding(crate::specs::Configurations::text_at))]
pub(crate) fn text_at<'a>(table: &'a Table, word: &str) -> &'a str
    ensures { result.now ≡ spec.text_at (table_view table.now) word.now }
{
    match value_at(table, word) {
        Some(value) => value.as_str().unwrap_or(""),
        None => "",
    }
}

/// The number of an integer that isn't negative.
pub(crate) fn natural(number: i64) -> Option<u64>
    ensures { result ≡ keys.natural_of number }
{
    if number < 0 {
        return None;
    }
    Some(number as u64)
}

/// The whole number of a value.
pub(crate) fn natural_in(value: &Value) -> Option<u64>
    ensures { result ≡ keys.natural_in (view value.now) }
{
    match value.as_integer() {
        Some(number) => natural(number),
        None => None,
    }
}

/// Whether the value is an integer and not 0.
pub(crate) fn is_not_zero(value: &Value) -> bool
    ensures { result ≡ is_not_zero (view value.now) }
{
    match value.as_integer() {
        Some(number) => natural(number) != Some(0),
        None => false,
    }
}

/// Whether each element is a table.
fn are_tables(items: &[Value]) -> bool
    ensures { result ≡ keys.are_tables (items_view items.now) }
{
    for item in items {
        if !item.is_table() {
            return false;
        }
    }
    true
}

/// Whether the value has a form.
pub(crate) fn has_form(form: Form, value: &Value) -> bool
    ensures { result ≡ keys.has_form form (view value.now) }
{
    match form {
        Form::Url | Form::Place => value.is_str(),
        Form::Whole(_, _, _) => value.is_integer(),
        Form::Truth => value.is_bool(),
        Form::Tables => match value.as_array() {
            Some(items) => are_tables(items.as_slice()),
            None => false,
        },
    }
}

/// Whether the value is a whole number of a range.
fn is_in_range(least: u32, most: u32, value: &Value) -> bool
    ensures { result ≡ keys.is_whole_in least most (view value.now) }
{
    match natural_in(value) {
        Some(number) => u64::from(least) <= number && number <= u64::from(most),
        None => false,
    }
}

/// Whether the value is a host, a colon and a port.
fn is_place(value: &Value) -> bool
    ensures { result ≡ keys.is_place (view value.now) }
{
    match value.as_str() {
        Some(text) => host_and_port(MOST_DOOR_HOST_BYTES, text.as_bytes()).is_some(),
        None => false,
    }
}

/// How many elements there are.
fn count_of(items: &[Value]) -> usize
    ensures { result ≡ keys.item_count (items_view items.now) }
{
    items.len()
}

/// Whether a number of targets is from 1 to 256.
fn is_few(count: usize) -> bool
    ensures { result ≡ is_in_range 1 most_targets count }
{
    1 <= count && count <= MOST_TARGETS
}

/// Whether the value is an array of 1 to 256 elements.
fn are_few(value: &Value) -> bool
    ensures { result ≡ keys.are_few (view value.now) }
{
    match value.as_array() {
        Some(items) => is_few(count_of(items.as_slice())),
        None => false,
    }
}

/// Whether the value is in the range of a form. URLs are judged apart.
pub(crate) fn is_in_form(form: Form, value: &Value) -> bool
    ensures { result ≡ keys.is_in_form form (view value.now) }
{
    match form {
        Form::Url => true,
        Form::Place => is_place(value),
        Form::Whole(least, most, _) => is_in_range(least, most, value),
        Form::Truth => true,
        Form::Tables => are_few(value),
    }
}

/// The number of a key, or its default.
#[tactic(auto, unfolding(crate::specs::Configurations::key_number))]
pub(crate) fn key_number(document: &Table, key: Key) -> u64
    ensures { result ≡ spec.key_number (table_view document.now) (keys.key_row key) }
{
    let default = match key.form() {
        Form::Whole(_, _, Some(default)) => u64::from(default),
        _ => 0,
    };
    match value_at(document, key.word()) {
        Some(value) => natural_in(value).unwrap_or(default),
        None => default,
    }
}

/// The truth value of a key; it is false where the key is left out.
#[tactic(auto, unfolding(crate::specs::Configurations::key_truth))]
pub(crate) fn key_truth(document: &Table, key: Key) -> bool
    ensures { result ≡ spec.key_truth (table_view document.now) (keys.key_row key) }
{
    match value_at(document, key.word()) {
        Some(value) => value.as_bool().unwrap_or(false),
        None => false,
    }
}
