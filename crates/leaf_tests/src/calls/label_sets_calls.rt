//! Tests of `label_sets`.
use label_sets::{Label, LabelFault, LabelSet, Name, Text};
use std::alloc::{AllocError, Global};

fn label(alloc: Global, name: &str, value: &str) -> Result<Label, AllocError> {
    let name = Name::from_str(alloc, name)?;
    let value = Text::from_str(alloc, value)?;
    Ok(Label { name, value })
}

fn pairs(alloc: Global, written: &[(&str, &str)]) -> Result<Vec<Label>, AllocError> {
    let mut labels = Vec::new(alloc);
    for (name, value) in written {
        labels.push(label(alloc, name, value)?)?;
    }
    Ok(labels)
}

fn set(alloc: Global, written: &[(&str, &str)]) -> Result<LabelSet, LabelFault> {
    LabelSet::build(alloc, pairs(alloc, written)?, 64)
}

/// Whether a set equals its copy.
fn equals_its_copy(set: &LabelSet) -> Result<bool, LabelFault> {
    let copy = set.copy()?;
    let is_equal = *set == copy;
    drop(copy);
    Ok(is_equal)
}

/// Whether a set equals one that was built with an empty value more.
fn equals_second(alloc: Global, first: &LabelSet) -> Result<bool, LabelFault> {
    let second = set(alloc, &[("a", "2"), ("b", "1"), ("c", "")])?;
    let is_equal = *first == second;
    drop(second);
    Ok(is_equal)
}

/// Whether a set equals such a one, and its copy.
fn equals_its_copies(alloc: Global) -> Result<[bool; 2], LabelFault> {
    let first = set(alloc, &[("b", "1"), ("a", "2")])?;
    let is_copied = equals_its_copy(&first);
    let is_second = equals_second(alloc, &first);
    drop(first);
    Ok([is_second?, is_copied?])
}

#[test]
fn sets_of_the_same_labels_are_equal(rt: HostRuntime) {
    assert!(rt; equals_its_copies(rt.alloc()) == Ok([true, true]));
}

/// Whether a text is that of a name of these bytes, which is copied.
fn is_of_name(alloc: Global, text: &Text, expected: &str) -> Result<bool, AllocError> {
    let name = Name::from_utf8(alloc, expected.as_bytes())?;
    let copy = name.copy();
    let named = name.into_text();
    let is_named = named == *text;
    drop(named);
    Ok(is_named && copy?.as_str() == expected)
}

/// Whether a text is the copy of one of these bytes.
fn is_copied(alloc: Global, text: &Text, expected: &str) -> Result<bool, AllocError> {
    let made = Text::from_utf8(alloc, expected.as_bytes())?;
    let copy = made.copy();
    drop(made);
    let copy = copy?;
    let is_copied = copy.as_str() == expected && copy.len() == expected.len() && *text == copy;
    drop(copy);
    Ok(is_copied)
}

/// Whether a text stays what it was, made and copied in each way.
fn stays(alloc: Global, text: &str) -> Result<[bool; 2], AllocError> {
    let made = Text::from_string(String::from_str(alloc, text)?)?;
    let is_name = is_of_name(alloc, &made, text);
    let is_text = is_copied(alloc, &made, text);
    drop(made);
    Ok([is_name?, is_text?])
}

const TEXTS: &[&str] = &[
    "",
    "qé",
    "just twenty-eight bytes ....",
    "just twenty-nine bytes ......",
];

#[test]
fn texts_of_any_length(rt: HostRuntime) {
    for text in TEXTS {
        assert!(rt; stays(rt.alloc(), text) == Ok([true, true]), "{text}");
    }
}
