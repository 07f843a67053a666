//! The words of `replay`: how many scrapers, and the federation page by its selectors.
ghost use Rattle.std.specs.Prelude.{◌≡◌, ℕ, ◌∷◌, true, codes, map, string_bytes, IfOk, IfSome, IfNone, OnErr};
ghost use Rattle.std.specs.List.{list_all};
ghost use Rattle.series_select.specs.Selectors.{SpellEach};
ghost use Rattle.program_words.specs.CommandWords.{ArePageWords, AskFor, FitNoForm, IsCommand, SaysScrapers, takes_memory};
ghost use Rattle.program_words.specs.WordSteps.{AreCutAt, are_page_words, is_selector};

use super::Command;
use crate::limits::{MOST_SCRAPERS, MOST_SELECTORS};
use label_sets::List;
use plain_words::number;
use series_select::{SelectFault, Selector, parse};
use std::alloc::{AllocError, Global};

/// The number of scrapers that a word says.
fn scrapers_in(word: &str) -> Option<u32>
    ensures found { IfSome result (SaysScrapers word.now) }
    ensures none { IfNone result ((n : ℕ) → ¬ SaysScrapers word.now n) }
{
    let count = match number(word.as_bytes(), MOST_SCRAPERS) {
        Some(count) => count,
        None => return None,
    };
    if count == 0 {
        return None;
    }
    Some(count as u32)
}

/// The words behind `replay` in two.
#[derive(Clone, Copy)]
struct Parts<'a> {
    scrapers: Option<u32>,
    rest: &'a [String],
}

/// The words behind `replay`, cut behind the number of scrapers, where they begin with one.
fn parts_of(words: &[String]) -> Parts<'_>
    ensures { AreCutAt (map string_bytes words.now) result.scrapers (map string_bytes result.rest.now) }
{
    if let Some((word, rest)) = words.split_first() {
        if let Some(count) = scrapers_in(word.as_str()) {
            return Parts {
                scrapers: Some(count),
                rest,
            };
        }
    }
    Parts {
        scrapers: None,
        rest: words,
    }
}

/// Whether each of the words is a selector.
fn are_selectors(words: &[String]) -> bool
    ensures { result ≡ list_all is_selector (map string_bytes words.now) }
{
    for word in words {
        if !series_select::is_selector(word.as_bytes()) {
            return false;
        }
    }
    true
}

/// Whether there are no words, or those of a page. It takes no memory, which only words that fit a form may take.
fn are_page_words(words: &[String]) -> bool
    ensures { result ≡ are_page_words (map string_bytes words.now) }
{
    let Some((word, selectors)) = words.split_first() else {
        return true;
    };
    if word.as_str() != "page" {
        return false;
    }
    if selectors.len() > MOST_SELECTORS {
        return false;
    }
    are_selectors(selectors)
}

/// The selectors that the words are.
fn selectors_of(alloc: Global, words: &[String]) -> Result<List<Selector>, AllocError>
    requires { list_all is_selector (map string_bytes words.now) ≡ true }
    ensures { IfOk result (λ list. SpellEach (map string_bytes words.now) list) }
{
    let mut selectors = Vec::with_capacity(alloc, words.len())?;
    for word in words {
        match parse(alloc, word.as_bytes()) {
            Ok(selector) => selectors.push(selector)?,
            Err(SelectFault::Form) => unreachable!(),
            Err(SelectFault::Memory) => return Err(AllocError),
        }
    }
    List::from_vec(selectors)
}

/// The selectors of the page that the words ask for, where they ask for one.
fn page_of(alloc: Global, words: &[String]) -> Result<Option<List<Selector>>, AllocError>
    requires { are_page_words (map string_bytes words.now) ≡ true }
    ensures { IfOk result (λ page. ArePageWords page (map string_bytes words.now)) }
{
    match words.split_first() {
        Some((_, selectors)) => Ok(Some(selectors_of(alloc, selectors)?)),
        None => Ok(None),
    }
}

/// The replay that the words behind `replay` ask for; `None` where they fit no form.
///
/// # Errors
///
/// Want of memory.
pub(super) fn replay_of(alloc: Global, words: &[String]) -> Result<Option<Command>, AllocError>
    ensures found { IfOk result (λ found. IfSome found (IsCommand (codes "replay" ∷ map string_bytes words.now))) }
    ensures none { IfOk result (λ found. IfNone found (FitNoForm (codes "replay" ∷ map string_bytes words.now))) }
    ensures memory { OnErr result (AskFor takes_memory (codes "replay" ∷ map string_bytes words.now)) }
{
    let parts = parts_of(words);
    if !are_page_words(parts.rest) {
        return Ok(None);
    }
    match page_of(alloc, parts.rest) {
        Ok(page) => Ok(Some(Command::Replay {
            scrapers: parts.scrapers,
            page,
        })),
        Err(AllocError) => Err(AllocError),
    }
}
