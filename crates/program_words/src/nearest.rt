//! The form of the command line that words come nearest to.

use crate::usage::FORMS;

/// The form whose first word begins most like theirs; none where each begins in another way.
pub fn nearest_form(words: &[String]) -> Option<&'static str> {
    let word = words.first()?.as_bytes();
    let mut most = 0;
    let mut nearest = None;
    for (verb, form) in FORMS {
        let same = same_front(word, verb.as_bytes());
        if same > most {
            most = same;
            nearest = Some(*form);
        }
    }
    nearest
}

/// How many bytes at the front of both are the same.
fn same_front(a: &[u8], b: &[u8]) -> usize {
    let mut same = 0usize;
    for (of_a, of_b) in a.iter().zip(b.iter()) {
        if of_a != of_b {
            return same;
        }
        same = same.saturating_add(1);
    }
    same
}
