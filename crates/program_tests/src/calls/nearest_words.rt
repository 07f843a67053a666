//! The form that words come nearest to, which no clause says.
use crate::calls::bare_runs::strings;
use label_sets::Memory;
use program_words::nearest_form;
use std::alloc::Global;

/// The form that these words come nearest to.
fn nearest(alloc: Global, words: &[&str]) -> Result<Option<&'static str>, Memory> {
    let words = strings(alloc, words)?;
    Ok(nearest_form(words.as_slice()))
}

#[test]
fn a_first_word_tells_the_form(rt: HostRuntime) {
    const ROWS: &[(&[&str], Option<&str>)] = &[
        (&[], None),
        (&["x.toml"], None),
        (&["check"], Some("check FORMAT")),
        (&["chekc", "text"], Some("check FORMAT")),
        (&["Check", "text"], None),
        (&["run"], Some("run CONFIG")),
        (&["run", "a", "b"], Some("run CONFIG")),
        (
            &["replay", "5"],
            Some("replay [SCRAPERS] [page [SELECTOR ..]]"),
        ),
        (&["load", "1"], Some("load NUMBER TARGETS ROUNDS")),
        (
            &["convert", "text"],
            Some("convert FORMAT JOB INSTANCE NANOS"),
        ),
        (&["--hlep"], Some("--help")),
        (&["--ver"], Some("--version")),
    ];
    for (words, form) in ROWS {
        assert!(rt; nearest(rt.alloc(), words) == Ok(*form));
    }
}
