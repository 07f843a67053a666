//! Pages of more samples than are enough, each with the line and the rule of its fault.
use crate::calls::pages::page_of;
use page_model::{Format, PageFault, Rule};
use std::alloc::Global;

/// The line and the rule of a page's fault.
fn fault_of(alloc: Global, format: Format, limit: u32, text: &str) -> Option<(u32, Rule)> {
    match page_of(alloc, format, limit, text.as_bytes()) {
        Err(PageFault::Refused { line, rule }) => Some((line, rule)),
        _ => None,
    }
}

/// Pages with a sample more than enough, which may break another rule too, and without the last line feed.
const LEAST: &[(&str, u32, Rule)] = &[
    (
        "x{job=\"a\"} 1\ny{job=\"a\"} 1\nx{job=\"b\"} 1",
        3,
        Rule::Split,
    ),
    (
        "x{job=\"a\"} 1\nx{job=\"b\"} 1\nx{job=\"c\"} 1",
        3,
        Rule::TooMany,
    ),
    (
        "x{job=\"a\"} 1\nx{job=\"b\"} 1\nx{job=\"a\"} 1",
        3,
        Rule::Duplicate,
    ),
];

#[test]
fn the_least_rule_is_named(rt: HostRuntime) {
    for (page, line, rule) in LEAST {
        let fault = fault_of(rt.alloc(), Format::Text, 2, page);
        assert!(rt; fault == Some((*line, *rule)), "{page}");
    }
}
