//! A page that is read with the fronts of a page before it is refused as it is alone.

use crate::calls::pages::page_behind;
use page_model::{Format, PageFault, Rule};
use std::alloc::Global;

/// Whether a text is refused behind another text as it is alone.
fn is_refused_behind(alloc: Global, format: Format, text: &[u8], before: (Format, &[u8])) -> bool {
    match page_behind(alloc, format, text, before) {
        Ok(page) => {
            drop(page);
            false
        }
        Err(fault) => {
            fault
                == PageFault::Refused {
                    line: 2,
                    rule: Rule::Duplicate,
                }
        }
    }
}

const TWICE: &[u8] = b"a{n=\"1\"} 1\na{n=\"1\"} 2\n# EOF\n";

/// Pages of which that one has series twice.
const ONCE: &[(Format, &[u8])] = &[
    (Format::Text, b"a{n=\"1\"} 1\n"),
    (Format::Text, b"b 2\na{n=\"1\"} 1\n"),
    (Format::OpenMetrics, b"a{n=\"1\"} 1\n# EOF\n"),
];

#[test]
fn series_twice_is_refused_behind_a_page(rt: HostRuntime) {
    for before in ONCE {
        assert!(rt; is_refused_behind(rt.alloc(), Format::Text, TWICE, *before));
    }
}
