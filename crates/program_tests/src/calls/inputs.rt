//! Inputs that no file is like: one that gives single bytes, and one without an end.
ghost use Rattle.bridge_ports.specs.Edges.{untold};

use crate::calls::bare_runs::run;
use bridge_ports::{Failed, Source};

/// An input that gives a byte at each read.
#[derive(Drop)]
struct Slow {
    page: &'static [u8],
    at: usize,
}

impl Source for Slow {
    ghost left = { λ _. untold };

    ghost read_faults = { λ _. 0 };

    fn read(&mut self, into: &mut [u8]) -> Result<u32, Failed> {
        let Some(byte) = self.page.get(self.at) else {
            return Ok(0);
        };
        into[0] = *byte;
        self.at = self.at.saturating_add(1);
        Ok(1)
    }
}

const ESCAPES: &[u8] = b"x{a=\"p\\n\\\"\\\\\\q\xc3\xa9\"} 1\n";

const ESCAPED: &str =
    r#"{"resourceMetrics":[{"resource":{"attributes":[{"key":"service.name","value":{"stringValue":"j"}},{"key":"service.instance.id","value":{"stringValue":"h:1"}},{"key":"server.address","value":{"stringValue":"h"}},{"key":"server.port","value":{"intValue":"1"}},{"key":"url.scheme","value":{"stringValue":"http"}}]},"scopeMetrics":[{"scope":{"name":"bridge"},"metrics":[{"name":"x","gauge":{"dataPoints":[{"attributes":[{"key":"a","value":{"stringValue":"p\u000a\"\\\\qé"}}],"timeUnixNano":"1000","asDouble":1}]}}]},{"scope":{"name":"bridge.target"},"metrics":[{"name":"up","gauge":{"dataPoints":[{"timeUnixNano":"1000","asDouble":1}]}},{"name":"scrape_samples_scraped","gauge":{"dataPoints":[{"timeUnixNano":"1000","asDouble":1}]}}]}]}]}
"#;

#[test]
fn page_in_single_bytes(rt: HostRuntime) {
    const WORDS: &[&str] = &["convert", "text", "j", "h:1", "1000"];
    let mut input = Slow {
        page: ESCAPES,
        at: 0,
    };
    let ended = run(&rt, rt.alloc(), WORDS, &mut input, ESCAPED.as_bytes());
    assert!(rt; ended == Ok((0, ESCAPED.len(), true)));
}

/// An input without an end, whose first line is too long.
#[derive(Drop)]
struct Endless {
    reads: u64,
}

impl Source for Endless {
    ghost left = { λ _. untold };

    ghost read_faults = { λ _. 0 };

    fn read(&mut self, into: &mut [u8]) -> Result<u32, Failed> {
        self.reads = self.reads.saturating_add(1);
        Ok(into.len().min(u32::MAX as usize) as u32)
    }
}

// That more than 64 MiB were taken goes before the fault of the page.
#[test]
fn endless_input_is_left(rt: HostRuntime) {
    const LINE: &[u8] = b"input too long\n";
    let mut input = Endless { reads: 0 };
    let ended = run(&rt, rt.alloc(), &["check", "text"], &mut input, LINE);
    assert!(rt; ended == Ok((8, LINE.len(), true)) && input.reads == 4097);
}
