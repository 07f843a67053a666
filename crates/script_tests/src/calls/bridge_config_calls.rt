//! Tests of `bridge_config`.
use bridge_config::{Config, broken_at, configs_are_right, numbers_are_right, read};
use label_sets::Memory;
use std::alloc::Global;

const HEAD: &[u8] = b"collector = \"http://127.0.0.1:4318\"\nrounds = 10\n";

const NODE: &[u8] = b"[[target]]\njob = \"node\"\nurl = \"http://127.0.0.1:9100/metrics?x=1\"\n";

/// A configuration with some lines between the needed keys and one target.
fn with(alloc: Global, lines: &str) -> Result<Vec<u8>, Memory> {
    let mut text = Vec::from_slice(alloc, HEAD)?;
    text.extend_from_slice(lines.as_bytes())?;
    text.extend_from_slice(NODE)?;
    Ok(text)
}

/// Puts the table of a target with this number in its host behind a configuration.
fn push_target(text: &mut Vec<u8>, number: u32) -> Result<(), Memory> {
    let mut digits = itoa::Buffer::new();
    text.extend_from_slice(b"[[target]]\njob = \"j\"\nurl = \"http://h")?;
    text.extend_from_slice(digits.format(number).as_bytes())?;
    text.extend_from_slice(b"/\"\n")
}

/// A configuration of so many targets, with some lines before them.
fn many(alloc: Global, lines: &str, count: u32) -> Result<Vec<u8>, Memory> {
    let mut text = Vec::from_slice(alloc, HEAD)?;
    text.extend_from_slice(lines.as_bytes())?;
    for number in 0..count {
        push_target(&mut text, number)?;
    }
    Ok(text)
}

/// The configuration with some lines between the needed keys and one target.
fn config(alloc: Global, lines: &str) -> Option<Config> {
    let text = with(alloc, lines).ok()?;
    read(alloc, text.as_slice()).ok()
}

/// The rounds, the longest page, the time between two visits, and how many targets there are.
fn numbers(config: &Config) -> (u32, u32, u64, usize) {
    (
        config.rounds,
        config.settings.max_page,
        config.settings.interval,
        config.targets.len(),
    )
}

/// Whether the collector has this path, and the first target this instance and this path.
fn has_texts(config: &Config, collector: &[u8], instance: &[u8], path: &[u8]) -> bool {
    match config.targets.as_slice() {
        [target, ..] => {
            config.collector.path.as_slice() == collector
                && target.instance().as_bytes() == instance
                && target.address().path.as_slice() == path
        }
        [] => false,
    }
}

const LISTEN: &str = "listen = \"127.0.0.1:9464\"\n";

/// The numbers of the configuration with such a line.
fn numbers_read(alloc: Global) -> Option<(u32, u32, u64, usize)> {
    let config = config(alloc, LISTEN)?;
    Some(numbers(&config))
}

#[test]
fn numbers_of_a_configuration(rt: HostRuntime) {
    numbers_are_right();
    configs_are_right();
    assert!(rt; numbers_read(rt.alloc()) == Some((10, 16_777_216, 15_000_000_000, 1)));
}

/// Whether its collector has this path, and its target this instance and this path.
fn reads_texts(alloc: Global, collector: &[u8], instance: &[u8], path: &[u8]) -> bool {
    match config(alloc, LISTEN) {
        Some(config) => has_texts(&config, collector, instance, path),
        None => false,
    }
}

#[test]
fn texts_of_a_configuration(rt: HostRuntime) {
    assert!(rt;
        reads_texts(
            rt.alloc(),
            b"/v1/metrics",
            b"127.0.0.1:9100",
            b"/metrics?x=1"
        )
    );
}

/// How many targets of a configuration have times of their pages taken for those of the points.
fn honored(config: &Config) -> usize {
    let mut count = 0usize;
    for target in config.targets.as_slice() {
        if target.honor() {
            count = count.saturating_add(1);
        }
    }
    count
}

/// The same of a configuration of so many targets, with some lines before them.
fn honored_read(alloc: Global, lines: &str, targets: u32) -> Option<usize> {
    let text = many(alloc, lines, targets).ok()?;
    let config = read(alloc, text.as_slice()).ok()?;
    Some(honored(&config))
}

#[test]
fn honor_timestamps_are_of_all_targets(rt: HostRuntime) {
    const ROWS: &[(&str, usize)] = &[
        ("honor_timestamps = true\n", 3),
        ("honor_timestamps = false\n", 0),
        ("", 0),
    ];
    for (lines, expected) in ROWS {
        assert!(rt; honored_read(rt.alloc(), lines, 3) == Some(*expected));
    }
}

#[test]
fn a_document_is_broken_at_a_place(rt: HostRuntime) {
    const ROWS: &[(&[u8], Option<(u32, u32)>)] = &[
        (b"", None),
        (b"rounds = 1\n", None),
        (b"= 1\n", Some((1, 1))),
        (b"a = 1\n\"\xc3\xa4\" = x\n", Some((2, 7))),
    ];
    for (bytes, place) in ROWS {
        assert!(rt; broken_at(rt.alloc(), bytes) == *place);
    }
}
