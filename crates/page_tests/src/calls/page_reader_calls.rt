//! Pages that come in pieces, and are refused.

use page_model::{Format, PageCounts, PageFault, Rule, Treatment};
use page_reader::AnyReader;
use std::alloc::Global;

const LIMIT: u32 = 200_000;

fn feed(reader: &mut AnyReader, piece: &[u8]) -> Result<(), PageFault> {
    if !reader.has_room(piece) {
        return Err(PageFault::Memory);
    }
    reader.feed(piece)
}

fn feed_bytes(reader: &mut AnyReader, page: &[u8]) -> Result<(), PageFault> {
    for byte in page {
        feed(reader, &[*byte])?;
    }
    Ok(())
}

/// How many families and samples a page of text has that is fed byte by byte. A fault of the bytes, the end answers
/// again.
fn counts_byte_by_byte(alloc: Global, page: &[u8]) -> Result<PageCounts, PageFault> {
    let mut reader = AnyReader::counting(alloc, Format::Text, Treatment::Scraped, LIMIT)?;
    let _fed = feed_bytes(&mut reader, page);
    reader.count()
}

const REFUSED: &[(&[u8], u32, Rule)] = &[
    (b"x 1", 2, Rule::NoNewline),
    (
        b"x{b=\"1\",a=\"2\",} 1\nx{a=\"2\",b=\"1\",c=\"\"} 2\n",
        2,
        Rule::Duplicate,
    ),
    (b"# TYPE x counter\ny 1\nx 2\n", 3, Rule::Split),
    (
        b"x{job=\"a\"} 1\nx{exported_job=\"a\"} 1\n",
        2,
        Rule::Duplicate,
    ),
    (b"x{,} 1\n", 1, Rule::Syntax),
    (b"x 1e309\n", 1, Rule::Range),
    (b"x 1 9223372036854775808\n", 1, Rule::Range),
    (b"x{a=\"1\",a=\"2\"} 1e309\n", 1, Rule::Range),
    (b"x{a=\"1\",a=\"2\"} 1\n", 1, Rule::Labels),
    (b"x{a=\"\xff\"} 1\n", 1, Rule::Utf8),
    (b"x 1\n# HELP x late\n", 2, Rule::Descriptor),
    (
        b"# TYPE h histogram\nh_bucket{le=\"1\"} 2\ny 1\n",
        3,
        Rule::Incomplete,
    ),
    (b"x 1\r\n", 1, Rule::Syntax),
    (b"x 1\n\n1x 2\ny 1 2 3\n", 3, Rule::Syntax),
];

#[test]
fn pages_in_single_bytes_are_refused(rt: HostRuntime) {
    for (page, line, rule) in REFUSED {
        let fault = PageFault::Refused {
            line: *line,
            rule: *rule,
        };
        assert!(rt;
            counts_byte_by_byte(rt.alloc(), page) == Err(fault),
            "line {line}"
        );
    }
}

/// Pages in two pieces, of which the first has a line that is none, and its number.
const WRONG: &[(Format, &[u8], &[u8], u32)] = &[
    (Format::Text, b"?\n", b"x 1\n", 1),
    (Format::OpenMetrics, b"x 1\n\n", b"y 1\n# EOF\n", 2),
];

/// What the two pieces of a page come to, and the end.
fn faults_of(
    alloc: Global,
    format: Format,
    first: &[u8],
    second: &[u8],
) -> Result<[Option<PageFault>; 3], PageFault> {
    let mut reader = AnyReader::counting(alloc, format, Treatment::Scraped, LIMIT)?;
    let wrong = feed(&mut reader, first).err();
    let behind = feed(&mut reader, second).err();
    let end = reader.count().err();
    Ok([wrong, behind, end])
}

#[test]
fn a_refusal_is_answered_again(rt: HostRuntime) {
    for (format, first, second, line) in WRONG {
        let fault = PageFault::Refused {
            line: *line,
            rule: Rule::Syntax,
        };
        assert!(rt; faults_of(rt.alloc(), *format, first, second) == Ok([Some(fault); 3]));
    }
}
