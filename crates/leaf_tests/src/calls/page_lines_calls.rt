//! Pages by their lines, at every cut of their bytes.
use page_lines::{Last, Lines, Step};
use std::alloc::{AllocError, Global};

/// Tells of a line behind its number.
fn tell_line(told: &mut String, lines: &Lines, end: &str) -> Result<(), AllocError> {
    let number = lines.number();
    let line = std::str::from_utf8(lines.line()).unwrap_or("?");
    write!(told, "{number}:{line}{end}")
}

/// Feeds a piece, and tells of each line that it ends: `!` stands behind the number of one that is too long.
fn tell_piece(told: &mut String, lines: &mut Lines, piece: &[u8]) -> Result<(), AllocError> {
    let mut rest = piece;
    for _ in 0..piece.len() {
        if rest.is_empty() || !lines.has_room(rest) {
            break;
        }
        let mut taken = 0;
        let step = lines.feed(rest, &mut taken);
        rest = &rest[taken as usize..];
        match step {
            Step::Line => tell_line(told, lines, " ")?,
            Step::TooLong => write!(told, "{}! ", lines.number())?,
            Step::More => {}
        }
    }
    Ok(())
}

/// Tells how a page ends.
fn tell_end(told: &mut String, lines: &mut Lines) -> Result<(), AllocError> {
    match lines.finish() {
        Last::Clean => write!(told, "clean {}", lines.number()),
        Last::Open => {
            told.push_str("open ")?;
            tell_line(told, lines, "")
        }
    }
}

/// What is told of a page that comes in pieces of `cut` bytes, with four bytes a line at most.
fn told(alloc: Global, page: &[u8], cut: usize) -> Result<String, AllocError> {
    let mut lines = Lines::new(alloc, 4)?;
    let mut told = String::new(alloc);
    for piece in page.chunks(cut.max(1)) {
        tell_piece(&mut told, &mut lines, piece)?;
    }
    tell_end(&mut told, &mut lines)?;
    Ok(told)
}

/// Whether this is told of a page, whatever the pieces in which it comes.
fn is_told(alloc: Global, page: &str, want: &str) -> Result<bool, AllocError> {
    for cut in 1..=page.len() + 1 {
        if told(alloc, page.as_bytes(), cut)?.as_str() != want {
            return Ok(false);
        }
    }
    Ok(true)
}

// Pages, and what is told of them.
const PAGES: &[(&str, &str)] = &[
    ("", "clean 1"),
    ("\n", "1: clean 2"),
    ("a", "open 1:a"),
    ("a\n", "1:a clean 2"),
    ("a\n\n", "1:a 2: clean 3"),
    ("a\r\nbc", "1:a\r open 2:bc"),
    ("abcd\nabcde\n\nfg\n", "1:abcd 2! 3: 4:fg clean 5"),
    ("abcdefgh\nabcdefgh", "1! 2! open 2:abcd"),
    ("abcde", "1! open 1:abcd"),
];

#[test]
fn pages_come_in_any_pieces(rt: HostRuntime) {
    for (page, want) in PAGES {
        assert!(rt; is_told(rt.alloc(), page, want) == Ok(true), "{page}");
    }
}
