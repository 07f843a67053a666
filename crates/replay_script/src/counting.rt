//! The number of a line.
ghost use Rattle.std.specs.Prelude.{◌≡◌, ◌+◌, ◌≤◌, ◌-◌, length, take};
ghost use Rattle.plain_words.specs.HeadLines as spec;

/// How many line feeds a text has.
fn line_feeds(text: &[u8]) -> usize
    ensures count { result ≡ spec.line_feeds text.now }
    ensures few { result ≤ length text.now }
{
    text.iter().filter(|byte| **byte == b'\n').count()
}

/// The number of the line at which the rest of the bytes begins, counted from 1.
pub(crate) fn line_at(bytes: &[u8], rest: &[u8]) -> u64
    requires { length rest.now ≤ length bytes.now }
    ensures { result ≡ spec.line_feeds (take (length bytes.now - length rest.now) bytes.now) + 1 }
{
    line_feeds(&bytes[..bytes.len() - rest.len()]) as u64 + 1
}
