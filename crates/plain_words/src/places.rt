//! Visible words, and a host with a port (RFC 3986, section 3.2).
ghost use Rattle.std.specs.Prelude.{◌≡◌, ℕ, List, IfSome, IfNone, option_map};
ghost use Rattle.std.specs.List.{list_all};
ghost use Rattle.plain_words.specs.Places as spec;

use crate::whole_number::number;
use memchr::memrchr;

/// The greatest port.
const MOST_PORT: u64 = 65_535;

/// A host and a port.
#[derive(Clone, Copy)]
pub struct Place<'a> {
    /// Visible characters of ASCII.
    pub host: &'a [u8],
    /// From 1 to 65535.
    pub port: u16,
}

/// Whether a byte is a visible character of ASCII.
fn is_visible(c: u8) -> bool
    ensures { result ≡ spec.is_visible c }
{
    (0x21..=0x7E).contains(&c)
}

/// Whether each of the bytes is a visible character of ASCII.
fn are_visible(bytes: &[u8]) -> bool
    ensures { result ≡ list_all spec.is_visible bytes.now }
{
    bytes.iter().all(|c| is_visible(*c))
}

/// Whether a word has 1 to `most` visible characters of ASCII.
pub fn is_visible_word(most: usize, word: &[u8]) -> bool
    ensures { result ≡ spec.is_visible_word most word.now }
{
    1 <= word.len() && word.len() <= most && are_visible(word)
}

/// The host and the port on both sides of the last colon.
#[tactic(auto, unfolding(crate::specs::Places::place_in))]
fn parted(most: usize, word: &[u8]) -> Option<Place<'_>>
    ensures { option_map (λ place. (place.host.now, place.port)) result ≡ spec.place_in most word.now }
{
    let colon = match memrchr(b':', word) {
        Some(colon) => colon,
        None => return None,
    };
    let host = &word[..colon];
    let port = match number(&word[colon + 1..], MOST_PORT) {
        Some(port) => port,
        None => return None,
    };
    if port == 0 {
        return None;
    }
    if !is_visible_word(most, host) {
        return None;
    }
    Some(Place {
        host,
        port: port as u16,
    })
}

/// The host and the port of a word, where the host has 1 to `most` visible characters; the last colon
/// parts them.
pub fn host_and_port(most: usize, word: &[u8]) -> Option<Place<'_>>
    ensures found { IfSome result (λ p. spec.IsHostAndPort most word.now p.host.now p.port) }
    ensures none { IfNone result ((host : List ℕ) (port : ℕ) → ¬ spec.IsHostAndPort most word.now host port) }
    ensures only { option_map (λ place. (place.host.now, place.port)) result ≡ spec.place_in most word.now }
{
    parted(most, word)
}
