//! The addresses of URLs (URL Standard, sections 4.1 and 4.4; RFC 9110, section 4.2.1).
ghost use Rattle.std.specs.Prelude.{◌≡◌, ◌↔◌, ◌++◌, IfOk, IsTrue, IsUtf8, string_bytes};
ghost use Rattle.plain_words.specs.Places.{is_port};
ghost use Rattle.url.specs.Parser.{IsOutOfRoom};
ghost use Rattle.bridge_config.specs.Addresses as spec;
ghost use Rattle.bridge_config.specs.Configurations.{instance_of};

use bridge_ports::{Address, MOST_HOST_BYTES};
use label_sets::{Bytes, Memory};
use std::alloc::{AllocError, Global};
use url::{ParseError, Url};

/// The path of OTLP over HTTP (OpenTelemetry Protocol, "OTLP/HTTP Request").
const METRICS_PATH: &[u8] = b"/v1/metrics";

/// Whether a URL wasn't parsed for want of memory or of room.
fn is_out_of_room(error: ParseError) -> bool
    ensures { IsTrue result ↔ IsOutOfRoom error }
{
    match error {
        ParseError::OutOfMemory => true,
        ParseError::Overflow => true,
        _ => false,
    }
}

/// The host of a URL, or none.
fn url_host(url: &Url) -> &str
    ensures { result.now ≡ spec.url_host url.now }
{
    url.host_str().unwrap_or("")
}

/// The port of a URL or of its scheme, or 0.
fn port_of(url: &Url) -> u16
    ensures { result ≡ spec.port_of url.now }
{
    url.port_or_known_default().unwrap_or(0)
}

/// Whether a host has 1 to 256 bytes.
fn is_host(host: &str) -> bool
    ensures { result ≡ spec.is_host host.now }
{
    1 <= host.len() && host.len() <= MOST_HOST_BYTES
}

/// Whether a port can be reached.
fn is_port(port: u16) -> bool
    ensures { result ≡ is_port port }
{
    port >= 1
}

/// Whether a URL has no user, no password and no fragment.
fn is_bare(url: &Url) -> bool
    ensures { result ≡ spec.is_bare url.now }
{
    url.username().is_empty() && url.password().is_none() && url.fragment().is_none()
}

/// Whether a URL is an address: `http`, a host, a port, and no user, password or fragment.
#[tactic(auto, unfolding(crate::specs::Addresses::is_url_address))]
fn is_url_address(url: &Url) -> bool
    ensures { result ≡ spec.is_url_address url.now }
{
    url.scheme() == "http" && is_host(url_host(url)) && is_port(port_of(url)) && is_bare(url)
}

/// The URL of a text, where it is an address.
#[tactic(auto, unfolding(crate::specs::Addresses::right_url))]
pub(crate) fn right_url(alloc: Global, text: &str) -> Result<Option<Url>, Memory>
    ensures { IfOk result (λ url. url ≡ spec.right_url text.now) }
{
    match Url::parse(alloc, text) {
        Ok(url) => {
            if is_url_address(&url) {
                return Ok(Some(url));
            }
            Ok(None)
        }
        Err(error) => {
            if is_out_of_room(error) {
                return Err(AllocError);
            }
            Ok(None)
        }
    }
}

/// What is asked of the host of a URL: its path and, where there is one, a question mark and its query.
fn asked_of(alloc: Global, url: &Url) -> Result<Bytes, Memory>
    ensures { IfOk result (λ path. path ≡ spec.asked_of url.now) }
{
    let mut path = Vec::new(alloc);
    path.extend_from_slice(url.path().as_bytes())?;
    if let Some(query) = url.query() {
        path.extend_from_slice(b"?")?;
        path.extend_from_slice(query.as_bytes())?;
    }
    Ok(Bytes::from_vec(path))
}

/// The address of a URL.
pub(crate) fn address_of(alloc: Global, url: &Url) -> Result<Address, Memory>
    ensures address { IfOk result (λ address. address ≡ spec.address_of url.now) }
    ensures utf8 { IfOk result (λ address. IsUtf8 address.host) }
{
    let path = asked_of(alloc, url)?;
    Ok(Address {
        host: Bytes::from_slice(alloc, url_host(url).as_bytes())?,
        port: port_of(url),
        path,
    })
}

/// Whether a URL has no path of its own.
fn is_pathless(url: &Url) -> bool
    ensures { result ≡ spec.is_pathless url.now }
{
    url.path() == "/" && url.query().is_none()
}

/// Where metrics are posted: a URL without a path of its own stands for that of OTLP.
pub(crate) fn collector_of(alloc: Global, url: &Url) -> Result<Address, Memory>
    ensures { IfOk result (λ address. address ≡ spec.collector_of url.now) }
{
    if is_pathless(url) {
        return Ok(Address {
            host: Bytes::from_slice(alloc, url_host(url).as_bytes())?,
            port: port_of(url),
            path: Bytes::from_slice(alloc, METRICS_PATH)?,
        });
    }
    address_of(alloc, url)
}

/// The instance of a URL's address: host, colon, port.
pub(crate) fn instance_of(alloc: Global, url: &Url) -> Result<String, Memory>
    ensures { IfOk result (λ text. string_bytes text ≡ instance_of (spec.address_of url.now)) }
{
    let mut digits = itoa::Buffer::new();
    let mut text = String::from_str(alloc, url_host(url))?;
    text.push_str(":")?;
    text.push_str(digits.format(port_of(url)))?;
    Ok(text)
}
