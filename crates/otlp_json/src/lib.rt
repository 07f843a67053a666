//! The JSON text of an OTLP export request (OTLP 1.x, "JSON Protobuf Encoding").
//!
//! The text is written here and by no general writer, since numbers are printed exactly and not as
//! the nearest floating point number.
#![tactic(auto)]

ghost use Rattle.std.specs.Prelude.{◌≡◌, ◌++◌, codes, min, OnOk, OnErr, length as length_of};
ghost use Rattle.std.specs.Io.KnownBytes.{Appends};
ghost use Rattle.bridge_ports.specs.Causes.{HasCause};
ghost use Rattle.bridge_ports.specs.Writing.{WroteFront};
ghost use Rattle.otlp_json.specs.Texts.{request_text};

mod attributes;
mod exemplars;
mod hex;
mod histograms;
mod json;
mod metrics;
mod points;
mod requests;
mod strings;
mod summaries;
mod values;

use bridge_ports::{Failed, Sink};
use label_sets::Memory;
use otlp_tree::Request;
use requests::RequestText;

/// The length of a request's text in bytes, saturating at `u64::MAX`. It takes no memory.
pub fn length(request: &Request) -> u64
    ensures { result ≡ min (length_of (request_text request.now)) u64.MAX }
{
    text_emitter::length(&RequestText(request))
}

/// Puts the text of a request at the end of `out`: one JSON object with no blanks and no line end.
///
/// `out` grows as the text does.
///
/// # Errors
///
/// Want of memory: then `out` holds what it held.
///
/// # Example
///
/// ```rust
/// let (resource, scopes) = (List::new(alloc), List::new(alloc));
/// let part = ResourceMetrics { resource, scopes };
/// let parts = List::from_vec(Vec::from_array(alloc, [part])?)?;
/// let mut out = Vec::new(alloc);
/// write(&Request { parts }, &mut out)?;
/// let text = r#"{"resourceMetrics":[{"resource":{"attributes":[]},"scopeMetrics":[]}]}"#;
/// assert_eq!(rt; out.as_slice(), text.as_bytes());
/// ```
pub fn write(request: &Request, out: &mut Vec<u8>) -> Result<(), Memory>
    ensures ok { OnOk result (out.new.items ≡ out.old.items ++ request_text request.now) }
    ensures err { OnErr result (out.new.items ≡ out.old.items) }
{
    text_emitter::write(&RequestText(request), out)
}

/// Writes the text of a request and a line feed to an output, as it is made, so that it takes no memory.
///
/// # Errors
///
/// [`Failed`] where a write failed: a front of the text was written, and not all of it.
pub fn print_line<O: Sink>(request: &Request, output: &mut O) -> Result<(), Failed>
    ensures whole { OnOk result (Appends (O.held output.old) (O.held output.new) (request_text request.now ++ codes "\n")) }
    ensures front { OnErr result (WroteFront (O.held output.old) (O.held output.new) (request_text request.now ++ codes "\n")) }
    ensures cause { HasCause (O.write_faults output.old) (O.write_faults output.new) result }
{
    text_emitter::print_line(&RequestText(request), output)
}
