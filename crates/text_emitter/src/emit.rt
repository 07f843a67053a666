//! What has a text, its length, and its bytes.

ghost use Rattle.std.specs.Prelude.{◌≡◌, ◌++◌, codes, fold, length as length_of, min, OnOk, OnErr};
ghost use Rattle.std.specs.Io.KnownBytes.{Appends};
ghost use Rattle.bridge_ports.specs.Causes.{HasCause};
ghost use Rattle.bridge_ports.specs.Writing.{WroteFront};
ghost use Rattle.text_emitter.specs.Printing.{printing};

use crate::append::Growing;
use crate::byte_emitter::ByteEmitter;
use crate::count::Count;
use crate::emitter::Emitter;
use crate::print::Printing;
use bridge_ports::{Failed, Sink};
use std::alloc::AllocError;

/// What has a text.
///
/// # Example
///
/// ```rust
/// // The bytes of a `Long` in angle brackets.
/// impl Emit for Long {
///     ghost text = { λ l. codes "<" ++ l.bytes.items ++ codes ">" };
///
///     fn emit<E: Emitter>(&self, out: &mut E) {
///         out.put(b"<");
///         out.put(self.bytes.as_slice());
///         out.put(b">");
///     }
/// }
/// ```
pub trait Emit {
    ghost use Rattle.std.specs.Prelude.{ℕ, List};

    /// The text.
    ghost text: { Self → List ℕ };

    /// Puts the text into an emitter.
    fn emit<E: Emitter>(&self, out: &mut E)
        ensures { out.new ≡ fold E.push out.old (text self.now) };
}

/// The length of a text in bytes, saturating at `u64::MAX`. It takes no memory.
pub fn length<T: Emit>(value: &T) -> u64
    ensures { result ≡ min (length_of (T.text value.now)) u64.MAX }
{
    let mut count = Count::new();
    value.emit(&mut count);
    count.bytes()
}

/// Puts a text at the end of `out`.
///
/// `out` grows as the text does.
///
/// # Errors
///
/// Want of memory: then `out` holds what it held.
///
/// # Example
///
/// ```rust
/// // The text of `sample` is `up 1.5 0 0 # 1.5`.
/// let mut out = Vec::from_slice(alloc, b"> ")?;
/// write(&sample, &mut out)?;
/// assert_eq!(rt; out.as_slice(), b"> up 1.5 0 0 # 1.5".as_slice());
/// assert_eq!(rt; length(&sample), 16);
/// ```
#[tactic(auto, using(crate::proofs::Folds::append_folded, crate::proofs::Folds::front_kept))]
pub fn write<T: Emit>(value: &T, out: &mut Vec<u8>) -> Result<(), AllocError>
    ensures ok { OnOk result (out.new.items ≡ out.old.items ++ T.text value.now) }
    ensures err { OnErr result (out.new.items ≡ out.old.items) }
{
    let mut emitter = ByteEmitter::over(Growing::from(out));
    value.emit(&mut emitter);
    emitter.into_pieces().give_back(out)
}

/// A text with a line feed behind it.
#[derive(Clone, Copy)]
struct Line<'a, T>(&'a T);

impl<T: Emit> Emit for Line<'_, T> {
    ghost text = { λ line. T.text line.0.now ++ codes "\n" };

    fn emit<E: Emitter>(&self, out: &mut E) {
        self.0.emit(out);
        out.put(b"\n");
    }
}

/// Puts a text and a line feed into an emitter that writes to an output.
fn emit_line<T: Emit, O: Sink>(value: &T, out: &mut ByteEmitter<Printing<'_, O>>)
    ensures same_reference { out.new.name ≡ out.old.name }
    ensures put { out.new ≡ printing out.old (out.old.text ++ (T.text value.now ++ codes "\n")) }
{
    Line(value).emit(out);
}

/// Writes a text and a line feed to an output, as it is made, so that it takes no memory.
///
/// # Errors
///
/// [`Failed`] where a write failed: a front of the text was written, and not all of it.
pub fn print_line<T: Emit, O: Sink>(value: &T, output: &mut O) -> Result<(), Failed>
    ensures whole { OnOk result (Appends (O.held output.old) (O.held output.new) (T.text value.now ++ codes "\n")) }
    ensures front { OnErr result (WroteFront (O.held output.old) (O.held output.new) (T.text value.now ++ codes "\n")) }
    ensures cause { HasCause (O.write_faults output.old) (O.write_faults output.new) result }
{
    let mut emitter = ByteEmitter::over(Printing::on(output));
    emit_line(value, &mut emitter);
    let mut failed = false;
    let _output = emitter.into_pieces().finish(&mut failed);
    if failed {
        return Err(Failed);
    }
    Ok(())
}
