//! A text that is written whole.
ghost use Rattle.std.specs.Prelude.{◌≡◌, [], OnOk, OnErr};
ghost use Rattle.std.specs.Io.KnownBytes.{Appends};
ghost use Rattle.bridge_ports.specs.Causes.{HasCause};
ghost use Rattle.bridge_ports.specs.Writing.{WroteFront};

use crate::{Failed, Sink};

/// Writes a text whole; where a write fails, the count of the output's faults rose, and a front of the text was
/// written. Nothing is written of an empty text.
///
/// # Errors
///
/// [`Failed`] where a write failed.
pub fn write_all<O: Sink>(output: &mut O, text: &[u8]) -> Result<(), Failed>
    ensures whole { OnOk result (Appends (O.held output.old) (O.held output.new) text.now) }
    ensures front { OnErr result (WroteFront (O.held output.old) (O.held output.new) text.now) }
    ensures empty { text.now ≡ [] → output.new ≡ output.old }
    ensures cause { HasCause (O.write_faults output.old) (O.write_faults output.new) result }
{
    let mut at = 0usize;
    while at < text.len() {
        let count = output.write(&text[at..])?;
        at += count as usize;
    }
    Ok(())
}
