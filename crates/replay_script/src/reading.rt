//! The reader of scripts.
ghost use Rattle.std.specs.Prelude.{◌≡◌, [], IfOk, IfErr};
ghost use Rattle.replay_script.specs.Scripts.{IsScript};
ghost use Rattle.replay_script.specs.Progresses.{Knows, IsFaultOf};

use crate::counting::line_at;
use crate::fault::ScriptFault;
use crate::parts::front_part;
use crate::progress::Progress;
use crate::script::Script;
use std::alloc::Global;

/// The script of these bytes, or its first fault. Each record's bytes are copied once.
///
/// # Errors
///
/// [`ScriptFault::Line`] with the line of the first head line that breaks a rule; and want of memory.
///
/// # Example
///
/// ```rust
/// let raw = b"bridge-script 1\ntries 1\nrounds 1\ntarget j h:1 /m\nscrape 7 read 2\nHT\npost 8 connect 0\n\n";
/// assert_eq!(rt; read(alloc, raw)?.targets.len(), 1);
/// let fault = read(alloc, b"bridge-script 1\nrounds 1\ntarget j h:1 /m\npage 1 text 2\nx\n").err();
/// assert_eq!(rt; fault, Some(ScriptFault::Line(4)));
/// ```
pub fn read(alloc: Global, bytes: &[u8]) -> Result<Script, ScriptFault>
    ensures script { IfOk result (IsScript bytes.now) }
    ensures fault { IfErr result (IsFaultOf bytes.now) }
{
    let mut progress = Progress::new(alloc);
    read_into(alloc, &mut progress, bytes)
}

/// The same over what is kept of the parts that were read, of which there are none yet.
fn read_into(alloc: Global, progress: &mut Progress, bytes: &[u8]) -> Result<Script, ScriptFault>
    requires { Knows [] progress.old }
    ensures script { IfOk result (IsScript bytes.now) }
    ensures fault { IfErr result (IsFaultOf bytes.now) }
{
    let mut rest = bytes;
    while !rest.is_empty() {
        let front = match front_part(rest) {
            Some(front) => front,
            None => return Err(ScriptFault::Line(line_at(bytes, rest))),
        };
        if !progress.take(alloc, &front.part)? {
            return Err(ScriptFault::Line(line_at(bytes, rest)));
        }
        rest = front.rest;
    }
    match progress.finish(alloc)? {
        Some(script) => Ok(script),
        None => Err(ScriptFault::Line(line_at(bytes, rest))),
    }
}
