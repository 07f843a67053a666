//! The script on an input.
ghost use Rattle.std.specs.Prelude.{List, Option, IfOk, IfErr};
ghost use Rattle.series_select.specs.declared.selector.Selector.{Selector};
ghost use Rattle.program_words.specs.Limits.{most_script};
ghost use Rattle.script_commands.specs.ScriptAnswers.{IsScriptAnswer};
ghost use Rattle.program_words.specs.StopInputs.{Leaves};
ghost use Rattle.script_commands.specs.Printing.{HoldsBytes, HoldsScript};
ghost use Rattle.script_commands.specs.Replays.{IsReplayWith};
ghost use Rattle.program_words.specs.StopAnswers.{StopsAs};

use bridge_ports::{BLOCK_BYTES, Source};
use program_words::Stop;
use replay_script::{Script, read};
use std::alloc::Global;

/// The most bytes of a script: 256 MiB.
const MOST_SCRIPT_BYTES: usize = 1 << 28;

/// The bytes of a script on an input.
fn script_bytes<I: Source>(alloc: Global, input: &mut I) -> Result<Vec<u8>, Stop>
    ensures bytes { IfOk result (λ bytes. HoldsBytes most_script (I.left input.old) bytes.items) }
    ensures stop { (page : Option (List Selector)) → IfErr result (StopsAs (IsScriptAnswer (IsReplayWith page)) (I.left input.old)) }
    ensures input { Leaves most_script (I.left input.old) (I.left input.new)
        (I.read_faults input.old) (I.read_faults input.new) result }
{
    let mut bytes = Vec::new(alloc);
    let mut block = [0u8; BLOCK_BYTES];
    loop {
        let count = input.read(&mut block)? as usize;
        if count == 0 {
            return Ok(bytes);
        }
        if count > MOST_SCRIPT_BYTES - bytes.len() {
            return Err(Stop::TooLong);
        }
        bytes.extend_from_slice(&block[..count])?;
    }
}

/// The script on an input.
///
/// # Errors
///
/// What the bytes have in place of a script, as [`Stop`] tells it: the first fault, or more than 256 MiB; a read that
/// failed; want of memory.
pub fn whole_script<I: Source>(alloc: Global, input: &mut I) -> Result<Script, Stop>
    ensures script { IfOk result (HoldsScript (I.left input.old)) }
    ensures stop { (page : Option (List Selector)) → IfErr result (StopsAs (IsScriptAnswer (IsReplayWith page)) (I.left input.old)) }
    ensures input { Leaves most_script (I.left input.old) (I.left input.new)
        (I.read_faults input.old) (I.read_faults input.new) result }
{
    let bytes = script_bytes(alloc, input)?;
    Ok(read(alloc, bytes.as_slice())?)
}
