//! The run of a script: its targets are visited by several scrapers, over a table of their tracks.
ghost use Rattle.std.specs.Prelude.{IfOk};
ghost use Rattle.replay_script.specs.RightScripts.{IsRightScript};
ghost use Rattle.script_commands.specs.Rounds.{IsScriptRun};

use label_sets::Memory;
use replay_script::Script;
use scraper_pool::{TableFault, run_targets};
use script_commands::{ScriptRun, give_up, new_tracks, run_end};
use std::alloc::{AllocError, Global};
use std::sync::Wait;
use std::thread::Threads;

/// Visits each target of a script once for each round, by so many scrapers, but at most four. Visits are missing where
/// memory was wanted. What is posted is kept where that is asked for.
pub(crate) fn run_script<R: Threads + Wait + Sync>(
    rt: &R,
    alloc: Global,
    script: &Script,
    scrapers: u32,
    keeps: bool,
) -> Result<ScriptRun, Memory>
    requires { IsRightScript script.now }
    ensures { IfOk result (λ run. IsScriptRun keeps script.now run.ends.items run.wires.items) }
{
    let tracks = new_tracks(alloc, script, keeps)?;
    match run_targets(rt, alloc, tracks, script.header.rounds, scrapers) {
        Ok(tracks) => run_end(alloc, tracks),
        Err(TableFault::Memory(tracks)) => {
            give_up(tracks);
            Err(AllocError)
        }
    }
}
