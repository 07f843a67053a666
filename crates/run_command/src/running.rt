//! The run of the configuration in a file.
ghost use Rattle.std.specs.Prelude.{◌≡◌, None, IfOk, IfErr, OnErr};
ghost use Rattle.bridge_config.specs.declared.config.Config.{Config as AnyConfig};
ghost use Rattle.run_command.specs.ConfigFiles.{StopsAtFile, LeavesFile};
ghost use Rattle.world_run.specs.Unused.{AreUnused};
ghost use Rattle.run_command.specs.RunReports.{IsReportOfRun, LeavesWorld};

use crate::config_file::config_in;
use crate::report::{Report, report_of};
use bridge_ports::{Conn, Door, World};
use label_sets::Text;
use program_words::Stop;
use std::alloc::Global;
use std::sync::Wait;
use std::thread::Threads;
use world_run::run_config;

/// Reads the configuration in the file of a path, visits its targets over the wires of the world, beside its door where
/// it has one, and gives the report.
///
/// # Errors
///
/// Each way in which the file gives no configuration, as [`Stop`] tells it; and want of memory. Where memory is
/// wanted for the report alone the run is over, and its wires and its door came home.
///
/// # Example
///
/// ```rust
/// // Two rounds of two targets that show a page, whose bodies are taken, and a door at which one connection comes.
/// let path = Text::from_str(alloc, "bridge.toml")?;
/// let report = run(&rt, alloc, path, &mut world)?;
/// let last = "points 12 markers 0 accepted 4 refused 0 givenup 0 halted 0\nserved 1\n";
/// assert!(rt; !report.halted && report.text.as_slice().ends_with(last.as_bytes()));
/// ```
pub fn run<R: Threads + Wait + Sync, K: Conn, E: Door<Conn = K>, W: World<Door = E>>(
    rt: &R,
    alloc: Global,
    path: Text,
    world: &mut W,
) -> Result<Report, Stop>
    requires asked { (W.seen world.old).world.asked ≡ None }
    requires no_door { (W.seen world.old).world.door_at ≡ None }
    requires unused { AreUnused (W.seen world.old).home }
    ensures report { IfOk result (λ report. IsReportOfRun path (W.seen world.old) (W.seen world.new) report.text.items report.halted) }
    ensures stop { IfErr result (StopsAtFile ((W.seen world.old).files path)) }
    ensures world { IfErr result (LeavesWorld path (W.seen world.old) (W.seen world.new)) }
    ensures leaves { LeavesFile ((W.seen world.old).files path) (W.seen world.old).world (W.seen world.new).world result }
{
    let config = config_in(alloc, path, world)?;
    let end = run_config(rt, alloc, &config, world)?;
    Ok(report_of(alloc, &end)?)
}
