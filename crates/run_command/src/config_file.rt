//! The configuration in a file of a world: its bytes, of which there may be 1 MiB, and what they say.
ghost use Rattle.std.specs.Prelude.{◌≡◌, Some, None, IsSome, IfOk, IfErr};
ghost use Rattle.bridge_config.specs.ConfigFaults.{IsConfiguration};
ghost use Rattle.bridge_ports.specs.Outside.{with_file_at};
ghost use Rattle.run_command.specs.ConfigFiles.{HoldsWhole, HoldsConfig, StopsAtFile, IsFileAsked, LeavesFile, left_of};

use bridge_config::{Config, ConfigFault, broken_at, read};
use bridge_ports::{BLOCK_BYTES, MILLISECOND, RunNotice, World};
use label_sets::Text;
use program_words::Stop;
use std::alloc::Global;

/// The most bytes of a configuration: 1 MiB.
const MOST_CONFIG_BYTES: usize = 1 << 20;

/// The bytes of the file that is open.
fn file_bytes<W: World>(alloc: Global, world: &mut W) -> Result<Vec<u8>, Stop>
    requires { IsSome (W.seen world.old).world.file }
    ensures bytes { IfOk result (λ bytes. HoldsWhole (left_of (W.seen world.old).world.file) bytes.items) }
    ensures stop { IfErr result (StopsAtFile (left_of (W.seen world.old).world.file)) }
    ensures leaves { LeavesFile (left_of (W.seen world.old).world.file) (W.seen world.old).world (W.seen world.new).world result }
    ensures rest { W.seen world.new
        ≡ with_file_at (W.seen world.new).world.file (W.seen world.new).world.file_faults (W.seen world.old) }
{
    let mut bytes = Vec::new(alloc);
    let mut block = [0u8; BLOCK_BYTES];
    loop {
        let count = world.read_file(&mut block)? as usize;
        if count == 0 {
            return Ok(bytes);
        }
        if count > MOST_CONFIG_BYTES - bytes.len() {
            return Err(Stop::TooLong);
        }
        bytes.extend_from_slice(&block[..count])?;
    }
}

/// Opens the file of a path, and gives its bytes.
fn bytes_in<W: World>(alloc: Global, path: Text, world: &mut W) -> Result<Vec<u8>, Stop>
    requires { (W.seen world.old).world.asked ≡ None }
    ensures bytes { IfOk result (λ bytes. HoldsWhole ((W.seen world.old).files path) bytes.items) }
    ensures stop { IfErr result (StopsAtFile ((W.seen world.old).files path)) }
    ensures leaves { LeavesFile ((W.seen world.old).files path) (W.seen world.old).world (W.seen world.new).world result }
    ensures asked { IsFileAsked path (W.seen world.old) (W.seen world.new) }
{
    match world.open_file(path) {
        Ok(()) => file_bytes(alloc, world),
        Err(failed) => Err(Stop::from(failed)),
    }
}

/// What is told of the bytes of a file, which are this configuration or have this fault.
fn told(alloc: Global, bytes: &[u8], config: &Result<Config, ConfigFault>) -> RunNotice {
    match config {
        Ok(config) => RunNotice::Begun {
            targets: config.targets.len().min(u32::MAX as usize) as u32,
            interval_ms: config.settings.interval / MILLISECOND,
        },
        Err(ConfigFault::Toml) => RunNotice::Faulty {
            broken_at: broken_at(alloc, bytes),
        },
        Err(_) => RunNotice::Faulty { broken_at: None },
    }
}

/// The configuration in the file of a path. The file is read to its end, or up to a read that takes more than 1 MiB.
/// It answers [`Stop::Read`] exactly where the world's count of faults of files rose; nothing else of the world
/// changes. The world is told that the run of a configuration begins, or where a document is none of TOML.
pub(crate) fn config_in<W: World>(alloc: Global, path: Text, world: &mut W) -> Result<Config, Stop>
    requires { (W.seen world.old).world.asked ≡ None }
    ensures config { IfOk result (HoldsConfig ((W.seen world.old).files path)) }
    ensures stop { IfErr result (StopsAtFile ((W.seen world.old).files path)) }
    ensures leaves { LeavesFile ((W.seen world.old).files path) (W.seen world.old).world (W.seen world.new).world result }
    ensures asked { IsFileAsked path (W.seen world.old) (W.seen world.new) }
{
    let bytes = bytes_in(alloc, path, world)?;
    let config = read(alloc, bytes.as_slice());
    world.notice(told(alloc, bytes.as_slice(), &config));
    Ok(config?)
}
