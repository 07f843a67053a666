//! The target that words name.
ghost use Rattle.std.specs.Prelude.{◌≡◌, ◌≤◌, length, IfOk, IsUtf8};
ghost use Rattle.program_words.specs.CommandWords.{place_target};
ghost use Rattle.bridge_ports.specs.Targets.{most_job_bytes};
ghost use Rattle.program_words.specs.Limits.{most_instance_host};
ghost use Rattle.plain_words.specs.Places.{IsHostAndPort};

use bridge_ports::{Address, Target};
use label_sets::{Bytes, Text};
use std::alloc::{AllocError, Global};

/// The path of a target's metrics (Prometheus, "metrics_path").
const METRICS_PATH: &str = "/metrics";

/// The text of a word.
fn word_text(alloc: Global, word: &str) -> Result<Text, AllocError>
    ensures same { IfOk result (λ text. text ≡ word.now) }
    ensures text { IsUtf8 word.now }
{
    Text::from_str(alloc, word)
}

/// The target of a job and an instance, which is this host and port. Times of its pages don't count.
#[tactic(auto, unfolding(crate::specs::CommandWords::place_target))]
pub(super) fn target(
    alloc: Global,
    job: &str,
    instance: &str,
    host: &[u8],
    port: u16,
) -> Result<Target, AllocError>
    requires some { 1 ≤ length job.now }
    requires short { length job.now ≤ most_job_bytes }
    requires place { IsHostAndPort most_instance_host instance.now host.now port }
    ensures { IfOk result (λ t. t ≡ place_target job.now instance.now host.now port) }
{
    let job = word_text(alloc, job)?;
    let instance = word_text(alloc, instance)?;
    let host = Bytes::from_slice(alloc, host)?;
    let path = Bytes::from_slice(alloc, METRICS_PATH.as_bytes())?;
    let address = Address { host, port, path };
    Ok(Target::new(job, instance, address, false))
}
