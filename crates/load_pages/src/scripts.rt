//! The script of a load: its targets, one after the other, and what is answered when they are scraped.
ghost use Rattle.std.specs.Prelude.{◌≡◌, ◌≤◌, ◌++◌, IfOk, codes};
ghost use Rattle.std.specs.Fmt.{decimal};
ghost use Rattle.replay_script.specs.RightScripts.{IsRightScript};
ghost use Rattle.load_pages.specs.GeneratedScripts as spec;

use crate::pages::page;
use bridge_ports::{MemoryReply, SECOND, Target};
use label_sets::{List, Memory};
use page_model::Format;
use replay_script::{
    Ending, Header, Script, ScriptTarget, TargetWords, page_reply, raw_reply, target,
};
use std::alloc::Global;

/// What the wire of a target's scrapes answers in a round.
#[tactic(auto, unfolding(crate::specs::GeneratedScripts::generated_reply))]
fn reply(alloc: Global, number: u64, target: u64, round: u64) -> Result<MemoryReply, Memory>
    requires { spec.IsLoadVisit number target round }
    ensures { IfOk result (λ reply. reply ≡ spec.generated_reply number target round) }
{
    let at = (round + 1) * SECOND;
    if (number + 3 * target + 5 * round) % 16 == 0 {
        return raw_reply(alloc, at, Ending::ConnectFails, b"");
    }
    let page = page(alloc, number, target, round)?;
    page_reply(alloc, at, Format::OpenMetrics, page.as_slice())
}

/// What it answers in all rounds.
fn replies(alloc: Global, number: u64, target: u64, rounds: u64) -> Result<Vec<MemoryReply>, Memory>
    requires number { number ≤ spec.most_load_number }
    requires target { target ≤ spec.most_load_targets }
    requires rounds { rounds ≤ spec.most_load_rounds }
    ensures { IfOk result (λ replies. replies.items ≡ spec.generated_replies number target rounds) }
{
    let mut replies = Vec::with_capacity(alloc, rounds as usize)?;
    let mut round = 0u64;
    while round < rounds {
        let reply = reply(alloc, number, target, round)?;
        replies.push_reserved(reply);
        round += 1;
    }
    Ok(replies)
}

/// The host of a target.
fn host_of(alloc: Global, number: u64) -> Result<Vec<u8>, Memory>
    ensures { IfOk result (λ host. host.items ≡ codes "t" ++ decimal number) }
{
    let mut digits = itoa::Buffer::new();
    let mut host = Vec::new(alloc);
    host.extend_from_slice(b"t")?;
    host.extend_from_slice(digits.format(number).as_bytes())?;
    Ok(host)
}

/// What is scraped of the target of a number.
fn scraped(alloc: Global, number: u64) -> Result<Target, Memory>
    requires { number ≤ spec.most_load_targets }
    ensures { IfOk result (λ t. t ≡ spec.generated_scraped number) }
{
    let host = host_of(alloc, number)?;
    let words = TargetWords {
        job: b"load",
        host: host.as_slice(),
        port: 80,
        path: b"/metrics",
    };
    target(alloc, &words, false)
}

/// A target, numbered from 1, and what its wires answer.
#[tactic(auto, unfolding(crate::specs::GeneratedScripts::generated_target))]
fn load_target(alloc: Global, number: u64, rounds: u64, target: u64) -> Result<ScriptTarget, Memory>
    requires number { number ≤ spec.most_load_number }
    requires target { target ≤ spec.most_load_targets }
    requires rounds { rounds ≤ spec.most_load_rounds }
    ensures { IfOk result (λ t. t ≡ spec.generated_target number rounds target) }
{
    let replies = replies(alloc, number, target, rounds)?;
    Ok(ScriptTarget {
        target: scraped(alloc, target)?,
        scrapes: List::from_vec(replies)?,
        posts: List::new(alloc),
    })
}

/// The targets of a load in order.
fn load_targets(
    alloc: Global,
    number: u64,
    rounds: u64,
    targets: u64,
) -> Result<Vec<ScriptTarget>, Memory>
    requires number { number ≤ spec.most_load_number }
    requires targets { targets ≤ spec.most_load_targets }
    requires rounds { rounds ≤ spec.most_load_rounds }
    ensures { IfOk result (λ all. all.items ≡ spec.generated_targets number rounds targets) }
{
    let mut all = Vec::with_capacity(alloc, targets as usize)?;
    let mut made = 0u64;
    while made < targets {
        let target = load_target(alloc, number, rounds, made + 1)?;
        all.push_reserved(target);
        made += 1;
    }
    Ok(all)
}

/// The script that a number, so many targets and so many rounds stand for. The page of each target in each round is
/// made, one target after the other.
///
/// # Errors
///
/// Want of memory.
///
/// # Example
///
/// ```rust
/// if is_load(0, 64, 2) {
///     let script = generated(alloc, 0, 64, 2)?;
///     assert_eq!(rt; script.targets.len(), 64);
/// }
/// ```
pub fn generated(alloc: Global, number: u32, targets: u32, rounds: u32) -> Result<Script, Memory>
    requires { spec.IsLoad number targets rounds }
    ensures script { IfOk result (λ script. script ≡ spec.generated_script number targets rounds) }
    ensures right { IfOk result IsRightScript }
    ensures bodies { IfOk result spec.TakesAllBodies }
{
    let all = load_targets(
        alloc,
        u64::from(number),
        u64::from(rounds),
        u64::from(targets),
    )?;
    Ok(Script {
        header: Header {
            keep: 2,
            tries: 3,
            limit: 20_000,
            max_page: 16_777_216,
            cut: 4_096,
            honor: false,
            rounds,
        },
        targets: List::from_vec(all)?,
    })
}
