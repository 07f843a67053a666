//! One request over a wire, and its reply (RFC 9112, section 9).
ghost use Rattle.std.specs.Prelude.{◌≡◌, ℕ, ◌≤◌, [], length};
ghost use Rattle.bridge_ports.specs.Causes.{HasCause};
ghost use Rattle.bridge_ports.specs.declared.talk.Stage.TheVariants as stages;
ghost use Rattle.bridge_ports.specs.Talks.{WireState, begun_at, made_ready};
ghost use Rattle.scrape_client.specs.PageReplies.{ReadsPage, most_of};
ghost use Rattle.scrape_client.specs.Exchanges.{SendsText, IsReplyRead, IsExchange};

use crate::page_reply::PageReply;
use bridge_ports::{BLOCK_BYTES, Failed, Wire};
use http_talk::Progress;
use label_sets::Memory;
use page_model::{Cause, Outcome};
use page_reader::KnownFronts;

/// Sends a text and reads its reply, until a verdict on it is there or the talk ends. The fronts of a page that was read
/// whole are left in `fronts`.
pub(crate) fn exchange<W: Wire>(
    wire: &mut W,
    text: &[u8],
    reply: PageReply,
    fronts: &mut KnownFronts,
) -> Result<Outcome, Memory>
    requires begun { (W.state wire.old).stage ≡ stages.Begun }
    requires room { length text.now ≤ (W.state wire.old).left }
    requires fresh { ReadsPage reply.limit [] reply }
    ensures { (old : WireState) (at : ℕ) → W.state wire.old ≡ begun_at at (made_ready 1 (length text.now) old)
        → IsExchange reply.limit (most_of reply) at text.now old (W.state wire.new) result }
{
    match wire.connect() {
        Ok(()) => {}
        Err(Failed) => return Ok(reply.fail(Cause::Connect)),
    }
    match send_text(wire, text) {
        Ok(()) => read_reply(wire, reply, fronts),
        Err(Failed) => Ok(reply.fail(Cause::Write)),
    }
}

/// Writes a text whole.
fn send_text<W: Wire>(wire: &mut W, text: &[u8]) -> Result<(), Failed>
    requires connected { (W.state wire.old).stage ≡ stages.Connected }
    requires room { length text.now ≤ (W.state wire.old).left }
    ensures cause { HasCause (W.state wire.old).faults (W.state wire.new).faults result }
    ensures sent { SendsText text.now (W.state wire.old) (W.state wire.new) result }
{
    let mut at = 0usize;
    while at < text.len() {
        match wire.write(&text[at..]) {
            Ok(count) => at += count as usize,
            Err(Failed) => return Err(Failed),
        }
    }
    Ok(())
}

/// Reads the reply in a talk that got nothing yet. Each turn reads a byte at least, and a reply on which
/// there is no verdict is short. Behind a fault of its page it reads on, since a fault of the reply goes
/// first.
fn read_reply<W: Wire>(
    wire: &mut W,
    reply: PageReply,
    fronts: &mut KnownFronts,
) -> Result<Outcome, Memory>
    requires connected { (W.state wire.old).stage ≡ stages.Connected }
    requires fresh { ReadsPage reply.limit [] reply }
    ensures { IsReplyRead reply.limit (most_of reply) (W.state wire.old) (W.state wire.new) result }
{
    let mut reply = reply;
    let mut block = [0u8; BLOCK_BYTES];
    let mut got = 0u64;
    loop {
        let count = match wire.read(&mut block) {
            Ok(0) => return reply.finish(fronts),
            Ok(count) => count,
            Err(Failed) => return Ok(reply.fail(Cause::Read)),
        };
        match reply.feed(&block[..count as usize]) {
            Ok(Progress::More) => got += u64::from(count),
            Ok(Progress::Whole) => {
                wire.leave();
                return reply.finish(fronts);
            }
            Err(fault) => {
                wire.leave();
                return reply.refuse(fault);
            }
        }
    }
}
