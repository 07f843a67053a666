//! The head of a post's reply, read over a wire.
ghost use Rattle.std.specs.Prelude.{◌≡◌};
ghost use Rattle.bridge_ports.specs.declared.talk.Stage.TheVariants as stages;
ghost use Rattle.otlp_sender.specs.Posting.{try_seen};
ghost use Rattle.otlp_sender.specs.Sending.{IsHeadTalk};

use crate::posted::Try;
use bridge_ports::Wire;
use http_talk::{HEAD_LIMIT, HeadSeen, status_of};

/// What a settled head comes to.
fn try_seen(what: HeadSeen) -> Try
    ensures { result ≡ try_seen what }
{
    match what {
        HeadSeen::Status(status) => Try::Status(status),
        HeadSeen::Bad => Try::NoHead,
        HeadSeen::More => Try::NoHead,
    }
}

/// Reads the reply until its head is settled, and leaves the talk there.
pub(crate) fn read_answer<W: Wire>(wire: &mut W) -> Try
    requires { (W.state wire.old).stage ≡ stages.Connected }
    ensures { IsHeadTalk (W.state wire.old) (W.state wire.new) result }
{
    let mut buffer = [0u8; HEAD_LIMIT];
    let mut filled = 0usize;
    'reading: loop {
        let count = match wire.read(&mut buffer[filled..]) {
            Ok(count) => count as usize,
            Err(_) => return Try::Read,
        };
        if count == 0 {
            return Try::NoHead;
        }
        filled += count;
        let what = status_of(&buffer[..filled]);
        if what != HeadSeen::More {
            wire.leave();
            return try_seen(what);
        }
    }
}
