//! The tries of one text over a wire.
ghost use Rattle.std.specs.Prelude.{◌≡◌, ◌≤◌, ◌++◌, length, OnOk, OnErr};
ghost use Rattle.bridge_ports.specs.declared.talk.Stage.TheVariants as stages;
ghost use Rattle.bridge_ports.specs.Talks.{AllowsTalks, sent_on};
ghost use Rattle.otlp_sender.specs.Posting.{IsPosting};
ghost use Rattle.otlp_sender.specs.Sending.{BrokeOff, IsConnectedTalk, IsOneTry};

use crate::answer::read_answer;
use crate::posted::{Posted, Try};
use bridge_ports::{Failed, SECOND, Wire};

/// Writes all of a text.
fn send<W: Wire>(wire: &mut W, text: &[u8]) -> Result<(), Failed>
    requires connected { (W.state wire.old).stage ≡ stages.Connected }
    requires room { length text.now ≤ (W.state wire.old).left }
    ensures done { OnOk result (W.state wire.new ≡ sent_on text.now (W.state wire.old)) }
    ensures failed { OnErr result (BrokeOff text.now (W.state wire.old) (W.state wire.new)) }
{
    let mut at = 0usize;
    while at < text.len() {
        match wire.write(&text[at..]) {
            Ok(count) => at += count as usize,
            Err(fault) => return Err(fault),
        }
    }
    Ok(())
}

/// Writes all of a text that lies in two parts.
fn send_parts<W: Wire>(wire: &mut W, front: &[u8], rest: &[u8]) -> Result<(), Failed>
    requires connected { (W.state wire.old).stage ≡ stages.Connected }
    requires room { length (front.now ++ rest.now) ≤ (W.state wire.old).left }
    ensures done { OnOk result (W.state wire.new ≡ sent_on (front.now ++ rest.now) (W.state wire.old)) }
    ensures failed { OnErr result (BrokeOff (front.now ++ rest.now) (W.state wire.old) (W.state wire.new)) }
{
    match send(wire, front) {
        Ok(()) => send(wire, rest),
        Err(fault) => Err(fault),
    }
}

/// What comes of a try whose peer is connected.
fn exchange<W: Wire>(wire: &mut W, front: &[u8], rest: &[u8]) -> Try
    requires connected { (W.state wire.old).stage ≡ stages.Connected }
    requires room { length (front.now ++ rest.now) ≤ (W.state wire.old).left }
    ensures { IsConnectedTalk (front.now ++ rest.now) (W.state wire.old) (W.state wire.new) result }
{
    match send_parts(wire, front, rest) {
        Ok(()) => read_answer(wire),
        Err(_) => Try::Write,
    }
}

/// Makes one try once the clock reads `due`, and answers what it came to, with the reading at its beginning.
fn try_once<W: Wire>(wire: &mut W, front: &[u8], rest: &[u8], due: u64) -> (Try, u64)
    requires ready { AllowsTalks 1 (length (front.now ++ rest.now)) (W.state wire.old) }
    ensures { IsOneTry (front.now ++ rest.now) (W.state wire.old) (W.state wire.new) result.0 }
{
    let at = wire.begin(due);
    match wire.connect() {
        Ok(()) => (exchange(wire, front, rest), at),
        Err(_) => (Try::Connect, at),
    }
}

/// Sends the text until no further try is due, or all tries were made; each begins at least a second after the one
/// before it began. It takes no memory.
///
/// # Example
///
/// ```rust
/// // The first try finds the status 503, the second no connection, and the third the status 200.
/// wire.ready(alloc, 3, text.len() as u64)?;
/// assert_eq!(rt; post(&mut wire, text, 3), Posted::Accepted(200));
/// assert_eq!(rt; wire.finished(), 3);
/// ```
pub fn post<W: Wire>(wire: &mut W, text: &[u8], tries: u32) -> Posted
    requires ready { AllowsTalks tries (length text.now) (W.state wire.old) }
    requires few { (1 ≤ tries) × (tries ≤ 8) }
    ensures { IsPosting tries text.now (W.state wire.old) (W.state wire.new) result }
{
    post_parts(wire, text, &[], tries)
}

/// Posts a text that lies in two parts, as [`post`] posts one, so that a long body need not be copied behind its head.
pub fn post_parts<W: Wire>(wire: &mut W, front: &[u8], rest: &[u8], tries: u32) -> Posted
    requires ready { AllowsTalks tries (length (front.now ++ rest.now)) (W.state wire.old) }
    requires few { (1 ≤ tries) × (tries ≤ 8) }
    ensures { IsPosting tries (front.now ++ rest.now) (W.state wire.old) (W.state wire.new) result }
{
    let mut due = 0;
    let mut made = 0;
    'tries: loop {
        let (last, at) = try_once(wire, front, rest, due);
        made += 1;
        if made == tries || !last.is_open() {
            return last.posted();
        }
        due = at.saturating_add(SECOND);
    }
}
