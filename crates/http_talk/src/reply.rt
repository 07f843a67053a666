//! Readers of a reply that keep its body (RFC 9112, sections 4 to 8).
ghost use Rattle.std.specs.Prelude.{◌≡◌, ℕ, ◌<◌, ◌^◌, List, [], ◌++◌, length, IfOk, IfErr, Err};
ghost use Rattle.http_talk.specs.Replies.{IsBodyLimit};
ghost use Rattle.http_talk.specs.Streams.{Flows, HasFlowed, GatherAnswer, FrontAnswer};
ghost use Rattle.http_talk.specs.declared.fault.ReplyFault.{ReplyFault as AnyFault};

use crate::fault::{Body, Progress, ReplyFault};
use crate::flow::{Flow, Turn};
use crate::stream::Stream;
use label_sets::{Bytes, Memory};
use std::alloc::{AllocError, Global};
use std::marker::Model;

/// A reader of one reply: it is fed the bytes of the reply in pieces of any size, and keeps its body.
#[derive(Drop)]
pub struct Reply {
    stream: Stream,
    /// The bytes of the body.
    body: Vec<u8>,
    /// The first refusal, or want of memory.
    stopped: Option<ReplyFault>,
}

impl Model for Reply {
    ghost use Rattle.std.specs.Prelude.{◌≡◌, None};
    ghost use Rattle.http_talk.specs.ReplyReading.{Reader};
    ghost use Rattle.http_talk.specs.Streams.{reader_of, HasFlowed};

    ghost Value = { Reader };

    ghost view = { λ r. reader_of r.stream r.body.items r.stopped };

    ghost invariant = { λ r. r.stopped ≡ None → HasFlowed r.stream r.body.items };
}

/// The most bytes that a stream is fed at once.
const MOST_BLOCK: usize = 1 << 30;

/// Feeds a front of a piece to a stream, and keeps what it gives of the body.
fn turn(stream: &mut Stream, body: &mut Vec<u8>, piece: &[u8]) -> Result<Turn, ReplyFault>
    requires small { length piece.now < 2 ^ 32 }
    requires flowed { HasFlowed stream.old body.old.items }
    ensures same { stream.new.most ≡ stream.old.most }
    ensures answer { (fed : List ℕ) → Flows fed body.old.items stream.old
        → FrontAnswer fed piece.now body.new.items stream.old stream.new result }
{
    let mut taken = 0u32;
    match stream.feed(piece, &mut taken) {
        Ok(Flow::More) => Ok(Turn::Over(Progress::More)),
        Ok(Flow::Page(_)) => Ok(Turn::On { taken }),
        Ok(Flow::Body { from, to }) => {
            match body.extend_from_slice(&piece[from as usize..to as usize]) {
                Ok(()) => Ok(Turn::On { taken }),
                Err(AllocError) => Err(ReplyFault::Memory),
            }
        }
        Ok(Flow::Whole) => Ok(Turn::Over(Progress::Whole)),
        Err(fault) => Err(fault),
    }
}

/// Feeds a block to a stream, and keeps what it gives of the body.
fn gather(stream: &mut Stream, body: &mut Vec<u8>, block: &[u8]) -> Result<Progress, ReplyFault>
    requires small { length block.now < 2 ^ 32 }
    requires flowed { HasFlowed stream.old body.old.items }
    ensures same { stream.new.most ≡ stream.old.most }
    ensures answer { (fed : List ℕ) → Flows fed body.old.items stream.old
        → GatherAnswer (fed ++ block.now) body.new.items stream.new result }
{
    let mut at = 0;
    loop {
        match turn(stream, body, &block[at..]) {
            Ok(Turn::On { taken }) => at += taken as usize,
            Ok(Turn::Over(progress)) => return Ok(progress),
            Err(fault) => return Err(fault),
        }
    }
}

/// Feeds a piece to a stream block by block, and keeps what it gives of the body.
fn gather_all(stream: &mut Stream, body: &mut Vec<u8>, piece: &[u8]) -> Result<Progress, ReplyFault>
    requires { HasFlowed stream.old body.old.items }
    ensures same { stream.new.most ≡ stream.old.most }
    ensures answer { (fed : List ℕ) → Flows fed body.old.items stream.old
        → GatherAnswer (fed ++ piece.now) body.new.items stream.new result }
{
    let mut at = 0;
    while piece.len() - at > MOST_BLOCK {
        let end = at + MOST_BLOCK;
        match gather(stream, body, &piece[at..end]) {
            Ok(_) => at = end,
            Err(fault) => return Err(fault),
        }
    }
    gather(stream, body, &piece[at..])
}

impl Reply {
    ghost use Rattle.http_talk.specs.ReplyReading.{Stands, HasStopped, FeedAnswer, FinishAnswer};

    /// A reader that was fed nothing, of a body of at most `max_page` bytes.
    ///
    /// # Errors
    ///
    /// Want of memory.
    pub fn new(alloc: Global, max_page: u32) -> Result<Reply, Memory>
        requires { IsBodyLimit max_page }
        ensures { IfOk result (λ reply. (reply.most ≡ max_page) × Stands [] reply) }
    {
        let stream = Stream::new(alloc, max_page)?;
        Ok(Reply {
            stream,
            body: Vec::new(alloc),
            stopped: None,
        })
    }

    /// Goes on with the reply. A refusal is the verdict on what it was fed, and is answered again from
    /// then on; so is want of memory. What follows a whole reply is ignored.
    ///
    /// # Errors
    ///
    /// What is wrong with the reply, each a variant of [`ReplyFault`]; want of memory is one.
    pub fn feed(&mut self, piece: &[u8]) -> Result<Progress, ReplyFault>
        ensures same { self.new.most ≡ self.old.most }
        ensures answer { (fed : List ℕ) → Stands fed self.old → FeedAnswer (fed ++ piece.now) self.new result }
        ensures stops { IfErr result (λ fault. HasStopped fault self.new) }
        ensures stopped { (fault : AnyFault) → HasStopped fault self.old
            → (result ≡ Err fault) × HasStopped fault self.new }
    {
        if let Some(fault) = self.stopped {
            return Err(fault);
        }
        match gather_all(&mut self.stream, &mut self.body, piece) {
            Ok(progress) => Ok(progress),
            Err(fault) => {
                self.stopped = Some(fault);
                Err(fault)
            }
        }
    }

    /// Ends the reply: the body of one that is whole or goes to the end. An earlier refusal, or want of
    /// memory, is answered again.
    ///
    /// # Errors
    ///
    /// What is wrong with the reply, each a variant of [`ReplyFault`]: a reply that ended too early is
    /// [`ReplyFault::Truncated`]; want of memory is one.
    pub fn finish(self) -> Result<Body, ReplyFault>
        ensures answer { (fed : List ℕ) → Stands fed self → FinishAnswer self.most fed result }
        ensures stopped { (fault : AnyFault) → HasStopped fault self → result ≡ Err fault }
    {
        if let Some(fault) = self.stopped {
            return Err(fault);
        }
        let format = self.stream.format();
        match self.stream.finish() {
            Ok(()) => Ok(Body {
                format,
                bytes: Bytes::from_vec(self.body),
            }),
            Err(fault) => Err(fault),
        }
    }
}
