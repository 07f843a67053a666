//! A stream of a reply: its body is given on as it comes, and nothing of it is kept (RFC 9112, sections 4 to 8).
ghost use Rattle.std.specs.Prelude.{◌≡◌, ◌≢◌, ℕ, ◌<◌, ◌≤◌, ◌^◌, ◌+◌, List, [], ◌++◌, None, Some, length, IfOk, IfErr, Ok, Err};
ghost use Rattle.httparse.specs.Grammar.{ResponseHead as AnyHead};
ghost use Rattle.httparse.specs.Spans.{IsResponseWithin};
ghost use Rattle.http_talk.specs.Heads.{head_limit};
ghost use Rattle.http_talk.specs.HeadFeeding.{IsHeadAt};
ghost use Rattle.http_talk.specs.Replies.{IsBodyLimit};
ghost use Rattle.http_talk.specs.declared.fault.ReplyFault.{ReplyFault as AnyFault};
ghost use Rattle.http_talk.specs.declared.part.Part.TheVariants.{Head as InHead, Sized, Open, Chunked};
ghost use Rattle.http_talk.specs.declared.flow.Flow.TheVariants.{More};
ghost use Rattle.http_talk.specs.Streams.{step_to, step_behind};

use crate::chunk_place::ChunkPlace;
use crate::chunk_reader::{ChunkReader, Run};
use crate::fault::{Progress, ReplyFault};
use crate::flow::{Flow, Step};
use crate::head::{FIELD_LIMIT, HEAD_LIMIT, Head, head_of};
use crate::head_facts::HeadFacts;
use crate::part::Part;
use httparse::spans::{EMPTY_HEADER_SPAN, HeaderSpan, ResponseSpans};
use label_sets::Memory;
use page_model::Format;
use std::alloc::Global;
use std::marker::Model;

/// A reader of one reply that keeps none of its body: it is fed the bytes of the reply in pieces of any size, and
/// tells where in a piece the next bytes of the body stand. Of a head that is not there yet it keeps the bytes, at
/// most 16,384 of them.
#[derive(Drop)]
pub struct Stream {
    /// The most bytes of a body.
    most: u32,
    part: Part,
    format: Format,
    /// The bytes of a head that is not there yet.
    kept: Vec<u8>,
    /// How many bytes of the body were given.
    body: u64,
    /// How many bytes came in all, where the body comes in chunks.
    got: u64,
    /// The first refusal.
    stopped: Option<ReplyFault>,
}

impl Model for Stream {
    ghost use Rattle.std.specs.Prelude.{length, ◌≤◌};
    ghost use Rattle.std.specs.Vec.{vec_capacity};
    ghost use Rattle.http_talk.specs.Heads.{head_limit};
    ghost use Rattle.http_talk.specs.Streams.{Streaming, IsSoundPart};

    ghost Value = { Streaming };

    ghost view = { λ s. record {
      most = s.most;
      part = s.part;
      format = s.format;
      kept = s.kept.items;
      body = s.body;
      got = s.got;
      stopped = s.stopped;
    } };

    ghost invariant = { λ s. IsSoundPart s.part s.most s.body
        × (length s.kept.items ≤ head_limit) × (head_limit ≤ vec_capacity s.kept) };
}

/// Uses a piece up that tells nothing.
fn use_up(piece: &[u8]) -> Step
    requires { length piece.now < 2 ^ 32 }
    ensures { result ≡ record { flow = More; taken = length piece.now } }
{
    Step {
        flow: Flow::More,
        taken: piece.len() as u32,
    }
}

/// Gives the bytes of a piece from a place up to another, where there are some, and else uses it up.
fn body_step(from: usize, to: usize) -> Step
    requires order { from ≤ to }
    requires small { to < 2 ^ 32 }
    ensures { result ≡ step_to from to }
{
    if from == to {
        return Step {
            flow: Flow::More,
            taken: to as u32,
        };
    }
    Step {
        flow: Flow::Body {
            from: from as u32,
            to: to as u32,
        },
        taken: to as u32,
    }
}

/// What a step over chunks comes to, by what is certain of the body behind it.
fn step_behind(progress: Result<Progress, ReplyFault>, run: Run) -> Result<Step, ReplyFault>
    requires order { run.from ≤ run.to }
    requires small { run.to < 2 ^ 32 }
    ensures { result ≡ step_behind progress run.from run.to }
{
    match progress {
        Ok(Progress::Whole) => Ok(Step {
            flow: Flow::Whole,
            taken: run.to as u32,
        }),
        Ok(Progress::More) => Ok(body_step(run.from, run.to)),
        Err(fault) => Err(fault),
    }
}

impl Stream {
    ghost use Rattle.http_talk.specs.Streams.{Flows, StepsOver, FlowAnswer, StreamEnd, HasEnded, BeginsBody, told_of_head, told_at};

    /// A stream that was fed nothing, of a body of at most `max_page` bytes.
    ///
    /// # Errors
    ///
    /// Want of memory.
    pub fn new(alloc: Global, max_page: u32) -> Result<Stream, Memory>
        requires { IsBodyLimit max_page }
        ensures { IfOk result (λ stream. (stream.most ≡ max_page) × (told_of_head stream ≡ None) × Flows [] [] stream) }
    {
        Ok(Stream {
            most: max_page,
            part: Part::Head,
            format: Format::Text,
            kept: Vec::with_capacity(alloc, HEAD_LIMIT)?,
            body: 0,
            got: 0,
            stopped: None,
        })
    }

    /// Goes on with the reply up to the next thing to tell, and says how many bytes of the piece were taken. Behind
    /// [`Flow::Page`] and [`Flow::Body`] the rest of the piece is to be fed, also where it is empty. A refusal is the
    /// verdict on what was fed, and is answered again from then on; so is that the reply is whole.
    ///
    /// # Errors
    ///
    /// What is wrong with the reply, each a variant of [`ReplyFault`], never want of memory.
    pub fn feed(&mut self, piece: &[u8], taken: &mut u32) -> Result<Flow, ReplyFault>
        requires { length piece.now < 2 ^ 32 }
        ensures same { self.new.most ≡ self.old.most }
        ensures taken { taken.new ≤ length piece.now }
        ensures answer { (fed given : List ℕ) → Flows fed given self.old
            → FlowAnswer fed given piece.now taken.new self.old self.new result }
        ensures stops { IfErr result (λ fault. HasEnded fault self.new) }
        ensures stopped { (fault : AnyFault) → HasEnded fault self.old → (result ≡ Err fault) × HasEnded fault self.new }
    {
        *taken = 0;
        if let Some(fault) = self.stopped {
            return Err(fault);
        }
        match self.take(piece) {
            Ok(step) => {
                *taken = step.taken;
                Ok(step.flow)
            }
            Err(fault) => Err(self.stop(fault)),
        }
    }

    /// Keeps what the stream answers from now on.
    fn stop(&mut self, fault: ReplyFault) -> ReplyFault
        ensures answer { result ≡ fault }
        ensures stopped { self.new ≡ record self.old { stopped = Some fault } }
    {
        self.stopped = Some(fault);
        fault
    }

    /// Takes a front of a piece.
    fn take(&mut self, piece: &[u8]) -> Result<Step, ReplyFault>
        requires { length piece.now < 2 ^ 32 }
        ensures { StepsOver self.old self.new piece.now result }
    {
        match self.part {
            Part::Head => self.take_head(piece),
            Part::Sized { length } => Ok(self.take_sized(length, piece)),
            Part::Open => self.take_open(piece),
            Part::Chunked { place } => self.take_chunks(place, piece),
            Part::Whole => Ok(Step {
                flow: Flow::Whole,
                taken: 0,
            }),
        }
    }

    /// Takes a piece where the head is not there yet, up to the head's last byte.
    fn take_head(&mut self, piece: &[u8]) -> Result<Step, ReplyFault>
        requires part { self.old.part ≡ InHead }
        requires small { length piece.now < 2 ^ 32 }
        ensures { StepsOver self.old self.new piece.now result }
    {
        let before = self.kept.len();
        let count = (HEAD_LIMIT - before).min(piece.len());
        self.keep(&piece[..count]);
        let mut spans = [EMPTY_HEADER_SPAN; FIELD_LIMIT];
        match head_of(self.kept.as_slice(), &mut spans) {
            Head::More => Ok(use_up(piece)),
            Head::Bad => Err(ReplyFault::Head),
            Head::Found(head) => match self.begin(head, &spans) {
                Ok(format) => Ok(Step {
                    flow: Flow::Page(format),
                    taken: head.len.saturating_sub(before) as u32,
                }),
                Err(fault) => Err(fault),
            },
        }
    }

    /// Keeps bytes of a head, for which there is room.
    fn keep(&mut self, piece: &[u8])
        requires { length self.old.kept + length piece.now ≤ head_limit }
        ensures { self.new ≡ record self.old { kept = self.old.kept ++ piece.now } }
    {
        let _room_is_there = self.kept.extend_from_slice(piece);
    }

    /// Begins the body behind a head that was found in what is kept, and answers its format.
    fn begin(&mut self, head: ResponseSpans, spans: &[HeaderSpan]) -> Result<Format, ReplyFault>
        requires { IsResponseWithin self.old.kept spans.now head }
        ensures same { self.new.most ≡ self.old.most }
        ensures working { self.new.stopped ≡ self.old.stopped }
        ensures begun { (h : AnyHead) → IsHeadAt self.old.kept spans.now head h → BeginsBody self.old self.new h head.len result }
    {
        let facts = HeadFacts::of(self.kept.as_slice(), spans, &head);
        let start = match facts.start(head.code, self.most) {
            Ok(start) => start,
            Err(fault) => return Err(fault),
        };
        self.part = start.part;
        self.format = start.format;
        self.got = head.len as u64;
        self.body = 0;
        self.kept.clear();
        Ok(start.format)
    }

    /// Gives bytes of a body of this length.
    fn take_sized(&mut self, size: u64, piece: &[u8]) -> Step
        requires part { self.old.part ≡ Sized size }
        requires small { length piece.now < 2 ^ 32 }
        ensures { StepsOver self.old self.new piece.now (Ok result) }
    {
        let missing = size - self.body;
        let count = piece.len().min(missing as usize);
        self.body += count as u64;
        if count as u64 == missing {
            self.part = Part::Whole;
        }
        body_step(0, count)
    }

    /// Gives bytes of a body that goes to the end.
    fn take_open(&mut self, piece: &[u8]) -> Result<Step, ReplyFault>
        requires part { self.old.part ≡ Open }
        requires small { length piece.now < 2 ^ 32 }
        ensures { StepsOver self.old self.new piece.now result }
    {
        if piece.len() as u64 > u64::from(self.most) - self.body {
            return Err(ReplyFault::TooLong);
        }
        self.body += piece.len() as u64;
        Ok(body_step(0, piece.len()))
    }

    /// Gives bytes of a body in chunks, of one of them at most.
    fn take_chunks(&mut self, place: ChunkPlace, piece: &[u8]) -> Result<Step, ReplyFault>
        requires part { self.old.part ≡ Chunked place }
        requires small { length piece.now < 2 ^ 32 }
        ensures { StepsOver self.old self.new piece.now result }
    {
        let mut chunks = ChunkReader::at(place, self.body, self.got);
        let run = chunks.take_front(self.most, piece);
        self.part = chunks.part();
        self.body = chunks.body();
        self.got = chunks.total();
        step_behind(chunks.progress(self.most), run)
    }

    /// The format of the body, once it was told.
    pub(crate) fn format(&self) -> Format
        ensures { result ≡ self.now.format }
    {
        self.format
    }

    /// Ends the reply: nothing is missing of one that is whole, and all of its body was given, or that goes to the
    /// end. An earlier refusal is answered again.
    ///
    /// # Errors
    ///
    /// [`ReplyFault::Truncated`], where the reply ended too early; never want of memory.
    pub fn finish(self) -> Result<(), ReplyFault>
        ensures answer { (fed given : List ℕ) → Flows fed given self → StreamEnd self.most fed (told_of_head self) given result }
        ensures stopped { (fault : AnyFault) → HasEnded fault self → result ≡ Err fault }
    {
        if let Some(fault) = self.stopped {
            return Err(fault);
        }
        match self.part {
            Part::Open | Part::Whole => Ok(()),
            _ => Err(ReplyFault::Truncated),
        }
    }
}
