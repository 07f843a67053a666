//! A wire over replies in memory.
ghost use Rattle.std.specs.Prelude.{◌≡◌, ℕ, ◌<◌, ◌≤◌, ◌↔◌, [], ◌++◌, true, false, Option, Some, None, is_some, IsErr, IfSome, IfOk, OnOk, OnErr, IsSomeAnd, Contains, length, take, min};
ghost use Rattle.std.specs.Io.{ReadsAtMost, WritesAtMost};
ghost use Rattle.bridge_ports.specs.Causes.{HasCause};
ghost use Rattle.bridge_ports.specs.InMemory.{one_more, most_at_once};
ghost use Rattle.bridge_ports.specs.declared.talk.End.TheVariants.{ConnectFailed, WriteFailed, ReadFailed};
ghost use Rattle.bridge_ports.specs.declared.talk.Stage.TheVariants as stages;
ghost use Rattle.bridge_ports.specs.Talks.{made_ready, begun_at, sent_on, after_read, failed_at, left_at};

use crate::copy_front::copy_front;
use crate::kept::{Kept, KeptTalks};
use crate::talk::{End, MemoryReply, Place, Stage};
use crate::wire::Wire;
use crate::{Failed, Notice};
use label_sets::{List, Memory};
use std::alloc::{AllocError, Global};
use std::marker::Model;

/// A wire that answers one planned reply in each talk.
#[derive(Drop)]
pub struct MemoryWire {
    place: Place,
    replies: List<MemoryReply>,
    after: Option<MemoryReply>,
    most: u32,
    failing: List<u64>,
    faults: u64,
    calls: u64,
    readies: u32,
    lean: Option<u32>,
    talks: KeptTalks,
}

/// The reply that a talk gets.
#[derive(Clone, Copy)]
struct PlannedReply<'a> {
    at: u64,
    got: &'a [u8],
    end: End,
}

impl Model for MemoryWire {
    ghost use Rattle.bridge_ports.specs.Plans.{MemoryState, kept_plan, memory_state, KeepsPlan};

    ghost Value = { MemoryState };

    ghost view = { λ w. memory_state w.place
        (kept_plan w.replies w.after w.most w.failing) w.faults w.calls w.readies w.lean w.talks };

    ghost invariant = { λ w. KeepsPlan (kept_plan w.replies w.after w.most w.failing) w.talks };
}

impl MemoryWire {
    ghost use Rattle.bridge_ports.specs.Plans.{new_wire, talk_at, IsOfPlan};

    /// A wire in this place, whose n-th talk the n-th of the replies answers, past them `after`, and
    /// without that no connection at 0. One read hands out at most `most` bytes; `failing` names,
    /// counted from 1, the calls of `connect`, `write` and `read` that fail. It takes no memory.
    pub fn new(
        alloc: Global,
        place: Place,
        replies: List<MemoryReply>,
        after: Option<MemoryReply>,
        most: u32,
        failing: List<u64>,
    ) -> MemoryWire
        requires { 1 ≤ most }
        ensures { result ≡ new_wire place
            (record { replies = replies; after = after; most = most; failing = failing; keeps = true }) }
    {
        MemoryWire {
            place,
            replies,
            after,
            most,
            failing,
            faults: 0,
            calls: 0,
            readies: 0,
            lean: None,
            talks: KeptTalks::new(alloc),
        }
    }

    /// The replies with which it was made, in order.
    pub fn replies(&self) -> &[MemoryReply]
        ensures { result.now ≡ self.now.plan.replies }
    {
        self.replies.as_slice()
    }

    /// How many talks are finished.
    pub fn finished(&self) -> u64
        ensures { result ≡ length self.now.talks }
    {
        self.talks.finished().len() as u64
    }

    /// For the proof of a caller: each talk is one that the reply of its number gives. It does nothing.
    pub fn facts(&self)
        ensures { IsOfPlan self.now }
    {
        let _calls = self.calls;
    }

    /// What was sent in the finished talk of this number, counted from 1, where the wire keeps it.
    pub fn sent(&self, number: u64) -> Option<&[u8]>
        requires { (1 ≤ number) × (number ≤ length self.now.talks) }
        ensures bytes { IfSome result (λ bytes. IsSomeAnd (talk_at self.now.talks number) (λ talk. bytes.now ≡ talk.sent)) }
        ensures kept { is_some result ≡ self.now.plan.keeps }
    {
        if !self.talks.keeps() {
            return None;
        }
        Some(self.kept(number).sent.as_slice())
    }

    /// How the finished talk of this number, counted from 1, ended.
    pub fn ended(&self, number: u64) -> End
        requires { (1 ≤ number) × (number ≤ length self.now.talks) }
        ensures { IsSomeAnd (talk_at self.now.talks number) (λ talk. result ≡ talk.end) }
    {
        self.kept(number).end
    }

    /// From now on the call of `ready` of this number, counted from 1, answers want of memory.
    pub fn lean_at(&mut self, call: u32)
        ensures { self.new ≡ record self.old { lean = Some call } }
    {
        self.lean = Some(call);
    }

    /// From now on nothing is kept of what is sent. The wire's talks are as before, but
    /// [`MemoryWire::sent`] tells nothing of them any more.
    pub fn forget(&mut self)
        ensures { self.new ≡ record self.old { plan = record self.old.plan { keeps = false } } }
    {
        self.talks.forget();
    }
}

impl MemoryWire {
    ghost use Rattle.bridge_ports.specs.Plans.{reply_now, unread_bytes, talk_at, MayEnd, talk_ended, call_failed, call_counted};

    // The reply to the talk under way, or to the next one.
    fn reply(&self) -> PlannedReply<'_>
        ensures { record { at = result.at; got = result.got.now; end = result.end } ≡ reply_now self.now }
    {
        match self.replies.as_slice().get(self.talks.finished().len()) {
            Some(reply) => planned_from(reply),
            None => match &self.after {
                Some(reply) => planned_from(reply),
                None => PlannedReply {
                    at: 0,
                    got: &[],
                    end: End::ConnectFailed,
                },
            },
        }
    }

    // The finished talk of this number, counted from 1.
    fn kept(&self, number: u64) -> &Kept
        requires { (1 ≤ number) × (number ≤ length self.now.talks) }
        ensures sent { self.now.plan.keeps ≡ true
            → IsSomeAnd (talk_at self.now.talks number) (λ talk. result.now.sent ≡ talk.sent) }
        ensures ended { IsSomeAnd (talk_at self.now.talks number) (λ talk. result.now.end ≡ talk.end) }
    {
        &self.talks.finished()[(number - 1) as usize]
    }

    // Counts a call, and tells whether it is one of those that are to fail.
    fn count_call(&mut self) -> bool
        ensures counted { self.new ≡ call_counted self.old }
        ensures named { (result ≡ true) ↔ Contains self.old.plan.failing self.new.calls }
    {
        self.calls = self.calls.saturating_add(1);
        self.failing.as_slice().contains(&self.calls)
    }

    // Ends the talk under way.
    fn end_talk(&mut self, end: End)
        requires { MayEnd end self.old }
        ensures { self.new ≡ talk_ended end self.old }
    {
        self.talks.finish(end);
    }

    // Counts a fault, which ends the talk under way.
    fn fail(&mut self, end: End) -> Failed
        requires { MayEnd end self.old }
        ensures ended { self.new ≡ call_failed end self.old }
        ensures later { self.old.faults ≤ self.new.faults }
    {
        self.end_talk(end);
        self.faults = self.faults.saturating_add(1);
        Failed
    }

    // Hands out as much of the unread bytes as fits.
    fn hand_out(&mut self, into: &mut [u8]) -> u32
        requires { self.old.stage ≡ stages.Connected }
        ensures count { result ≡ min (min (length (unread_bytes self.old)) (length into.old))
            (min self.old.plan.most most_at_once) }
        ensures front { take result into.new ≡ take result (unread_bytes self.old) }
        ensures wire { self.new ≡ record self.old
            { now = record self.old.now { got = self.old.now.got ++ take result into.new } } }
    {
        let most = into.len().min(self.most as usize);
        let unread = &self.reply().got[self.talks.read()..];
        let count = copy_front(unread, &mut into[..most]);
        self.talks.got(count as usize);
        count
    }
}

// A reply as a talk gets it.
fn planned_from(reply: &MemoryReply) -> PlannedReply<'_>
    ensures { record { at = result.at; got = result.got.now; end = result.end } ≡ reply.now }
{
    PlannedReply {
        at: reply.at,
        got: reply.got.as_slice(),
        end: reply.end,
    }
}

impl Wire for MemoryWire {
    ghost use Rattle.bridge_ports.specs.Plans.{seen_of, reply_now, unread_bytes, Fails, next_ready, KeepsReadies};

    ghost state = { seen_of };

    /// Takes the room of `count` talks of at most `room` sent bytes each, but in the call that
    /// `lean_at` names. Once it forgets it takes none for the bytes.
    fn ready(&mut self, alloc: Global, count: u32, room: u64) -> Result<(), Memory>
        requires { (seen_of self.old).stage ≡ stages.Idle }
        ensures done { OnOk result (seen_of self.new ≡ made_ready count room (seen_of self.old)) }
        ensures refused { OnErr result (seen_of self.new ≡ seen_of self.old) }

        ensures number { self.new.readies ≡ next_ready self.old.readies }
        ensures lean { self.new.lean ≡ Some self.new.readies → IsErr result }
        ensures kept { (self.new.lean ≡ self.old.lean) × (self.new.calls ≡ self.old.calls) }
    {
        self.readies = self.readies.saturating_add(1);
        if self.lean == Some(self.readies) {
            return Err(AllocError);
        }
        self.talks.ready(alloc, count, room)
    }

    /// Answers the reading of the next reply, whatever `due` is.
    fn begin(&mut self, due: u64) -> u64
        requires free { (seen_of self.old).stage ≡ stages.Idle }
        requires allowed { 0 < (seen_of self.old).allowed }
        ensures wire { seen_of self.new ≡ begun_at result (seen_of self.old) }

        ensures reading { result ≡ (reply_now self.old).at }
        ensures calls { self.new.calls ≡ self.old.calls }
        ensures same { KeepsReadies self.old self.new }
    {
        let _ = due;
        let at = self.reply().at;
        self.talks.begin(at);
        at
    }

    /// Fails where it is named to, and where the reply has no connection. Counts of calls and faults
    /// stand still at 2^64 - 1, here and below.
    fn connect(&mut self) -> Result<(), Failed>
        requires { (seen_of self.old).stage ≡ stages.Begun }
        ensures cause { HasCause (seen_of self.old).faults (seen_of self.new).faults result }
        ensures done { OnOk result (seen_of self.new ≡ record (seen_of self.old) { stage = stages.Connected }) }
        ensures failed { OnErr result
            (seen_of self.new ≡ failed_at ConnectFailed (seen_of self.new).faults (seen_of self.old)) }

        ensures calls { self.new.calls ≡ one_more self.old.calls }
        ensures same { KeepsReadies self.old self.new }
        ensures fault { OnErr result (self.new.faults ≡ one_more self.old.faults) }
        ensures fails { IsErr result ↔ Fails ConnectFailed self.old self.new.calls }
    {
        if self.count_call() {
            return Err(self.fail(End::ConnectFailed));
        }
        if self.reply().end == End::ConnectFailed {
            return Err(self.fail(End::ConnectFailed));
        }
        self.talks.connect();
        Ok(())
    }

    /// Takes the piece whole, at most 2^32 - 1 bytes of it. Fails where it is named to, and where the
    /// reply has no write; then it takes nothing.
    fn write(&mut self, piece: &[u8]) -> Result<u32, Failed>
        requires connected { (seen_of self.old).stage ≡ stages.Connected }
        requires room { length piece.now ≤ (seen_of self.old).left }
        ensures bound { WritesAtMost result piece.now }
        ensures progress { IfOk result (λ count. count ≡ 0 → piece.now ≡ []) }
        ensures cause { HasCause (seen_of self.old).faults (seen_of self.new).faults result }
        ensures done { IfOk result (λ count.
            seen_of self.new ≡ sent_on (take count piece.now) (seen_of self.old)) }
        ensures failed { OnErr result
            (seen_of self.new ≡ failed_at WriteFailed (seen_of self.new).faults (seen_of self.old)) }

        ensures calls { self.new.calls ≡ one_more self.old.calls }
        ensures same { KeepsReadies self.old self.new }
        ensures fault { OnErr result (self.new.faults ≡ one_more self.old.faults) }
        ensures fails { IsErr result ↔ Fails WriteFailed self.old self.new.calls }
        ensures count { IfOk result (λ count. count ≡ min (length piece.now) most_at_once) }
    {
        if self.count_call() {
            return Err(self.fail(End::WriteFailed));
        }
        if self.reply().end == End::WriteFailed {
            return Err(self.fail(End::WriteFailed));
        }
        let count = piece.len().min(u32::MAX as usize);
        self.talks.send(&piece[..count]);
        Ok(count as u32)
    }

    /// Hands out as much of the reply as fits `into`, at most `most` bytes. Behind its last byte it
    /// fails where the reply has a failed read; it fails also where it is named to.
    fn read(&mut self, into: &mut [u8]) -> Result<u32, Failed>
        requires connected { (seen_of self.old).stage ≡ stages.Connected }
        requires some { 0 < length into.old }
        ensures bound { ReadsAtMost result into.new }
        ensures cause { HasCause (seen_of self.old).faults (seen_of self.new).faults result }
        ensures done { IfOk result (λ count.
            seen_of self.new ≡ after_read (take count into.new) (seen_of self.old)) }
        ensures failed { OnErr result
            (seen_of self.new ≡ failed_at ReadFailed (seen_of self.new).faults (seen_of self.old)) }

        ensures calls { self.new.calls ≡ one_more self.old.calls }
        ensures same { KeepsReadies self.old self.new }
        ensures fault { OnErr result (self.new.faults ≡ one_more self.old.faults) }
        ensures fails { IsErr result ↔ Fails ReadFailed self.old self.new.calls }
        ensures count { IfOk result (λ count. count ≡ min (min (length (unread_bytes self.old))
            (length into.old)) (min self.old.plan.most most_at_once)) }
        ensures front { IfOk result (λ count. take count into.new ≡ take count (unread_bytes self.old)) }
    {
        if self.count_call() {
            return Err(self.fail(End::ReadFailed));
        }
        let reply = self.reply();
        if self.talks.read() < reply.got.len() {
            return Ok(self.hand_out(into));
        }
        if reply.end == End::ReadFailed {
            return Err(self.fail(End::ReadFailed));
        }
        self.end_talk(End::Ended);
        Ok(0)
    }

    /// Leaves the talk, where one is under way.
    fn leave(&mut self)
        ensures wire { seen_of self.new ≡ left_at (seen_of self.old).stage (seen_of self.old) }

        ensures calls { self.new.calls ≡ self.old.calls }
        ensures same { KeepsReadies self.old self.new }
    {
        if self.talks.stage() != Stage::Idle {
            self.end_talk(End::Left);
        }
    }

    /// Keeps nothing of it.
    fn notice(&mut self, _notice: Notice) {}
}
