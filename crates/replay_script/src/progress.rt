//! What is kept of the parts that were read.
ghost use Rattle.std.specs.Prelude.{◌≡◌, ◌*◌, List as Seq, [], length, nat_lt, IfOk, OnOk};
ghost use Rattle.replay_script.specs.ScriptParts as spec;
ghost use Rattle.replay_script.specs.Progresses.{part_found_as, words_found_as, has_whole_target, Knows, IsClosed, PutsReply, TakesPart, Ends};

use crate::header::{Header, HeaderLine};
use crate::parts::{FoundPart, PageWords, ReplyWords, TargetWords};
use crate::replies::{page_reply, raw_reply};
use crate::script::{Script, ScriptTarget};
use crate::targets::{has_namesake, is_target_line, target};
use bridge_ports::{MOST_TARGETS, MemoryReply, Target};
use label_sets::List;
use std::alloc::{AllocError, Global};
use std::mem;

/// The place before the opening line.
const BEFORE_ALL: u32 = 8;

/// The place behind the header.
const BEHIND_HEADER: u32 = 7;

/// The most bytes of a record.
const MOST_BODY_BYTES: usize = 0xFFFF_FFFF;

/// What is kept of the parts that were read.
#[derive(Drop)]
pub(crate) struct Progress {
    /// Where the parts are in the order of the header.
    place: u32,
    header: Header,
    /// The targets above the one that records belong to, each with all its scrapes.
    finished: Vec<ScriptTarget>,
    /// The target that records belong to, and what they say of it.
    target: Option<Target>,
    scrapes: Vec<MemoryReply>,
    posts: Vec<MemoryReply>,
}

impl Progress {
    /// Nothing was read.
    pub(crate) fn new(alloc: Global) -> Progress
        ensures { Knows [] result }
    {
        Progress {
            place: BEFORE_ALL,
            header: Header::new(),
            finished: Vec::new(alloc),
            target: None,
            scrapes: Vec::new(alloc),
            posts: Vec::new(alloc),
        }
    }

    /// Takes the opening line, where it may follow.
    fn open_script(&mut self) -> bool
        ensures { TakesPart spec.opening self.old self.new result }
    {
        if self.place != BEFORE_ALL {
            return false;
        }
        self.place = 0;
        true
    }

    /// Takes a header line, where it may follow.
    fn header_line(&mut self, line: HeaderLine, number: u64) -> bool
        ensures { TakesPart (spec.header line number) self.old self.new result }
    {
        if line.place() <= self.place {
            return false;
        }
        if !line.may_have(number) {
            return false;
        }
        self.place = line.place();
        self.header = self.header.with(line, number as u32);
        true
    }

    /// Whether the target that records belong to, where there is one, has all its scrapes.
    fn has_whole_target(&self) -> bool
        ensures { result ≡ has_whole_target self.now }
    {
        match &self.target {
            None => true,
            Some(_) => self.scrapes.len() == self.header.rounds as usize,
        }
    }

    /// Puts the target that records belong to, where there is one, behind those that are finished.
    fn close_target(&mut self, alloc: Global) -> Result<(), AllocError>
        ensures { IfOk result (λ _. IsClosed self.old self.new) }
    {
        let scrapes = mem::replace(&mut self.scrapes, Vec::new(alloc));
        let posts = mem::replace(&mut self.posts, Vec::new(alloc));
        let (scrapes, posts) = both_lists(scrapes, posts)?;
        match self.target.take() {
            Some(target) => {
                self.finished.push(ScriptTarget {
                    target,
                    scrapes,
                    posts,
                })?;
                Ok(())
            }
            None => Ok(()),
        }
    }

    /// Takes a target line, where it may follow.
    fn target_line(&mut self, alloc: Global, words: &TargetWords<'_>) -> Result<bool, AllocError>
        ensures { IfOk result (TakesPart (spec.target (words_found_as words.now)) self.old self.new) }
    {
        if self.header.rounds == 0 {
            return Ok(false);
        }
        if !self.has_whole_target() {
            return Ok(false);
        }
        if !is_target_line(words) {
            return Ok(false);
        }
        self.close_target(alloc)?;
        if self.finished.len() >= MOST_TARGETS {
            return Ok(false);
        }
        let target = target(alloc, words, self.header.honor)?;
        if has_namesake(self.finished.as_slice(), &target) {
            return Ok(false);
        }
        self.target = Some(target);
        self.place = BEHIND_HEADER;
        Ok(true)
    }

    /// Puts the reply to a scrape behind those of the target that records belong to.
    fn put_reply(&mut self, reply: MemoryReply) -> Result<(), AllocError>
        ensures { OnOk result (PutsReply reply self.old self.new) }
    {
        self.scrapes.push(reply)?;
        self.place = BEHIND_HEADER;
        Ok(())
    }

    /// Takes a record of a page, where it may follow.
    fn page(&mut self, alloc: Global, page: &PageWords<'_>) -> Result<bool, AllocError>
        ensures { IfOk result (TakesPart (spec.page page.now.at page.now.format page.now.body.now) self.old self.new) }
    {
        if self.target.is_none() {
            return Ok(false);
        }
        if page.body.len() > MOST_BODY_BYTES {
            return Ok(false);
        }
        let reply = page_reply(alloc, page.at, page.format, page.body)?;
        self.put_reply(reply)?;
        Ok(true)
    }

    /// Takes a record of a scrape, where it may follow.
    fn scrape(&mut self, alloc: Global, words: &ReplyWords<'_>) -> Result<bool, AllocError>
        ensures { IfOk result (TakesPart (spec.scrape words.now.at words.now.ending words.now.got.now) self.old self.new) }
    {
        if self.target.is_none() {
            return Ok(false);
        }
        if words.got.len() > MOST_BODY_BYTES {
            return Ok(false);
        }
        if !words.ending.may_have(words.got) {
            return Ok(false);
        }
        let reply = raw_reply(alloc, words.at, words.ending, words.got)?;
        self.put_reply(reply)?;
        Ok(true)
    }

    /// Whether there may be one post more.
    fn may_post(&self) -> bool
        ensures { result ≡ nat_lt (length self.now.posts.items) (self.now.header.rounds * self.now.header.tries) }
    {
        let most = u64::from(self.header.rounds).saturating_mul(u64::from(self.header.tries));
        (self.posts.len() as u64) < most
    }

    /// Takes a record of a post, where it may follow.
    fn post(&mut self, alloc: Global, words: &ReplyWords<'_>) -> Result<bool, AllocError>
        ensures { IfOk result (TakesPart (spec.post words.now.at words.now.ending words.now.got.now) self.old self.new) }
    {
        if self.target.is_none() {
            return Ok(false);
        }
        if !self.may_post() {
            return Ok(false);
        }
        if words.got.len() > MOST_BODY_BYTES {
            return Ok(false);
        }
        if !words.ending.may_have(words.got) {
            return Ok(false);
        }
        let reply = raw_reply(alloc, words.at, words.ending, words.got)?;
        self.posts.push(reply)?;
        self.place = BEHIND_HEADER;
        Ok(true)
    }

    /// Takes the next part, where it may follow.
    pub(crate) fn take(&mut self, alloc: Global, part: &FoundPart<'_>) -> Result<bool, AllocError>
        ensures { IfOk result (TakesPart (part_found_as part.now) self.old self.new) }
    {
        match part {
            FoundPart::Opening => Ok(self.open_script()),
            FoundPart::Header(line, number) => Ok(self.header_line(*line, *number)),
            FoundPart::Target(words) => self.target_line(alloc, words),
            FoundPart::Page(page) => self.page(alloc, page),
            FoundPart::Scrape(words) => self.scrape(alloc, words),
            FoundPart::Post(words) => self.post(alloc, words),
        }
    }

    /// What the parts say, where a script may end behind them.
    pub(crate) fn finish(&mut self, alloc: Global) -> Result<Option<Script>, AllocError>
        ensures { (parts : Seq spec.Part) → Knows parts self.old → IfOk result (Ends parts) }
    {
        if self.target.is_none() {
            return Ok(None);
        }
        if !self.has_whole_target() {
            return Ok(None);
        }
        self.close_target(alloc)?;
        let finished = mem::replace(&mut self.finished, Vec::new(alloc));
        let targets = List::from_vec(finished)?;
        Ok(Some(Script {
            header: self.header,
            targets,
        }))
    }
}

/// Two vectors as lists.
fn both_lists<T: Drop>(first: Vec<T>, second: Vec<T>) -> Result<(List<T>, List<T>), AllocError>
    ensures first { IfOk result (λ lists. lists.0 ≡ first.items) }
    ensures second { IfOk result (λ lists. lists.1 ≡ second.items) }
{
    let first = List::from_vec(first)?;
    let second = List::from_vec(second)?;
    Ok((first, second))
}
