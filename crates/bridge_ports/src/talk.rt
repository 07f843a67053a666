//! Addresses, and talks over a wire (RFC 9112, section 9: a connection is made for each request and
//! closed behind its reply).
ghost use Rattle.std.specs.Prelude.{◌≡◌, IfOk};

use label_sets::{Bytes, Memory};

/// How a talk ended.
#[derive(Clone, Copy, Debug, PartialEq, Eq)]
pub enum End {
    /// No connection was made.
    ConnectFailed,
    /// A write failed.
    WriteFailed,
    /// A read failed.
    ReadFailed,
    /// The peer ended it.
    Ended,
    /// The bridge left it.
    Left,
}

/// How far a wire is.
#[derive(Clone, Copy, Debug, PartialEq, Eq)]
pub enum Stage {
    /// No talk is under way.
    Idle,
    /// A talk was begun.
    Begun,
    /// Its peer is connected.
    Connected,
}

/// A finished talk.
#[derive(Drop)]
pub struct Talk {
    /// The reading of the clock at its beginning, in nanoseconds since the Unix epoch.
    pub at: u64,
    /// The bytes that were sent.
    pub sent: Bytes,
    /// The bytes that were got.
    pub got: Bytes,
    /// How it ended.
    pub end: End,
}

/// Where a server is reached, and what is asked of it.
#[derive(Drop)]
pub struct Address {
    /// A host name or address.
    pub host: Bytes,
    /// From 1 to 65535.
    pub port: u16,
    /// The path and, where there is one, the query (RFC 9112, section 3.2.1).
    pub path: Bytes,
}

impl Address {
    /// An equal address.
    ///
    /// # Errors
    ///
    /// Want of memory.
    pub fn copy(&self) -> Result<Address, Memory>
        ensures { IfOk result (λ address. address ≡ self.now) }
    {
        Ok(Address {
            host: self.host.copy()?,
            port: self.port,
            path: self.path.copy()?,
        })
    }

    /// Equal addresses, of the scrapes and of the posts of one pair of wires.
    ///
    /// # Errors
    ///
    /// Want of memory.
    pub fn copy_both(scrape: &Address, post: &Address) -> Result<(Address, Address), Memory>
        ensures scrape { IfOk result (λ copies. copies.0 ≡ scrape.now) }
        ensures post { IfOk result (λ copies. copies.1 ≡ post.now) }
    {
        let scrape = scrape.copy()?;
        let post = post.copy()?;
        Ok((scrape, post))
    }
}

/// Whose wire it is.
#[derive(Clone, Copy, Debug, PartialEq, Eq)]
pub struct Place {
    /// The number of the target, counted from 1.
    pub number: u32,
    /// Whether the wire carries posts, not scrapes.
    pub post: bool,
}

/// What a wire in memory answers in one talk.
#[derive(Drop)]
pub struct MemoryReply {
    /// The reading of the clock, in nanoseconds since the Unix epoch.
    pub at: u64,
    /// The bytes of the reply.
    pub got: Bytes,
    /// How the talk ends behind them; [`End::Left`] counts as [`End::Ended`].
    pub end: End,
}
