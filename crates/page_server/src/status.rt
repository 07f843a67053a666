//! What a connection is answered, and why it is not.

/// What a connection is answered.
#[derive(Clone, Copy, Debug, PartialEq, Eq)]
pub enum ReplyStatus {
    /// The page.
    Page,
    /// No head of a request that is taken came, or a selector that is none.
    BadRequest,
    /// The request asks for something else.
    NotFound,
    /// The request's method is another than GET.
    NotAllowed,
}

impl ReplyStatus {
    ghost use Rattle.std.specs.Prelude.{◌≡◌};
    ghost use Rattle.page_server.specs.Serving.{reply_code};

    /// Its number in HTTP.
    pub fn code(self) -> u16
        ensures { result ≡ reply_code self }
    {
        match self {
            ReplyStatus::Page => 200,
            ReplyStatus::BadRequest => 400,
            ReplyStatus::NotFound => 404,
            ReplyStatus::NotAllowed => 405,
        }
    }
}

/// Why a connection was not answered.
#[derive(Clone, Copy, Debug, PartialEq, Eq)]
pub enum ServeFault {
    /// A read failed while the head of the request was waited for.
    Read,
    /// A write of the reply failed.
    Write,
    /// There was no memory for the selectors or for the page.
    Memory,
}
