//! What a request asks for.
use crate::status::ReplyStatus;
use label_sets::List;
use series_select::Selector;

/// What a request asks for.
#[derive(Drop)]
pub enum Asked {
    /// The page with the readings that these selectors match, all where there are none.
    Page(List<Selector>),
    /// No head of a request that is taken came, or a selector that is none.
    BadRequest,
    /// Something else than the page.
    NotFound,
    /// It has another method than GET.
    NotAllowed,
}

impl Asked {
    ghost use Rattle.std.specs.Prelude.{◌≡◌};
    ghost use Rattle.page_server.specs.Serving.{status_of};

    /// The status that it is answered.
    pub fn status(&self) -> ReplyStatus
        ensures { result ≡ status_of self.now }
    {
        match self {
            Asked::Page(_) => ReplyStatus::Page,
            Asked::BadRequest => ReplyStatus::BadRequest,
            Asked::NotFound => ReplyStatus::NotFound,
            Asked::NotAllowed => ReplyStatus::NotAllowed,
        }
    }
}
