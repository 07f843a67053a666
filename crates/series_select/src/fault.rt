//! Why texts are not read.

/// Why a text is not read as a selector.
#[derive(Clone, Copy, Debug, PartialEq, Eq)]
pub enum SelectFault {
    /// It is no selector.
    Form,
    /// Want of memory.
    Memory,
}

/// Why a query is not read.
#[derive(Clone, Copy, Debug, PartialEq, Eq)]
pub enum QueryFault {
    /// The first value of `match[]` that is no selector, counted from 1 among these values.
    Selector(u64),
    /// Want of memory.
    Memory,
}
