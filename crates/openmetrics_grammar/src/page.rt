//! Pages of OpenMetrics (OpenMetrics 1.0, "Overall Structure").
use crate::line::OpenLines;
use page_feeding::PageReader;

/// A reader of one page of OpenMetrics 1.0: it is fed the bytes of the page in pieces of any size, and at the
/// end gives the page, or the first fault: the least line that breaks a rule, with the least rule that it breaks.
///
/// # Example
///
/// ```rust
/// let mut reader = OpenPage::counting(alloc, Treatment::Scraped, 200_000)?;
/// reader.feed(b"# TYPE i info\ni_info{v=\"1\"} 1\n")?;
/// reader.feed(b"# TYPE s stateset\ns{s=\"a\"} 1\ns{s=\"b\"} 0\n# EOF\n")?;
/// let counts = reader.count()?;
/// assert_eq!(rt; (counts.families, counts.samples), (2, 3));
/// ```
pub type OpenPage = PageReader<OpenLines>;
