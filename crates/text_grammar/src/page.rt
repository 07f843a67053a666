//! Pages of the text format (Prometheus text format 0.0.4, "Text-based format").
use crate::line::TextLines;
use page_feeding::PageReader;

/// A reader of one page of the Prometheus text format 0.0.4: it is fed the bytes of the page in pieces of
/// any size, and at the end gives the page, or the first fault: the least line that breaks a rule, with the
/// least rule that it breaks.
///
/// # Example
///
/// ```rust
/// let mut reader = TextPage::new(alloc, Treatment::Scraped, 200_000)?;
/// reader.feed(b"x{} 1\ny { a = \"1\" , } 2 1000\n")?;
/// let page = reader.finish()?;
/// assert_eq!(rt; (page.families().len(), page.samples()), (2, 2));
/// ```
pub type TextPage = PageReader<TextLines>;
