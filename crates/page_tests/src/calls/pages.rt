//! The pages of texts, for the tests.
use line_scan::KnownFronts;
use page_model::{Format, Page, PageFault, Treatment};
use page_reader::AnyReader;
use std::alloc::Global;

/// Feeds a text, where a reader has room for it. Its fault, the end answers again.
fn feed(reader: &mut AnyReader, text: &[u8]) {
    if reader.has_room(text) {
        let _fault = reader.feed(text);
    }
}

/// The page of a text in this format with so many samples at most, or its first fault.
pub(crate) fn page_of(
    alloc: Global,
    format: Format,
    limit: u32,
    text: &[u8],
) -> Result<Page, PageFault> {
    let mut reader = AnyReader::new(alloc, format, Treatment::Scraped, limit)?;
    feed(&mut reader, text);
    reader.finish()
}

/// The fronts of a text's page.
fn fronts_of(alloc: Global, format: Format, text: &[u8]) -> Result<KnownFronts, PageFault> {
    let mut fronts = KnownFronts::new(alloc);
    let known = KnownFronts::new(alloc);
    let mut reader = AnyReader::with_fronts(alloc, format, Treatment::Scraped, 200_000, known)?;
    feed(&mut reader, text);
    match reader.finish_with(&mut fronts) {
        Ok(page) => {
            drop(page);
            Ok(fronts)
        }
        Err(fault) => Err(fault),
    }
}

/// The page of a text that is read behind another text in its own format, or its first fault.
pub(crate) fn page_behind(
    alloc: Global,
    format: Format,
    text: &[u8],
    before: (Format, &[u8]),
) -> Result<Page, PageFault> {
    let fronts = fronts_of(alloc, before.0, before.1)?;
    let mut reader = AnyReader::with_fronts(alloc, format, Treatment::Scraped, 200_000, fronts)?;
    feed(&mut reader, text);
    reader.finish()
}
