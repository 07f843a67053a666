//! A page that is read and written, with a gauge histogram, which no command prints.
use crate::calls::pages::page_of;
use label_sets::Memory;
use open_writing::write;
use page_model::{Format, Page, PageFault};
use std::alloc::Global;

// A page in another order and with other numbers than those that are written, with times and an exemplar.
const READ: &str = concat!(
    "# HELP a_s Time \"spent\"\\n in \\\\ it\n# UNIT a_s s\n# TYPE a_s counter\n",
    r#"a_s_created{k="a\"b\\c\nd"} 3.0"#,
    "\n",
    r#"a_s_total{k="a\"b\\c\nd"} 5.50 5 # {t="1"} 2"#,
    "\na_s_total 6 5\n",
    "# TYPE h histogram\n",
    "h_created{z=\"1\",a=\"1\"} 9\nh_sum{z=\"1\",a=\"1\"} 7\n",
    "h_bucket{z=\"1\",le=\"1.50\",a=\"1\"} 2 5\nh_bucket{z=\"1\",le=\"+Inf\",a=\"1\"} 1200 5 # {} 8\n",
    "h_count{z=\"1\",a=\"1\"} 1200\n",
    "h_bucket{a=\"2\",le=\"1.50\"} 2\nh_bucket{a=\"2\",le=\"+Inf\"} 1.2e3\n",
    "# TYPE g gaugehistogram\n",
    "g_gsum -4\ng_gcount 1200\ng_bucket{le=\"1.50\"} 2\ng_bucket{le=\"+Inf\"} 1200\n",
    "# TYPE q summary\n",
    "q_created{r=\"x\"} 2\nq_sum{r=\"x\"} 0\nq_count{r=\"x\"} 0\nq{r=\"x\",quantile=\"0.99\"} nan 5\n",
    "q{quantile=\"0.990\"} NaN\n",
    "# TYPE t info\nt_info{v=\"1\"} 1.0 5\n",
    "# TYPE x unknown\nx +inf\n",
    "# TYPE e stateset\n# EOF",
);

// The text as a model in another language writes it.
const WRITTEN: &str = concat!(
    "> # TYPE a_s counter\n# UNIT a_s s\n",
    r#"# HELP a_s Time \"spent\"\n in \\ it"#,
    "\n",
    r#"a_s_total{k="a\"b\\c\nd"} 5.5"#,
    "\n",
    r#"a_s_created{k="a\"b\\c\nd"} 3"#,
    "\na_s_total 6\n",
    "# TYPE h histogram\n",
    "h_bucket{a=\"1\",le=\"1.5\",z=\"1\"} 2\nh_bucket{a=\"1\",le=\"+Inf\",z=\"1\"} 1200\n",
    "h_count{a=\"1\",z=\"1\"} 1200\nh_sum{a=\"1\",z=\"1\"} 7\nh_created{a=\"1\",z=\"1\"} 9\n",
    "h_bucket{a=\"2\",le=\"1.5\"} 2\nh_bucket{a=\"2\",le=\"+Inf\"} 1200\n",
    "# TYPE g gaugehistogram\n",
    "g_bucket{le=\"1.5\"} 2\ng_bucket{le=\"+Inf\"} 1200\ng_gcount 1200\ng_gsum -4\n",
    "# TYPE q summary\n",
    "q{quantile=\"0.99\",r=\"x\"} NaN\nq_count{r=\"x\"} 0\nq_sum{r=\"x\"} 0\nq_created{r=\"x\"} 2\n",
    "q{quantile=\"0.99\"} NaN\n",
    "# TYPE t info\nt_info{v=\"1\"} 1\n",
    "# TYPE x unknown\nx +Inf\n",
    "# TYPE e stateset\n# EOF\n",
);

/// A page of OpenMetrics.
fn open_page(alloc: Global, text: &[u8]) -> Result<Page, PageFault> {
    page_of(alloc, Format::OpenMetrics, 100, text)
}

/// A page that is written behind what is there.
fn written(alloc: Global, page: &Page, front: &[u8]) -> Result<Vec<u8>, Memory> {
    let mut out = Vec::from_slice(alloc, front)?;
    write(page, &mut out)?;
    Ok(out)
}

/// The page of a text, written behind what is there.
fn written_again(alloc: Global, text: &[u8], front: &[u8]) -> Result<Vec<u8>, PageFault> {
    let page = open_page(alloc, text)?;
    let out = written(alloc, &page, front);
    drop(page);
    Ok(out?)
}

/// Whether the page is written so.
fn is_written(alloc: Global) -> Result<bool, PageFault> {
    let out = written_again(alloc, READ.as_bytes(), b"> ")?;
    Ok(out.as_slice() == WRITTEN.as_bytes())
}

#[test]
fn writes_behind_what_is_there(rt: HostRuntime) {
    assert!(rt; is_written(rt.alloc()) == Ok(true));
}
