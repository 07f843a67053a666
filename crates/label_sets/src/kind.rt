//! The kinds of metric families.

/// The kind of a metric family (OpenMetrics 1.0, "Metric Types"); text 0.0.4 writes
/// [`Kind::Unknown`] as `untyped`.
#[derive(Clone, Copy, Debug, PartialEq, Eq, PartialOrd, Ord, Hash)]
pub enum Kind {
    Counter,
    Gauge,
    Histogram,
    GaugeHistogram,
    StateSet,
    Info,
    Summary,
    Unknown,
}
