//! The messages of an export request.
use exact_decimal::Number;
use histogram_layout::Layout;
use label_sets::{LabelSet, List, Text};
use page_model::Quantile;

/// An export request (`ExportMetricsServiceRequest`).
#[derive(Drop)]
pub struct Request {
    /// One for each resource: that of the target now, and behind it that of before, where series of it are gone.
    pub parts: List<ResourceMetrics>,
}

/// The metrics of one resource (`ResourceMetrics`).
#[derive(Drop)]
pub struct ResourceMetrics {
    /// The attributes of the resource, in the order in which they are sent.
    pub resource: List<Attribute>,
    /// The metrics of the resource, by scope.
    pub scopes: List<ScopeMetrics>,
}

/// An attribute of a resource (`KeyValue`).
#[derive(Drop)]
pub struct Attribute {
    pub key: Text,
    pub value: AttributeValue,
}

/// An attribute's value (`AnyValue`).
#[derive(Drop)]
pub enum AttributeValue {
    /// `stringValue`.
    Str(Text),
    /// `intValue`; the bridge sends none below zero.
    Int(u64),
}

/// The metrics of one scope (`ScopeMetrics`).
#[derive(Drop)]
pub struct ScopeMetrics {
    /// The scope's name (`InstrumentationScope`).
    pub name: Text,
    /// The scope's version; empty where it isn't known.
    pub version: Text,
    pub metrics: List<Metric>,
}

/// A metric with its points (`Metric`).
#[derive(Drop)]
pub struct Metric {
    pub name: Text,
    /// What the metric measures; empty where it isn't known.
    pub description: Text,
    /// The unit as it was scraped; empty where it isn't known.
    pub unit: Text,
    pub shape: Shape,
}

/// The points of a metric, by their kind (the `data` of a `Metric`).
#[derive(Drop)]
pub enum Shape {
    /// Values at their times (`Gauge`). The points have no start.
    Gauge(List<NumberPoint>),
    /// Values that count from a start on (`Sum` with cumulative temporality).
    Sum {
        points: List<NumberPoint>,
        /// Whether the value never falls between a start and the next.
        monotonic: bool,
    },
    /// Observations by bounds that count from a start on (`Histogram` with cumulative temporality).
    Histogram(List<HistogramPoint>),
    /// Quantiles of observations (`Summary`).
    Summary(List<SummaryPoint>),
}

/// A value of one series at one time (`NumberDataPoint`).
#[derive(Drop)]
pub struct NumberPoint {
    /// The attributes of the series, in byte order of their names.
    pub labels: LabelSet,
    /// Since when the value counts, in nanoseconds since the Unix epoch; `None` for a gauge.
    pub start: Option<u64>,
    /// When the value was read, in nanoseconds since the Unix epoch.
    pub time: u64,
    /// The value; `None` where the series has none any more (the flag `NO_RECORDED_VALUE`).
    pub value: Option<Number>,
    /// In the order of the page.
    pub exemplars: List<Shot>,
}

/// The observations of one series up to one time (`HistogramDataPoint`).
#[derive(Drop)]
pub struct HistogramPoint {
    /// The attributes of the series, in byte order of their names.
    pub labels: LabelSet,
    /// Since when the observations count, in nanoseconds since the Unix epoch.
    pub start: u64,
    /// When they were read, in nanoseconds since the Unix epoch.
    pub time: u64,
    /// The observations; `None` where the series has none any more (the flag `NO_RECORDED_VALUE`).
    pub value: Option<HistogramValue>,
    /// In the order of the page.
    pub exemplars: List<Shot>,
}

/// Observations by the bounds between which they lie.
#[derive(Drop)]
pub struct HistogramValue {
    /// `explicitBounds`, `bucketCounts` and `count`.
    pub layout: Layout,
    /// The sum of the observations, where it is known.
    pub sum: Option<Number>,
}

/// The quantiles of one series at one time (`SummaryDataPoint`).
#[derive(Drop)]
pub struct SummaryPoint {
    /// The attributes of the series, in byte order of their names.
    pub labels: LabelSet,
    /// Since when the observations count, in nanoseconds since the Unix epoch.
    pub start: u64,
    /// When they were read, in nanoseconds since the Unix epoch.
    pub time: u64,
    /// The quantiles; `None` where the series has none any more (the flag `NO_RECORDED_VALUE`).
    pub value: Option<SummaryValue>,
}

/// The count, the sum and some quantiles of observations.
#[derive(Drop)]
pub struct SummaryValue {
    pub count: u64,
    pub sum: Number,
    /// In the order of the page (`ValueAtQuantile`).
    pub quantiles: List<Quantile>,
}

/// One observation that stands for others, as a point carries it (`Exemplar`).
#[derive(Drop)]
pub struct Shot {
    /// The labels that are neither the trace nor the span (`filteredAttributes`).
    pub attributes: LabelSet,
    /// When it was observed, in nanoseconds since the Unix epoch.
    pub time: u64,
    pub value: Number,
    /// Not 0.
    pub trace: Option<u128>,
    /// Not 0.
    pub span: Option<u64>,
}
