//! The points of a tree, counted.
ghost use Rattle.std.specs.Prelude.{◌≡◌, ◌+◌, Bool, not, is_some, count_by};
ghost use Rattle.std.specs.List.{sum_by};
ghost use Rattle.series_table.specs.Counting.{valued_points, unvalued_points, valued_in, unvalued_in, over_scopes, as_count};
ghost use Rattle.series_table.specs.Making.{point_counts};
ghost use Rattle.otlp_tree.specs.declared.tree.ResourceMetrics.{ResourceMetrics as AnyPart};

use otlp_tree::{
    HistogramPoint, Metric, NumberPoint, Request, ResourceMetrics, ScopeMetrics, Shape,
    SummaryPoint,
};

/// How many points have a value, and how many have none. A count stands still at 2^64 - 1.
#[derive(Clone, Copy)]
pub(crate) struct PointCounts {
    pub(crate) valued: u64,
    pub(crate) unvalued: u64,
}

/// No points.
const NO_POINTS: PointCounts = PointCounts {
    valued: 0,
    unvalued: 0,
};

impl PointCounts {
    /// The points of both.
    fn and(self, more: PointCounts) -> PointCounts
        ensures { result ≡ record { valued = as_count (self.valued + more.valued); unvalued = as_count (self.unvalued + more.unvalued) } }
    {
        PointCounts {
            valued: self.valued.saturating_add(more.valued),
            unvalued: self.unvalued.saturating_add(more.unvalued),
        }
    }
}

/// A point, of which may be asked whether it has a value.
trait MayHaveValue {
    ghost valued: { Self → Bool };

    fn has_value(&self) -> bool
        ensures { result ≡ valued self.now };
}

impl MayHaveValue for NumberPoint {
    ghost valued = { λ p. is_some p.value };

    fn has_value(&self) -> bool {
        self.value.is_some()
    }
}

impl MayHaveValue for HistogramPoint {
    ghost valued = { λ p. is_some p.value };

    fn has_value(&self) -> bool {
        self.value.is_some()
    }
}

impl MayHaveValue for SummaryPoint {
    ghost valued = { λ p. is_some p.value };

    fn has_value(&self) -> bool {
        self.value.is_some()
    }
}

fn of_points<P: MayHaveValue>(points: &[P]) -> PointCounts
    ensures valued { result.valued ≡ count_by P.valued points.now }
    ensures unvalued { result.unvalued ≡ count_by (λ p. not (P.valued p)) points.now }
{
    let mut valued = 0;
    let mut unvalued = 0;
    for point in points {
        if point.has_value() {
            valued += 1;
        } else {
            unvalued += 1;
        }
    }
    PointCounts { valued, unvalued }
}

fn of_shape(shape: &Shape) -> PointCounts
    ensures valued { result.valued ≡ valued_points shape.now }
    ensures unvalued { result.unvalued ≡ unvalued_points shape.now }
{
    match shape {
        Shape::Gauge(points) => of_points(points.as_slice()),
        Shape::Sum { points, .. } => of_points(points.as_slice()),
        Shape::Histogram(points) => of_points(points.as_slice()),
        Shape::Summary(points) => of_points(points.as_slice()),
    }
}

fn of_metrics(metrics: &[Metric]) -> PointCounts
    ensures valued { result.valued ≡ as_count (sum_by valued_in metrics.now) }
    ensures unvalued { result.unvalued ≡ as_count (sum_by unvalued_in metrics.now) }
{
    let mut counts = NO_POINTS;
    for metric in metrics {
        counts = counts.and(of_shape(&metric.shape));
    }
    counts
}

fn of_scopes(scopes: &[ScopeMetrics]) -> PointCounts
    ensures valued { result.valued ≡ as_count (over_scopes valued_in scopes.now) }
    ensures unvalued { result.unvalued ≡ as_count (over_scopes unvalued_in scopes.now) }
{
    let mut counts = NO_POINTS;
    for scope in scopes {
        counts = counts.and(of_metrics(scope.metrics.as_slice()));
    }
    counts
}

fn of_parts(parts: &[ResourceMetrics]) -> PointCounts
    ensures valued { result.valued ≡ as_count (sum_by (λ (part : AnyPart). over_scopes valued_in part.scopes) parts.now) }
    ensures unvalued { result.unvalued ≡ as_count (sum_by (λ (part : AnyPart). over_scopes unvalued_in part.scopes) parts.now) }
{
    let mut counts = NO_POINTS;
    for part in parts {
        counts = counts.and(of_scopes(part.scopes.as_slice()));
    }
    counts
}

/// The points of a tree, of all its parts.
pub(crate) fn of_tree(tree: &Request) -> PointCounts
    ensures { result ≡ point_counts tree.now }
{
    of_parts(tree.parts.as_slice())
}
