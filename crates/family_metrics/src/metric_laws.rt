//! Laws of the markers among the metrics: each call ensures one and does nothing.
ghost use Rattle.family_metrics.specs.Laws.{OneMetricOfThePage, OneMetricAlone};

/// Each marker has one place: in the metric of the page to which its series belongs, or in one of its own.
pub fn markers_have_one_place()
    ensures page { OneMetricOfThePage }
    ensures alone { OneMetricAlone }
{}
