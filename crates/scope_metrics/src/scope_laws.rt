//! Laws of the scopes: each call ensures one and does nothing.
ghost use Rattle.scope_metrics.specs.Laws.{OneScopeOfMarker, OneScopeOfReading, OneScopeAlone};

/// Each marker, and each reading with a point, is in one of the scopes.
pub fn each_has_one_scope()
    ensures marker { OneScopeOfMarker }
    ensures reading { OneScopeOfReading }
{}

/// Where neither a reading nor a marker names a scope, all metrics are in the bridge's own.
pub fn one_scope_alone()
    ensures { OneScopeAlone }
{}
