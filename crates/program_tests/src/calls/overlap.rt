//! That the scrapes of a run overlap, whose world and wires are not those of the bridge.
use crate::calls::doors::{ending_in, world};
use crate::calls::gated_world::GatedWorld;
use gated_wires::Gates;
use label_sets::Memory;
use std::alloc::Global;
use std::sync::Wait;
use std::thread::Threads;
use std::time::Clock;

const ONE_ROUND: &str = "collector = \"http://127.0.0.1:4318\"
rounds = 1
scrapers = 2
";

/// The status of a run of the configuration in a world with gates, whether its output is this, and whether the gates were
/// passed.
fn ending_behind_gates<R: Threads + Wait + Clock + Sync>(
    rt: &R,
    alloc: Global,
    wanted: &str,
) -> Result<(u8, bool, bool), Memory> {
    let world = world(alloc, ONE_ROUND.as_bytes())?;
    let gates = Gates::new();
    let mut gated = GatedWorld::new(rt, &gates, world);
    let ending = ending_in(rt, alloc, &mut gated, wanted);
    drop(gated);
    let were_passed = gates.were_passed();
    drop(gates);
    let (status, is_wanted) = ending?;
    Ok((status, is_wanted, were_passed))
}

const ONE_VISIT: &str =
    "target 1 a h1:80 visits 1 failed 0 points 3 markers 0 accepted 1 refused 0 givenup 0 halted 0
target 2 b h2:80 visits 1 failed 0 points 3 markers 0 accepted 1 refused 0 givenup 0 halted 0
all visits 2 failed 0 points 6 markers 0 accepted 2 refused 0 givenup 0 halted 0
served 0
";

// The reply of each of two targets comes only once there is a connection to the other: so one visit after the other, or
// a lock that is held through a visit, leaves a gate shut.
#[test]
fn two_scrapes_of_a_run_overlap(rt: HostRuntime) {
    assert!(rt; ending_behind_gates(&rt, rt.alloc(), ONE_VISIT) == Ok((0, true, true)));
}
