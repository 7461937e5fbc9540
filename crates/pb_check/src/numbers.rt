// Tests 7 to 10: the numbers that follow from the flows and the prices.

ghost use Rattle.std.specs.Prelude.{◌≡◌, ◌↔◌, ℕ, ◌<◌, pos, negsuc, length, IfOk, IsTrue, MatchOption, unwrap_or};
ghost use Rattle.pb_study.specs.WellFormed.{IsWellFormed, sweeps_of};
ghost use Rattle.pb_gap.specs.declared.gap.Gap.{Gap as GapValue};
ghost use Rattle.pb_gap.specs.Gap.{MeetsGap};
ghost use Rattle.pb_gap.specs.GapRange.{IsGapInRange};
ghost use Rattle.pb_stage.specs.Printed.{printed_gap};
ghost use Rattle.pb_check.specs.declared.faults.Test.{Test as TestValue};
ghost use Rattle.pb_check.specs.Asked.{IsStateAt, found_gap, found_high, found_low};
ghost use Rattle.pb_check.specs.Faults.{IsWholeFault, first_differing};
ghost use Rattle.pb_check.specs.Verdict.{Passes, test_code};
ghost use Rattle.pb_check.specs.Among.{IsAmong};
ghost use Rattle.pb_check.specs.Pairs.{IsPairOf};

use crate::bounds::bounds_fault;
use crate::faults::{Fault, Test, whole};
use pb_gap::{FlowPair, Gap};
use pb_study::{Solved, Stage};
use std::alloc::{AllocError, Global};

// If two gaps differ, the first number that does: h, and then g.
fn gap_difference(stated: Gap, found: Gap) -> Option<Fault>
    ensures { MatchOption result (stated ≡ found) (IsWholeFault (stated ≡ found)
        (first_differing (pos stated.h) (pos found.h) (pos stated.g) (pos found.g))) }
{
    if stated.h != found.h {
        return Some(whole(i128::from(stated.h), i128::from(found.h)));
    }
    if stated.g != found.g {
        return Some(whole(i128::from(stated.g), i128::from(found.g)));
    }
    None
}

/// The printed gap.
pub fn printed_gap(stage: &Stage) -> Gap
    requires { IsWellFormed stage.now }
    ensures value { result ≡ printed_gap stage.now }
    ensures range { IsGapInRange result }
{
    Gap {
        g: stage.g,
        h: stage.h,
    }
}

// Test 7: the printed gap is that of the flows and the prices. `deviations` is room for one number of each stream.
fn gap_fault(stage: &Stage, pair: &FlowPair, deviations: &mut [i128]) -> Option<Fault>
    requires formed { IsWellFormed stage.now }
    requires pair { IsPairOf stage.now pair.now }
    requires room { length deviations.old ≡ length pair.now.graph.streams }
    ensures { MatchOption result (printed_gap stage.now ≡ found_gap stage.now)
        (IsWholeFault (printed_gap stage.now ≡ found_gap stage.now)
        (first_differing (pos stage.now.h) (pos (found_gap stage.now).h)
        (pos stage.now.g) (pos (found_gap stage.now).g))) }
{
    gap_difference(printed_gap(stage), pair.gap(deviations))
}

// Whether a state is converged, in at most this many sweeps, if the gap is met, and unconverged, after all of them, if it isn't.
fn is_state(solved: Solved, met: bool, sweeps: u32) -> bool
    ensures { (gap : ℕ) (printed : GapValue) → (IsTrue met ↔ MeetsGap gap printed)
        → (IsTrue result ↔ IsStateAt gap sweeps printed solved) }
{
    match solved {
        Solved::Converged(k) => met && k <= sweeps,
        Solved::Unconverged(k) => !met && k == sweeps,
    }
}

// The number of sweeps done.
fn sweeps_of(solved: Solved) -> u32
    ensures { result ≡ sweeps_of solved }
{
    match solved {
        Solved::Converged(k) => k,
        Solved::Unconverged(k) => k,
    }
}

// Test 8: the state is converged exactly when the gap is met, and there are no more sweeps than were allowed.
fn state_fault(
    stage: &Stage,
    pair: &FlowPair,
    deviations: &mut [i128],
    gap: u32,
    sweeps: u32,
) -> Option<Fault>
    requires pair { IsPairOf stage.now pair.now }
    requires room { length deviations.old ≡ length pair.now.graph.streams }
    requires gap_is { printed_gap stage.now ≡ found_gap stage.now }
    ensures { MatchOption result (IsStateAt gap sweeps (printed_gap stage.now) stage.now.solved)
        (IsWholeFault (IsStateAt gap sweeps (printed_gap stage.now) stage.now.solved)
        (pos (sweeps_of stage.now.solved), pos sweeps)) }
{
    let met = pair.is_met(gap, deviations);
    if is_state(stage.solved, met, sweeps) {
        return None;
    }
    let done = sweeps_of(stage.solved);
    Some(whole(i128::from(done), i128::from(sweeps)))
}

// Whether two high ends are the same, or neither is there.
fn same_high(stated: Option<i128>, found: Option<i128>) -> bool
    ensures { IsTrue result ↔ (stated ≡ found) }
{
    match stated {
        None => found.is_none(),
        Some(stated) => match found {
            None => false,
            Some(found) => stated == found,
        },
    }
}

// If the ends of two statistics differ, the first that does: the low one, and then the high one.
fn ends_difference(
    low: i128,
    high: Option<i128>,
    found_low: i128,
    found_high: Option<i128>,
) -> Option<Fault>
    ensures { MatchOption result ((low ≡ found_low) × (high ≡ found_high))
        (IsWholeFault ((low ≡ found_low) × (high ≡ found_high)) (first_differing low found_low
        (unwrap_or high (negsuc 0)) (unwrap_or found_high (negsuc 0)))) }
{
    if low != found_low {
        return Some(whole(low, found_low));
    }
    if !same_high(high, found_high) {
        return Some(whole(high.unwrap_or(-1), found_high.unwrap_or(-1)));
    }
    None
}

// Test 10: the statistic is that of the flows and the printed gap.
fn statistic_fault(stage: &Stage, pair: &FlowPair) -> Option<Fault>
    requires formed { IsWellFormed stage.now }
    requires pair { IsPairOf stage.now pair.now }
    ensures { MatchOption result
        ((stage.now.low ≡ found_low stage.now) × (stage.now.high ≡ found_high stage.now))
        (IsWholeFault
        ((stage.now.low ≡ found_low stage.now) × (stage.now.high ≡ found_high stage.now))
        (first_differing stage.now.low (found_low stage.now)
        (unwrap_or stage.now.high (negsuc 0)) (unwrap_or (found_high stage.now) (negsuc 0)))) }
{
    let (low, high) = pair.statistic(printed_gap(stage));
    ends_difference(stage.low, stage.high, low, high)
}

/// The first of the tests 7 to 10 that fails, by the flows and the dual flows of the prices, for a stage that passes the tests before.
/// `deviations` is room for one number of each stream.
pub fn first_of_numbers(
    alloc: Global,
    stage: &Stage,
    pair: &FlowPair,
    deviations: &mut [i128],
    gap: u32,
    sweeps: u32,
) -> Result<Option<(Test, Fault)>, AllocError>
    requires formed { IsWellFormed stage.now }
    requires pair { IsPairOf stage.now pair.now }
    requires room { length deviations.old ≡ length pair.now.graph.streams }
    requires earlier { (test : TestValue) → test_code test < 7 → Passes stage.now gap sweeps test }
    ensures { IfOk result (IsAmong stage.now gap sweeps 7 10) }
{
    if let Some(fault) = gap_fault(stage, pair, deviations) {
        return Ok(Some((Test::Gap, fault)));
    }
    if let Some(fault) = state_fault(stage, pair, deviations, gap, sweeps) {
        return Ok(Some((Test::State, fault)));
    }
    if let Some(fault) = bounds_fault(alloc, stage, pair, printed_gap(stage))? {
        return Ok(Some((Test::Bounds, fault)));
    }
    if let Some(fault) = statistic_fault(stage, pair) {
        return Ok(Some((Test::Statistic, fault)));
    }
    Ok(None)
}
