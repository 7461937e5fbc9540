// Tests 11 and 12: the nodal tests, and the verdicts.

ghost use Rattle.std.specs.Prelude.{◌≡◌, ◌↔◌, ◌<◌, map, All, IfNone, IfOk, IfSome, IsTrue, MatchOption};
ghost use Rattle.pb_limits.specs.Ranges.{IsCriticalValue};
ghost use Rattle.pb_study.specs.WellFormed.{AreTestsWithin, IsWellFormed};
ghost use Rattle.pb_stage.specs.Laws.{IsNodalNumber};
ghost use Rattle.pb_stage.specs.Certified.{IsMeasureVerdict, IsNodalVerdict, unjudged};
ghost use Rattle.pb_check.specs.declared.faults.Test.{Test as TestValue};
ghost use Rattle.pb_check.specs.Asked.{IsGlobalVerdict};
ghost use Rattle.pb_check.specs.Faults.{AreRowsFault, AreVerdictsFault};
ghost use Rattle.pb_check.specs.Places.{AreNodalRows, AreVerdicts, IsFirstMeasure, IsFirstNodal, IsNodalRowsFault, IsRowDifference};
ghost use Rattle.pb_check.specs.Verdict.{Passes, test_code};
ghost use Rattle.pb_check.specs.Among.{IsAmong};

use crate::faults::{Fault, Test, at_node, at_stream, whole};
use pb_stage::{global, nodal_tests, nodal_verdict, verdict};
use pb_study::{MeasureTest, NodalTest, Stage, Tests};
use std::alloc::{AllocError, Global};

// If a row isn't the test of its group, the first number that differs: the node, the net flow, and then the variance.
fn row_difference(row: &NodalTest, test: &NodalTest) -> Option<Fault>
    requires { unjudged test.now ≡ test.now }
    ensures { MatchOption result (unjudged row.now ≡ test.now) (IsRowDifference row.now test.now) }
{
    if row.node != test.node {
        return Some(at_node(row.node, i128::from(row.node), i128::from(test.node)));
    }
    if row.net != test.net {
        return Some(at_node(row.node, row.net, test.net));
    }
    if row.variance != test.variance {
        return Some(at_node(row.node, row.variance, test.variance));
    }
    None
}

// If the rows aren't the tests of the groups: their number, or the first row that isn't its test.
fn rows_fault(rows: &[NodalTest], rule: &[NodalTest]) -> Option<Fault>
    requires { All (λ test. unjudged test ≡ test) rule.now }
    ensures { MatchOption result (map unjudged rows.now ≡ rule.now)
        (AreRowsFault (map unjudged rows.now) rule.now) }
{
    if rows.len() != rule.len() {
        return Some(whole(rows.len() as i128, rule.len() as i128));
    }
    for (i, row) in rows.iter().enumerate() {
        if let Some(fault) = row_difference(row, &rule[i]) {
            return Some(fault);
        }
    }
    None
}

// Test 11: except for critical values and verdicts, the nodal rows are the tests of the graph.
fn nodal_fault(alloc: Global, stage: &Stage, tests: &Tests) -> Result<Option<Fault>, AllocError>
    ensures rows { IfOk result (λ found. MatchOption found (AreNodalRows stage.now tests.now)
        (IsNodalRowsFault stage.now tests.now)) }
    ensures numbers { IfOk result (λ found. IfNone found (All IsNodalNumber tests.now.nodal)) }
{
    let rule = nodal_tests(alloc, &stage.graph, None)?;
    Ok(rows_fault(tests.nodal.as_slice(), rule.as_slice()))
}

// Whether the verdict of a nodal row follows from its numbers.
fn is_nodal_verdict(row: &NodalTest) -> bool
    requires number { IsNodalNumber row.now }
    requires critical { IfSome row.now.critical IsCriticalValue }
    ensures { IsTrue result ↔ IsNodalVerdict row.now }
{
    row.verdict == nodal_verdict(row.net, row.variance, row.critical)
}

// Whether the verdict of a measurement follows from its numbers.
fn is_measure_verdict(row: &MeasureTest) -> bool
    ensures { IsTrue result ↔ IsMeasureVerdict row.now }
{
    row.verdict == verdict(row.low, row.high, row.critical)
}

// Whether the global verdict follows from the statistic: without degrees of freedom there is nothing to test.
fn is_global_verdict(stage: &Stage, tests: &Tests) -> bool
    ensures { IsTrue result ↔ IsGlobalVerdict stage.now tests.now }
{
    let critical = tests.global.critical;
    tests.global.verdict == global(stage.low, stage.high, stage.dof, critical)
}

// The first nodal row whose verdict doesn't follow from its numbers.
fn nodal_verdict_fault(rows: &[NodalTest]) -> Option<Fault>
    requires numbers { All IsNodalNumber rows.now }
    requires critical { All (λ row. IfSome row.critical IsCriticalValue) rows.now }
    ensures { MatchOption result (All IsNodalVerdict rows.now) (IsFirstNodal rows.now) }
{
    for row in rows {
        if !is_nodal_verdict(row) {
            return Some(at_node(row.node, 0, 0));
        }
    }
    None
}

// The first measurement whose verdict doesn't follow from its numbers.
fn measure_verdict_fault(rows: &[MeasureTest]) -> Option<Fault>
    ensures { MatchOption result (All IsMeasureVerdict rows.now) (IsFirstMeasure rows.now) }
{
    for row in rows {
        if !is_measure_verdict(row) {
            return Some(at_stream(row.stream));
        }
    }
    None
}

// Test 12: each verdict follows from the printed numbers: that of the whole, of the nodes, and of the measurements, in this order.
fn verdict_fault(stage: &Stage, tests: &Tests) -> Option<Fault>
    requires formed { AreTestsWithin stage.now.graph tests.now }
    requires numbers { All IsNodalNumber tests.now.nodal }
    ensures { MatchOption result (AreVerdicts stage.now tests.now)
        (AreVerdictsFault stage.now tests.now) }
{
    if !is_global_verdict(stage, tests) {
        return Some(whole(0, 0));
    }
    if let Some(fault) = nodal_verdict_fault(tests.nodal.as_slice()) {
        return Some(fault);
    }
    measure_verdict_fault(tests.measure.as_slice())
}

/// The first of the tests 11 and 12 that fails, for a stage that passes those before. They are made only if there are tests.
pub fn first_of_tests(
    alloc: Global,
    stage: &Stage,
    gap: u32,
    sweeps: u32,
) -> Result<Option<(Test, Fault)>, AllocError>
    requires formed { IsWellFormed stage.now }
    requires earlier { (test : TestValue) → test_code test < 11 → Passes stage.now gap sweeps test }
    ensures { IfOk result (IsAmong stage.now gap sweeps 11 12) }
{
    let Some(tests) = &stage.tests else {
        return Ok(None);
    };
    if let Some(fault) = nodal_fault(alloc, stage, tests)? {
        return Ok(Some((Test::Nodal, fault)));
    }
    match verdict_fault(stage, tests) {
        Some(fault) => Ok(Some((Test::Verdict, fault))),
        None => Ok(None),
    }
}
