// The judgement of a stage.

ghost use Rattle.std.specs.Prelude.{◌≡◌, ◌≤◌, IfErr, IfOk, OnOk};
ghost use Rattle.pb_limits.specs.Limits.{most_gap, most_sweeps};
ghost use Rattle.pb_study.specs.WellFormed.{IsWellFormed};
ghost use Rattle.pb_check.specs.Verdict.{IsPassed, IsRefusal, IsRefusalWithin};
ghost use Rattle.pb_check.specs.Among.{IsAmong};

use crate::faults::{CheckFault, Fault, Test};
use crate::flows::first_of_flows;
use crate::graphs::first_of_graph;
use pb_study::Stage;
use std::alloc::{AllocError, Global};

// The first of all tests that the stage fails.
fn first_of_all(
    alloc: Global,
    stage: &Stage,
    gap: u32,
    sweeps: u32,
) -> Result<Option<(Test, Fault)>, AllocError>
    requires formed { IsWellFormed stage.now }
    requires some { 1 ≤ gap }
    requires most { gap ≤ most_gap }
    requires sweeps { sweeps ≤ most_sweeps }
    ensures { IfOk result (IsAmong stage.now gap sweeps 1 13) }
{
    if let Some(first) = first_of_graph(alloc, stage)? {
        return Ok(Some(first));
    }
    first_of_flows(alloc, stage, gap, sweeps)
}

/// Whether a stage of a report, wherever it came from, passes the tests of a judge, at the gap, in thousandths of a standard deviation, and
/// the sweeps that the report was asked for; if it doesn't, the first test that it fails, with its place and numbers.
///
/// A stage that passes is certified by its own numbers. The work is proportional to the numbers of its streams, its nodes, and the members
/// and steps of its certificates.
pub fn check(alloc: Global, stage: &Stage, gap: u32, sweeps: u32) -> Result<(), CheckFault>
    requires formed { IsWellFormed stage.now }
    requires some { 1 ≤ gap }
    requires most { gap ≤ most_gap }
    requires sweeps { sweeps ≤ most_sweeps }
    ensures passed { OnOk result (IsPassed stage.now gap sweeps) }
    ensures fault { IfErr result (IsRefusal stage.now gap sweeps) }
    ensures place { IfErr result (IsRefusalWithin stage.now) }
{
    match first_of_all(alloc, stage, gap, sweeps) {
        Err(_) => Err(CheckFault::NoMemory),
        Ok(None) => Ok(()),
        Ok(Some((test, fault))) => Err(CheckFault::At {
            test,
            place: fault.place,
            stated: fault.stated,
            found: fault.found,
        }),
    }
}
