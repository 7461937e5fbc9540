// Tests 7 to 13, one after another: what follows from the flows and the dual flows of the prices, and the rows of tests.

ghost use Rattle.std.specs.Prelude.{◌≡◌, ◌<◌, ◌≤◌, map, length, IfOk};
ghost use Rattle.pb_limits.specs.Limits.{most_gap, most_sweeps};
ghost use Rattle.pb_study.specs.WellFormed.{IsWellFormed};
ghost use Rattle.pb_check.specs.declared.faults.Test.{Test as TestValue};
ghost use Rattle.pb_check.specs.Verdict.{Passes, test_code};
ghost use Rattle.pb_check.specs.Among.{IsAmong};
ghost use Rattle.pb_check.specs.Pairs.{IsPairOf};

use crate::faults::{Fault, Test};
use crate::least::least_fault;
use crate::numbers::{first_of_numbers, printed_gap};
use crate::rows::first_of_tests;
use pb_gap::{FlowPair, standard_deviations, write_dual_flows};
use pb_study::{Stage, StreamResult};
use std::alloc::{AllocError, Global};

// The printed flows.
fn printed_flows(alloc: Global, streams: &[StreamResult]) -> Result<Vec<i128>, AllocError>
    ensures { IfOk result (λ flows. flows.items ≡ map (λ r. r.flow) streams.now) }
{
    let mut flows = Vec::new(alloc);
    for stream in streams {
        flows.push(stream.flow)?;
    }
    Ok(flows)
}

// The first of the tests 7 to 13 that fails, by the flows and the dual flows.
fn first_of_pair(
    alloc: Global,
    stage: &Stage,
    pair: &FlowPair,
    deviations: &mut [i128],
    gap: u32,
    sweeps: u32,
) -> Result<Option<(Test, Fault)>, AllocError>
    requires formed { IsWellFormed stage.now }
    requires pair { IsPairOf stage.now pair.now }
    requires room { length deviations.old ≡ length pair.now.graph.streams }
    requires earlier { (test : TestValue) → test_code test < 7 → Passes stage.now gap sweeps test }
    ensures { IfOk result (IsAmong stage.now gap sweeps 7 13) }
{
    if let Some(first) = first_of_numbers(alloc, stage, pair, deviations, gap, sweeps)? {
        return Ok(Some(first));
    }
    if let Some(first) = first_of_tests(alloc, stage, gap, sweeps)? {
        return Ok(Some(first));
    }
    match least_fault(alloc, stage, pair, printed_gap(stage))? {
        Some(fault) => Ok(Some((Test::Least, fault))),
        None => Ok(None),
    }
}

/// The first of the tests 7 to 13 that fails, for a stage that passes those before.
///
/// The work is proportional to the numbers of nodes, streams and members of cuts.
pub fn first_of_flows(
    alloc: Global,
    stage: &Stage,
    gap: u32,
    sweeps: u32,
) -> Result<Option<(Test, Fault)>, AllocError>
    requires formed { IsWellFormed stage.now }
    requires gap_from { 1 ≤ gap }
    requires gap_to { gap ≤ most_gap }
    requires sweeps { sweeps ≤ most_sweeps }
    requires earlier { (test : TestValue) → test_code test < 7 → Passes stage.now gap sweeps test }
    ensures { IfOk result (IsAmong stage.now gap sweeps 7 13) }
{
    let streams = stage.graph.streams();
    let roots = standard_deviations(alloc, streams)?;
    let flows = printed_flows(alloc, stage.streams.as_slice())?;
    let mut dual_flows = vec![in alloc; 0i128; streams.len()]?;
    write_dual_flows(&stage.graph, stage.prices.as_slice(), &mut dual_flows);
    let mut deviations = vec![in alloc; 0i128; streams.len()]?;
    let pair = FlowPair::new(&stage.graph, &roots, &dual_flows, &flows);
    first_of_pair(alloc, stage, &pair, &mut deviations, gap, sweeps)
}
