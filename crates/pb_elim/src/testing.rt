// The tests of a stage.

ghost use Rattle.std.specs.Prelude.{◌≡◌, ◌≤◌, length, is_some, IfOk, IfSome};
ghost use Rattle.pb_limits.specs.Limits.{most_streams};
ghost use Rattle.pb_graph.specs.ProcessGraph.{IsProcessGraph};
ghost use Rattle.pb_study.specs.WellFormed.{AreTestsWithin, IsWellFormed};
ghost use Rattle.pb_study.specs.Options.{AreOptions};
ghost use Rattle.pb_study.specs.Criticals.{AreCritical};
ghost use Rattle.pb_stage.specs.StageTests.{AreTestsOf, redundant_streams};
ghost use Rattle.pb_elim.specs.Reconciled.{IsReconciled};

use pb_graph::{Class, Graph, List};
use pb_stage::{global_test, measure_tests, nodal_tests};
use pb_study::{Critical, Options, Stage, StreamResult, Tests};
use std::alloc::{AllocError, Global};

// The redundant streams according to the results of all streams, in order.
fn redundant_streams(alloc: Global, results: &[StreamResult]) -> Result<List<u32>, AllocError>
    requires { length results.now ≤ most_streams }
    ensures { IfOk result (λ streams. streams ≡ redundant_streams results.now) }
{
    let mut streams = List::new(alloc);
    for (stream, result) in results.iter().enumerate() {
        if matches!(result.classified.class, Class::Redundant) {
            streams.push(stream as u32)?;
        }
    }
    Ok(streams)
}

// The tests of a stage that has none yet.
fn tests_of(
    alloc: Global,
    graph: &Graph,
    options: &Options,
    critical: &Critical,
    stage: &Stage,
) -> Result<Tests, AllocError>
    requires limits { AreOptions options.now }
    requires critical { AreCritical critical.now }
    requires stage { IsReconciled graph.now options.now stage.now }
    requires graph { IsProcessGraph stage.now.graph }
    requires formed { IsWellFormed stage.now }
    ensures tests { IfOk result (AreTestsOf graph.now options.now critical.now stage.now) }
    ensures within { IfOk result (AreTestsWithin graph.now) }
{
    let results = stage.streams.as_slice();
    let redundant = redundant_streams(alloc, results)?;
    let streams = redundant.as_slice();
    let rows = critical.global.as_slice();
    let global = global_test(rows, stage.low, stage.high, stage.dof);
    let nodal = nodal_tests(alloc, graph, critical.nodal)?;
    let measure = measure_tests(
        alloc,
        graph,
        stage.low,
        stage.high,
        streams,
        options.gap,
        options.sweeps,
        critical.measure,
    )?;
    Ok(Tests {
        global,
        nodal,
        measure,
    })
}

/// The tests of a stage that has none yet; `None` exactly when none are asked for.
pub fn asked_tests(
    alloc: Global,
    graph: &Graph,
    options: &Options,
    critical: &Critical,
    stage: &Stage,
) -> Result<Option<Tests>, AllocError>
    requires limits { AreOptions options.now }
    requires critical { AreCritical critical.now }
    requires stage { IsReconciled graph.now options.now stage.now }
    requires graph { IsProcessGraph stage.now.graph }
    requires formed { IsWellFormed stage.now }
    ensures asked { IfOk result (λ tests. is_some tests ≡ options.now.tests) }
    ensures tests { IfOk result (λ tests.
        IfSome tests (AreTestsOf graph.now options.now critical.now stage.now)) }
    ensures within { IfOk result (λ tests. IfSome tests (AreTestsWithin graph.now)) }
{
    if !options.tests {
        return Ok(None);
    }
    Ok(Some(tests_of(alloc, graph, options, critical, stage)?))
}
