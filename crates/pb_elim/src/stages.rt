// The stage of a graph.

ghost use Rattle.std.specs.Prelude.{◌≡◌, ℕ, ◌<◌, ◌≤◌, None, All, length, IfOk, IfSome};
ghost use Rattle.pb_fixed.specs.Sums.{item};
ghost use Rattle.pb_graph.specs.ProcessGraph.{IsProcessGraph};
ghost use Rattle.pb_study.specs.WellFormed.{AreBoundsWithin, IsWellFormed};
ghost use Rattle.pb_graph.specs.WellFormed.{IsPrice};
ghost use Rattle.pb_forest.specs.Forest.{IsForestOf};
ghost use Rattle.pb_classify.specs.Classification.{IsClassified, IsClassification};
ghost use Rattle.pb_gap.specs.State.{IsState, price_in, gap_in};
ghost use Rattle.pb_gap.specs.StreamBounds.{stream_bounds};
ghost use Rattle.pb_gap.specs.LeastBounds.{stream_least_bounds};
ghost use Rattle.pb_gap.specs.Solution.{IsSolution};
ghost use Rattle.pb_study.specs.Options.{AreOptions};
ghost use Rattle.pb_elim.specs.Results.{IsResultOf, AreResultsOf};
ghost use Rattle.pb_study.specs.Criticals.{AreCritical};
ghost use Rattle.pb_elim.specs.Reconciled.{IsReconciled};
ghost use Rattle.pb_elim.specs.Stage.{IsStageOf};

use crate::testing::asked_tests;
use pb_classify::classify_in;
use pb_forest::Forest;
use pb_gap::Solver;
use pb_graph::{Classified, Graph, List};
use pb_stage::sum_for;
use pb_study::{Bounds, Critical, Options, Solved, Stage, StreamResult};
use std::alloc::{AllocError, Global};

// The bounds of the flow of a stream, and its least bounds.
struct Enclosure {
    bounds: Option<Bounds>,
    least: Option<Bounds>,
}

// The bounds and the least bounds of the flow of a stream, from its class and its certificate, or none if it is unobservable.
fn enclosure_of(
    alloc: Global,
    solver: &Solver,
    stream: u32,
    classified: &Classified,
) -> Result<Enclosure, AllocError>
    requires state { IsState solver.now }
    requires classified { IsClassified solver.now.graph stream classified.now }
    ensures value { IfOk result (λ enclosure. enclosure.bounds
        ≡ stream_bounds (price_in solver.now) solver.now.graph.streams (gap_in solver.now)
        stream classified.now) }
    ensures least { IfOk result (λ enclosure. enclosure.least
        ≡ stream_least_bounds (price_in solver.now) solver.now.graph.streams solver.now.flows
        (gap_in solver.now) stream classified.now) }
    ensures within { IfOk result (λ enclosure. IfSome enclosure.bounds AreBoundsWithin) }
    ensures least_within { IfOk result (λ enclosure. IfSome enclosure.least AreBoundsWithin) }
{
    match sum_for(alloc, stream, classified)? {
        None => Ok(Enclosure {
            bounds: None,
            least: None,
        }),
        Some(sum) => {
            let members = sum.as_slice();
            Ok(Enclosure {
                bounds: Some(solver.bounds(members)),
                least: Some(solver.least(members)),
            })
        }
    }
}

// What is printed for a stream.
fn stream_result(
    alloc: Global,
    solver: &Solver,
    stream: u32,
    classified: Classified,
) -> Result<StreamResult, AllocError>
    requires state { IsState solver.now }
    requires stream { stream < length solver.now.graph.streams }
    requires classified { IsClassified solver.now.graph stream classified }
    ensures { IfOk result (IsResultOf solver.now stream classified) }
{
    let Enclosure { bounds, least } = enclosure_of(alloc, solver, stream, &classified)?;
    Ok(StreamResult {
        classified,
        flow: solver.flow(stream),
        bounds,
        least,
    })
}

// What is printed for each stream, in order.
fn stream_results(
    alloc: Global,
    solver: &Solver,
    classes: List<Classified>,
) -> Result<List<StreamResult>, AllocError>
    requires state { IsState solver.now }
    requires classes { IsClassification solver.now.graph classes }
    ensures { IfOk result (AreResultsOf solver.now classes) }
{
    let mut results = List::new(alloc);
    for classified in classes.into_vec() {
        let stream = results.len() as u32;
        results.push(stream_result(alloc, solver, stream, classified)?)?;
    }
    Ok(results)
}

// The price of each node, in order.
fn node_prices(alloc: Global, solver: &Solver, nodes: u32) -> Result<List<i128>, AllocError>
    requires some { 1 ≤ nodes }
    requires nodes { nodes ≡ solver.now.graph.nodes }
    ensures each { IfOk result (λ prices. length prices ≡ nodes) }
    ensures value { IfOk result (λ prices. (n : ℕ) → item prices n ≡ price_in solver.now n) }
    ensures within { IfOk result (All IsPrice) }
{
    let mut prices = List::new(alloc);
    for node in 0..nodes {
        prices.push(solver.price(node))?;
    }
    Ok(prices)
}

// The stage of a graph that is classified and solved, without tests.
fn collected(
    alloc: Global,
    graph: &Graph,
    options: &Options,
    classes: List<Classified>,
    solver: &Solver,
    solved: Solved,
) -> Result<Stage, AllocError>
    requires limits { AreOptions options.now }
    requires classes { IsClassification graph.now classes }
    requires graph { solver.now.graph ≡ graph.now }
    requires state { IsState solver.now }
    requires solution { IsSolution graph.now options.now.gap options.now.sweeps solved
        (price_in solver.now) solver.now.flows }
    ensures stage { IfOk result (IsReconciled graph.now options.now) }
    ensures graph { IfOk result (λ stage. IsProcessGraph stage.graph) }
    ensures untested { IfOk result (λ stage. stage.tests ≡ None) }
    ensures formed { IfOk result IsWellFormed }
{
    let (low, high) = solver.statistic();
    Ok(Stage {
        graph: graph.copy(alloc)?,
        streams: stream_results(alloc, solver, classes)?,
        prices: node_prices(alloc, solver, graph.nodes())?,
        solved,
        g: solver.g(),
        h: solver.h(),
        dof: solver.dof(),
        low,
        high,
        tests: None,
    })
}

// The reconciliation of a graph whose forest and classes are known: its stage without tests.
fn reconciled<'a>(
    alloc: Global,
    graph: &'a Graph,
    forest: Forest<'a>,
    classes: List<Classified>,
    options: &Options,
) -> Result<Stage, AllocError>
    requires limits { AreOptions options.now }
    requires forest { IsForestOf graph.now forest }
    requires classes { IsClassification graph.now classes }
    ensures stage { IfOk result (IsReconciled graph.now options.now) }
    ensures graph { IfOk result (λ stage. IsProcessGraph stage.graph) }
    ensures untested { IfOk result (λ stage. stage.tests ≡ None) }
    ensures formed { IfOk result IsWellFormed }
{
    let mut solver = Solver::with_forest(alloc, graph, forest)?;
    let solved = solver.solve(options.gap, options.sweeps);
    collected(alloc, graph, options, classes, &solver, solved)
}

/// The stage of a graph: classes, flows, bounds, least bounds, prices, the statistic, and tests if they are asked for.
pub fn stage(
    alloc: Global,
    graph: &Graph,
    options: &Options,
    critical: &Critical,
) -> Result<Stage, AllocError>
    requires limits { AreOptions options.now }
    requires critical { AreCritical critical.now }
    ensures stage { IfOk result (IsStageOf graph.now options.now critical.now) }
    ensures graph { IfOk result (λ stage. IsProcessGraph stage.graph) }
    ensures formed { IfOk result IsWellFormed }
{
    let forest = Forest::of(alloc, graph)?;
    let classes = classify_in(alloc, graph, &forest)?;
    stage_in(alloc, graph, forest, classes, options, critical)
}

/// The stage of a graph whose classes are known.
pub fn stage_classed(
    alloc: Global,
    graph: &Graph,
    classes: List<Classified>,
    options: &Options,
    critical: &Critical,
) -> Result<Stage, AllocError>
    requires limits { AreOptions options.now }
    requires critical { AreCritical critical.now }
    requires classes { IsClassification graph.now classes }
    ensures stage { IfOk result (IsStageOf graph.now options.now critical.now) }
    ensures graph { IfOk result (λ stage. IsProcessGraph stage.graph) }
    ensures formed { IfOk result IsWellFormed }
{
    let forest = Forest::of(alloc, graph)?;
    stage_in(alloc, graph, forest, classes, options, critical)
}

// The stage of a graph whose forest and classes are known.
fn stage_in<'a>(
    alloc: Global,
    graph: &'a Graph,
    forest: Forest<'a>,
    classes: List<Classified>,
    options: &Options,
    critical: &Critical,
) -> Result<Stage, AllocError>
    requires limits { AreOptions options.now }
    requires critical { AreCritical critical.now }
    requires forest { IsForestOf graph.now forest }
    requires classes { IsClassification graph.now classes }
    ensures stage { IfOk result (IsStageOf graph.now options.now critical.now) }
    ensures graph { IfOk result (λ stage. IsProcessGraph stage.graph) }
    ensures formed { IfOk result IsWellFormed }
{
    let mut stage = reconciled(alloc, graph, forest, classes, options)?;
    let tests = asked_tests(alloc, graph, options, critical, &stage)?;
    stage.tests = tests;
    Ok(stage)
}
