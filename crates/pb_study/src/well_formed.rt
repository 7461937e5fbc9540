// The test of the form of results, stages and studies.

ghost use Rattle.std.specs.Prelude.{◌≡◌, ◌≤◌, ◌↔◌, ◌^◌, ◌+◌, length, All, IfSome, IsTrue};
ghost use Rattle.pb_limits.specs.Limits.{most_freedom, most_sweeps};
ghost use Rattle.pb_limits.specs.Ranges.{IsCriticalValue};
ghost use Rattle.pb_graph.specs.WellFormed.{IsFlow, IsPrice};
ghost use Rattle.pb_study.specs.WellFormed.{IsWide, AreBoundsWithin, IsResultWithin, IsNodalWithin, IsMeasureWithin, AreTestsWithin, sweeps_of, IsWellFormed, HasShapeOf, IsTakenWithin, IsWellFormedStudy};

use crate::results::{
    Bounds, MeasureTest, NodalTest, Solved, Stage, StreamResult, Study, Taken, Tests,
};
use pb_graph::{Graph, MOST_PRICE};
use pb_limits::{MOST_CRITICAL, MOST_FREEDOM, MOST_SWEEPS};

impl Stage {
    /// Whether the stage has one price for each node and one result for each stream, its certificates and tests refer only to nodes
    /// and streams of its graph, and each number is in its range.
    pub fn is_well_formed(&self) -> bool
        ensures { IsTrue result ↔ IsWellFormed self.now }
    {
        has_each(self)
            && are_results(&self.graph, self.streams.as_slice())
            && are_prices(self.prices.as_slice())
            && has_numbers(self)
            && are_statistics(self.low, self.high)
            && are_tests_if_any(&self.graph, &self.tests)
    }
}

impl Study {
    /// Whether each stage is well formed and has the nodes and streams of the graph, and one stream of the graph is taken between
    /// each stage and the next.
    pub fn is_well_formed(&self, graph: &Graph) -> bool
        ensures { IsTrue result ↔ IsWellFormedStudy graph.now self.now }
    {
        are_well_formed(self.stages.as_slice())
            && have_shape(graph, self.stages.as_slice())
            && is_one_more(self.stages.len(), self.taken.len())
            && are_taken(graph, self.taken.as_slice())
    }
}

// Whether a flow is in its range.
fn is_flow(grams: i128) -> bool
    ensures { IsTrue result ↔ IsFlow grams }
{
    grams.unsigned_abs() < 1 << 68
}

// Whether an end of bounds, or a statistic, is in its range.
fn is_wide(value: i128) -> bool
    ensures { IsTrue result ↔ IsWide value }
{
    value.unsigned_abs() <= 1 << 126
}

// Whether a value that may be absent is in its range.
fn is_wide_if_any(value: Option<i128>) -> bool
    ensures { IsTrue result ↔ IfSome value IsWide }
{
    match value {
        None => true,
        Some(value) => is_wide(value),
    }
}

// Whether both ends of bounds are in their range.
fn are_bounds(bounds: &Option<Bounds>) -> bool
    ensures { IsTrue result ↔ IfSome bounds.now AreBoundsWithin }
{
    match bounds {
        None => true,
        Some(bounds) => is_wide(bounds.lo) && is_wide(bounds.hi),
    }
}

// Whether a stream's result is within the ranges.
fn is_result(graph: &Graph, stream: &StreamResult) -> bool
    ensures { IsTrue result ↔ IsResultWithin graph.now stream.now }
{
    stream.classified.witness.is_within(graph)
        && is_flow(stream.flow)
        && are_bounds(&stream.bounds)
        && are_bounds(&stream.least)
}

// Whether each result is within the ranges.
fn are_results(graph: &Graph, streams: &[StreamResult]) -> bool
    ensures { IsTrue result ↔ All (IsResultWithin graph.now) streams.now }
{
    streams.iter().all(|stream| is_result(graph, stream))
}

// Whether a critical value is in its range, if there is one.
fn is_critical(critical: Option<i64>) -> bool
    ensures { IsTrue result ↔ IfSome critical IsCriticalValue }
{
    match critical {
        None => true,
        Some(value) => 0 <= value && value <= MOST_CRITICAL,
    }
}

// Whether the test of a balance belongs to a node, with its numbers in their ranges.
fn is_nodal(graph: &Graph, test: &NodalTest) -> bool
    ensures { IsTrue result ↔ IsNodalWithin graph.now test.now }
{
    test.node < graph.nodes()
        && is_wide(test.net)
        && is_wide(test.variance)
        && is_critical(test.critical)
}

// Whether the test of a measurement belongs to a stream, with its numbers in their ranges.
fn is_measure(graph: &Graph, test: &MeasureTest) -> bool
    ensures { IsTrue result ↔ IsMeasureWithin graph.now test.now }
{
    test.stream < graph.len()
        && is_wide(test.low)
        && is_wide_if_any(test.high)
        && is_critical(test.critical)
}

// Whether each test of a balance is well formed.
fn are_nodal(graph: &Graph, tests: &[NodalTest]) -> bool
    ensures { IsTrue result ↔ All (IsNodalWithin graph.now) tests.now }
{
    tests.iter().all(|test| is_nodal(graph, test))
}

// Whether each test of a measurement is well formed.
fn are_measures(graph: &Graph, tests: &[MeasureTest]) -> bool
    ensures { IsTrue result ↔ All (IsMeasureWithin graph.now) tests.now }
{
    tests.iter().all(|test| is_measure(graph, test))
}

// Whether the tests belong to nodes and streams of the graph.
fn are_tests(graph: &Graph, tests: &Tests) -> bool
    ensures { IsTrue result ↔ AreTestsWithin graph.now tests.now }
{
    is_critical(tests.global.critical)
        && are_nodal(graph, tests.nodal.as_slice())
        && are_measures(graph, tests.measure.as_slice())
}

// Whether the tests, if any were made, belong to nodes and streams of the graph.
fn are_tests_if_any(graph: &Graph, tests: &Option<Tests>) -> bool
    ensures { IsTrue result ↔ IfSome tests.now (AreTestsWithin graph.now) }
{
    match tests {
        None => true,
        Some(tests) => are_tests(graph, tests),
    }
}

// How many sweeps were done.
fn sweeps_of(solved: &Solved) -> u32
    ensures { result ≡ sweeps_of solved.now }
{
    match solved {
        Solved::Converged(sweeps) | Solved::Unconverged(sweeps) => *sweeps,
    }
}

// Whether each price is in its range.
fn are_prices(prices: &[i128]) -> bool
    ensures { IsTrue result ↔ All IsPrice prices.now }
{
    prices
        .iter()
        .all(|price| price.unsigned_abs() <= MOST_PRICE.unsigned_abs())
}

// Whether there is a price for each node and a result for each stream.
fn has_each(stage: &Stage) -> bool
    ensures { IsTrue result
        ↔ ((length stage.now.prices ≡ stage.now.graph.nodes)
        × (length stage.now.streams ≡ length stage.now.graph.streams)) }
{
    stage.prices.len() == stage.graph.nodes() as usize
        && stage.streams.len() == stage.graph.len() as usize
}

// Whether the sweeps, the numbers of the gap and the degrees of freedom are in their ranges.
fn has_numbers(stage: &Stage) -> bool
    ensures { IsTrue result
        ↔ ((sweeps_of stage.now.solved ≤ most_sweeps)
        × (stage.now.g ≤ 2 ^ 63)
        × (stage.now.h ≤ 32)
        × (stage.now.dof ≤ most_freedom)) }
{
    sweeps_of(&stage.solved) <= MOST_SWEEPS
        && stage.g <= 1 << 63
        && stage.h <= 32
        && stage.dof <= MOST_FREEDOM
}

// Whether the ends of the weighted squares are in their range.
fn are_statistics(low: i128, high: Option<i128>) -> bool
    ensures { IsTrue result ↔ (IsWide low × IfSome high IsWide) }
{
    is_wide(low) && is_wide_if_any(high)
}

// Whether each stage is well formed.
fn are_well_formed(stages: &[Stage]) -> bool
    ensures { IsTrue result ↔ All IsWellFormed stages.now }
{
    stages.iter().all(|stage| stage.is_well_formed())
}

// Whether each stage has the nodes and streams of the graph.
fn have_shape(graph: &Graph, stages: &[Stage]) -> bool
    ensures { IsTrue result ↔ All (HasShapeOf graph.now) stages.now }
{
    stages.iter().all(|stage| {
        stage.graph.nodes() == graph.nodes() && stage.graph.len() == graph.len()
    })
}

// Whether the first number is one more than the second.
fn is_one_more(more: usize, less: usize) -> bool
    ensures { IsTrue result ↔ (more ≡ less + 1) }
{
    more > 0 && more - 1 == less
}

// Whether each stream that was taken is one of the graph.
fn are_taken(graph: &Graph, taken: &[Taken]) -> bool
    ensures { IsTrue result ↔ All (IsTakenWithin graph.now) taken.now }
{
    taken
        .iter()
        .all(|taken| taken.stream < graph.len() && is_wide(taken.low))
}
