// The tests of single measurements.

ghost use Rattle.std.specs.Prelude.{◌≡◌, ℕ, ◌<◌, ◌≤◌, pos, ◌≤ℤ◌, length, All, IfOk, IfSome};
ghost use Rattle.pb_limits.specs.Limits.{most_gap, most_sweeps};
ghost use Rattle.pb_limits.specs.Ranges.{IsCriticalValue};
ghost use Rattle.pb_study.specs.WellFormed.{IsMeasureWithin, IsWide};
ghost use Rattle.pb_gap.specs.Solution.{IsSolvedStatistic};
ghost use Rattle.pb_stage.specs.Drop.{AreMeasureTests, IsMeasureTestOf, drop_high, drop_low, without_measurement};
ghost use Rattle.pb_stage.specs.Ends.{IsEndPair, IsNonnegative};

use crate::verdicts::verdict;
use pb_gap::Solver;
use pb_graph::{Graph, List};
use pb_study::MeasureTest;
use std::alloc::{AllocError, Global};

// The low end of the drop: the low end with the measurement less the high end without it, at least 0.
fn drop_low(low: i128, high_without: Option<i128>) -> i128
    requires low { IsNonnegative low }
    requires high { IfSome high_without IsNonnegative }
    ensures value { result ≡ drop_low low high_without }
    ensures least { IsNonnegative result }
    ensures most { result ≤ℤ low }
{
    match high_without {
        None => 0,
        Some(high) => { if low < high { 0 } else { low - high } }
    }
}

// The high end of the drop: the high end with the measurement less the low end without it.
fn drop_high(high: Option<i128>, low_without: i128) -> Option<i128>
    requires high { IfSome high IsNonnegative }
    requires low { IsNonnegative low_without }
    requires wide { IsWide low_without }
    ensures value { result ≡ drop_high high low_without }
    ensures wide { IfSome high IsWide → IfSome result IsWide }
{
    match high {
        None => None,
        Some(high) => Some(high - low_without),
    }
}

/// The ends of the statistic of a graph once it is solved.
pub fn solved_ends(
    alloc: Global,
    graph: &Graph,
    gap: u32,
    sweeps: u32,
) -> Result<(i128, Option<i128>), AllocError>
    requires gap_from { 1 ≤ gap }
    requires gap_to { gap ≤ most_gap }
    requires sweeps { sweeps ≤ most_sweeps }
    ensures { IfOk result (IsEndPair graph.now gap sweeps) }
{
    let mut solver = Solver::new(alloc, graph)?;
    solver.solve(gap, sweeps);
    Ok(solver.statistic())
}

// The ends of the statistic of a graph without the measurement of a stream.
fn ends_without(
    alloc: Global,
    graph: &Graph,
    stream: u32,
    gap: u32,
    sweeps: u32,
) -> Result<(i128, Option<i128>), AllocError>
    requires stream { stream < length graph.now.streams }
    requires gap_from { 1 ≤ gap }
    requires gap_to { gap ≤ most_gap }
    requires sweeps { sweeps ≤ most_sweeps }
    ensures { IfOk result (IsEndPair (without_measurement stream graph.now) gap sweeps) }
{
    let without = graph.unmeasure(alloc, stream)?;
    solved_ends(alloc, &without, gap, sweeps)
}

/// The test of the measurement of a stream: by how much the least weighted squares drop when it is left out, between two ends in
/// thousandths. The two ends given are those of the graph, solved at the same gap with at most as many sweeps.
pub fn measure(
    alloc: Global,
    graph: &Graph,
    low: i128,
    high: Option<i128>,
    stream: u32,
    gap: u32,
    sweeps: u32,
    critical: Option<i64>,
) -> Result<MeasureTest, AllocError>
    requires stream { stream < length graph.now.streams }
    requires gap_from { 1 ≤ gap }
    requires gap_to { gap ≤ most_gap }
    requires sweeps { sweeps ≤ most_sweeps }
    requires statistic { IsSolvedStatistic graph.now gap sweeps low high }
    requires critical { IfSome critical IsCriticalValue }
    ensures test { IfOk result (IsMeasureTestOf graph.now gap sweeps low high critical stream) }
    ensures within { IsWide low → IfSome high IsWide
        → IfOk result (IsMeasureWithin graph.now) }
{
    let (low_without, high_without) = ends_without(alloc, graph, stream, gap, sweeps)?;
    let low = drop_low(low, high_without);
    let high = drop_high(high, low_without);
    Ok(MeasureTest {
        stream,
        low,
        high,
        critical,
        verdict: verdict(low, high, critical),
    })
}

/// The tests of the measurements of a list of streams, one for each, in order.
pub fn measure_tests(
    alloc: Global,
    graph: &Graph,
    low: i128,
    high: Option<i128>,
    streams: &[u32],
    gap: u32,
    sweeps: u32,
    critical: Option<i64>,
) -> Result<List<MeasureTest>, AllocError>
    requires streams { All (λ stream. stream < length graph.now.streams) streams.now }
    requires gap_from { 1 ≤ gap }
    requires gap_to { gap ≤ most_gap }
    requires sweeps { sweeps ≤ most_sweeps }
    requires statistic { IsSolvedStatistic graph.now gap sweeps low high }
    requires critical { IfSome critical IsCriticalValue }
    ensures tests { IfOk result
        (AreMeasureTests graph.now gap sweeps low high critical streams.now) }
    ensures within { IsWide low → IfSome high IsWide
        → IfOk result (All (IsMeasureWithin graph.now)) }
{
    let mut tests = List::new(alloc);
    for stream in streams {
        tests.push(measure(alloc, graph, low, high, *stream, gap, sweeps, critical)?)?;
    }
    Ok(tests)
}
