//! Gross error tests at their limits, worked by hand. Those of more plants are data, in examples/worked.

ghost use Rattle.std.specs.Prelude.{◌≤◌, IfOk, IfSome};
ghost use Rattle.pb_limits.specs.Ranges.{IsCriticalValue};
ghost use Rattle.pb_gap.specs.Solution.{IsSolvedStatistic};

use pb_gap::Solver;
use pb_graph::{Graph, Stream};
use pb_stage::{global, global_test, measure, nodal_tests};
use pb_study::{CriticalRow, GlobalTest, MeasureTest, NodalTest, Verdict};
use std::alloc::{AllocError, Global};
use std::process::Abort;
use test_graphs::{UNFIT, graph_of, metered, plain};

/// The ends of the statistic of a graph, solved at a gap of 10 thousandths with up to 5,000 sweeps.
pub fn solved_ends(alloc: Global, g: &Graph) -> Result<(i128, Option<i128>), AllocError>
    ensures { IfOk result (λ ends. IsSolvedStatistic g.now 10 5000 ends.0 ends.1) }
{
    let mut solver = Solver::new(alloc, g)?;
    let _solved = solver.solve(10, 5_000);
    Ok(solver.statistic())
}

/// The test of the measurement of a stream.
fn test_of(
    rt: &impl Abort,
    alloc: Global,
    nodes: u32,
    streams: &[Stream],
    stream: u32,
    critical: Option<i64>,
) -> Result<MeasureTest, AllocError>
    requires { IfSome critical IsCriticalValue }
{
    let g = graph_of(alloc, nodes, streams)?.expect(rt, UNFIT);
    assert!(rt; stream < g.len(), "stream {stream}");
    let (low, high) = solved_ends(alloc, &g)?;
    measure(alloc, &g, low, high, stream, 10, 5_000, critical)
}

/// Compares the nodal tests of a graph of these streams.
fn check_nodal(
    rt: &impl Abort,
    alloc: Global,
    nodes: u32,
    streams: &[Stream],
    critical: Option<i64>,
    want: &[NodalTest],
) -> Result<(), AllocError>
    requires { IfSome critical IsCriticalValue }
{
    let g = graph_of(alloc, nodes, streams)?.expect(rt, UNFIT);
    let tests = nodal_tests(alloc, &g, critical)?;
    assert_eq!(rt; tests.as_slice(), want, "{critical:?}");
    Ok(())
}

const fn nodal_test(
    node: u32,
    net: i128,
    variance: i128,
    critical: Option<i64>,
    verdict: Verdict,
) -> NodalTest {
    NodalTest {
        node,
        net,
        variance,
        critical,
        verdict,
    }
}

const fn measure_test(
    stream: u32,
    low: i128,
    high: Option<i128>,
    critical: Option<i64>,
    verdict: Verdict,
) -> MeasureTest {
    MeasureTest {
        stream,
        low,
        high,
        critical,
        verdict,
    }
}

/// At 499 to 1000 a critical value of 498 rejects, one of 499 or 999 leaves it open, and one of 1000 accepts.
#[test]
fn global_at_its_ends(rt: HostRuntime) {
    let cases = [
        (Some(1_000), 1, Some(498), Verdict::Reject),
        (Some(1_000), 1, Some(499), Verdict::Undecided),
        (Some(1_000), 1, Some(999), Verdict::Undecided),
        (Some(1_000), 1, Some(1_000), Verdict::Accept),
        (Some(1_000), 1, None, Verdict::NoCritical),
        (None, 1, Some(1_000), Verdict::Undecided),
        (Some(1_000), 0, Some(498), Verdict::NoTest),
        (Some(1_000), 0, None, Verdict::NoTest),
    ];
    for (high, dof, critical, verdict) in cases {
        assert_eq!(rt;
            global(499, high, dof, critical),
            verdict,
            "up to {high:?}, {dof} degrees, {critical:?}"
        );
    }
}

#[test]
fn global_by_rows(rt: HostRuntime) {
    let rows = [
        CriticalRow {
            dof: 1,
            value: 3_841,
        },
        CriticalRow {
            dof: 2,
            value: 5_991,
        },
    ];
    let cases = [
        (0, None, Verdict::NoTest),
        (1, Some(3_841), Verdict::Reject),
        (2, Some(5_991), Verdict::Accept),
        (3, None, Verdict::NoCritical),
    ];
    for (dof, critical, verdict) in cases {
        assert_eq!(rt;
            global_test(&rows, 4_000, Some(4_001), dof),
            GlobalTest { critical, verdict },
            "{dof}"
        );
    }
}

/// Two tonnes of imbalance with a variance of 2 squared tonnes: 2 exactly.
#[test]
fn nodal_at_its_limit(rt: HostRuntime) -> Result<(), AllocError> {
    let streams = [
        metered(0, 1, 102_000_000, 1_000_000_000_000),
        plain(1, 2),
        metered(2, 0, 100_000_000, 1_000_000_000_000),
    ];
    let cases = [
        (None, Verdict::NoCritical),
        (Some(2_000), Verdict::Accept),
        (Some(1_999), Verdict::Reject),
    ];
    for (critical, verdict) in cases {
        let test = nodal_test(1, 2_000_000, 2_000_000_000_000, critical, verdict);
        check_nodal(&rt, rt.alloc(), 3, &streams, critical, &[test])?;
    }
    Ok(())
}

/// Two meters that disagree by two standard deviations of their difference: each drop is the whole statistic.
#[test]
fn two_meters(rt: HostRuntime) -> Result<(), AllocError> {
    let streams = [
        metered(0, 1, 102_000_000, 1_000_000_000_000),
        metered(1, 0, 100_000_000, 1_000_000_000_000),
    ];
    let cases = [
        (1_998, Verdict::Reject),
        (1_999, Verdict::Undecided),
        (2_000, Verdict::Accept),
    ];
    for (critical, verdict) in cases {
        let test = test_of(&rt, rt.alloc(), 2, &streams, 1, Some(critical))?;
        let want = measure_test(1, 1_999, Some(2_000), Some(critical), verdict);
        assert_eq!(rt; test, want, "{critical}");
    }
    Ok(())
}
