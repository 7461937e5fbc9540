//! Flows, bounds, least bounds and the statistic of two meters, worked by hand. Those of other plants are data, in examples/worked.

ghost use Rattle.std.specs.Prelude.{◌≡◌};

use crate::common::{Numbers, assert_bounds, assert_count, assert_listed, assert_numbers, within};
use pb_gap::Solver;
use pb_graph::{Graph, Member};
use pb_study::{Bounds, Solved};
use std::alloc::AllocError;
use std::process::Abort;
use test_graphs::{UNFIT, graph_of, metered};

/// What a solver should answer at a gap with at most this many sweeps.
#[derive(Clone, Copy)]
struct Run<'a> {
    gap: u32,
    sweeps: u32,
    prices: &'a [i128],
    flows: &'a [i128],
    numbers: Numbers,
}

/// A measured stream with a sign, and the bounds of its flow with that sign.
type Bound = (u32, i8, i128, i128);

/// Solves, and returns how that ended.
fn solved(rt: &impl Abort, solver: &mut Solver, g: &Graph, gap: u32, sweeps: u32) -> Numbers
    requires { solver.old.graph ≡ g.now }
    ensures { solver.new.graph ≡ g.now }
{
    assert!(rt; gap >= 1 && gap <= 1_000_000 && sweeps <= 100_000);
    let solved = solver.solve(gap, sweeps);
    let (low, high) = solver.statistic();
    Numbers {
        solved,
        g: solver.g(),
        h: solver.h(),
        dof: solver.dof(),
        low,
        high,
    }
}

/// There are as many nodes as prices, and they have these.
fn check_prices(rt: &impl Abort, solver: &Solver, g: &Graph, prices: &[i128])
    requires { solver.now.graph ≡ g.now }
{
    assert_count(rt, "nodes", g.nodes() as usize, prices.len());
    for n in 0..g.nodes() {
        assert_listed(rt, "node", n, solver.price(n), prices);
    }
}

/// There are as many streams as flows, and they have these.
fn check_flows(rt: &impl Abort, solver: &Solver, g: &Graph, flows: &[i128])
    requires { solver.now.graph ≡ g.now }
{
    assert_count(rt, "streams", g.len() as usize, flows.len());
    for j in 0..g.len() {
        assert_listed(rt, "stream", j, solver.flow(j), flows);
    }
}

/// Solves, and compares each answer.
fn check(rt: &impl Abort, solver: &mut Solver, g: &Graph, run: &Run)
    requires { solver.old.graph ≡ g.now }
    ensures { solver.new.graph ≡ g.now }
{
    let found = solved(rt, solver, g, run.gap, run.sweeps);
    assert_numbers(rt, found, run.numbers);
    check_prices(rt, solver, g, run.prices);
    check_flows(rt, solver, g, run.flows);
}

/// The bounds of one measured stream with a sign, or its least bounds.
fn bounds_of(
    rt: &impl Abort,
    solver: &Solver,
    g: &Graph,
    stream: u32,
    sign: i8,
    least: bool,
) -> Option<Bounds>
    requires { solver.now.graph ≡ g.now }
{
    assert!(rt; stream < g.len(), "stream {stream}");
    assert!(rt; g.stream(stream).meas.is_some(), "stream {stream}");
    assert!(rt; sign == 1 || sign == -1, "stream {stream}");
    let members = [Member { stream, sign }];
    Some(if least {
        solver.least(&members)
    } else {
        solver.bounds(&members)
    })
}

/// Compares bounds, or least bounds, of measured streams.
fn check_bounds(rt: &impl Abort, solver: &Solver, g: &Graph, least: bool, wanted: &[Bound])
    requires { solver.now.graph ≡ g.now }
{
    let what = if least { "least bounds" } else { "bounds" };
    for &(stream, sign, lo, hi) in wanted {
        let found = bounds_of(rt, solver, g, stream, sign, least);
        assert_bounds(rt, what, stream as usize, found, within(lo, hi));
    }
}

/// The bounds and the least bounds of the first flow less the second, both measured.
fn bounds_of_difference(rt: &impl Abort, solver: &Solver, g: &Graph) -> (Bounds, Bounds)
    requires { solver.now.graph ≡ g.now }
{
    assert!(rt; g.len() >= 2);
    assert!(rt; g.stream(0).meas.is_some());
    assert!(rt; g.stream(1).meas.is_some());
    let members = [
        Member { stream: 0, sign: 1 },
        Member {
            stream: 1,
            sign: -1,
        },
    ];
    (solver.bounds(&members), solver.least(&members))
}

/// An empty sum is 0.
fn check_empty(rt: &impl Abort, solver: &Solver) {
    let zero = Bounds { lo: 0, hi: 0 };
    assert_eq!(rt;
        (solver.bounds(&[]), solver.least(&[])),
        (zero, zero),
        "bounds and least bounds without a member"
    );
}

/// Compares the bounds and the least bounds of the first of two flows less the second.
fn check_difference(rt: &impl Abort, solver: &Solver, g: &Graph)
    requires { solver.now.graph ≡ g.now }
{
    assert_eq!(rt;
        bounds_of_difference(rt, solver, g),
        (Bounds { lo: -4, hi: 3 }, Bounds { lo: -3, hi: 2 }),
        "bounds and least bounds of a difference"
    );
}

/// Solves, and compares each answer, the bounds and the least bounds.
fn check_with_bounds(
    rt: &impl Abort,
    solver: &mut Solver,
    g: &Graph,
    run: &Run,
    bounds: &[Bound],
    least: &[Bound],
)
    requires { solver.old.graph ≡ g.now }
    ensures { solver.new.graph ≡ g.now }
{
    check(rt, solver, g, run);
    check_bounds(rt, solver, g, false, bounds);
    check_bounds(rt, solver, g, true, least);
}

/// Solves with up to 5,000 sweeps and with one, and compares bounds.
fn check_two_meters_disagree(rt: &impl Abort, solver: &mut Solver, g: &Graph)
    requires { solver.old.graph ≡ g.now }
{
    let run = Run {
        gap: 10,
        sweeps: 5_000,
        prices: &[0, -72_057_594_038],
        flows: &[101_000_000, 101_000_000],
        numbers: Numbers {
            solved: Solved::Converged(1),
            g: 2,
            h: 0,
            dof: 1,
            low: 1_999,
            high: Some(2_000),
        },
    };
    let bounds = [
        (0, 1, 100_999_997, 101_000_002),
        (1, 1, 100_999_998, 101_000_003),
    ];
    let least = [
        (0, 1, 100_999_998, 101_000_001),
        (1, 1, 100_999_999, 101_000_002),
        (0, -1, -101_000_001, -100_999_998),
    ];
    let once = Run { sweeps: 1, ..run };
    check_with_bounds(rt, solver, g, &run, &bounds, &least);
    check_with_bounds(rt, solver, g, &once, &bounds, &least);
    check_difference(rt, solver, g);
    check_empty(rt, solver);
}

#[test]
fn two_meters_disagree(rt: HostRuntime) -> Result<(), AllocError> {
    let streams = [
        metered(0, 1, 102_000_000, 1_000_000_000_000),
        metered(1, 0, 100_000_000, 1_000_000_000_000),
    ];
    let g = graph_of(rt.alloc(), 2, &streams)?.expect(&rt, UNFIT);
    let mut solver = Solver::new(rt.alloc(), &g)?;
    check_two_meters_disagree(&rt, &mut solver, &g);
    Ok(())
}
