//! Prices of small graphs, worked by hand. Those of other plants are data, in examples/worked.

use crate::common::{assert_count, assert_listed};
use pb_dual::Dual;
use pb_graph::{Groups, Stream};
use std::alloc::{AllocError, Global};
use std::process::Abort;
use test_graphs::{UNFIT, graph_of, metered, plain};

/// There are as many groups as prices, and they have these.
fn check_prices(rt: &impl Abort, name: &str, dual: &Dual, prices: &[i128]) {
    assert_count(rt, name, dual.groups() as usize, prices.len());
    for k in 0..dual.groups() {
        assert_listed(rt, name, k, dual.price(k), prices);
    }
}

/// A first sweep leads from no prices to the given ones, a second one leaves them, and after a reset there are none.
fn check_sweeps(rt: &impl Abort, name: &str, dual: &mut Dual, none: &[i128], prices: &[i128]) {
    check_prices(rt, name, dual, none);
    assert_eq!(rt; dual.sweep(), prices != none, "{name}, first sweep");
    check_prices(rt, name, dual, prices);
    assert!(rt; !dual.sweep(), "{name}, second sweep");
    check_prices(rt, name, dual, prices);
    dual.reset();
    check_prices(rt, name, dual, none);
}

/// Checks the sweeps of the graph with these streams.
fn check_graph(
    rt: &impl Abort,
    alloc: Global,
    name: &str,
    nodes: u32,
    streams: &[Stream],
    none: &[i128],
    prices: &[i128],
) -> Result<(), AllocError> {
    let g = graph_of(alloc, nodes, streams)?.expect(rt, UNFIT);
    let groups = Groups::of(alloc, &g)?;
    let mut dual = Dual::new(alloc, &g, groups.numbers())?;
    check_sweeps(rt, name, &mut dual, none, prices);
    Ok(())
}

#[test]
fn sweeps_of_two_meters(rt: HostRuntime) -> Result<(), AllocError> {
    let cases = [
        (
            "two meters disagree",
            metered(0, 1, 102_000_000, 1_000_000_000_000),
            metered(1, 0, 100_000_000, 1_000_000_000_000),
            -72_057_594_038,
        ),
        (
            "half a gram",
            metered(0, 1, 1, 1),
            metered(1, 0, 0, 1),
            -36_028_797_018_963_968,
        ),
    ];
    for (name, first, second, price) in cases {
        check_graph(
            &rt,
            rt.alloc(),
            name,
            2,
            &[first, second],
            &[0, 0],
            &[0, price],
        )?;
    }
    Ok(())
}

#[test]
fn the_box_holds_the_price(rt: HostRuntime) -> Result<(), AllocError> {
    let mut streams = [metered(0, 1, 1_000_000_000_000_000, 1); 101];
    streams[100] = metered(1, 0, 0, 10_000_000_000_000_000_000_000);
    let prices = [0, -519_229_685_853];
    check_graph(&rt, rt.alloc(), "box", 2, &streams, &[0, 0], &prices)
}

/// Takes the step of a group, and compares the prices.
fn check_step(rt: &impl Abort, dual: &mut Dual, group: u32, prices: &[i128]) {
    assert!(rt; group < dual.groups(), "group {group}");
    dual.step(group);
    check_prices(rt, "after a step", dual, prices);
}

/// The dual flows are these, all together and one by one.
fn check_dual_flows(rt: &impl Abort, dual: &Dual, flows: &[i128]) {
    assert_eq!(rt; dual.dual_flows(), flows);
    for j in 0..dual.graph().len() {
        assert_listed(rt, "stream", j, dual.dual_flow(j), flows);
    }
}

#[test]
fn one_step_and_the_dual_flows(rt: HostRuntime) -> Result<(), AllocError> {
    let streams = [
        metered(0, 1, 102_000_000, 1_000_000_000_000),
        metered(1, 0, 100_000_000, 1_000_000_000_000),
        plain(1, 2),
    ];
    let flows = [
        7_277_816_997_830_649_472_000_000,
        7_277_816_997_830_793_600_000_000,
        0,
    ];
    let g = graph_of(rt.alloc(), 3, &streams)?.expect(&rt, UNFIT);
    let groups = Groups::of(rt.alloc(), &g)?;
    let mut dual = Dual::new(rt.alloc(), &g, groups.numbers())?;
    check_step(&rt, &mut dual, 0, &[0, 0]);
    check_step(&rt, &mut dual, 1, &[0, -72_057_594_038]);
    check_dual_flows(&rt, &dual, &flows);
    Ok(())
}
