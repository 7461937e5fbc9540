// Advice held against all choices of small graphs. The advice of plants that were worked by hand is data, in examples/worked.

use pb_advise::{Advice, MOST_COST, advise};
use pb_classify::classify;
use pb_graph::{Class, Graph, Stream};
use std::alloc::{AllocError, Global};
use std::process::Abort;
use test_graphs::{METER, UNFIT, graph_of, stream};

// The advice for a graph at these costs.
fn advice_for(
    rt: &impl Abort,
    alloc: Global,
    g: &Graph,
    costs: &[i64],
) -> Result<Advice, AllocError> {
    assert_eq!(rt; costs.len(), g.len() as usize, "costs");
    assert!(rt;
        costs.iter().all(|&cost| 0 <= cost && cost <= MOST_COST),
        "costs"
    );
    advise(alloc, g, costs)
}

// Whether a set of streams, one bit for each, has this one.
fn has(set: u32, j: u32) -> bool {
    set >> (j % 32) & 1 == 1
}

// The graph once the streams of a set have meters.
fn metered(rt: &impl Abort, alloc: Global, g: &Graph, set: u32) -> Result<Graph, AllocError> {
    let mut copy = Graph::new(alloc, g.nodes());
    for j in 0..g.len() {
        let s = g.stream(j);
        let meas = if has(set, j) { METER } else { s.meas };
        let s = stream(s.from, s.to, meas);
        assert!(rt; copy.fits(&s), "{s:?}");
        copy.push(s)?;
    }
    Ok(copy)
}

// Whether no stream of a set is measured.
fn is_unmeasured(g: &Graph, set: u32) -> bool {
    for j in 0..g.len() {
        if has(set, j) && g.stream(j).meas.is_some() {
            return false;
        }
    }
    true
}

// Whether every stream is measured or observable once the streams of a set have meters.
fn suffices(rt: &impl Abort, alloc: Global, g: &Graph, set: u32) -> Result<bool, AllocError> {
    let copy = metered(rt, alloc, g, set)?;
    let classes = classify(alloc, &copy)?;
    Ok(classes.iter().all(|c| c.class != Class::Unobservable))
}

// What meters on the streams of a set cost.
fn cost_of(costs: &[i64], set: u32) -> i64 {
    let mut sum = 0i64;
    for (j, &cost) in costs.iter().enumerate() {
        if has(set, (j % 32) as u32) {
            sum = sum.saturating_add(cost);
        }
    }
    sum
}

// The least cost of the sets of the first six streams that are unmeasured and suffice.
fn least_cost(rt: &impl Abort, alloc: Global, g: &Graph, costs: &[i64]) -> Result<i64, AllocError> {
    let mut least = i64::MAX;
    for set in 0..64 {
        if is_unmeasured(g, set) && suffices(rt, alloc, g, set)? {
            least = least.min(cost_of(costs, set));
        }
    }
    Ok(least)
}

// The streams of an advice as a set, each with a cycle of the graph.
fn set_of(rt: &impl Abort, g: &Graph, advice: &Advice) -> u32 {
    let mut set = 0u32;
    for meter in advice.meter.iter() {
        assert!(rt;
            g.is_cycle(meter.steps.as_slice()),
            "the cycle of stream {}",
            meter.stream
        );
        set |= 1 << (meter.stream % 32);
    }
    set
}

// The advised streams as a set, and what they cost.
fn advised(
    rt: &impl Abort,
    alloc: Global,
    g: &Graph,
    costs: &[i64],
) -> Result<(u32, i128), AllocError> {
    let advice = advice_for(rt, alloc, g, costs)?;
    Ok((set_of(rt, g, &advice), advice.total))
}

// Six streams between three units and the environment, drawn by lot from a number, with costs of 0 to 3.
fn drawn(seed: u32) -> ([Stream; 6], [i64; 6]) {
    let mut streams = [stream(0, 1, None); 6];
    let mut costs = [0; 6];
    let mut lot = seed;
    for place in 0..6 {
        lot = lot.wrapping_mul(1_103_515_245).wrapping_add(12_345);
        let from = (lot >> 16) % 4;
        let to = (from + 1 + (lot >> 20) % 3) % 4;
        let meas = if (lot >> 24) % 4 == 0 { METER } else { None };
        streams[place] = stream(from, to, meas);
        costs[place] = i64::from((lot >> 28) % 4);
    }
    (streams, costs)
}

// The advice for a graph suffices, and no set of its streams that suffices costs less.
fn assert_least(
    rt: &impl Abort,
    alloc: Global,
    seed: u32,
    g: &Graph,
    costs: &[i64],
) -> Result<(), AllocError> {
    let (set, total) = advised(rt, alloc, g, costs)?;
    assert!(rt; is_unmeasured(g, set), "graph {seed}");
    assert!(rt; suffices(rt, alloc, g, set)?, "graph {seed}");
    assert_eq!(rt;
        (
            i128::from(cost_of(costs, set)),
            i128::from(least_cost(rt, alloc, g, costs)?)
        ),
        (total, total),
        "graph {seed}"
    );
    Ok(())
}

// The same for a graph drawn by lot.
fn assert_least_by_lot(rt: &impl Abort, alloc: Global, seed: u32) -> Result<(), AllocError> {
    let (streams, costs) = drawn(seed);
    let g = graph_of(alloc, 4, &streams)?.expect(rt, UNFIT);
    assert_least(rt, alloc, seed, &g, &costs)
}

/// Small graphs drawn by lot, each against all sets of its streams.
#[test]
fn as_cheap_as_any_set(rt: HostRuntime) -> Result<(), AllocError> {
    for seed in 0..60 {
        assert_least_by_lot(&rt, rt.alloc(), seed)?;
    }
    Ok(())
}
