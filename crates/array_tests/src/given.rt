// What C hands over: graphs, and critical values.

use pb_arrays::{
    NoGraph, PlantbalCriticalRow, PlantbalMeasuredStream, PlantbalStudyOptions, PlantbalWide,
    critical_of, graph_of,
};
use std::alloc::{AllocError, Global};
use std::test::Fail;

// A stream with a meter that shows 5 g.
fn metered(from: u32, to: u32, variance: u64) -> PlantbalMeasuredStream {
    PlantbalMeasuredStream {
        from,
        to,
        measured: true,
        value: 5,
        variance: PlantbalWide {
            low: variance,
            high: 0,
        },
    }
}

// How many streams the graph has, or why there is none.
fn judged(alloc: Global, nodes: u32, streams: &[PlantbalMeasuredStream]) -> Result<u32, NoGraph> {
    match graph_of(alloc, nodes, streams) {
        Ok(graph) => Ok(graph.len()),
        Err(why) => Err(why),
    }
}

#[test]
fn graphs(rt: HostRuntime) -> Result<(), Fail> {
    let alloc = rt.alloc();
    let good = [metered(0, 1, 4), metered(1, 0, 4)];
    let many = vec![in alloc; metered(0, 1, 4); 4_001]?;
    let cases: [(u32, &[PlantbalMeasuredStream], Result<u32, NoGraph>); 6] = [
        (2, &good, Ok(2)),
        (1, &[], Ok(0)),
        (0, &[], Err(NoGraph::Nodes)),
        (1_002, &good, Err(NoGraph::Nodes)),
        (2, many.as_slice(), Err(NoGraph::Streams)),
        (1, &good, Err(NoGraph::Stream(0))),
    ];
    for (nodes, streams, wanted) in cases {
        assert!(rt; judged(alloc, nodes, streams) == wanted, "{nodes} nodes");
    }
    Ok(())
}

// Options with a critical value for the tests of nodes.
fn asked(nodal: i64) -> PlantbalStudyOptions {
    PlantbalStudyOptions {
        gap: 10,
        sweeps: 5_000,
        eliminate: 0,
        tests: true,
        has_nodal: true,
        has_measure: false,
        nodal,
        measure: 0,
    }
}

// How many critical values of the global test there are, if all values are within their limits.
fn counted(alloc: Global, nodal: i64, value: i64) -> Result<Option<usize>, AllocError> {
    let rows = [PlantbalCriticalRow { dof: 1, value }];
    match critical_of(alloc, &asked(nodal), &rows)? {
        Some(critical) => Ok(Some(critical.global.len())),
        None => Ok(None),
    }
}

#[test]
fn critical_values(rt: HostRuntime) -> Result<(), Fail> {
    let most = 1_000_000_000_000;
    let cases = [
        (0, 3_841, Some(1)),
        (most, most, Some(1)),
        (-1, 3_841, None),
        (most + 1, 3_841, None),
        (0, -1, None),
    ];
    for (nodal, value, wanted) in cases {
        assert!(rt;
            counted(rt.alloc(), nodal, value)? == wanted,
            "{nodal}, {value}"
        );
    }
    Ok(())
}
