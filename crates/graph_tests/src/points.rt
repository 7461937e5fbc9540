ghost use Rattle.std.specs.Prelude.{◌≡◌, ◌<◌, ◌≤◌, length, IfOk};
ghost use Rattle.pb_limits.specs.Limits.{most_streams};
ghost use Rattle.pb_graph.specs.Neighbours.{IsNeighbours};
ghost use Rattle.pb_classify.specs.Points.{ArePoints};
ghost use Rattle.pb_classify.specs.Tables.{points_of};
ghost use Rattle.pb_classify.specs.Cuts.{AreCuts};

use pb_classify::{Cuts, Points};
use pb_forest::Forest;
use pb_graph::{Graph, Neighbours, Stream, boundary, reach};
use std::alloc::{AllocError, Global};
use std::process::Abort;
use test_graphs::{METER, UNFIT, graph_of, stream};

// Marks the unmeasured streams except the j-th.
fn others(alloc: Global, streams: &[Stream], j: u32) -> Result<Vec<bool>, AllocError>
    requires { length streams.now ≤ most_streams }
    ensures { IfOk result (λ marks. length marks.items ≡ length streams.now) }
{
    let mut marks = Vec::new(alloc);
    for (k, stream) in streams.iter().enumerate() {
        marks.push(stream.meas.is_none() && k as u32 != j)?;
    }
    Ok(marks)
}

// The points say of a stream what a search of the graph finds, and a measured stream has the boundary of what is found.
fn assert_stream_as_searched(
    rt: &impl Abort,
    alloc: Global,
    g: &Graph,
    near: &Neighbours,
    points: &Points,
    cuts: &Cuts,
    j: u32,
) -> Result<(), AllocError>
    requires near { IsNeighbours g.now near.now }
    requires points { ArePoints g.now (points_of points.now) }
    requires cuts { AreCuts g.now (points_of points.now) cuts.now }
    requires stream { j < length g.now.streams }
{
    let s = g.stream(j);
    let side = reach(alloc, g, near, &others(alloc, g.streams(), j)?, s.from)?;
    let apart = !*side.at(s.to as usize);
    assert_eq!(rt; points.is_apart(g, j), apart, "stream {j}");
    if points.is_apart(g, j) {
        assert!(rt; points.side_of(alloc, g, j)? == side, "stream {j}");
    }
    if s.meas.is_some() {
        let members = boundary(alloc, g.streams(), side.as_slice())?;
        assert!(rt; *cuts.members(g, points, j) == members, "stream {j}");
    }
    Ok(())
}

// The same for each stream.
fn assert_streams_as_searched(
    rt: &impl Abort,
    alloc: Global,
    g: &Graph,
    near: &Neighbours,
    points: &Points,
    cuts: &Cuts,
) -> Result<(), AllocError>
    requires near { IsNeighbours g.now near.now }
    requires points { ArePoints g.now (points_of points.now) }
    requires cuts { AreCuts g.now (points_of points.now) cuts.now }
{
    for j in 0..g.len() {
        assert_stream_as_searched(rt, alloc, g, near, points, cuts, j)?;
    }
    Ok(())
}

fn assert_cuts_as_searched(
    rt: &impl Abort,
    alloc: Global,
    g: &Graph,
    near: &Neighbours,
    points: &Points,
) -> Result<(), AllocError>
    requires near { IsNeighbours g.now near.now }
    requires points { ArePoints g.now (points_of points.now) }
{
    let cuts = Cuts::of(alloc, g, points)?;
    assert_streams_as_searched(rt, alloc, g, near, points, &cuts)
}

fn assert_as_searched(rt: &impl Abort, alloc: Global, g: &Graph) -> Result<(), AllocError> {
    let near = Neighbours::of(alloc, g)?;
    let forest = Forest::of(alloc, g)?;
    let points = Points::of(alloc, g, &near, &forest)?;
    assert_cuts_as_searched(rt, alloc, g, &near, &points)
}

/// A tree with a stream from a leaf up, two parallel streams, meters, and a tree without the environment.
#[test]
fn as_searched(rt: HostRuntime) -> Result<(), AllocError> {
    let alloc = rt.alloc();
    let g = graph_of(
        alloc,
        10,
        &[
            stream(0, 1, None),
            stream(2, 1, None),
            stream(2, 3, None),
            stream(3, 4, None),
            stream(4, 2, None),
            stream(1, 5, None),
            stream(5, 1, None),
            stream(3, 6, None),
            stream(7, 8, None),
            stream(9, 8, None),
            stream(6, 8, METER),
            stream(4, 6, METER),
            stream(9, 7, METER),
        ],
    )?
    .expect(&rt, UNFIT);
    assert_as_searched(&rt, alloc, &g)
}

// A line of 1,000 plain streams from the environment.
fn line(rt: &impl Abort, alloc: Global) -> Result<Graph, AllocError> {
    let mut streams = Vec::new(alloc);
    for n in 0..1_000 {
        streams.push(stream(n, n + 1, None))?;
    }
    Ok(graph_of(alloc, 1_001, &streams)?.expect(rt, UNFIT))
}

/// Each stream of a line is a bridge, and what it cuts off is the units after it.
#[test]
fn line_of_plain_streams(rt: HostRuntime) -> Result<(), AllocError> {
    let g = line(&rt, rt.alloc())?;
    assert_as_searched(&rt, rt.alloc(), &g)
}

// 120 streams between 40 nodes, every fourth one plain.
fn trees(rt: &impl Abort, alloc: Global) -> Result<Graph, AllocError> {
    let mut streams = Vec::new(alloc);
    for n in 0..120 {
        let from = n * 7 % 40;
        let to = (from + 1 + n % 39) % 40;
        streams.push(stream(from, to, if n % 4 == 0 { None } else { METER }))?;
    }
    Ok(graph_of(alloc, 40, &streams)?.expect(rt, UNFIT))
}

/// Some of the meters lead from tree to tree, others stay within one.
#[test]
fn meters_between_trees(rt: HostRuntime) -> Result<(), AllocError> {
    let g = trees(&rt, rt.alloc())?;
    assert_as_searched(&rt, rt.alloc(), &g)
}
