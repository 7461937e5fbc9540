ghost use Rattle.std.specs.Prelude.{◌≡◌, ◌<◌, ◌≤◌, All, length};
ghost use Rattle.pb_limits.specs.Limits.{most_nodes};
ghost use Rattle.pb_graph.specs.Neighbours.{IsNeighbours};
ghost use Rattle.pb_forest.specs.Flows.{IsGivenFlow};

use pb_forest::Forest;
use pb_graph::{Graph, Neighbours, Step, Stream};
use std::alloc::{AllocError, Global};
use std::process::Abort;
use test_graphs::{METER, UNFIT, graph_of, stream};

// For each stream of the graph, whether the forest holds it.
fn marks_of(alloc: Global, g: &Graph, forest: &Forest) -> Result<Vec<bool>, AllocError>
    requires { forest.now.graph ≡ g.now }
{
    let mut marks = Vec::new(alloc);
    for j in 0..g.len() {
        marks.push(forest.holds(j))?;
    }
    Ok(marks)
}

// The rank of the forest of these streams, and which of them it holds.
fn rank_and_marks(
    rt: &impl Abort,
    alloc: Global,
    nodes: u32,
    streams: &[Stream],
) -> Result<(u32, Vec<bool>), AllocError>
    requires env { 1 ≤ nodes }
    requires most { nodes ≤ most_nodes }
{
    let g = graph_of(alloc, nodes, streams)?.expect(rt, UNFIT);
    let forest = Forest::of(alloc, &g)?;
    let marks = marks_of(alloc, &g, &forest)?;
    Ok((forest.rank(), marks))
}

// The balanced flows, by the flows of the streams that aren't in the forest of these streams.
fn flows_of(
    rt: &impl Abort,
    alloc: Global,
    nodes: u32,
    streams: &[Stream],
    off: &[i128],
) -> Result<Vec<i128>, AllocError>
    requires env { 1 ≤ nodes }
    requires most { nodes ≤ most_nodes }
    requires within { All IsGivenFlow off.now }
{
    let g = graph_of(alloc, nodes, streams)?.expect(rt, UNFIT);
    assert_eq!(rt; g.len() as usize, off.len());
    let forest = Forest::of(alloc, &g)?;
    let mut flows = vec![in alloc; 0; off.len()]?;
    forest.flows(&g, off, &mut flows);
    Ok(flows)
}

const BESIDE: [Stream; 2] = [
    Stream {
        from: 1,
        to: 2,
        meas: None,
    },
    Stream {
        from: 1,
        to: 2,
        meas: METER,
    },
];

/// A plain stream and a meter, both from one unit to another: the plain one is held, and nothing can be tested.
#[test]
fn meter_beside_plain_stream(rt: HostRuntime) -> Result<(), AllocError> {
    let (rank, marks) = rank_and_marks(&rt, rt.alloc(), 3, &BESIDE)?;
    assert_eq!(rt; rank, 0);
    assert_eq!(rt; marks.as_slice(), [true, false].as_slice());
    Ok(())
}

// The forest's walk from one node to another has these steps, or there is none.
fn assert_path(
    rt: &impl Abort,
    alloc: Global,
    forest: &Forest,
    from: u32,
    to: u32,
    want: Option<&[Step]>,
) -> Result<(), AllocError>
    requires from { from < forest.now.graph.nodes }
    requires to { to < forest.now.graph.nodes }
{
    let path = forest.path(alloc, from, to)?;
    match (&path, want) {
        (Some(steps), Some(want)) => {
            assert_eq!(rt; steps.as_slice(), want, "from {from} to {to}")
        }
        (None, None) => {}
        _ => panic!(rt; "from {from} to {to}"),
    }
    Ok(())
}

// The walks of a forest of three nodes, whose one stream is the plain one of the same streams.
fn assert_plain_paths(
    rt: &impl Abort,
    alloc: Global,
    g: &Graph,
    forest: &Forest,
) -> Result<(), AllocError>
    requires { forest.now.graph ≡ g.now }
{
    let there = Step {
        stream: 0,
        forward: true,
    };
    let back = Step {
        stream: 0,
        forward: false,
    };
    assert!(rt; g.nodes() == 3, "three nodes");
    assert_path(rt, alloc, forest, 1, 2, Some(&[there]))?;
    assert_path(rt, alloc, forest, 2, 1, Some(&[back]))?;
    assert_path(rt, alloc, forest, 0, 1, None)
}

/// Among the same streams the plain one leads from unit to unit, and none leads from the environment to a unit.
#[test]
fn paths_by_a_plain_stream(rt: HostRuntime) -> Result<(), AllocError> {
    let g = graph_of(rt.alloc(), 3, &BESIDE)?.expect(&rt, UNFIT);
    let forest = Forest::of(rt.alloc(), &g)?;
    assert_plain_paths(&rt, rt.alloc(), &g, &forest)
}

/// One stream into a unit and two out of it, all metered: the first is held, and one balance tests the meters.
#[test]
fn one_unit_three_meters(rt: HostRuntime) -> Result<(), AllocError> {
    let streams = [
        stream(0, 1, METER),
        stream(1, 0, METER),
        stream(1, 0, METER),
    ];
    let (rank, marks) = rank_and_marks(&rt, rt.alloc(), 2, &streams)?;
    assert_eq!(rt; rank, 1);
    assert_eq!(rt; marks.as_slice(), [true, false, false].as_slice());
    let flows = flows_of(&rt, rt.alloc(), 2, &streams, &[999, 7, -20])?;
    assert_eq!(rt; flows.as_slice(), [-13, 7, -20].as_slice());
    Ok(())
}

/// A unit with two streams out of it, whose ends have three more streams: each branch takes what the balance at its lower end requires.
#[test]
fn branches_from_the_leaves(rt: HostRuntime) -> Result<(), AllocError> {
    let streams = [
        stream(0, 1, None),
        stream(1, 2, None),
        stream(1, 3, None),
        stream(3, 2, METER),
        stream(2, 0, METER),
        stream(3, 0, METER),
    ];
    let flows = flows_of(&rt, rt.alloc(), 4, &streams, &[0, 0, 0, 7, 11, -4])?;
    assert_eq!(rt; flows.as_slice(), [7, 4, 3, 7, 11, -4].as_slice());
    Ok(())
}

/// A cycle of units that the environment has no part in, two streams between the environment and a unit, and an isolated unit.
#[test]
fn several_trees(rt: HostRuntime) -> Result<(), AllocError> {
    let streams = [
        stream(3, 1, None),
        stream(4, 3, None),
        stream(1, 4, METER),
        stream(2, 0, METER),
        stream(0, 2, METER),
    ];
    let flows = flows_of(&rt, rt.alloc(), 6, &streams, &[1, 1, 5, 1, -8])?;
    assert_eq!(rt; flows.as_slice(), [5, 5, 5, -8, -8].as_slice());
    Ok(())
}

// From one node to another the forest has the path that a search of the graph finds over its streams.
fn assert_path_as_searched(
    rt: &impl Abort,
    alloc: Global,
    g: &Graph,
    near: &Neighbours,
    forest: &Forest,
    marks: &[bool],
    from: u32,
    to: u32,
) -> Result<(), AllocError>
    requires near { IsNeighbours g.now near.now }
    requires marks { length marks.now ≡ length g.now.streams }
    requires graph { forest.now.graph ≡ g.now }
    requires from { from < g.now.nodes }
    requires to { to < g.now.nodes }
{
    let searched = pb_graph::path(alloc, g, near, marks, from, to)?;
    let path = forest.path(alloc, from, to)?;
    assert!(rt; path == searched, "from {from} to {to}");
    Ok(())
}

// The same between any two nodes.
fn assert_all_as_searched(
    rt: &impl Abort,
    alloc: Global,
    g: &Graph,
    near: &Neighbours,
    forest: &Forest,
    marks: &[bool],
) -> Result<(), AllocError>
    requires near { IsNeighbours g.now near.now }
    requires marks { length marks.now ≡ length g.now.streams }
    requires graph { forest.now.graph ≡ g.now }
{
    for from in 0..g.nodes() {
        for to in 0..g.nodes() {
            assert_path_as_searched(rt, alloc, g, near, forest, marks, from, to)?;
        }
    }
    Ok(())
}

fn assert_as_searched(rt: &impl Abort, alloc: Global, g: &Graph) -> Result<(), AllocError> {
    let forest = Forest::of(alloc, g)?;
    let marks = marks_of(alloc, g, &forest)?;
    assert!(rt; marks.len() == g.len() as usize, "a mark for each stream");
    let near = Neighbours::of(alloc, g)?;
    assert_all_as_searched(rt, alloc, g, &near, &forest, &marks)
}

/// Two trees, one of which has a branch of three streams and one of two from one node, and an isolated unit.
#[test]
fn paths_as_searched(rt: HostRuntime) -> Result<(), AllocError> {
    let alloc = rt.alloc();
    let g = graph_of(
        alloc,
        10,
        &[
            stream(0, 1, None),
            stream(2, 1, None),
            stream(2, 3, METER),
            stream(3, 4, None),
            stream(1, 5, METER),
            stream(6, 5, None),
            stream(4, 6, METER),
            stream(8, 7, None),
            stream(0, 2, METER),
        ],
    )?
    .expect(&rt, UNFIT);
    assert_as_searched(&rt, alloc, &g)
}
