// The class of each stream, with its certificate.

ghost use Rattle.std.specs.Prelude.{◌≡◌, ◌<◌, Some, length, slice_get, IfOk, if◌then◌else◌};
ghost use Rattle.pb_graph.specs.ProcessGraph.{IsProcessGraph, is_measured};
ghost use Rattle.pb_graph.specs.Walk.{ends_of, unmeasured_but, Reaches};
ghost use Rattle.pb_graph.specs.Boundary.{boundary_of};
ghost use Rattle.pb_forest.specs.Forest.{IsForestOf};
ghost use Rattle.pb_classify.specs.Points.{ArePoints, IsSideOf};
ghost use Rattle.pb_classify.specs.Tables.{points_of};
ghost use Rattle.pb_classify.specs.Cuts.{AreCuts};
ghost use Rattle.pb_classify.specs.Chords.{IsFirstBefore, AreFirstBefore};
ghost use Rattle.pb_classify.specs.Classification.{IsClassified, IsClassification};

use crate::cuts::Cuts;
use crate::cycles::{cycle_of, first_cycles};
use crate::points::Points;
use pb_forest::Forest;
use pb_graph::{
    Class, Classified, Graph, List, Member, Neighbours, Step, Stream, Witness, boundary,
};
use std::alloc::{AllocError, Global};

// Stream j, whose ends are joined by other unmeasured streams, with its cycle: a measured stream has a cycle of its own, and an
// unmeasured one the first cycle that has it.
fn free_stream(
    alloc: Global,
    graph: &Graph,
    forest: &Forest,
    j: u32,
    stream: &Stream,
    first: Option<List<Step>>,
) -> Result<Classified, AllocError>
    requires limits { IsProcessGraph graph.now }
    requires forest { IsForestOf graph.now forest.now }
    requires stream { slice_get graph.now.streams j ≡ Some stream.now }
    requires joined { Reaches (ends_of (unmeasured_but j) graph.now.streams)
        stream.now.from stream.now.to }
    requires first { IsFirstBefore graph.now forest.now.held (length graph.now.streams) j first }
    ensures { IfOk result (λ c. IsClassified graph.now j c) }
{
    if stream.meas.is_some() {
        let steps = cycle_of(alloc, graph, forest, j)?;
        return Ok(Classified {
            class: Class::Nonredundant,
            witness: Witness::Cycle { steps },
        });
    }
    // its ends are joined, so the cycle of some chord has it
    let steps = first.unwrap();
    Ok(Classified {
        class: Class::Unobservable,
        witness: Witness::Cycle { steps },
    })
}

// The class of a stream that the other measured flows determine.
fn determined_class(stream: &Stream) -> Class
    ensures { result ≡ (if is_measured stream.now then Class.Redundant else Class.Observable) }
{
    if stream.meas.is_some() {
        Class::Redundant
    } else {
        Class::Observable
    }
}

// The boundary of stream j's side. For a measured stream it is the boundary of a tree, which has already been made.
fn members_of(
    alloc: Global,
    graph: &Graph,
    points: &Points,
    cuts: &Cuts,
    j: u32,
    side: &[bool],
) -> Result<List<Member>, AllocError>
    requires points { ArePoints graph.now (points_of points.now) }
    requires cuts { AreCuts graph.now (points_of points.now) cuts.now }
    requires stream { j < length graph.now.streams }
    requires side { IsSideOf graph.now j side.now }
    ensures { IfOk result (λ members. members ≡ boundary_of side.now graph.now.streams) }
{
    if graph.stream(j).meas.is_some() {
        return cuts.members(graph, points, j).copy(alloc);
    }
    boundary(alloc, graph.streams(), side)
}

// The class of stream j with its canonical certificate.
fn classified(
    alloc: Global,
    graph: &Graph,
    points: &Points,
    cuts: &Cuts,
    forest: &Forest,
    j: u32,
    first: Option<List<Step>>,
) -> Result<Classified, AllocError>
    requires limits { IsProcessGraph graph.now }
    requires points { ArePoints graph.now (points_of points.now) }
    requires cuts { AreCuts graph.now (points_of points.now) cuts.now }
    requires forest { IsForestOf graph.now forest.now }
    requires stream { j < length graph.now.streams }
    requires first { IsFirstBefore graph.now forest.now.held (length graph.now.streams) j first }
    ensures { IfOk result (λ c. IsClassified graph.now j c) }
{
    let stream = graph.stream(j);
    if !points.is_apart(graph, j) {
        return free_stream(alloc, graph, forest, j, &stream, first);
    }
    let side = points.side_of(alloc, graph, j)?;
    let members = members_of(alloc, graph, points, cuts, j, side.as_slice())?;
    Ok(Classified {
        class: determined_class(&stream),
        witness: Witness::Cut { side, members },
    })
}

// Classifies each stream, taking the cycles from the list.
fn classify_each(
    alloc: Global,
    graph: &Graph,
    points: &Points,
    cuts: &Cuts,
    forest: &Forest,
    cycles: &mut [Option<List<Step>>],
) -> Result<List<Classified>, AllocError>
    requires points { ArePoints graph.now (points_of points.now) }
    requires cuts { AreCuts graph.now (points_of points.now) cuts.now }
    requires forest { IsForestOf graph.now forest.now }
    requires cycles { AreFirstBefore graph.now forest.now.held
        (length graph.now.streams) cycles.old }
    ensures { IfOk result (λ classes. IsClassification graph.now classes) }
{
    let mut classes = List::new(alloc);
    for j in 0..graph.len() {
        let first = cycles[j as usize].take();
        classes.push(classified(alloc, graph, points, cuts, forest, j, first)?)?;
    }
    Ok(classes)
}

/// The class of each stream, in order, with its canonical certificate, given the graph's spanning forest.
pub fn classify_in(
    alloc: Global,
    graph: &Graph,
    forest: &Forest,
) -> Result<List<Classified>, AllocError>
    requires { IsForestOf graph.now forest.now }
    ensures { IfOk result (λ classes. IsClassification graph.now classes) }
{
    let near = Neighbours::of(alloc, graph)?;
    let points = Points::of(alloc, graph, &near, forest)?;
    let cuts = Cuts::of(alloc, graph, &points)?;
    let mut cycles = first_cycles(alloc, graph, forest)?;
    classify_each(alloc, graph, &points, &cuts, forest, &mut cycles)
}

/// The class of each stream, in order, with its canonical certificate.
pub fn classify(alloc: Global, graph: &Graph) -> Result<List<Classified>, AllocError>
    ensures { IfOk result (λ classes. IsClassification graph.now classes) }
{
    let forest = Forest::of(alloc, graph)?;
    classify_in(alloc, graph, &forest)
}
