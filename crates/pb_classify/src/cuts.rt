// The boundaries of the trees of unmeasured streams, made in one pass over the streams.
//
// The cut of a measured stream is the boundary of the tree at its `from` end, so all measured streams
// that leave a tree have the same one. It is made once for each tree: a stream between two trees is a
// member of two boundaries, with opposite signs, and of no other.
//
//     (tree 0) --x--> (tree 3)        boundary of 0: -x +y      boundary of 3: +x -y
//     (tree 0) <--y-- (tree 3)

ghost use Rattle.std.specs.Prelude.{◌≡◌, ◌<◌, [], Some, length, slice_get, replicate, IfOk, OnOk};
ghost use Rattle.pb_classify.specs.Points.{ArePoints};
ghost use Rattle.pb_classify.specs.Tables.{points_of};
ghost use Rattle.pb_classify.specs.Cuts.{AreCuts, IsMeasured, AreMembersOf};
ghost use Rattle.pb_classify.specs.CutLists.{with_member, with_crossing, with_stream, HasFewLabels};

use crate::points::Points;
use pb_graph::{Graph, List, Member, Stream};
use std::alloc::{AllocError, Global};
use std::marker::Model;

/// The boundaries of the trees of unmeasured streams: for each tree, the streams with exactly one end in it, in order, with their
/// signs.
#[derive(Debug, Drop)]
pub struct Cuts {
    // For each label, the boundary of its tree; for an entry number that isn't a label, an empty list.
    lists: Vec<List<Member>>,
}

impl Model for Cuts {
    ghost use Rattle.std.specs.Prelude.{List as Seq};
    ghost use Rattle.pb_graph.specs.declared.records.Member.{Member as Item};

    ghost Value = { Seq (Seq Item) };

    ghost view = { λ a. a.lists.items };
}

impl Cuts {
    /// The boundaries of the trees of a graph, from its points.
    ///
    /// The work is proportional to the number of nodes and streams, and no stream is a member of more than two boundaries.
    pub fn of(alloc: Global, graph: &Graph, points: &Points) -> Result<Cuts, AllocError>
        requires { ArePoints graph.now (points_of points.now) }
        ensures { IfOk result (λ cuts. AreCuts graph.now (points_of points.now) cuts) }
    {
        let mut lists = empty_lists(alloc, points.len())?;
        add_all(graph, points, lists.as_mut_slice())?;
        Ok(Cuts { lists })
    }

    // The list of a label.
    fn list(&self, label: u32) -> &List<Member>
        requires { label < length self.now }
        ensures { slice_get self.now label ≡ Some result.now }
    {
        &self.lists[label as usize]
    }

    /// The boundary of the side of a measured stream: its members, in the order of the streams.
    pub fn members(&self, graph: &Graph, points: &Points, j: u32) -> &List<Member>
        requires points { ArePoints graph.now (points_of points.now) }
        requires cuts { AreCuts graph.now (points_of points.now) self.now }
        requires stream { j < length graph.now.streams }
        requires measured { IsMeasured graph.now j }
        ensures { AreMembersOf graph.now j result.now }
    {
        self.list(points.label(graph.stream(j).from))
    }
}

// This many empty lists.
fn empty_lists(alloc: Global, count: usize) -> Result<Vec<List<Member>>, AllocError>
    ensures { IfOk result (λ lists. lists.items ≡ replicate count []) }
{
    let mut lists = Vec::new(alloc);
    for _label in 0..count {
        lists.push(List::new(alloc))?;
    }
    Ok(lists)
}

// Adds a member to the list of a label.
fn add(lists: &mut [List<Member>], label: u32, member: Member) -> Result<(), AllocError>
    requires { label < length lists.old }
    ensures { OnOk result (lists.new ≡ with_member lists.old label member) }
{
    lists[label as usize].push(member)
}

// Adds a stream that leaves the tree with the first label and enters the tree with the second.
fn add_crossing(
    lists: &mut [List<Member>],
    stream: u32,
    from: u32,
    to: u32,
) -> Result<(), AllocError>
    requires from { from < length lists.old }
    requires to { to < length lists.old }
    ensures { OnOk result (lists.new ≡ with_crossing lists.old stream from to) }
{
    add(lists, from, Member { stream, sign: -1 })?;
    add(lists, to, Member { stream, sign: 1 })
}

// Adds a stream to the lists of the trees of its ends, if these trees differ.
fn add_stream(
    lists: &mut [List<Member>],
    points: &Points,
    j: u32,
    stream: &Stream,
) -> Result<(), AllocError>
    requires each { length lists.old ≡ (points_of points.now).nodes }
    requires from { stream.now.from < (points_of points.now).nodes }
    requires to { stream.now.to < (points_of points.now).nodes }
    ensures { OnOk result
        (lists.new ≡ with_stream (points_of points.now).label lists.old j stream.now) }
{
    let from = points.label(stream.from);
    let to = points.label(stream.to);
    if from == to {
        return Ok(());
    }
    add_crossing(lists, j, from, to)
}

// Adds each stream.
fn add_all(graph: &Graph, points: &Points, lists: &mut [List<Member>]) -> Result<(), AllocError>
    requires points { ArePoints graph.now (points_of points.now) }
    requires labels { HasFewLabels (points_of points.now) }
    requires empty { lists.old ≡ replicate graph.now.nodes [] }
    ensures { OnOk result (AreCuts graph.now (points_of points.now) lists.new) }
{
    for (j, stream) in graph.streams().iter().enumerate() {
        add_stream(lists, points, j as u32, stream)?;
    }
    Ok(())
}
