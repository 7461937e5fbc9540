// The breadth-first search: what a node reaches, and a path from it.

ghost use Rattle.std.specs.Prelude.{◌≡◌, ◌<◌, ◌≤◌, ◌∷◌, true, false, All, length, get_or, replicate, IfOk, IsTrue, ◌↔◌, MatchOption, map, not, ◌==◌};
ghost use Rattle.pb_limits.specs.Limits.{most_nodes};
ghost use Rattle.pb_graph.specs.ProcessGraph.{IsStream, some_stream};
ghost use Rattle.pb_graph.specs.Walk.{Reaches, IsReach};
ghost use Rattle.pb_graph.specs.Path.{IsPath, open_ends};
ghost use Rattle.pb_graph.specs.Neighbours.{touching, IsNeighbours};
ghost use Rattle.pb_graph.specs.Search.{IsTree, IsSearch, place_of, hung, step_back, followed, visited, begun, way_of, end_of};

use crate::cycle::ends;
use crate::graph::Graph;
use crate::list::List;
use crate::neighbours::Neighbours;
use crate::records::{Step, Stream};
use std::alloc::{AllocError, Global};
use std::marker::Model;

// A breadth-first search from a root: the nodes found so far in order, and for each its step toward the root.
#[derive(Drop)]
struct Tree {
    root: u32,
    // One more than a node's place in `order`, or 0 if it isn't found.
    place: Vec<u32>,
    way: Vec<Step>,
    order: Vec<u32>,
    found: u32,
}

impl Model for Tree {
    ghost use Rattle.pb_graph.specs.Search.{SearchTree};

    ghost Value = { SearchTree };

    ghost view = { λ a. record {
      root = a.root;
      place = a.place.items;
      way = a.way.items;
      order = a.order.items;
      found = a.found;
    } };
}

// The step along a stream that ends at this node.
fn step_back(node: u32, stream_id: u32, stream: &Stream) -> Step
    ensures { result ≡ step_back node stream_id stream.now }
{
    Step {
        stream: stream_id,
        forward: stream.to == node,
    }
}

// Where a step ends, or node 0 if there is no such stream.
fn end(streams: &[Stream], step: &Step) -> u32
    ensures { result ≡ end_of streams.now step.now }
{
    match ends(streams, step) {
        None => 0,
        Some((_, end)) => end,
    }
}

impl Tree {
    // The node found at a place of the order.
    fn node_at(&self, place: u32) -> u32
        requires { place < length self.now.order }
        ensures { result ≡ get_or self.now.order place 0 }
    {
        self.order[place as usize]
    }

    // Whether a node is found.
    fn has(&self, node: u32) -> bool
        requires { node < length self.now.place }
        ensures { IsTrue result ↔ (0 < place_of self.now node) }
    {
        self.place[node as usize] > 0
    }

    // A node's step toward the root.
    fn way_at(&self, node: u32) -> Step
        requires { node < length self.now.way }
        ensures { result ≡ way_of self.now node }
    {
        self.way[node as usize]
    }

    // The nodes found, as a side.
    fn side(&self, alloc: Global) -> Result<List<bool>, AllocError>
        ensures { IfOk result (λ side. side ≡ map (λ p. not (p == 0)) self.now.place) }
    {
        let mut side = List::new(alloc);
        for &p in &self.place {
            side.push(p != 0)?;
        }
        Ok(side)
    }

    // The steps from a node found to the root.
    fn climb(
        &self,
        alloc: Global,
        streams: &[Stream],
        marks: &[bool],
        from: u32,
    ) -> Result<List<Step>, AllocError>
        requires tree { IsTree (open_ends marks.now streams.now) (length self.now.place) self.now }
        requires found { 0 < place_of self.now from }
        ensures { IfOk result (λ steps. IsPath (open_ends marks.now streams.now)
            (length self.now.place) streams.now from steps self.now.root) }
    {
        let mut steps = List::new(alloc);
        let mut at = from;
        while at != self.root {
            let step = self.way_at(at);
            steps.push(step)?;
            at = end(streams, &step);
        }
        Ok(steps)
    }

    // Hangs a node that hasn't been found yet below the node that a step leads to.
    fn hang(&mut self, at: u32, step: Step)
        requires place { at < length self.old.place }
        requires way { at < length self.old.way }
        requires order { self.old.found < length self.old.order }
        requires few { length self.old.order ≤ most_nodes }
        ensures { self.new ≡ hung self.old at step }
    {
        self.order[self.found as usize] = at;
        self.found += 1;
        self.place[at as usize] = self.found;
        self.way[at as usize] = step;
    }

    // Follows a stream from one of its ends to the other.
    fn follow(&mut self, streams: &[Stream], marks: &[bool], node: u32, stream_id: u32)
        requires few { length self.old.place ≤ most_nodes }
        requires ends { All (IsStream (length self.old.place)) streams.now }
        requires marks { length marks.now ≡ length streams.now }
        requires tree { IsTree (open_ends marks.now streams.now) (length self.old.place) self.old }
        requires stream { stream_id < length streams.now }
        ensures { self.new
            ≡ followed node stream_id (get_or marks.now stream_id false)
            (get_or streams.now stream_id some_stream) self.old }
    {
        let stream = &streams[stream_id as usize];
        let other = stream.end_from(node);
        if marks[stream_id as usize] && self.place[other as usize] == 0 {
            self.hang(other, step_back(node, stream_id, stream));
        }
    }

    // Follows each of these streams from one node.
    fn visit(&mut self, streams: &[Stream], marks: &[bool], node: u32, list: &[u32])
        requires few { length self.old.place ≤ most_nodes }
        requires ends { All (IsStream (length self.old.place)) streams.now }
        requires marks { length marks.now ≡ length streams.now }
        requires tree { IsTree (open_ends marks.now streams.now) (length self.old.place) self.old }
        requires found { 0 < place_of self.old node }
        requires list { list.now ≡ touching node streams.now }
        ensures { self.new ≡ visited streams.now marks.now node list.now self.old }
    {
        for &stream_id in list {
            self.follow(streams, marks, node, stream_id);
        }
    }

    // Follows the streams of each node found, in order, until no node is left.
    fn run(&mut self, streams: &[Stream], marks: &[bool], near: &Neighbours)
        requires few { length self.old.place ≤ most_nodes }
        requires ends { All (IsStream (length self.old.place)) streams.now }
        requires marks { length marks.now ≡ length streams.now }
        requires tree { IsTree (open_ends marks.now streams.now) (length self.old.place) self.old }
        requires near { IsNeighbours
            (record { nodes = length self.old.place; streams = streams.now }) near.now }
        ensures search { IsSearch (open_ends marks.now streams.now)
            (length self.old.place) self.new }
        ensures root { self.new.root ≡ self.old.root }
    {
        let mut done = 0;
        while done < self.found {
            let node = self.node_at(done);
            self.visit(streams, marks, node, near.at(node).as_slice());
            done += 1;
        }
    }
}

// A search that has found only its root.
fn begin(alloc: Global, nodes: u32, root: u32) -> Result<Tree, AllocError>
    requires few { nodes ≤ most_nodes }
    requires root { root < nodes }
    ensures { IfOk result (λ t. t ≡ begun nodes root) }
{
    let step = Step {
        stream: 0,
        forward: false,
    };
    let mut tree = Tree {
        root,
        place: vec![in alloc; 0u32; nodes as usize]?,
        way: steps(alloc, nodes, step)?,
        order: vec![in alloc; 0u32; nodes as usize]?,
        found: 0,
    };
    tree.hang(root, step);
    Ok(tree)
}

// As many copies of a step as there are nodes.
fn steps(alloc: Global, nodes: u32, step: Step) -> Result<Vec<Step>, AllocError>
    ensures { IfOk result (λ v. v.items ≡ replicate nodes step) }
{
    let mut steps = Vec::new(alloc);
    for _node in 0..nodes {
        steps.push(step)?;
    }
    Ok(steps)
}

// A whole search: what the root reaches over marked streams, each node with its step toward the root.
fn search(
    alloc: Global,
    graph: &Graph,
    near: &Neighbours,
    marks: &[bool],
    root: u32,
) -> Result<Tree, AllocError>
    requires near { IsNeighbours graph.now near.now }
    requires marks { length marks.now ≡ length graph.now.streams }
    requires root { root < graph.now.nodes }
    ensures search { IfOk result
        (IsSearch (open_ends marks.now graph.now.streams) graph.now.nodes) }
    ensures root { IfOk result (λ t. t.root ≡ root) }
{
    let mut tree = begin(alloc, graph.nodes(), root)?;
    tree.run(graph.streams(), marks, near);
    Ok(tree)
}

/// The set of nodes that a node reaches over marked streams, in either direction: one item for each node.
///
/// The work is proportional to the number of nodes and streams.
pub fn reach(
    alloc: Global,
    graph: &Graph,
    near: &Neighbours,
    marks: &[bool],
    start: u32,
) -> Result<List<bool>, AllocError>
    requires near { IsNeighbours graph.now near.now }
    requires marks { length marks.now ≡ length graph.now.streams }
    requires start { start < graph.now.nodes }
    ensures { IfOk result (IsReach (open_ends marks.now graph.now.streams) graph.now.nodes start) }
{
    search(alloc, graph, near, marks, start)?.side(alloc)
}

/// A path over marked streams from one node to another, or None exactly when there is none.
///
/// The work is proportional to the number of nodes and streams.
pub fn path(
    alloc: Global,
    graph: &Graph,
    near: &Neighbours,
    marks: &[bool],
    from: u32,
    to: u32,
) -> Result<Option<List<Step>>, AllocError>
    requires near { IsNeighbours graph.now near.now }
    requires marks { length marks.now ≡ length graph.now.streams }
    requires from { from < graph.now.nodes }
    requires to { to < graph.now.nodes }
    ensures { IfOk result (λ found. MatchOption found
        (Reaches (open_ends marks.now graph.now.streams) from to → ⊥)
        (λ steps. IsPath (open_ends marks.now graph.now.streams)
        graph.now.nodes graph.now.streams from steps to)) }
{
    let tree = search(alloc, graph, near, marks, to)?;
    if !tree.has(from) {
        return Ok(None);
    }
    Ok(Some(tree.climb(alloc, graph.streams(), marks, from)?))
}

/// A stream forward, and then these steps: the cycle that the stream makes with a path back from its end.
pub fn forward_then(alloc: Global, stream: u32, back: &[Step]) -> Result<List<Step>, AllocError>
    ensures { IfOk result (λ steps.
        steps ≡ record { stream = stream; forward = true } ∷ back.now) }
{
    let mut steps = Vec::new(alloc);
    steps.push(Step {
        stream,
        forward: true,
    })?;
    steps.extend_from_slice(back)?;
    Ok(List::from_vec(steps))
}
