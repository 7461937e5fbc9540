// Low and high points, and what they say about each stream.
//
// Whether the measurements determine a stream depends on one thing: do other unmeasured streams join its
// ends? A search for each stream would take the square of the plant's size. One walk answers all of them:
//
//       a ---        held unmeasured streams a-b, b-c, b-d, and a leap, c-a, outside the forest
//       |    |
//       b    |       below b: b, c, d. The leap leads from below b to a, outside: another way round, so
//      / \   |       a-b is unobservable, and the cycle a-b-c-a shows it.
//     d   c --       below d: d alone, and no leap from there: without b-d nothing joins its ends, so b-d
//                    is observable, and the cut around {d} determines it.
//
// The nodes below a node have consecutive entry numbers. So "no leap leads out" is two comparisons: the
// least and the greatest number that count below the stream's lower end (its low and its high point) are
// numbers of nodes below that end. A measured stream is redundant exactly when its ends are in different
// trees. The side of a cut is written from numbers and labels alone. docs/DEFINITIONS.md, "Forest and
// certificates", has the argument.

ghost use Rattle.std.specs.Prelude.{◌≡◌, ◌≢◌, ℕ, ◌<◌, ◌≤◌, ◌↔◌, ◌⊎◌, Bool, true, false, List as Seq, Some, ◌==◌, length, slice_get, get_or, IsTrue, IfOk, MatchOption};
ghost use Rattle.pb_graph.specs.Walk.{is_in};
ghost use Rattle.pb_graph.specs.Neighbours.{IsNeighbours};
ghost use Rattle.pb_forest.specs.Forest.{IsForestOf};
ghost use Rattle.pb_classify.specs.Points.{ArePoints, IsApart, IsJoined, IsSideOf};
ghost use Rattle.pb_classify.specs.Tables.{points_of};
ghost use Rattle.pb_classify.specs.Spans.{IsInSpan};
ghost use Rattle.pb_classify.specs.CutLists.{HasFewLabels};

use crate::spans::{Span, spans_of};
use crate::walk::{Entry, Walk};
use pb_forest::Forest;
use pb_graph::{Graph, List, Neighbours, Stream};
use std::alloc::{AllocError, Global};
use std::marker::Model;

/// The entry numbers of one walk of the held unmeasured streams of a graph, with the low and high points of each node.
#[derive(Debug, Drop)]
pub struct Points {
    walk: Walk,
    // For each node, the label of its tree.
    labels: Vec<u32>,
    // For each entry number, the span of the numbers below it.
    spans: Vec<Span>,
}

impl Model for Points {
    ghost use Rattle.pb_classify.specs.Tables.{PointTable};
    ghost use Rattle.pb_classify.specs.Spans.{AreKept};

    ghost Value = { PointTable };

    ghost view = { λ a. record { walk = a.walk; spans = a.spans.items } };

    ghost invariant = { λ a. AreKept a.walk a.labels.items a.spans.items };
}

// For each of the labels, whether it is this one.
fn equal_to(alloc: Global, labels: &[u32], label: u32) -> Result<List<bool>, AllocError>
    ensures each { IfOk result (λ side. length side ≡ length labels.now) }
    ensures equal { IfOk result (λ side. (m : ℕ) → m < length labels.now
        → is_in side m ≡ (get_or labels.now m 0 == label)) }
{
    let mut side = vec![in alloc; false; labels.len()]?;
    for (node, &other) in labels.iter().enumerate() {
        side[node] = other == label;
    }
    Ok(List::from_vec(side))
}

impl Points {
    /// The points of a graph, from its incidence lists and its spanning forest.
    ///
    /// The work is proportional to the number of nodes and streams.
    pub fn of(
        alloc: Global,
        graph: &Graph,
        near: &Neighbours,
        forest: &Forest,
    ) -> Result<Points, AllocError>
        requires near { IsNeighbours graph.now near.now }
        requires forest { IsForestOf graph.now forest.now }
        ensures { IfOk result (λ points. ArePoints graph.now (points_of points)) }
    {
        let walk = Walk::of(alloc, graph, near, forest)?;
        let labels = walk.labels(alloc)?;
        let spans = spans_of(alloc, graph, forest, &walk)?;
        Ok(Points {
            walk,
            labels,
            spans,
        })
    }

    // A node's entry number.
    fn number(&self, node: u32) -> u32
        requires { node < (points_of self.now).nodes }
        ensures { result ≡ (points_of self.now).number node }
    {
        self.walk.number(node)
    }

    // What the walk says about a node.
    fn entry(&self, node: u32) -> Entry
        requires { node < (points_of self.now).nodes }
        ensures up { result.up ≡ (points_of self.now).up node }
        ensures label { result.tree ≡ (points_of self.now).label node }
    {
        self.walk.entry(self.number(node) as usize)
    }

    // The number of entries. Each label is less than this.
    pub(crate) fn len(&self) -> usize
        ensures value { result ≡ (points_of self.now).nodes }
        ensures labels { HasFewLabels (points_of self.now) }
    {
        self.walk.len()
    }

    // The label of a node's tree.
    pub(crate) fn label(&self, node: u32) -> u32
        requires { node < (points_of self.now).nodes }
        ensures value { result ≡ (points_of self.now).label node }
        ensures within { result < (points_of self.now).nodes }
    {
        self.labels[node as usize]
    }

    // The span of the numbers below a node.
    fn span(&self, node: u32) -> Span
        requires { node < (points_of self.now).nodes }
        ensures last { result.last ≡ (points_of self.now).last node }
        ensures low { result.low ≡ (points_of self.now).low node }
        ensures high { result.high ≡ (points_of self.now).high node }
    {
        self.spans[self.number(node) as usize]
    }

    // The lower end of a stream, if the stream is held and unmeasured.
    fn lower_end(&self, j: u32, stream: &Stream) -> Option<u32>
        requires from { stream.now.from < (points_of self.now).nodes }
        requires to { stream.now.to < (points_of self.now).nodes }
        ensures { MatchOption result
            (((points_of self.now).up stream.now.from ≢ Some j)
            × ((points_of self.now).up stream.now.to ≢ Some j))
            (λ n. ((points_of self.now).up n ≡ Some j)
            × ((n ≡ stream.now.from) ⊎ (n ≡ stream.now.to))) }
    {
        if self.entry(stream.from).up == Some(j) {
            return Some(stream.from);
        }
        if self.entry(stream.to).up == Some(j) {
            return Some(stream.to);
        }
        None
    }

    // Whether both points of a node are numbers of nodes below it.
    fn are_below(&self, node: u32) -> bool
        requires { node < (points_of self.now).nodes }
        ensures { let points = points_of self.now in
            IsTrue result ↔ ((points.number node ≤ points.low node)
            × (points.high node ≤ points.last node)) }
    {
        let span = self.span(node);
        self.number(node) <= span.low && span.high <= span.last
    }

    /// Whether the ends of a stream aren't joined by other unmeasured streams.
    pub fn is_apart(&self, graph: &Graph, j: u32) -> bool
        requires points { ArePoints graph.now (points_of self.now) }
        requires stream { j < length graph.now.streams }
        ensures apart { result ≡ true → IsApart graph.now j }
        ensures joined { result ≡ false → IsJoined graph.now j }
    {
        let stream = graph.stream(j);
        if stream.meas.is_some() {
            return self.entry(stream.from).tree != self.entry(stream.to).tree;
        }
        match self.lower_end(j, &stream) {
            None => false,
            Some(node) => self.are_below(node),
        }
    }

    // Whether a node is below another.
    fn is_below(&self, node: u32, other: u32) -> bool
        requires node { node < (points_of self.now).nodes }
        requires other { other < (points_of self.now).nodes }
        ensures { IsTrue result ↔ IsInSpan (points_of self.now) node other }
    {
        let number = self.number(other);
        self.number(node) <= number && number <= self.span(node).last
    }

    // Whether two nodes are in the same tree.
    fn are_in_one_tree(&self, node: u32, other: u32) -> bool
        requires node { node < (points_of self.now).nodes }
        requires other { other < (points_of self.now).nodes }
        ensures { IsTrue result
            ↔ ((points_of self.now).label node ≡ (points_of self.now).label other) }
    {
        self.label(node) == self.label(other)
    }

    // The nodes of a node's tree.
    fn tree_of(&self, alloc: Global, node: u32) -> Result<List<bool>, AllocError>
        requires { node < (points_of self.now).nodes }
        ensures each { IfOk result (λ side. length side ≡ (points_of self.now).nodes) }
        ensures tree { let points = points_of self.now in
            IfOk result (λ side. (m : ℕ) → m < points.nodes
            → (is_in side m ≡ true) ↔ (points.label node ≡ points.label m)) }
    {
        equal_to(alloc, &self.labels, self.label(node))
    }

    // The nodes below a node.
    fn below(&self, alloc: Global, graph: &Graph, node: u32) -> Result<List<bool>, AllocError>
        requires nodes { (points_of self.now).nodes ≡ graph.now.nodes }
        requires node { node < (points_of self.now).nodes }
        ensures each { IfOk result (λ side. length side ≡ (points_of self.now).nodes) }
        ensures below { let points = points_of self.now in
            IfOk result (λ side. (m : ℕ) → m < points.nodes
            → (is_in side m ≡ true) ↔ IsInSpan points node m) }
    {
        let mut side = List::new(alloc);
        for other in 0..graph.nodes() {
            side.push(self.is_below(node, other))?;
        }
        Ok(side)
    }

    // The nodes of a node's tree that aren't below the node.
    fn rest_of(&self, alloc: Global, graph: &Graph, node: u32) -> Result<List<bool>, AllocError>
        requires nodes { (points_of self.now).nodes ≡ graph.now.nodes }
        requires node { node < (points_of self.now).nodes }
        ensures each { IfOk result (λ side. length side ≡ (points_of self.now).nodes) }
        ensures rest { let points = points_of self.now in
            IfOk result (λ side. (m : ℕ) → m < points.nodes
            → (is_in side m ≡ true)
            ↔ ((points.label node ≡ points.label m) × (IsInSpan points node m → ⊥))) }
    {
        let mut side = List::new(alloc);
        for other in 0..graph.nodes() {
            side.push(self.are_in_one_tree(node, other) && !self.is_below(node, other))?;
        }
        Ok(side)
    }

    /// The set of nodes that the `from` end of a stream reaches over the other unmeasured streams, if these don't join its ends:
    /// one item for each node.
    ///
    /// The work is proportional to the number of nodes.
    pub fn side_of(&self, alloc: Global, graph: &Graph, j: u32) -> Result<List<bool>, AllocError>
        requires points { ArePoints graph.now (points_of self.now) }
        requires stream { j < length graph.now.streams }
        requires apart { IsApart graph.now j }
        ensures { IfOk result (IsSideOf graph.now j) }
    {
        let stream = graph.stream(j);
        match self.lower_end(j, &stream) {
            None => self.tree_of(alloc, stream.from),
            Some(node) => {
                if node == stream.from {
                    self.below(alloc, graph, node)
                } else {
                    self.rest_of(alloc, graph, node)
                }
            }
        }
    }
}
