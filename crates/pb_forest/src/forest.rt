// The spanning forest of a graph.

ghost use Rattle.std.specs.Prelude.{◌≡◌, ◌<◌, ◌≤◌, ◌↔◌, ℤ, false, List as Seq, All, Some, length, slice_get, IsTrue, IfOk, MatchOption};
ghost use Rattle.pb_graph.specs.Walk.{Reaches};
ghost use Rattle.pb_graph.specs.Path.{IsPath};
ghost use Rattle.pb_graph.specs.Balance.{IsBalanced};
ghost use Rattle.pb_graph.specs.WellFormed.{IsFlow};
ghost use Rattle.pb_forest.specs.Forest.{SpanningForest, IsHeld, IsTied, IsForest, degrees_of_freedom, held_ends};
ghost use Rattle.pb_forest.specs.Flows.{AgreeOffForest, IsGivenFlow};

use crate::branches::{Branch, branches_of};
use crate::chords::{Chord, chords_of};
use crate::climb::path_in_tree;
use crate::flows::write_flows;
use crate::labels::held_streams;
use crate::rank::measured_held;
use crate::trees::Trees;
use pb_graph::{Graph, List, Neighbours, Step};
use std::alloc::{AllocError, Global};
use std::marker::Model;

/// The spanning forest of a process graph (Kruskal 1956; Narasimhan and Jordache, chapter 3).
///
/// Streams are taken in order, the unmeasured ones by id and then the measured ones by id. A stream is held exactly when no
/// walk of streams before it joins its ends.
#[derive(Debug, Drop)]
pub struct Forest<'a> {
    graph: &'a Graph,
    held: Vec<bool>,
    // The trees of the held streams, each from a root.
    trees: Trees,
    chords: Vec<Chord>,
    // The branch of each node, in the order found.
    branches: Vec<Option<Branch>>,
}

impl<'a> Model for Forest<'a> {
    ghost use Rattle.pb_forest.specs.Forest.{SpanningForest};
    ghost use Rattle.pb_forest.specs.Balancing.{IsKept};

    ghost Value = { SpanningForest };

    ghost view = { λ a. record { graph = a.graph.now; held = a.held.items } };

    ghost invariant = { λ a.
        IsKept a.graph.now a.held.items a.trees a.chords.items a.branches.items };
}

impl<'a> Forest<'a> {
    /// The spanning forest of a graph.
    pub fn of(alloc: Global, graph: &'a Graph) -> Result<Forest<'a>, AllocError>
        ensures graph { IfOk result (λ forest. forest.graph ≡ graph.now) }
        ensures forest { IfOk result (λ forest. IsForest graph.now.streams forest.held) }
    {
        let held = held_streams(alloc, graph.nodes(), graph.streams())?;
        let near = Neighbours::of(alloc, graph)?;
        let trees = Trees::of(alloc, graph, &near, &held)?;
        let chords = chords_of(alloc, graph, &held, &trees)?;
        let branches = branches_of(alloc, graph, &held, &trees)?;
        Ok(Forest {
            graph,
            held,
            trees,
            chords,
            branches,
        })
    }

    /// Whether the forest holds a stream.
    pub fn holds(&self, stream: u32) -> bool
        requires { stream < length self.now.graph.streams }
        ensures held { IsTrue result ↔ IsHeld self.now.graph.streams stream }
        ensures tied { result ≡ false → IsTied self.now.graph.streams stream }
        ensures mark { slice_get self.now.held stream ≡ Some result }
        ensures forest { IsForest self.now.graph.streams self.now.held }
    {
        self.held[stream as usize]
    }

    /// The degrees of freedom: the number of measured streams held.
    pub fn rank(&self) -> u32
        ensures value { result ≡ degrees_of_freedom self.now.graph.streams self.now.held }
        ensures most { result ≤ length self.now.graph.streams }
        ensures forest { IsForest self.now.graph.streams self.now.held }
    {
        measured_held(self.graph.streams(), &self.held)
    }

    /// The path of held streams from one node to another, on which no node appears twice, or None if held streams don't join them.
    ///
    /// The work is proportional to the number of steps of the path.
    pub fn path(&self, alloc: Global, from: u32, to: u32) -> Result<Option<List<Step>>, AllocError>
        requires from { from < self.now.graph.nodes }
        requires to { to < self.now.graph.nodes }
        ensures path { IfOk result (λ o. MatchOption o
            (Reaches (held_ends self.now) from to → ⊥)
            (λ steps.
            IsPath
            (held_ends self.now) self.now.graph.nodes self.now.graph.streams from steps to)) }
        ensures forest { IsForest self.now.graph.streams self.now.held }
    {
        if !self.trees.are_joined(from, to) {
            return Ok(None);
        }
        let steps = path_in_tree(alloc, self.graph, &self.held, &self.trees, from, to)?;
        Ok(Some(steps))
    }

    /// Writes the only balanced flow vector that has given flows off the forest, in grams. `off` and `out` have one item for each
    /// stream, and the items of `off` at held streams are ignored.
    ///
    /// From the leaves of each tree to its root, the flow of the held stream to a node's parent is the one that balances the node.
    /// The work is proportional to the number of nodes and streams. It takes no memory.
    pub fn flows(&self, graph: &Graph, off: &[i128], out: &mut [i128])
        requires graph { graph.now ≡ self.now.graph }
        requires each { length off.now ≡ length graph.now.streams }
        requires room { length out.old ≡ length graph.now.streams }
        requires within { All IsGivenFlow off.now }
        ensures balanced { IsBalanced graph.now out.new }
        ensures agrees { AgreeOffForest self.now.held out.new off.now }
        ensures only { (others : Seq ℤ) → IsBalanced graph.now others
            → AgreeOffForest self.now.held others off.now → others ≡ out.new }
        ensures within { All IsFlow out.new }
        ensures forest { IsForest self.now.graph.streams self.now.held }
    {
        write_flows(
            graph,
            &self.held,
            &self.trees,
            &self.chords,
            &self.branches,
            off,
            out,
        );
    }
}
