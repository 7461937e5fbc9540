// The trees of the held streams.
//
// A search from the first node of each tree, breadth first: the list of nodes found is its own queue. A
// node comes after its parent in the order, which is all that the solution of the balances needs: from the
// last node to the first, each node is settled before its parent (flows.rt), and two nodes meet by climbing
// from the one found later (climb.rt).

ghost use Rattle.std.specs.Prelude.{◌≡◌, ℕ, ◌+◌, ◌<◌, ◌↔◌, true, Some, length, get_or, IsTrue, IfOk, OnOk};
ghost use Rattle.pb_graph.specs.Neighbours.{touches, touching, IsNeighbours};
ghost use Rattle.pb_graph.specs.ProcessGraph.{some_stream};
ghost use Rattle.pb_forest.specs.Trees.{RootedTrees, AreWhole, AreGrowing, AreFollowed, AreSearched, hung, node_at, place_of, root_of, up_of};

use pb_graph::{Graph, Neighbours};
use std::alloc::{AllocError, Global};
use std::marker::Model;

/// The trees of a forest, each found by a search from its root.
#[derive(Debug, Drop)]
pub struct Trees {
    // The nodes in the order found: a node comes after its parent.
    order: Vec<u32>,
    // For each node, its place in the order.
    place: Vec<usize>,
    // For each node, the root of its tree, or None if it hasn't been found yet.
    root: Vec<Option<u32>>,
    // For each node, the held stream to its parent, or None at a root.
    up: Vec<Option<u32>>,
}

impl Model for Trees {
    ghost use Rattle.pb_forest.specs.Trees.{RootedTrees};

    ghost Value = { RootedTrees };

    ghost view = { λ a. record {
      order = a.order.items;
      place = a.place.items;
      root = a.root.items;
      up = a.up.items;
    } };
}

impl Trees {
    /// The number of nodes found.
    pub fn len(&self) -> usize
        ensures { result ≡ length self.now.order }
    {
        self.order.len()
    }

    /// The node at a place of the order.
    pub fn node_at(&self, i: usize) -> u32
        requires { i < length self.now.order }
        ensures { result ≡ node_at self.now i }
    {
        self.order[i]
    }

    /// The held stream from a node to its parent, or None at a root.
    pub fn up(&self, node: u32) -> Option<u32>
        requires { node < length self.now.up }
        ensures { result ≡ up_of self.now node }
    {
        self.up[node as usize]
    }

    /// The place of a node in the order.
    pub fn place(&self, node: u32) -> usize
        requires { node < length self.now.place }
        ensures { result ≡ place_of self.now node }
    {
        self.place[node as usize]
    }

    /// Whether two nodes are in the same tree.
    pub fn are_joined(&self, node: u32, other: u32) -> bool
        requires node { node < length self.now.root }
        requires other { other < length self.now.root }
        ensures { IsTrue result ↔ (root_of self.now node ≡ root_of self.now other) }
    {
        self.root(node) == self.root(other)
    }

    // The root of a node's tree, or None if the node hasn't been found yet.
    fn root(&self, node: u32) -> Option<u32>
        requires { node < length self.now.root }
        ensures { result ≡ root_of self.now node }
    {
        self.root[node as usize]
    }

    // Hangs a node into the tree of a root: by a held stream to its parent, or by no stream if it is the root.
    fn hang(&mut self, node: u32, root: Option<u32>, up: Option<u32>) -> Result<(), AllocError>
        requires place { node < length self.old.place }
        requires root { node < length self.old.root }
        requires up { node < length self.old.up }
        ensures { OnOk result (self.new ≡ hung self.old node root up) }
    {
        let place = self.order.len();
        self.order.push(node)?;
        self.place[node as usize] = place;
        self.root[node as usize] = root;
        self.up[node as usize] = up;
        Ok(())
    }

    // Follows a stream from the node at a place.
    fn follow(
        &mut self,
        graph: &Graph,
        held: &[bool],
        place: usize,
        j: u32,
    ) -> Result<(), AllocError>
        requires marks { length held.now ≡ length graph.now.streams }
        requires trees { AreGrowing graph.now.nodes graph.now.streams held.now place self.old }
        requires place { place < length self.old.order }
        requires stream { j < length graph.now.streams }
        requires touch { touches (node_at self.old place)
            (get_or graph.now.streams j some_stream) ≡ true }
        ensures { OnOk result
            (AreFollowed graph.now.nodes graph.now.streams held.now place j self.old self.new) }
    {
        let node = self.node_at(place);
        let other = graph.streams()[j as usize].end_from(node);
        if held[j as usize] && self.root(other).is_none() {
            self.hang(other, self.root(node), Some(j))?;
        }
        Ok(())
    }

    // Follows each of these streams from the node at a place.
    fn visit(
        &mut self,
        graph: &Graph,
        held: &[bool],
        place: usize,
        list: &[u32],
    ) -> Result<(), AllocError>
        requires marks { length held.now ≡ length graph.now.streams }
        requires trees { AreGrowing graph.now.nodes graph.now.streams held.now place self.old }
        requires place { place < length self.old.order }
        requires list { list.now ≡ touching (node_at self.old place) graph.now.streams }
        ensures { OnOk result
            (AreSearched graph.now.nodes graph.now.streams held.now (place + 1) self.old self.new) }
    {
        for &j in list {
            self.follow(graph, held, place, j)?;
        }
        Ok(())
    }

    // Follows the streams of each node from a place on, in order, until no node is left.
    fn search(
        &mut self,
        graph: &Graph,
        near: &Neighbours,
        held: &[bool],
        first: usize,
    ) -> Result<(), AllocError>
        requires near { IsNeighbours graph.now near.now }
        requires marks { length held.now ≡ length graph.now.streams }
        requires trees { AreGrowing graph.now.nodes graph.now.streams held.now first self.old }
        ensures { OnOk result (AreSearched graph.now.nodes graph.now.streams held.now
            (length self.new.order) self.old self.new) }
    {
        let mut done = first;
        while done < self.len() {
            let node = self.node_at(done);
            self.visit(graph, held, done, near.at(node).as_slice())?;
            done += 1;
        }
        Ok(())
    }

    // Finds the tree of a node, unless the node has already been found.
    fn grow(
        &mut self,
        graph: &Graph,
        near: &Neighbours,
        held: &[bool],
        node: u32,
    ) -> Result<(), AllocError>
        requires near { IsNeighbours graph.now near.now }
        requires marks { length held.now ≡ length graph.now.streams }
        requires trees { AreGrowing graph.now.nodes graph.now.streams held.now
            (length self.old.order) self.old }
        requires node { node < graph.now.nodes }
        ensures trees { OnOk result (AreSearched graph.now.nodes graph.now.streams held.now
            (length self.new.order) self.old self.new) }
        ensures found { OnOk result ((r : ℕ) × (root_of self.new node ≡ Some r)) }
    {
        let first = self.len();
        if self.root(node).is_none() {
            self.hang(node, Some(node), None)?;
            self.search(graph, near, held, first)?;
        }
        Ok(())
    }

    /// The trees of the held streams.
    pub fn of(
        alloc: Global,
        graph: &Graph,
        near: &Neighbours,
        held: &[bool],
    ) -> Result<Trees, AllocError>
        requires near { IsNeighbours graph.now near.now }
        requires marks { length held.now ≡ length graph.now.streams }
        ensures { IfOk result (λ t. AreWhole graph.now.nodes graph.now.streams held.now t) }
    {
        let nodes = graph.nodes() as usize;
        let mut trees = Trees {
            order: Vec::new(alloc),
            place: vec![in alloc; 0usize; nodes]?,
            root: vec![in alloc; None; nodes]?,
            up: vec![in alloc; None; nodes]?,
        };
        for node in 0..graph.nodes() {
            trees.grow(graph, near, held, node)?;
        }
        Ok(trees)
    }
}
