// A walk of the trees of held unmeasured streams, which gives each node an entry number.
//
// The walk goes depth first, with a stack in place of recursion, so that a plant of any depth needs no
// more of the program's own stack. A node gets the next number when it is entered, so the nodes below a
// node have consecutive numbers, its own first:
//
//          0           entry numbers 0..6, depths 0 1 2 2 1 2 1
//        / | \
//       1  4  6        below 1: numbers 1 to 3
//      / \ |           below 4: numbers 4 to 5
//     2  3 5           below 6: number 6
//
// Each node is entered once, and each stream looked at from both of its ends. What the numbers are for is
// at the head of points.rt; the argument is in docs/DEFINITIONS.md, "Forest and certificates".

ghost use Rattle.std.specs.Prelude.{◌≡◌, ℕ, ◌+◌, ◌*◌, ◌<◌, ◌≤◌, true, false, [], ◌∷◌, ◌++◌, Some, None, All, length, get_or, map, IfOk, OnOk};
ghost use Rattle.pb_limits.specs.Limits.{most_nodes};
ghost use Rattle.pb_graph.specs.ProcessGraph.{IsProcessGraph, some_stream};
ghost use Rattle.pb_graph.specs.Neighbours.{touches, touching, IsNeighbours};
ghost use Rattle.pb_forest.specs.Forest.{IsForestOf};
ghost use Rattle.pb_classify.specs.Tables.{Entries, some_entry, entry_at, node_at, depth_at, tree_at, number_of, is_entered};
ghost use Rattle.pb_classify.specs.Walk.{unentered, is_branch, IsWalking, IsNext, IsWalked, with_entry, followed, IsNowEntered};

use pb_forest::Forest;
use pb_graph::{Graph, Neighbours};
use std::alloc::{AllocError, Global};
use std::marker::Model;

/// What is known about a node that has been entered.
#[derive(Clone, Copy, Debug)]
pub struct Entry {
    pub node: u32,
    /// The stream to its parent, or None at the node by which its tree is entered.
    pub up: Option<u32>,
    /// How many streams lead from it to that node.
    pub depth: u32,
    /// The label of its tree: the number of that node.
    pub tree: u32,
}

/// A walk of the trees of held unmeasured streams.
#[derive(Debug, Drop)]
pub struct Walk {
    // For each node, its entry number, and whether it was entered.
    numbers: Vec<u32>,
    entered: Vec<bool>,
    // The nodes in the order entered.
    list: Vec<Entry>,
}

impl Model for Walk {
    ghost use Rattle.pb_classify.specs.Tables.{Entries};

    ghost Value = { Entries };

    ghost view = { λ a. record {
      numbers = a.numbers.items;
      entered = a.entered.items;
      list = a.list.items;
    } };
}

// Whether a stream is held and unmeasured.
fn is_branch(graph: &Graph, forest: &Forest, j: u32) -> bool
    requires forest { IsForestOf graph.now forest.now }
    requires stream { j < length graph.now.streams }
    ensures { result ≡ is_branch graph.now.streams forest.now.held j }
{
    forest.holds(j) && graph.stream(j).meas.is_none()
}

impl Walk {
    /// The number of nodes entered.
    pub fn len(&self) -> usize
        ensures { result ≡ length self.now.list }
    {
        self.list.len()
    }

    /// What is known about the node with an entry number.
    pub fn entry(&self, i: usize) -> Entry
        requires { i < length self.now.list }
        ensures { result ≡ entry_at self.now i }
    {
        self.list[i]
    }

    /// The entry number of a node.
    pub fn number(&self, node: u32) -> u32
        requires { node < length self.now.numbers }
        ensures { result ≡ number_of self.now node }
    {
        self.numbers[node as usize]
    }

    /// For each node, the label of its tree, if each node was entered.
    pub fn labels(&self, alloc: Global) -> Result<Vec<u32>, AllocError>
        requires { All (λ number. number < length self.now.list) self.now.numbers }
        ensures { IfOk result (λ labels. labels.items ≡ map (tree_at self.now) self.now.numbers) }
    {
        let mut labels = Vec::new(alloc);
        for &number in &self.numbers {
            labels.push(self.list[number as usize].tree)?;
        }
        Ok(labels)
    }

    // Whether a node was entered.
    fn has(&self, node: u32) -> bool
        requires { node < length self.now.entered }
        ensures { result ≡ is_entered self.now node }
    {
        self.entered[node as usize]
    }

    // Enters a node.
    fn enter(&mut self, entry: Entry) -> Result<(), AllocError>
        requires numbers { entry.node < length self.old.numbers }
        requires marks { entry.node < length self.old.entered }
        requires few { length self.old.list ≤ most_nodes }
        ensures { OnOk result (self.new ≡ with_entry self.old entry) }
    {
        let number = self.list.len() as u32;
        self.list.push(entry)?;
        self.numbers[entry.node as usize] = number;
        self.entered[entry.node as usize] = true;
        Ok(())
    }

    // Follows a stream from the i-th entry: the node at its other end waits, if the stream is a branch and the node wasn't entered.
    fn follow(
        &self,
        graph: &Graph,
        forest: &Forest,
        i: usize,
        j: u32,
        stack: &mut Vec<Entry>,
    ) -> Result<(), AllocError>
        requires forest { IsForestOf graph.now forest.now }
        requires marks { length self.now.entered ≡ graph.now.nodes }
        requires entry { i < length self.now.list }
        requires shallow { depth_at self.now i ≤ most_nodes }
        requires stream { j < length graph.now.streams }
        requires touch { touches (node_at self.now i)
            (get_or graph.now.streams j some_stream) ≡ true }
        ensures { OnOk result (stack.new.items
            ≡ followed graph.now.streams forest.now.held self.now i j stack.old.items) }
    {
        let from = self.entry(i);
        let other = graph.streams()[j as usize].end_from(from.node);
        if is_branch(graph, forest, j) && !self.has(other) {
            stack.push(Entry {
                node: other,
                up: Some(j),
                depth: from.depth + 1,
                tree: from.tree,
            })?;
        }
        Ok(())
    }

    // Follows each of these streams, which are those at the last entry.
    fn follow_all(
        &self,
        graph: &Graph,
        forest: &Forest,
        i: usize,
        list: &[u32],
        stack: &mut Vec<Entry>,
    ) -> Result<(), AllocError>
        requires limits { IsProcessGraph graph.now }
        requires forest { IsForestOf graph.now forest.now }
        requires last { length self.now.list ≡ i + 1 }
        requires list { list.now ≡ touching (node_at self.now i) graph.now.streams }
        requires walking { IsWalking graph.now.nodes graph.now.streams forest.now.held
            (tree_at self.now i) i stack.old.items self.now }
        requires deepest { (q : ℕ) → q < length stack.old.items
            → (get_or stack.old.items q some_entry).depth ≤ depth_at self.now i }
        ensures walking { OnOk result (IsWalking graph.now.nodes graph.now.streams forest.now.held
            (tree_at self.now i) (i + 1) stack.new.items self.now) }
        ensures few { OnOk result
            (length stack.new.items ≤ length stack.old.items + length graph.now.streams) }
    {
        for &j in list {
            self.follow(graph, forest, i, j, stack)?;
        }
        Ok(())
    }

    // Enters a node, and follows the streams there.
    fn visit(
        &mut self,
        graph: &Graph,
        near: &Neighbours,
        forest: &Forest,
        entry: Entry,
        stack: &mut Vec<Entry>,
    ) -> Result<(), AllocError>
        requires limits { IsProcessGraph graph.now }
        requires near { IsNeighbours graph.now near.now }
        requires forest { IsForestOf graph.now forest.now }
        requires next { IsNext graph.now.nodes graph.now.streams forest.now.held
            entry stack.old.items self.old }
        ensures walking { OnOk result (IsWalking graph.now.nodes graph.now.streams forest.now.held
            entry.tree (length self.new.list) stack.new.items self.new) }
        ensures entered { OnOk result (self.new ≡ with_entry self.old entry) }
        ensures few { OnOk result
            (length stack.new.items ≤ length stack.old.items + length graph.now.streams) }
    {
        let last = self.len();
        self.enter(entry)?;
        self.follow_all(graph, forest, last, near.at(entry.node).as_slice(), stack)
    }

    // Takes an entry that waited: its node is visited, unless it has been entered in the meantime.
    fn take(
        &mut self,
        graph: &Graph,
        near: &Neighbours,
        forest: &Forest,
        entry: Entry,
        stack: &mut Vec<Entry>,
    ) -> Result<(), AllocError>
        requires limits { IsProcessGraph graph.now }
        requires near { IsNeighbours graph.now near.now }
        requires forest { IsForestOf graph.now forest.now }
        requires walking { IsWalking graph.now.nodes graph.now.streams forest.now.held
            entry.tree (length self.old.list) (stack.old.items ++ entry ∷ []) self.old }
        ensures walking { OnOk result (IsWalking graph.now.nodes graph.now.streams forest.now.held
            entry.tree (length self.new.list) stack.new.items self.new) }
        ensures kept { OnOk result ((n : ℕ)
            → is_entered self.old n ≡ true → is_entered self.new n ≡ true) }
        ensures less { OnOk result
            (unentered self.new.entered * (length graph.now.streams + 1) + length stack.new.items
            ≤ unentered self.old.entered * (length graph.now.streams + 1)
            + length stack.old.items) }
    {
        if self.has(entry.node) {
            return Ok(());
        }
        self.visit(graph, near, forest, entry, stack)
    }

    // Walks the tree of a node that hasn't been entered.
    fn walk_tree(
        &mut self,
        alloc: Global,
        graph: &Graph,
        near: &Neighbours,
        forest: &Forest,
        node: u32,
    ) -> Result<(), AllocError>
        requires limits { IsProcessGraph graph.now }
        requires near { IsNeighbours graph.now near.now }
        requires forest { IsForestOf graph.now forest.now }
        requires walking { IsWalking graph.now.nodes graph.now.streams forest.now.held
            0 (length self.old.list) [] self.old }
        requires node { node < graph.now.nodes }
        requires new { is_entered self.old node ≡ false }
        ensures walking { OnOk result (IsWalking graph.now.nodes graph.now.streams forest.now.held
            0 (length self.new.list) [] self.new) }
        ensures kept { OnOk result (IsNowEntered node self.old self.new) }
    {
        let mut stack = Vec::new(alloc);
        let tree = self.len() as u32;
        let root = Entry {
            node,
            up: None,
            depth: 0,
            tree,
        };
        self.visit(graph, near, forest, root, &mut stack)?;
        while let Some(entry) = stack.pop() {
            self.take(graph, near, forest, entry, &mut stack)?;
        }
        Ok(())
    }

    // Walks the tree of a node, unless the node has been entered.
    fn walk_on(
        &mut self,
        alloc: Global,
        graph: &Graph,
        near: &Neighbours,
        forest: &Forest,
        node: u32,
    ) -> Result<(), AllocError>
        requires limits { IsProcessGraph graph.now }
        requires near { IsNeighbours graph.now near.now }
        requires forest { IsForestOf graph.now forest.now }
        requires walking { IsWalking graph.now.nodes graph.now.streams forest.now.held
            0 (length self.old.list) [] self.old }
        requires node { node < graph.now.nodes }
        ensures walking { OnOk result (IsWalking graph.now.nodes graph.now.streams forest.now.held
            0 (length self.new.list) [] self.new) }
        ensures kept { OnOk result (IsNowEntered node self.old self.new) }
    {
        if self.has(node) {
            return Ok(());
        }
        self.walk_tree(alloc, graph, near, forest, node)
    }

    /// Walks each tree, from its first node on.
    pub fn of(
        alloc: Global,
        graph: &Graph,
        near: &Neighbours,
        forest: &Forest,
    ) -> Result<Walk, AllocError>
        requires near { IsNeighbours graph.now near.now }
        requires forest { IsForestOf graph.now forest.now }
        ensures { IfOk result (IsWalked graph.now.nodes graph.now.streams forest.now.held) }
    {
        let nodes = graph.nodes() as usize;
        let mut walk = Walk {
            numbers: vec![in alloc; 0u32; nodes]?,
            entered: vec![in alloc; false; nodes]?,
            list: Vec::new(alloc),
        };
        for node in 0..graph.nodes() {
            walk.walk_on(alloc, graph, near, forest, node)?;
        }
        Ok(walk)
    }
}
