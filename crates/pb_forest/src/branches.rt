// The held streams, each as the branch that a node hangs by.

ghost use Rattle.std.specs.Prelude.{◌≡◌, ◌<◌, ℕ, Some, length, All, IfOk};
ghost use Rattle.pb_graph.specs.ProcessGraph.{IsStream};
ghost use Rattle.pb_forest.specs.Trees.{AreWhole, up_of};
ghost use Rattle.pb_forest.specs.Balancing.{branch_from, branches_of};

use crate::trees::Trees;
use pb_graph::{Graph, Stream};
use std::alloc::{AllocError, Global};

/// A held stream from a node to its parent, with the held stream from there to the parent's parent, or None if the parent is a root.
#[derive(Clone, Copy, Debug)]
pub struct Branch {
    pub stream: u32,
    /// Whether it enters the node.
    pub enters: bool,
    pub parent: Option<u32>,
}

// The branch that a node hangs by, or None at a root.
fn branch_up(streams: &[Stream], trees: &Trees, node: u32) -> Option<Branch>
    requires node { node < length trees.now.up }
    requires there { (k : ℕ) → up_of trees.now node ≡ Some k → k < length streams.now }
    requires ends { All (IsStream (length trees.now.up)) streams.now }
    ensures { result ≡ branch_from streams.now trees.now node (up_of trees.now node) }
{
    match trees.up(node) {
        None => None,
        Some(k) => {
            let stream = &streams[k as usize];
            Some(Branch {
                stream: k,
                enters: stream.to == node,
                parent: trees.up(stream.end_from(node)),
            })
        }
    }
}

/// The branch of each node, in the order found.
pub fn branches_of(
    alloc: Global,
    graph: &Graph,
    held: &[bool],
    trees: &Trees,
) -> Result<Vec<Option<Branch>>, AllocError>
    requires trees { AreWhole graph.now.nodes graph.now.streams held.now trees.now }
    ensures { IfOk result (λ v. v.items ≡ branches_of graph.now.streams trees.now) }
{
    let streams = graph.streams();
    let mut branches = Vec::new(alloc);
    for i in 0..trees.len() {
        branches.push(branch_up(streams, trees, trees.node_at(i)))?;
    }
    Ok(branches)
}
