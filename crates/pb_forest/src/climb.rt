// Paths in the forest: from both ends up their tree, until the ends meet.
//
//        r            place in the order: r 0, a 1, b 2, d 3, c 4
//       / \
//      a   b          from d to b: d was found later, climb to a; b later than a, climb to r; a later than
//      |   |          r, climb to r: they meet. The path is d-a, a-r, then backwards r-b.
//      d   c
//
// A parent is found before its children, so the node found later is never above the other one, and climbing
// from it never passes the meeting point. The work is the number of steps of the path.

ghost use Rattle.std.specs.Prelude.{◌≡◌, ℕ, ◌<◌, [], ◌++◌, reverse, OnOk, IfOk};
ghost use Rattle.pb_graph.specs.Path.{IsPath, open_ends};
ghost use Rattle.pb_forest.specs.Trees.{AreWhole, IsRise, place_of, root_of};

use crate::trees::Trees;
use pb_graph::{Graph, List, Step};
use std::alloc::{AllocError, Global};

// The step from a node to its parent, and the parent, if another node of its tree was found before it.
fn step_up(graph: &Graph, held: &[bool], trees: &Trees, node: u32) -> (Step, u32)
    requires trees { AreWhole graph.now.nodes graph.now.streams held.now trees.now }
    requires node { node < graph.now.nodes }
    requires later { (m : ℕ) × (m < graph.now.nodes)
        × (root_of trees.now node ≡ root_of trees.now m)
        × (place_of trees.now m < place_of trees.now node) }
    ensures { IsRise graph.now.nodes graph.now.streams held.now trees.now node result.1 result.0 }
{
    let streams = graph.streams();
    // the root was found first
    let j = trees.up(node).unwrap();
    let stream = &streams[j as usize];
    let step = Step {
        stream: j,
        forward: stream.to != node,
    };
    (step, stream.end_from(node))
}

// Climbs from two nodes of one tree, each time from the node found later, until they meet. The steps from the first node are written
// in order, and those to the second from the last to the first.
fn meet(
    graph: &Graph,
    held: &[bool],
    trees: &Trees,
    from: u32,
    to: u32,
    forth: &mut Vec<Step>,
    back: &mut Vec<Step>,
) -> Result<(), AllocError>
    requires trees { AreWhole graph.now.nodes graph.now.streams held.now trees.now }
    requires from { from < graph.now.nodes }
    requires to { to < graph.now.nodes }
    requires one_tree { root_of trees.now from ≡ root_of trees.now to }
    requires forth { forth.old.items ≡ [] }
    requires back { back.old.items ≡ [] }
    ensures { OnOk result (IsPath (open_ends held.now graph.now.streams)
        graph.now.nodes graph.now.streams from (forth.new.items ++ reverse back.new.items) to) }
{
    let mut a = from;
    let mut b = to;
    while a != b {
        if trees.place(a) > trees.place(b) {
            let (step, parent) = step_up(graph, held, trees, a);
            forth.push(step)?;
            a = parent;
        } else {
            let (step, parent) = step_up(graph, held, trees, b);
            back.push(Step {
                stream: step.stream,
                forward: !step.forward,
            })?;
            b = parent;
        }
    }
    Ok(())
}

/// The path of held streams between two nodes of one tree. The work is proportional to the number of its steps.
pub fn path_in_tree(
    alloc: Global,
    graph: &Graph,
    held: &[bool],
    trees: &Trees,
    from: u32,
    to: u32,
) -> Result<List<Step>, AllocError>
    requires trees { AreWhole graph.now.nodes graph.now.streams held.now trees.now }
    requires from { from < graph.now.nodes }
    requires to { to < graph.now.nodes }
    requires one_tree { root_of trees.now from ≡ root_of trees.now to }
    ensures { IfOk result (λ steps. IsPath (open_ends held.now graph.now.streams)
        graph.now.nodes graph.now.streams from steps to) }
{
    let mut forth = Vec::new(alloc);
    let mut back = Vec::new(alloc);
    meet(graph, held, trees, from, to, &mut forth, &mut back)?;
    back.reverse();
    forth.extend_from_slice(&back)?;
    Ok(List::from_vec(forth))
}
