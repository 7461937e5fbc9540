// The incidence lists of a graph.

ghost use Rattle.std.specs.Prelude.{◌≡◌, ℕ, ◌<◌, ◌≤◌, ◌++◌, ◌∷◌, [], Some, All, length, slice_get, get_or, set, replicate, IfOk, OnOk};
ghost use Rattle.pb_limits.specs.Limits.{most_streams};
ghost use Rattle.pb_graph.specs.ProcessGraph.{IsStream};
ghost use Rattle.pb_graph.specs.Neighbours.{touching, IsNeighbours};

use crate::graph::Graph;
use crate::list::List;
use crate::records::Stream;
use std::alloc::{AllocError, Global};
use std::marker::Model;

/// For each node of a graph, the streams with an end there, in order: the incidence lists.
#[derive(Debug, Drop)]
pub struct Neighbours {
    lists: Vec<List<u32>>,
}

impl Model for Neighbours {
    ghost use Rattle.std.specs.Prelude.{List, ℕ};

    ghost Value = { List (List ℕ) };

    ghost view = { λ a. a.lists.items };
}

impl Neighbours {
    /// The incidence lists of a graph.
    pub fn of(alloc: Global, graph: &Graph) -> Result<Neighbours, AllocError>
        ensures { IfOk result (λ near. IsNeighbours graph.now near) }
    {
        let mut lists = empty_lists(alloc, graph.nodes())?;
        note_all(graph.streams(), lists.as_mut_slice())?;
        Ok(Neighbours { lists })
    }

    /// The streams with an end at a node, in order.
    pub fn at(&self, node: u32) -> &List<u32>
        requires { node < length self.now }
        ensures { slice_get self.now node ≡ Some result.now }
    {
        &self.lists[node as usize]
    }
}

// As many empty lists as there are nodes.
fn empty_lists(alloc: Global, nodes: u32) -> Result<Vec<List<u32>>, AllocError>
    ensures { IfOk result (λ lists. lists.items ≡ replicate nodes []) }
{
    let mut lists = Vec::new(alloc);
    for _node in 0..nodes {
        lists.push(List::new(alloc))?;
    }
    Ok(lists)
}

// Adds a stream to the list of one node.
fn note(lists: &mut [List<u32>], node: u32, stream_id: u32) -> Result<(), AllocError>
    requires { node < length lists.old }
    ensures { OnOk result
        (lists.new ≡ set lists.old node (get_or lists.old node [] ++ stream_id ∷ [])) }
{
    lists[node as usize].push(stream_id)
}

// Adds each stream to the lists of its two ends.
fn note_all(streams: &[Stream], lists: &mut [List<u32>]) -> Result<(), AllocError>
    requires few { length streams.now ≤ most_streams }
    requires ends { All (IsStream (length lists.old)) streams.now }
    requires empty { lists.old ≡ replicate (length lists.old) [] }
    ensures { OnOk result
        ((n : ℕ) → n < length lists.old → slice_get lists.new n ≡ Some (touching n streams.now)) }
{
    for (j, stream) in streams.iter().enumerate() {
        note(lists, stream.from, j as u32)?;
        note(lists, stream.to, j as u32)?;
    }
    Ok(())
}
