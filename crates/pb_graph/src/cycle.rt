// Steps, walks and cycles.

ghost use Rattle.std.specs.Prelude.{◌≡◌, ◌≤◌, ◌↔◌, true, false, length, All, IsTrue};
ghost use Rattle.pb_limits.specs.Limits.{most_nodes};
ghost use Rattle.pb_graph.specs.ProcessGraph.{IsStream};
ghost use Rattle.pb_graph.specs.Walk.{ends_of, any_stream, Walks};
ghost use Rattle.pb_graph.specs.Cycle.{is_distinct, begin_of, IsCycle};
ghost use Rattle.pb_graph.specs.Steps.{is_there_and_back};

use crate::records::{Step, Stream};
use pb_limits::MOST_NODES;

// A place for each node of a graph, and one for a step along no stream.
const PLACES: usize = MOST_NODES as usize + 1;

/// Where a step begins and where it ends, or None if there is no such stream.
pub fn ends(streams: &[Stream], step: &Step) -> Option<(u32, u32)>
    ensures { result ≡ ends_of any_stream streams.now step.now }
{
    match streams.get(step.stream as usize) {
        None => None,
        Some(stream) if step.forward => Some((stream.from, stream.to)),
        Some(stream) => Some((stream.to, stream.from)),
    }
}

// Where a step begins, or the number of nodes if there is no such stream.
fn begin(nodes: u32, streams: &[Stream], step: &Step) -> u32
    requires { All (IsStream nodes) streams.now }
    ensures value { result ≡ begin_of nodes streams.now step.now }
    ensures within { result ≤ nodes }
{
    match ends(streams, step) {
        None => nodes,
        Some((begin, _)) => begin,
    }
}

// Whether the steps are a walk from one node to another.
fn walks(streams: &[Stream], from: u32, steps: &[Step], to: u32) -> bool
    ensures { IsTrue result ↔ Walks (ends_of any_stream streams.now) from steps.now to }
{
    let mut at = from;
    for step in steps {
        match ends(streams, step) {
            Some((begin, end)) if begin == at => at = end,
            _ => return false,
        }
    }
    at == to
}

// Whether no node appears twice.
fn nodes_differ(nodes: u32, streams: &[Stream], steps: &[Step]) -> bool
    requires few { nodes ≤ most_nodes }
    requires ends { All (IsStream nodes) streams.now }
    ensures { result ≡ is_distinct (begin_of nodes streams.now) steps.now }
{
    let mut seen = [false; PLACES];
    for step in steps {
        let node = begin(nodes, streams, step) as usize;
        if seen[node] {
            return false;
        }
        seen[node] = true;
    }
    true
}

// Whether the steps are two steps along the same stream.
fn is_there_and_back(steps: &[Step]) -> bool
    ensures { result ≡ is_there_and_back steps.now }
{
    match steps {
        [there, back] => there.stream == back.stream,
        _ => false,
    }
}

// Whether there are no more steps than nodes, and they lead from a node back to it.
fn closes(nodes: u32, streams: &[Stream], node: u32, steps: &[Step]) -> bool
    ensures { IsTrue result
        ↔ ((length steps.now ≤ nodes)
        × Walks (ends_of any_stream streams.now) node steps.now node) }
{
    steps.len() <= nodes as usize && walks(streams, node, steps, node)
}

// Whether no node appears twice, and the steps aren't two steps along the same stream.
fn is_simple(nodes: u32, streams: &[Stream], steps: &[Step]) -> bool
    requires few { nodes ≤ most_nodes }
    requires ends { All (IsStream nodes) streams.now }
    ensures { IsTrue result
        ↔ ((is_distinct (begin_of nodes streams.now) steps.now ≡ true)
        × (is_there_and_back steps.now ≡ false)) }
{
    nodes_differ(nodes, streams, steps) && !is_there_and_back(steps)
}

/// Whether the steps are a cycle of the graph: a closed walk of at least one step on which no stream and no node appears twice.
///
/// If no node appears twice, a stream can appear twice only as a step there and a step back. The work is proportional to the number
/// of steps, and more steps than nodes are refused at once.
pub fn is_cycle(nodes: u32, streams: &[Stream], steps: &[Step]) -> bool
    requires few { nodes ≤ most_nodes }
    requires ends { All (IsStream nodes) streams.now }
    ensures { IsTrue result ↔ IsCycle (record { nodes = nodes; streams = streams.now }) steps.now }
{
    match steps.first() {
        None => false,
        Some(first) => {
            let node = begin(nodes, streams, first);
            closes(nodes, streams, node, steps) && is_simple(nodes, streams, steps)
        }
    }
}
