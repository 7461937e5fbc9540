// Which streams get a meter.
//
// Everything is observable exactly when the streams without a meter have no cycle. So the streams that may
// stay without one are a spanning forest, and metering costs least if that forest costs most: Kruskal's
// greedy rule (1956), by falling cost. A stream whose ends are already joined closes a cycle of streams that
// cost no less, so it is the one to meter:
//
//        a            costs a-b 9, b-c 7, c-a 4, all unmeasured
//       / \
//      b---c          a-b and b-c stay without a meter; c-a closes their cycle, and is metered for 4
//
// The same cycles prove to a reader that nothing is cheaper (docs/DEFINITIONS.md, "The cheapest metering").

ghost use Rattle.std.specs.Prelude.{◌≡◌, ◌≢◌, ℕ, ◌<◌, false, All, length, get_or, IfOk};
ghost use Rattle.pb_graph.specs.ProcessGraph.{IsProcessGraph, IsStream};
ghost use Rattle.pb_graph.specs.Parts.{IsLabelling};
ghost use Rattle.pb_advise.specs.Choice.{AreCosts};
ghost use Rattle.pb_advise.specs.Advice.{IsAdvisedChoice};
ghost use Rattle.pb_advise.specs.Order.{ArePlaces, IsMarked, is_among, taken_at};

use crate::order::by_falling_cost;
use pb_graph::{Graph, Parts, Stream};
use std::alloc::{AllocError, Global};

// Takes the streams in order, and marks those whose ends the streams before them join.
fn choose(streams: &[Stream], order: &[(u64, u32)], parts: &mut Parts, chosen: &mut [bool])
    requires each { length chosen.old ≡ length streams.now }
    requires ends { All (IsStream (length parts.old)) streams.now }
    requires places { ArePlaces streams.now order.now }
    requires begins { IsLabelling streams.now (length parts.old) (is_among order.now 0) parts.old }
    requires none { (k : ℕ) → get_or chosen.old k false ≡ false }
    ensures marks { (p : ℕ) → p < length order.now
        → IsMarked streams.now order.now p (get_or chosen.new (taken_at order.now p) false) }
    ensures others { (k : ℕ) → ((p : ℕ) → p < length order.now → taken_at order.now p ≢ k)
        → get_or chosen.new k false ≡ false }
{
    for &(_, j) in order {
        chosen[j as usize] = !parts.join(&streams[j as usize]);
    }
}

/// The advised choice, as one mark for each stream.
///
/// The streams are sorted once, and the parts that the streams so far make are kept. There are at most as many joins as nodes, and each
/// goes over the nodes (Kruskal 1956).
pub fn advised_choice(alloc: Global, graph: &Graph, costs: &[i64]) -> Result<Vec<bool>, AllocError>
    requires { AreCosts graph.now costs.now }
    ensures choice { IfOk result (λ chosen. IsAdvisedChoice graph.now costs.now chosen.items) }
    ensures limits { IsProcessGraph graph.now }
{
    let streams = graph.streams();
    let order = by_falling_cost(alloc, streams, costs)?;
    let mut parts = Parts::new(alloc, graph.nodes())?;
    let mut chosen = vec![in alloc; false; streams.len()]?;
    choose(streams, &order, &mut parts, &mut chosen);
    Ok(chosen)
}
