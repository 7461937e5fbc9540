// The dual flows of given prices.

ghost use Rattle.std.specs.Prelude.{◌≡◌, ◌≤◌, ◌^◌, length, unsigned_abs, All};
ghost use Rattle.pb_graph.specs.Prices.{IsInBox};
ghost use Rattle.pb_fixed.specs.Sums.{item};
ghost use Rattle.pb_graph.specs.WellFormed.{IsPrice};
ghost use Rattle.pb_dual.specs.DualValue.{dual_flows_of, most_dual_flow};

use pb_dual::dual_flow;
use pb_graph::Graph;

/// Writes the dual flow of each stream at the prices of the nodes, which are in the order of the nodes.
pub fn write_dual_flows(graph: &Graph, prices: &[i128], out: &mut [i128])
    requires each { length prices.now ≡ graph.now.nodes }
    requires small { All IsPrice prices.now }
    requires in_box { All (IsInBox (item prices.now)) graph.now.streams }
    requires room { length out.old ≡ length graph.now.streams }
    ensures value { out.new ≡ dual_flows_of (item prices.now) graph.now.streams }
    ensures within { All (λ u. unsigned_abs u ≤ most_dual_flow) out.new }
{
    for (j, stream) in graph.streams().iter().enumerate() {
        out[j] = dual_flow(
            stream,
            prices[stream.from as usize],
            prices[stream.to as usize],
        );
    }
}
