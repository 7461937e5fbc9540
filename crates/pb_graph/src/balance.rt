// Net flows at nodes, and the test of balanced flows.

ghost use Rattle.std.specs.Prelude.{◌≡◌, ◌<◌, ◌≤◌, ◌^◌, ◌↔◌, unsigned_abs, length, All, IsTrue};
ghost use Rattle.pb_limits.specs.Limits.{most_streams};
ghost use Rattle.pb_graph.specs.Balance.{brought_to, net_of, IsBalanced};

use crate::records::Stream;

// What a flow of one stream brings to a node.
fn brought_to(stream: &Stream, flow: i128, node: u32) -> i128
    requires { unsigned_abs flow < 2 ^ 100 }
    ensures value { result ≡ brought_to node stream.now flow }
    ensures within { unsigned_abs result < 2 ^ 101 }
{
    let enters = if stream.to == node { flow } else { 0 };
    let leaves = if stream.from == node { flow } else { 0 };
    enters - leaves
}

/// The net flow at a node: what enters less what leaves.
#[tactic(auto, using(crate::proofs::BalanceLemmas::net_more))]
pub fn net(streams: &[Stream], flows: &[i128], node: u32) -> i128
    requires few { length streams.now ≤ most_streams }
    requires each { length flows.now ≡ length streams.now }
    requires within { All (λ flow. unsigned_abs flow < 2 ^ 100) flows.now }
    ensures value { result ≡ net_of node streams.now flows.now }
{
    let mut total = 0;
    for (j, stream) in streams.iter().enumerate() {
        total += brought_to(stream, flows[j], node);
    }
    total
}

/// Whether the net flow is 0 at every node.
pub fn is_balanced(nodes: u32, streams: &[Stream], flows: &[i128]) -> bool
    requires few { length streams.now ≤ most_streams }
    requires each { length flows.now ≡ length streams.now }
    requires within { All (λ flow. unsigned_abs flow < 2 ^ 100) flows.now }
    ensures { IsTrue result
        ↔ IsBalanced (record { nodes = nodes; streams = streams.now }) flows.now }
{
    for node in 0..nodes {
        if net(streams, flows, node) != 0 {
            return false;
        }
    }
    true
}
