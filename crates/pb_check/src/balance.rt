// Test 3: the balance of each node.

ghost use Rattle.std.specs.Prelude.{◌≡◌, ℕ, ◌<◌, ◌≤◌, ◌*◌, ◌^◌, pos, ◌+ℤ◌, unsigned_abs, length, set, IfOk, MatchOption};
ghost use Rattle.pb_fixed.specs.Sums.{item};
ghost use Rattle.pb_limits.specs.Limits.{most_streams};
ghost use Rattle.pb_graph.specs.ProcessGraph.{IsStream};
ghost use Rattle.pb_graph.specs.Balance.{brought_to, net_of, IsBalanced};
ghost use Rattle.pb_graph.specs.WellFormed.{IsFlow};
ghost use Rattle.pb_study.specs.WellFormed.{IsWellFormed};
ghost use Rattle.pb_stage.specs.Printed.{printed_flows};
ghost use Rattle.pb_check.specs.Places.{IsBalanceFault};

use crate::faults::{Fault, at_node};
use pb_graph::Stream;
use pb_study::Stage;
use std::alloc::{AllocError, Global};

// Adds to the net flow of a node.
fn add(nets: &mut [i128], node: u32, amount: i128)
    requires node { node < length nets.old }
    requires amount { IsFlow amount }
    requires small { unsigned_abs (item nets.old node) ≤ 2 ^ 100 }
    ensures { nets.new ≡ set nets.old node (item nets.old node +ℤ amount) }
{
    nets[node as usize] += amount;
}

// Adds the flow of a stream to the net flows of its ends.
fn bring(nets: &mut [i128], stream: &Stream, flow: i128)
    requires ends { IsStream (length nets.old) stream.now }
    requires flow { IsFlow flow }
    requires small { (n : ℕ) → unsigned_abs (item nets.old n) < 2 ^ 100 }
    ensures each { length nets.new ≡ length nets.old }
    ensures value { (n : ℕ) → item nets.new n ≡ item nets.old n +ℤ brought_to n stream.now flow }
{
    add(nets, stream.to, flow);
    add(nets, stream.from, -flow);
}

// Adds the flow of each stream to the net flows of its ends.
fn gather(stage: &Stage, nets: &mut [i128])
    requires formed { IsWellFormed stage.now }
    requires room { length nets.old ≡ stage.now.graph.nodes }
    requires start { (n : ℕ) → item nets.old n ≡ pos 0 }
    ensures each { length nets.new ≡ stage.now.graph.nodes }
    ensures value { (n : ℕ) → item nets.new n
        ≡ net_of n stage.now.graph.streams (printed_flows stage.now) }
{
    for j in 0..stage.graph.len() {
        bring(
            nets,
            &stage.graph.stream(j),
            stage.streams.at(j as usize).flow,
        );
    }
}

// The fault at the first node whose net flow isn't 0.
fn first_uneven(stage: &Stage, nets: &[i128]) -> Option<Fault>
    requires formed { IsWellFormed stage.now }
    requires each { length nets.now ≡ stage.now.graph.nodes }
    requires value { (n : ℕ) → item nets.now n
        ≡ net_of n stage.now.graph.streams (printed_flows stage.now) }
    ensures { MatchOption result (IsBalanced stage.now.graph (printed_flows stage.now))
        (IsBalanceFault stage.now) }
{
    for node in 0..stage.graph.nodes() {
        let found = nets[node as usize];
        if found != 0 {
            return Some(at_node(node, 0, found));
        }
    }
    None
}

/// Test 3: the flows balance at each node, including the environment. The work is proportional to the numbers of nodes and streams.
pub fn balance_fault(alloc: Global, stage: &Stage) -> Result<Option<Fault>, AllocError>
    requires { IsWellFormed stage.now }
    ensures { IfOk result
        (λ fault. MatchOption fault (IsBalanced stage.now.graph (printed_flows stage.now))
        (IsBalanceFault stage.now)) }
{
    let mut nets = vec![in alloc; 0i128; stage.graph.nodes() as usize]?;
    gather(stage, &mut nets);
    Ok(first_uneven(stage, &nets))
}
