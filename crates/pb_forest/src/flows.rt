// The balanced flows that the forest completes: from the leaves of each tree to its root.
//
// Given the flows of the streams outside the forest (the chords), the others follow (Narasimhan and
// Jordache, chapter 3: the spanning tree, solved from its leaves). The room for a held stream's flow first
// keeps the net flow that the chords bring to the node below it. From the last node to the first, a node's
// branch takes that net flow, and the branch of its parent is charged with it:
//
//     root <-- p <-- q       chords bring 5 to q, 2 to p:   branch of q takes 5, branch of p takes 2 + 5
//
// In this way whole grams balance exactly, whatever the chords were rounded to. One pass over nodes and
// streams.

ghost use Rattle.std.specs.Prelude.{◌≡◌, ℕ, ◌<◌, ◌≤◌, ◌^◌, ℤ, neg_ℤ, List as Seq, All, Some, length, unsigned_abs};
ghost use Rattle.pb_limits.specs.Limits.{most_streams};
ghost use Rattle.pb_fixed.specs.Sums.{item};
ghost use Rattle.pb_graph.specs.ProcessGraph.{IsProcessGraph};
ghost use Rattle.pb_graph.specs.Balance.{IsBalanced};
ghost use Rattle.pb_graph.specs.WellFormed.{IsFlow};
ghost use Rattle.pb_forest.specs.Flows.{AgreeOffForest, IsGivenFlow, most_given_flow};
ghost use Rattle.pb_forest.specs.Trees.{AreWhole};
ghost use Rattle.pb_forest.specs.Balancing.{IsKept, AreNets, AreBalancedFrom, IsChordWithin, IsBranchWithin, branches_of, chord_flow, added_at, brought, gathered, settled_by};

use crate::branches::Branch;
use crate::chords::Chord;
use crate::trees::Trees;
use pb_graph::Graph;

// The flow at a place if the stream there isn't held, and 0 if it is.
fn chord_flow(held: &[bool], off: &[i128], k: usize) -> i128
    requires each { length off.now ≡ length held.now }
    requires place { k < length held.now }
    requires given { All IsGivenFlow off.now }
    ensures value { result ≡ chord_flow held.now off.now k }
    ensures given { IsGivenFlow result }
{
    if held[k] { 0 } else { off[k] }
}

// Writes the flows of the streams that aren't held, and 0 for each held one.
fn write_chords(held: &[bool], off: &[i128], out: &mut [i128])
    requires each { length off.now ≡ length held.now }
    requires room { length out.old ≡ length held.now }
    requires given { All IsGivenFlow off.now }
    ensures { (k : ℕ) → k < length held.now → item out.new k ≡ chord_flow held.now off.now k }
{
    for k in 0..held.len() {
        out[k] = chord_flow(held, off, k);
    }
}

// Adds to the net flow that is kept at a branch; nothing is kept at a root.
fn add(branch: Option<u32>, amount: i128, out: &mut [i128])
    requires branch { (k : ℕ) → branch ≡ Some k → k < length out.old }
    requires small { unsigned_abs amount < 2 ^ 70 }
    requires nets { All (λ v. unsigned_abs v < 2 ^ 70) out.old }
    ensures { out.new ≡ added_at branch amount out.old }
{
    if let Some(k) = branch {
        out[k as usize] += amount;
    }
}

// Brings the flow of a chord to the net flows of its ends.
fn bring(chord: &Chord, flow: i128, out: &mut [i128])
    requires there { IsChordWithin (length out.old) chord.now }
    requires given { IsGivenFlow flow }
    requires nets { All (λ v. unsigned_abs v < 2 ^ 69) out.old }
    ensures { out.new ≡ brought chord.now flow out.old }
{
    add(chord.from, -flow, out);
    add(chord.to, flow, out);
}

// Brings the flow of each chord to the net flows of its ends.
fn gather(chords: &[Chord], off: &[i128], out: &mut [i128])
    requires few { length chords.now ≤ most_streams }
    requires there { All (IsChordWithin (length out.old)) chords.now }
    requires each { length off.now ≡ length out.old }
    requires given { All IsGivenFlow off.now }
    requires start { (k : ℕ) → unsigned_abs (item out.old k) ≤ most_given_flow }
    ensures { out.new ≡ gathered chords.now off.now out.old }
{
    for chord in chords {
        bring(chord, off[chord.stream as usize], out);
    }
}

// Balances a node: its branch takes its net flow, and its parent's net flow grows by it.
fn settle(branch: &Option<Branch>, out: &mut [i128])
    requires there { (b : Branch) → branch.now ≡ Some b → IsBranchWithin (length out.old) b }
    requires nets { All IsFlow out.old }
    ensures { out.new ≡ settled_by branch.now out.old }
{
    if let Some(branch) = branch {
        let k = branch.stream as usize;
        let net = out[k];
        out[k] = if branch.enters { -net } else { net };
        add(branch.parent, net, out);
    }
}

// Balances the nodes, each before its parent.
fn settle_all(
    graph: &Graph,
    held: &[bool],
    trees: &Trees,
    branches: &[Option<Branch>],
    off: &[i128],
    out: &mut [i128],
)
    requires limits { IsProcessGraph graph.now }
    requires marks { length held.now ≡ length graph.now.streams }
    requires trees { AreWhole graph.now.nodes graph.now.streams held.now trees.now }
    requires branches { branches.now ≡ branches_of graph.now.streams trees.now }
    requires given { All IsGivenFlow off.now }
    requires nets { AreNets graph.now.streams held.now off.now trees.now
        (length graph.now.streams) out.old }
    ensures { AreBalancedFrom graph.now.streams held.now off.now trees.now 0 out.new }
{
    for i in (0..branches.len()).rev() {
        settle(&branches[i], out);
    }
}

/// Writes the balanced flow vector that has the given flows off the forest.
pub fn write_flows(
    graph: &Graph,
    held: &[bool],
    trees: &Trees,
    chords: &[Chord],
    branches: &[Option<Branch>],
    off: &[i128],
    out: &mut [i128],
)
    requires kept { IsKept graph.now held.now trees.now chords.now branches.now }
    requires each { length off.now ≡ length graph.now.streams }
    requires room { length out.old ≡ length graph.now.streams }
    requires within { All IsGivenFlow off.now }
    ensures balanced { IsBalanced graph.now out.new }
    ensures agrees { AgreeOffForest held.now out.new off.now }
    ensures only { (others : Seq ℤ) → IsBalanced graph.now others
        → AgreeOffForest held.now others off.now → others ≡ out.new }
    ensures within { All IsFlow out.new }
{
    write_chords(held, off, out);
    gather(chords, off, out);
    settle_all(graph, held, trees, branches, off, out);
}
