// The flows that belong to prices.

ghost use Rattle.std.specs.Prelude.{◌≡◌, ◌≤◌, ◌^◌, length, unsigned_abs, All};
ghost use Rattle.pb_forest.specs.Flows.{most_given_flow};
ghost use Rattle.pb_limits.specs.Limits.{most_streams};
ghost use Rattle.pb_dual.specs.DualValue.{most_dual_flow};
ghost use Rattle.pb_gap.specs.State.{nearest_grams};
ghost use Rattle.pb_gap.specs.Iterate.{AreFlowsOf};

use crate::arithmetic::nearest_gram;
use pb_dual::Dual;
use pb_forest::Forest;

// Writes each dual flow to the nearest gram.
fn write_nearest(dual_flows: &[i128], out: &mut [i128])
    requires within { All (λ u. unsigned_abs u ≤ most_dual_flow) dual_flows.now }
    requires room { length out.old ≡ length dual_flows.now }
    ensures value { out.new ≡ nearest_grams dual_flows.now }
    ensures within { All (λ v. unsigned_abs v ≤ most_given_flow) out.new }
{
    for (j, dual_flow) in dual_flows.iter().enumerate() {
        out[j] = nearest_gram(*dual_flow);
    }
}

/// Writes the flows that belong to prices. `nearest` is room for one number for each stream.
pub fn write_flows(forest: &Forest, dual: &Dual, nearest: &mut [i128], flows: &mut [i128])
    requires few { length dual.now.graph.streams ≤ most_streams }
    requires forest { forest.now.graph ≡ dual.now.graph }
    requires nearest { length nearest.old ≡ length dual.now.graph.streams }
    requires flows { length flows.old ≡ length dual.now.graph.streams }
    ensures { AreFlowsOf forest.now dual.now flows.new }
{
    write_nearest(dual.dual_flows(), nearest);
    forest.flows(dual.graph(), nearest, flows);
}
