// The prices of the sweeps together with flows, and all that the next sweeps need.
//
// The least squares problem is solved from its dual: prices of the nodes go up in sweeps (pb_dual), and
// after a sweep balanced flows are read off the prices. How far these flows are from the least squares is
// known without knowing the least squares: the weighted distance between the flows and the dual flows of
// the prices, the gap, bounds it (docs/DEFINITIONS.md, "Gap, bounds, statistic").
//
//     prices --sweep--> prices --sweep--> prices ...       the dual value only rises
//       |                 |                 |
//     dual flows        dual flows        dual flows       what each stream would carry at these prices
//       | round, balance along the forest
//     flows, gap met?   no                yes: stop
//
// Making the flows costs as much as a sweep, so it is put off: as long as the net dual flow of some group is
// greater than a gap that is met could allow, the answer is no (nets.rt), and a group found small is not
// looked at again. A sweep that changes no price ends the loop, since all later ones would change none. All
// memory is taken before the first sweep.

ghost use Rattle.std.specs.Prelude.{◌≡◌, ◌↔◌, ℕ, suc, ◌<◌, ◌≤◌, ◌^◌, ℤ, Bool, false, List as Seq, Some, length, slice_get, unsigned_abs, IsTrue, IfOk};
ghost use Rattle.pb_graph.specs.Balance.{IsBalanced};
ghost use Rattle.pb_graph.specs.Groups.{AreGroups};
ghost use Rattle.pb_graph.specs.Prices.{PricesFit};
ghost use Rattle.pb_graph.specs.WellFormed.{IsFlow, IsPrice};
ghost use Rattle.pb_forest.specs.Forest.{IsForest, IsForestOf, degrees_of_freedom};
ghost use Rattle.pb_dual.specs.Sweeps.{prices_after};
ghost use Rattle.pb_gap.specs.Gap.{MeetsGap, gap_of};
ghost use Rattle.pb_gap.specs.FlowPair.{AreOfPrices};
ghost use Rattle.pb_gap.specs.State.{AreRoundedFlows, IsState, IsStateAfter, price_in, gap_in};
ghost use Rattle.pb_gap.specs.Solution.{IsSolution};
ghost use Rattle.pb_gap.specs.Iterate.{IsGapOf};

use crate::flow_pair::FlowPair;
use crate::flows::write_flows;
use crate::gap::Gap;
use crate::measurements::standard_deviations;
use crate::nets::{imbalance_roots, is_beyond};
use pb_dual::Dual;
use pb_forest::Forest;
use pb_graph::{Graph, Groups};
use pb_study::Solved;
use std::alloc::{AllocError, Global};
use std::marker::Model;

/// The prices of the sweeps together with flows, and room for all that the next sweeps need. The flows
/// belong to the prices once they are settled.
#[derive(Drop)]
pub struct Iterate<'a> {
    forest: Forest<'a>,
    dual: Dual<'a>,
    standard_deviations: Vec<i128>,
    // For each group, the standard deviation of its imbalance.
    roots: Vec<i128>,
    // Room for the dual flows to the nearest gram.
    nearest: Vec<i128>,
    flows: Vec<i128>,
    // Room for the deviations.
    deviations: Vec<i128>,
    // The group whose net dual flow is checked first: those of the groups before it were found to be small.
    first: u32,
}

impl<'a> Model for Iterate<'a> {
    ghost use Rattle.pb_gap.specs.State.{State};
    ghost use Rattle.pb_gap.specs.Iterate.{IsIterate};

    ghost Value = { State };

    ghost view = { λ a. record {
      graph = a.dual.graph;
      group = a.dual.group;
      prices = a.dual.prices;
      flows = a.flows.items;
    } };

    ghost invariant = { λ a. IsIterate a.forest a.dual a.standard_deviations.items a.roots.items
        a.nearest.items a.flows.items a.deviations.items };
}

impl<'a> Iterate<'a> {
    /// The state of a graph after 0 sweeps. `forest` is its spanning forest.
    pub fn new(
        alloc: Global,
        graph: &'a Graph,
        forest: Forest<'a>,
    ) -> Result<Iterate<'a>, AllocError>
        requires { IsForestOf graph.now forest }
        ensures graph { IfOk result (λ s. s.graph ≡ graph.now) }
        ensures state { IfOk result IsState }
        ensures after { IfOk result (λ s. IsStateAfter graph.now 0 (price_in s) s.flows) }
    {
        let count = graph.streams().len();
        let groups = Groups::of(alloc, graph)?;
        let dual = Dual::new(alloc, graph, groups.numbers())?;
        let standard_deviations = standard_deviations(alloc, graph.streams())?;
        let roots = imbalance_roots(alloc, &groups)?;
        let mut nearest = vec![in alloc; 0i128; count]?;
        let mut flows = vec![in alloc; 0i128; count]?;
        let deviations = vec![in alloc; 0i128; count]?;
        write_flows(&forest, &dual, &mut nearest, &mut flows);
        Ok(Iterate {
            forest,
            dual,
            standard_deviations,
            roots,
            nearest,
            flows,
            deviations,
            first: 0,
        })
    }

    /// The price of a node.
    pub fn price(&self, node: u32) -> i128
        requires { node < self.now.graph.nodes }
        ensures value { result ≡ price_in self.now node }
        ensures within { IsPrice result }
    {
        self.dual.price_at(node)
    }

    /// The flow of a stream.
    pub fn flow(&self, stream: u32) -> i128
        requires { stream < length self.now.graph.streams }
        ensures value { slice_get self.now.flows stream ≡ Some result }
        ensures within { IsFlow result }
    {
        self.flows[stream as usize]
    }

    /// The degrees of freedom of the graph.
    pub fn dof(&self) -> u32
        ensures value { (held : Seq Bool) → IsForest self.now.graph.streams held
            → result ≡ degrees_of_freedom self.now.graph.streams held }
        ensures most { result ≤ length self.now.graph.streams }
    {
        self.forest.rank()
    }

    /// The flows together with the dual flows of the prices.
    pub fn pair(&self) -> FlowPair<'_>
        ensures graph { result.graph ≡ self.now.graph }
        ensures flows { result.flows ≡ self.now.flows }
        ensures prices { AreOfPrices (price_in self.now) result }
    {
        FlowPair::new(
            self.dual.graph(),
            &self.standard_deviations,
            self.dual.dual_flows(),
            &self.flows,
        )
    }

    // Writes the flows that belong to the prices.
    fn settle(&mut self)
        ensures graph { self.new.graph ≡ self.old.graph }
        ensures group { self.new.group ≡ self.old.group }
        ensures prices { self.new.prices ≡ self.old.prices }
        ensures state { IsState self.new }
    {
        write_flows(&self.forest, &self.dual, &mut self.nearest, &mut self.flows);
    }

    // Begins again at prices of 0, and leaves the flows as they are.
    fn reset(&mut self)
        ensures graph { self.new.graph ≡ self.old.graph }
        ensures group { self.new.group ≡ self.old.group }
        ensures groups { AreGroups self.old.graph self.old.group }
        ensures after { price_in self.new ≡ prices_after self.old.graph self.old.group 0 }
    {
        self.dual.reset();
        self.first = 0;
    }

    // Sweeps once, and leaves the flows as they are. Returns whether a price changed.
    fn sweep(&mut self) -> bool
        ensures graph { self.new.graph ≡ self.old.graph }
        ensures group { self.new.group ≡ self.old.group }
        ensures after { (k : ℕ) → price_in self.old ≡ prices_after self.old.graph self.old.group k
            → price_in self.new ≡ prices_after self.old.graph self.old.group (suc k) }
        ensures idle { result ≡ false → price_in self.new ≡ price_in self.old }
    {
        self.dual.sweep()
    }

    /// The gap of the flows and the prices.
    pub fn gap(&mut self) -> Gap
        ensures gap { IsGapOf self.old result }
        ensures same { self.new ≡ self.old }
    {
        let pair = FlowPair::new(
            self.dual.graph(),
            &self.standard_deviations,
            self.dual.dual_flows(),
            &self.flows,
        );
        pair.gap(&mut self.deviations)
    }

    // Whether the gap of the flows and the prices is met.
    fn is_near(&mut self, gap: u32) -> bool
        ensures met { IsTrue result ↔ MeetsGap gap (gap_in self.old) }
        ensures same { self.new ≡ self.old }
    {
        let pair = FlowPair::new(
            self.dual.graph(),
            &self.standard_deviations,
            self.dual.dual_flows(),
            &self.flows,
        );
        pair.is_met(gap, &mut self.deviations)
    }

    // Whether the net dual flow of a group shows that the gap isn't met, whatever the flows are.
    fn has_far_net(&mut self, gap: u32) -> bool
        ensures same { self.new ≡ self.old }
        ensures far { IsTrue result → (flows : Seq ℤ) → IsBalanced self.old.graph flows
            → MeetsGap gap (gap_of (price_in self.old) self.old.graph.streams flows) → ⊥ }
    {
        is_beyond(&self.dual, &self.roots, gap, &mut self.first)
    }

    // Whether the gap of the flows that belong to the prices is met. The flows are written, unless the
    // groups' net dual flows show that it isn't.
    fn is_met(&mut self, gap: u32) -> bool
        ensures graph { self.new.graph ≡ self.old.graph }
        ensures group { self.new.group ≡ self.old.group }
        ensures prices { self.new.prices ≡ self.old.prices }
        ensures state { IsTrue result → IsState self.new }
        ensures met { IsTrue result → MeetsGap gap (gap_in self.new) }
        ensures far { result ≡ false → (flows : Seq ℤ)
            → AreRoundedFlows self.old.graph (price_in self.old) flows
            → MeetsGap gap (gap_of (price_in self.old) self.old.graph.streams flows) → ⊥ }
    {
        if self.has_far_net(gap) {
            return false;
        }
        self.settle();
        self.is_near(gap)
    }

    /// Sweeps from prices of 0 until the gap is met, but no more than `sweeps` times. A sweep that changes
    /// no price is the last one, since each later one would leave the same prices.
    pub fn solve(&mut self, gap: u32, sweeps: u32) -> Solved
        ensures graph { self.new.graph ≡ self.old.graph }
        ensures group { self.new.group ≡ self.old.group }
        ensures state { IsState self.new }
        ensures solution { IsSolution self.old.graph gap sweeps result
            (price_in self.new) self.new.flows }
    {
        self.reset();
        for k in 0..sweeps {
            if self.is_met(gap) {
                return Solved::Converged(k);
            }
            if !self.sweep() {
                self.settle();
                return Solved::Unconverged(sweeps);
            }
        }
        if self.is_met(gap) {
            Solved::Converged(sweeps)
        } else {
            self.settle();
            Solved::Unconverged(sweeps)
        }
    }
}
