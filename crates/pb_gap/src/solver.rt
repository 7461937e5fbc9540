// The solver: the prices of a graph and the flows that belong to them, with their gap.
//
// How it gets there is at the head of iterate.rt; this type adds what is kept between calls, the gap, and
// says of bounds and statistic what they mean for every balanced vector.

ghost use Rattle.std.specs.Prelude.{◌≡◌, ℕ, ◌<◌, ◌≤◌, ◌^◌, pos, ◌≤ℤ◌, Bool, List as Seq, Some, length, slice_get, unsigned_abs, IfOk, IfSome};
ghost use Rattle.pb_limits.specs.Limits.{most_gap, most_sweeps};
ghost use Rattle.pb_graph.specs.Balance.{IsBalanced};
ghost use Rattle.pb_graph.specs.Squares.{Fractional, IsBalancedFractional, IsLeast, IsNoWorse, AreSquaresAtLeast, AreSquaresAtMost, whole_flows};
ghost use Rattle.pb_graph.specs.Prices.{PricesFit};
ghost use Rattle.pb_graph.specs.WellFormed.{IsFlow, IsPrice};
ghost use Rattle.pb_study.specs.WellFormed.{IsWide};
ghost use Rattle.pb_forest.specs.Forest.{IsForest, IsForestOf, degrees_of_freedom};
ghost use Rattle.pb_gap.specs.Bounds.{AreSigned, IsWithin, bounds_of};
ghost use Rattle.pb_gap.specs.LeastBounds.{least_bounds_of};
ghost use Rattle.pb_gap.specs.Statistic.{statistic_of};
ghost use Rattle.pb_gap.specs.State.{IsState, IsStateAfter, price_in, gap_in};
ghost use Rattle.pb_gap.specs.Solution.{IsSolution};

use crate::gap::Gap;
use crate::iterate::Iterate;
use pb_forest::Forest;
use pb_graph::{Graph, Member};
use pb_study::{Bounds, Solved};
use std::alloc::{AllocError, Global};
use std::marker::Model;

/// The prices of a graph and the flows that belong to them, after some sweeps from prices of 0.
///
/// Prices are in units of 2^-56 per gram, flows in grams. All memory is taken when a solver is made.
#[derive(Drop)]
pub struct Solver<'a> {
    iterate: Iterate<'a>,
    gap: Gap,
}

impl<'a> Model for Solver<'a> {
    ghost use Rattle.pb_gap.specs.State.{State};
    ghost use Rattle.pb_gap.specs.Iterate.{IsSettled};

    ghost Value = { State };

    ghost view = { λ a. a.iterate };

    ghost invariant = { λ a. IsSettled a.iterate a.gap };
}

impl<'a> Solver<'a> {
    /// The state of a graph after 0 sweeps.
    pub fn new(alloc: Global, graph: &'a Graph) -> Result<Solver<'a>, AllocError>
        ensures graph { IfOk result (λ s. s.graph ≡ graph.now) }
        ensures state { IfOk result IsState }
        ensures after { IfOk result (λ s. IsStateAfter graph.now 0 (price_in s) s.flows) }
    {
        let forest = Forest::of(alloc, graph)?;
        Solver::with_forest(alloc, graph, forest)
    }

    /// The same, given the spanning forest of the graph.
    pub fn with_forest(
        alloc: Global,
        graph: &'a Graph,
        forest: Forest<'a>,
    ) -> Result<Solver<'a>, AllocError>
        requires { IsForestOf graph.now forest }
        ensures graph { IfOk result (λ s. s.graph ≡ graph.now) }
        ensures state { IfOk result IsState }
        ensures after { IfOk result (λ s. IsStateAfter graph.now 0 (price_in s) s.flows) }
    {
        let mut iterate = Iterate::new(alloc, graph, forest)?;
        let gap = iterate.gap();
        Ok(Solver { iterate, gap })
    }

    /// Sweeps from prices of 0 until the gap is met, but no more than `sweeps` times. The gap is in thousandths of a standard deviation,
    /// from 1 to 1,000,000; there are at most 100,000 sweeps.
    pub fn solve(&mut self, gap: u32, sweeps: u32) -> Solved
        requires gap_from { 1 ≤ gap }
        requires gap_to { gap ≤ most_gap }
        requires sweeps { sweeps ≤ most_sweeps }
        ensures graph { self.new.graph ≡ self.old.graph }
        ensures group { self.new.group ≡ self.old.group }
        ensures state { IsState self.new }
        ensures solution { IsSolution self.old.graph gap sweeps result
            (price_in self.new) self.new.flows }
    {
        let solved = self.iterate.solve(gap, sweeps);
        self.gap = self.iterate.gap();
        solved
    }

    /// The price of a node, at most 2^120 either way.
    pub fn price(&self, node: u32) -> i128
        requires { node < self.now.graph.nodes }
        ensures value { result ≡ price_in self.now node }
        ensures within { IsPrice result }
        ensures fit { PricesFit self.now.graph (price_in self.now) }
        ensures outside { (n : ℕ) → self.now.graph.nodes ≤ n → price_in self.now n ≡ pos 0 }
    {
        self.iterate.price(node)
    }

    /// The flow of a stream.
    pub fn flow(&self, stream: u32) -> i128
        requires { stream < length self.now.graph.streams }
        ensures value { slice_get self.now.flows stream ≡ Some result }
        ensures within { IsFlow result }
        ensures balanced { IsBalanced self.now.graph self.now.flows }
    {
        self.iterate.flow(stream)
    }

    /// How many blocks of 2^h make up the gap, at most 2^63.
    pub fn g(&self) -> u64
        ensures value { result ≡ (gap_in self.now).g }
        ensures most { result ≤ 2 ^ 63 }
    {
        self.gap.g
    }

    /// The exponent of the gap's blocks, each of 2^h units of 2^-20 standard deviation.
    pub fn h(&self) -> u32
        ensures value { result ≡ (gap_in self.now).h }
        ensures most { result ≤ 32 }
    {
        self.gap.h
    }

    /// The degrees of freedom of the graph.
    pub fn dof(&self) -> u32
        ensures value { (held : Seq Bool) → IsForest self.now.graph.streams held
            → result ≡ degrees_of_freedom self.now.graph.streams held }
        ensures most { result ≤ length self.now.graph.streams }
    {
        self.iterate.dof()
    }

    /// Bounds of a signed sum of measured flows, in grams: every balanced fractional vector that is no worse than the present flows
    /// is within them. They are at most 2^126 either way.
    pub fn bounds(&self, members: &[Member]) -> Bounds
        requires { AreSigned self.now.graph members.now }
        ensures value { result
            ≡ bounds_of (price_in self.now) self.now.graph.streams (gap_in self.now) members.now }
        ensures lo { IsWide result.lo }
        ensures hi { IsWide result.hi }
        ensures enclosure { (x : Fractional) → IsBalancedFractional self.now.graph x
            → IsNoWorse self.now.graph x (whole_flows self.now.flows)
            → IsWithin x members.now result }
    {
        self.iterate.pair().bounds(members, self.gap)
    }

    /// Least bounds of a signed sum of measured flows, in grams: every least vector is within them. They lie about the middle of the
    /// present flows and the dual flows, with half the width of the bounds (Synge, The Hypercircle in Mathematical Physics). They are at
    /// most 2^126 either way.
    pub fn least(&self, members: &[Member]) -> Bounds
        requires { AreSigned self.now.graph members.now }
        ensures value { result
            ≡ least_bounds_of (price_in self.now) self.now.graph.streams self.now.flows
            (gap_in self.now) members.now }
        ensures lo { IsWide result.lo }
        ensures hi { IsWide result.hi }
        ensures least { (x : Fractional) → IsLeast self.now.graph x
            → IsWithin x members.now result }
    {
        self.iterate.pair().least(members, self.gap)
    }

    /// The ends of the statistic in thousandths: the weighted squares of every balanced fractional vector are at least the low end,
    /// and those of the present flows at most the high end. There is no high end if an adjustment is above 2^32 standard
    /// deviations. The ends are at most 2^126.
    pub fn statistic(&self) -> (i128, Option<i128>)
        ensures value { result
            ≡ statistic_of self.now.graph.streams self.now.flows (gap_in self.now) }
        ensures least { pos 0 ≤ℤ result.0 }
        ensures low_within { IsWide result.0 }
        ensures high_within { IfSome result.1 IsWide }
        ensures low { (x : Fractional) → IsBalancedFractional self.now.graph x
            → AreSquaresAtLeast self.now.graph x result.0 }
        ensures high { IfSome result.1
            (AreSquaresAtMost self.now.graph (whole_flows self.now.flows)) }
    {
        self.iterate.pair().statistic(self.gap)
    }
}
