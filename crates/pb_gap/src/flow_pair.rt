// The flows of a graph together with the dual flows of prices, and the numbers that follow from them.

ghost use Rattle.std.specs.Prelude.{◌≡◌, ◌↔◌, ◌≤◌, ◌^◌, ℕ, ℤ, pos, ◌≤ℤ◌, length, unsigned_abs, IsTrue, IfSome};
ghost use Rattle.pb_study.specs.WellFormed.{IsWide};
ghost use Rattle.pb_gap.specs.Gap.{MeetsGap, gap_of};
ghost use Rattle.pb_gap.specs.GapRange.{IsGapInRange};
ghost use Rattle.pb_gap.specs.Bounds.{AreSigned, bounds_of};
ghost use Rattle.pb_gap.specs.LeastBounds.{least_bounds_of};
ghost use Rattle.pb_gap.specs.Statistic.{statistic_of};
ghost use Rattle.pb_gap.specs.FlowPair.{AreMeasured, AreDualFlows, AreOfPrices};

use crate::adjustments::{high, low};
use crate::deviations::{write_deviations, write_near_deviations};
use crate::gap::{Gap, gap_from, is_met, most_deviation};
use crate::least::{about_middle, flow_sum};
use crate::sums::{dual_flow_sum, half_width_of, outward};
use pb_graph::{Graph, Member};
use pb_study::Bounds;
use std::marker::Model;

/// The flows of a graph together with the dual flows of prices.
///
/// The gap between them, the bounds that it gives and the statistic follow from these, wherever the
/// prices and the flows come from: from sweeps, or from a report that is read back.
#[derive(Drop)]
pub struct FlowPair<'a> {
    graph: &'a Graph,
    // For each stream, its standard deviation in units of 2^-20 gram, rounded down.
    standard_deviations: &'a [i128],
    // In units of 2^-56 gram.
    dual_flows: &'a [i128],
    flows: &'a [i128],
}

impl<'a> Model for FlowPair<'a> {
    ghost use Rattle.pb_gap.specs.FlowPair.{PairedFlows, ArePaired};

    ghost Value = { PairedFlows };

    ghost view = { λ a.
        record { graph = a.graph.now; dual_flows = a.dual_flows.now; flows = a.flows.now } };

    ghost invariant = { λ a.
        ArePaired a.graph.now a.standard_deviations.now a.dual_flows.now a.flows.now };
}

impl<'a> FlowPair<'a> {
    /// A dual flow and a flow for each stream of a graph, with the standard deviation of each.
    pub fn new(
        graph: &'a Graph,
        standard_deviations: &'a [i128],
        dual_flows: &'a [i128],
        flows: &'a [i128],
    ) -> FlowPair<'a>
        requires measured { AreMeasured graph.now.streams standard_deviations.now flows.now }
        requires duals { AreDualFlows graph.now.streams dual_flows.now }
        ensures { result
            ≡ record { graph = graph.now; dual_flows = dual_flows.now; flows = flows.now } }
    {
        FlowPair {
            graph,
            standard_deviations,
            dual_flows,
            flows,
        }
    }

    /// The gap between the flows and the dual flows. `deviations` is room for one number for each
    /// stream.
    pub fn gap(&self, deviations: &mut [i128]) -> Gap
        requires { length deviations.old ≡ length self.now.graph.streams }
        ensures value { (price : ℕ → ℤ) → AreOfPrices price self.now
            → result ≡ gap_of price self.now.graph.streams self.now.flows }
        ensures range { IsGapInRange result }
    {
        let streams = self.graph.streams();
        write_deviations(
            streams,
            self.standard_deviations,
            self.dual_flows,
            self.flows,
            deviations,
        );
        gap_from(deviations)
    }

    /// Whether the gap is met at this many thousandths of a standard deviation. `deviations` is room
    /// for one number for each stream.
    pub fn is_met(&self, thousandths: u32, deviations: &mut [i128]) -> bool
        requires { length deviations.old ≡ length self.now.graph.streams }
        ensures met { (price : ℕ → ℤ) → AreOfPrices price self.now
            → (IsTrue result
            ↔ MeetsGap thousandths (gap_of price self.now.graph.streams self.now.flows)) }
    {
        let streams = self.graph.streams();
        let near = write_near_deviations(
            streams,
            self.standard_deviations,
            self.dual_flows,
            self.flows,
            most_deviation(thousandths),
            deviations,
        );
        if !near {
            return false;
        }
        is_met(gap_from(deviations), thousandths)
    }

    /// The bounds of a signed sum of measured flows at a gap, in grams. They are at most 2^126
    /// either way.
    pub fn bounds(&self, members: &[Member], gap: Gap) -> Bounds
        requires members { AreSigned self.now.graph members.now }
        requires gap { IsGapInRange gap }
        ensures value { (price : ℕ → ℤ) → AreOfPrices price self.now
            → result ≡ bounds_of price self.now.graph.streams gap members.now }
        ensures lo { IsWide result.lo }
        ensures hi { IsWide result.hi }
    {
        let streams = self.graph.streams();
        let sum = dual_flow_sum(streams, self.dual_flows, members);
        outward(sum, half_width_of(streams, members, gap))
    }

    /// The least bounds of a signed sum of measured flows at a gap, in grams. They are at most 2^126
    /// either way.
    pub fn least(&self, members: &[Member], gap: Gap) -> Bounds
        requires members { AreSigned self.now.graph members.now }
        requires gap { IsGapInRange gap }
        ensures value { (price : ℕ → ℤ) → AreOfPrices price self.now
            → result
            ≡ least_bounds_of price self.now.graph.streams self.now.flows gap members.now }
        ensures lo { IsWide result.lo }
        ensures hi { IsWide result.hi }
    {
        let streams = self.graph.streams();
        let flows = flow_sum(streams, self.flows, members);
        let dual_flows = dual_flow_sum(streams, self.dual_flows, members);
        about_middle(flows, dual_flows, half_width_of(streams, members, gap))
    }

    /// The ends of the statistic at a gap, in thousandths. There is no high end if an adjustment
    /// is above 2^32 standard deviations. The ends are at most 2^126.
    pub fn statistic(&self, gap: Gap) -> (i128, Option<i128>)
        requires { IsGapInRange gap }
        ensures value { result ≡ statistic_of self.now.graph.streams self.now.flows gap }
        ensures least { pos 0 ≤ℤ result.0 }
        ensures low_within { IsWide result.0 }
        ensures high_within { IfSome result.1 IsWide }
    {
        let streams = self.graph.streams();
        (
            low(streams, self.standard_deviations, self.flows, gap),
            high(streams, self.standard_deviations, self.flows),
        )
    }
}
