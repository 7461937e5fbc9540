// How far each stream's flow is from its dual flow.

ghost use Rattle.std.specs.Prelude.{◌≡◌, ◌<◌, ◌≤◌, ◌^◌, ℕ, ℤ, false, pos, ◌≤ℤ◌, ◌<ℤ◌, length, unsigned_abs, All, IsTrue};
ghost use Rattle.pb_fixed.specs.Blocks.{IsBlockItem};
ghost use Rattle.pb_graph.specs.Prices.{rise_of};
ghost use Rattle.pb_graph.specs.ProcessGraph.{IsWithinLimits};
ghost use Rattle.pb_graph.specs.WellFormed.{IsFlow};
ghost use Rattle.pb_dual.specs.DualValue.{dual_flow, dual_flows_of, most_dual_flow};
ghost use Rattle.pb_gap.specs.Gap.{standard_deviation_of, deviation_at, deviations_of};
ghost use Rattle.pb_gap.specs.Statistic.{adjustment_cap};
ghost use Rattle.pb_gap.specs.FlowPair.{AreMeasured, AreDualFlows};
ghost use Rattle.pb_gap.specs.Iterate.{AreFar};

use crate::arithmetic::{deviation, square, square_up_to};
use pb_graph::Stream;

// The deviation of the flow of a stream, or 0 if the stream is unmeasured.
fn stream_deviation(stream: &Stream, root: i128, dual: i128, flow: i128) -> i128
    requires limits { IsWithinLimits stream.now }
    requires root { root ≡ standard_deviation_of stream.now.meas }
    requires dual { unsigned_abs dual ≤ most_dual_flow }
    requires flow { IsFlow flow }
    ensures value { (price : ℕ → ℤ) → dual ≡ dual_flow price stream.now
        → result ≡ deviation_at stream.now.meas (rise_of price stream.now) flow }
    ensures within { IsBlockItem result }
{
    match stream.meas {
        None => 0,
        Some(_) => deviation(flow, dual, root),
    }
}

/// Writes the deviation of each stream's flow.
pub fn write_deviations(
    streams: &[Stream],
    standard_deviations: &[i128],
    dual_flows: &[i128],
    flows: &[i128],
    out: &mut [i128],
)
    requires measured { AreMeasured streams.now standard_deviations.now flows.now }
    requires duals { AreDualFlows streams.now dual_flows.now }
    requires room { length out.old ≡ length streams.now }
    ensures value { (price : ℕ → ℤ) → dual_flows.now ≡ dual_flows_of price streams.now
        → out.new ≡ deviations_of price streams.now flows.now }
    ensures within { All IsBlockItem out.new }
{
    for (j, stream) in streams.iter().enumerate() {
        out[j] = stream_deviation(stream, standard_deviations[j], dual_flows[j], flows[j]);
    }
}

/// Writes the deviation of each stream's flow, until their squares add up to more than the square of a limit. Returns whether they
/// never do.
pub fn write_near_deviations(
    streams: &[Stream],
    standard_deviations: &[i128],
    dual_flows: &[i128],
    flows: &[i128],
    limit: i128,
    out: &mut [i128],
) -> bool
    requires measured { AreMeasured streams.now standard_deviations.now flows.now }
    requires duals { AreDualFlows streams.now dual_flows.now }
    requires from { pos 0 ≤ℤ limit }
    requires to { limit <ℤ adjustment_cap }
    requires room { length out.old ≡ length streams.now }
    ensures value { IsTrue result → (price : ℕ → ℤ)
        → dual_flows.now ≡ dual_flows_of price streams.now
        → out.new ≡ deviations_of price streams.now flows.now }
    ensures within { IsTrue result → All IsBlockItem out.new }
    ensures far { result ≡ false → (price : ℕ → ℤ)
        → dual_flows.now ≡ dual_flows_of price streams.now
        → AreFar limit (deviations_of price streams.now flows.now) }
{
    let mut left = square(limit);
    for (j, stream) in streams.iter().enumerate() {
        let deviation = stream_deviation(stream, standard_deviations[j], dual_flows[j], flows[j]);
        left -= square_up_to(deviation, limit);
        if left < 0 {
            return false;
        }
        out[j] = deviation;
    }
    true
}
