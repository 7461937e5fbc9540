// Sums over a signed list of measured streams.

ghost use Rattle.std.specs.Prelude.{◌≡◌, ◌<◌, ◌≤◌, ◌^◌, ℕ, ℤ, pos, ◌≤ℤ◌, ◌<ℤ◌, ◌+ℤ◌, ◌-ℤ◌, length, unsigned_abs, All};
ghost use Rattle.pb_limits.specs.Limits.{most_streams, most_variance};
ghost use Rattle.pb_graph.specs.ProcessGraph.{IsWithinLimits};
ghost use Rattle.pb_graph.specs.Variance.{variance_of};
ghost use Rattle.pb_fixed.specs.Quotients.{floor_div, ceil_div};
ghost use Rattle.pb_study.specs.WellFormed.{IsWide};
ghost use Rattle.pb_dual.specs.DualValue.{scale, dual_flows_of};
ghost use Rattle.pb_gap.specs.GapRange.{IsGapInRange};
ghost use Rattle.pb_gap.specs.FlowPair.{AreDualFlows};
ghost use Rattle.pb_gap.specs.Bounds.{dual_flow_sum, variance_sum, half_width_in};
ghost use Rattle.pb_gap.specs.Members.{AreMembers};

use crate::arithmetic::signed;
use crate::gap::Gap;
use pb_dual::SCALE;
use pb_fixed::{div_ceil, div_floor, half_width, scaled_root};
use pb_graph::{Member, Stream};
use pb_study::Bounds;

/// The signed sum of the dual flows, in units of 2^-56 gram.
pub fn dual_flow_sum(streams: &[Stream], dual_flows: &[i128], members: &[Member]) -> i128
    requires few { length members.now ≤ most_streams }
    requires duals { AreDualFlows streams.now dual_flows.now }
    requires members { AreMembers streams.now members.now }
    ensures value { (price : ℕ → ℤ) → dual_flows.now ≡ dual_flows_of price streams.now
        → result ≡ dual_flow_sum price streams.now members.now }
    ensures within { unsigned_abs result < 2 ^ 124 }
{
    let mut total = 0;
    for member in members {
        total += signed(member.sign, dual_flows[member.stream as usize]);
    }
    total
}

// The variance of a stream, or 0 if it is unmeasured.
fn variance(stream: &Stream) -> i128
    requires { IsWithinLimits stream.now }
    ensures value { result ≡ variance_of stream.now.meas }
    ensures nonneg { pos 0 ≤ℤ result }
    ensures within { result ≤ℤ pos most_variance }
{
    match stream.meas {
        None => 0,
        Some(m) => m.variance,
    }
}

// The sum of the variances, in squared grams.
fn variance_sum(streams: &[Stream], members: &[Member]) -> i128
    requires few { length members.now ≤ most_streams }
    requires limits { All IsWithinLimits streams.now }
    requires members { AreMembers streams.now members.now }
    ensures value { result ≡ variance_sum streams.now members.now }
    ensures nonneg { pos 0 ≤ℤ result }
    ensures within { result <ℤ pos (2 ^ 86) }
{
    let mut total = 0;
    for member in members {
        total += variance(&streams[member.stream as usize]);
    }
    total
}

/// The half width of the bounds of a signed sum, in grams.
pub fn half_width_of(streams: &[Stream], members: &[Member], gap: Gap) -> i128
    requires few { length members.now ≤ most_streams }
    requires limits { All IsWithinLimits streams.now }
    requires members { AreMembers streams.now members.now }
    requires gap { IsGapInRange gap }
    ensures value { result ≡ half_width_in streams.now gap members.now }
    ensures nonneg { pos 0 ≤ℤ result }
    ensures within { result ≤ℤ pos (2 ^ 118) }
    ensures narrow { gap.g < 2 ^ 63 → result <ℤ pos (2 ^ 118) }
{
    if members.is_empty() {
        return 0;
    }
    half_width(
        scaled_root(variance_sum(streams, members)) + 1,
        gap.g,
        gap.h,
    )
}

/// The bounds of a signed sum, in grams: the sum of its dual flows, rounded outward, less and plus the half width.
pub fn outward(sum: i128, half: i128) -> Bounds
    requires sum { unsigned_abs sum < 2 ^ 124 }
    requires half_from { pos 0 ≤ℤ half }
    requires half_to { half ≤ℤ pos (2 ^ 118) }
    ensures value { result
        ≡ record { lo = floor_div sum scale -ℤ half; hi = ceil_div sum scale +ℤ half } }
    ensures lo { IsWide result.lo }
    ensures hi { IsWide result.hi }
{
    Bounds {
        lo: div_floor(sum, SCALE) - half,
        hi: div_ceil(sum, SCALE) + half,
    }
}
