// Bounds of a signed sum of flows that hold for least vectors.

ghost use Rattle.std.specs.Prelude.{◌≡◌, ◌<◌, ◌≤◌, ◌^◌, pos, ◌≤ℤ◌, ◌+ℤ◌, ◌-ℤ◌, length, unsigned_abs, All};
ghost use Rattle.pb_limits.specs.Limits.{most_streams};
ghost use Rattle.pb_graph.specs.PricedSums.{signed_sum};
ghost use Rattle.pb_fixed.specs.Quotients.{floor_div, ceil_div};
ghost use Rattle.pb_graph.specs.WellFormed.{IsFlow};
ghost use Rattle.pb_study.specs.WellFormed.{IsWide};
ghost use Rattle.pb_dual.specs.DualValue.{scale};
ghost use Rattle.pb_gap.specs.Members.{AreMembers};

use crate::arithmetic::signed;
use pb_dual::SCALE;
use pb_fixed::{div_ceil, div_floor};
use pb_graph::{Member, Stream};
use pb_study::Bounds;

/// The signed sum of the flows, in grams.
pub fn flow_sum(streams: &[Stream], flows: &[i128], members: &[Member]) -> i128
    requires few { length members.now ≤ most_streams }
    requires each { length flows.now ≡ length streams.now }
    requires small { All IsFlow flows.now }
    requires members { AreMembers streams.now members.now }
    ensures value { result ≡ signed_sum members.now flows.now }
    ensures within { unsigned_abs result < 2 ^ 124 }
{
    let mut total = 0;
    for member in members {
        total += signed(member.sign, flows[member.stream as usize]);
    }
    total
}

/// The least bounds of a signed sum, in grams: the middle of its flows and its dual flows, rounded outward, less and plus half the half
/// width. The dual flows are in units of 2^-56 gram.
pub fn about_middle(flows: i128, dual_flows: i128, half: i128) -> Bounds
    requires flows { unsigned_abs flows < 2 ^ 124 }
    requires dual_flows { unsigned_abs dual_flows < 2 ^ 124 }
    requires half_from { pos 0 ≤ℤ half }
    requires half_to { half ≤ℤ pos (2 ^ 118) }
    ensures value { result
        ≡ record {
          lo = floor_div (flows +ℤ floor_div dual_flows scale) (pos 2) -ℤ ceil_div half (pos 2);
          hi = ceil_div (flows +ℤ ceil_div dual_flows scale) (pos 2) +ℤ ceil_div half (pos 2);
        } }
    ensures lo { IsWide result.lo }
    ensures hi { IsWide result.hi }
{
    let width = div_ceil(half, 2);
    Bounds {
        lo: div_floor(flows + div_floor(dual_flows, SCALE), 2) - width,
        hi: div_ceil(flows + div_ceil(dual_flows, SCALE), 2) + width,
    }
}
