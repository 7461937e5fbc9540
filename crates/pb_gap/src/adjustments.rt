// How far each stream's flow is from its measured value, and the two ends of the statistic.

ghost use Rattle.std.specs.Prelude.{◌≡◌, ◌*◌, ◌<◌, ◌≤◌, ◌^◌, pos, ◌≤ℤ◌, int_lt, None, Some, unsigned_abs, IfSome, if◌then◌else◌};
ghost use Rattle.std.specs.List.{list_any};
ghost use Rattle.pb_limits.specs.Limits.{most_streams};
ghost use Rattle.pb_graph.specs.ProcessGraph.{IsWithinLimits};
ghost use Rattle.pb_graph.specs.WellFormed.{IsFlow};
ghost use Rattle.pb_study.specs.WellFormed.{IsWide};
ghost use Rattle.pb_gap.specs.Statistic.{adjustment_below, adjustment_above, adjustments_by, adjustment_cap, capped_squares, full_squares, low_of, high_of};
ghost use Rattle.pb_gap.specs.Gap.{standard_deviation_of};
ghost use Rattle.pb_gap.specs.GapRange.{IsGapInRange};
ghost use Rattle.pb_gap.specs.FlowPair.{AreMeasured};

use crate::arithmetic::{
    ADJUSTMENT_CAP, adjustment, capped, low_end, size_square, square, thousandths,
};
use crate::gap::{Gap, size};
use pb_fixed::{div_ceil, div_floor};
use pb_graph::Stream;

// The adjustment of a flow in standard deviations, in units of 2^-20, rounded down; 0 if the stream is unmeasured.
fn below(stream: &Stream, root: i128, flow: i128) -> i128
    requires limits { IsWithinLimits stream.now }
    requires root { root ≡ standard_deviation_of stream.now.meas }
    requires flow { IsFlow flow }
    ensures value { result ≡ adjustment_below stream.now.meas flow }
    ensures nonneg { pos 0 ≤ℤ result }
{
    match stream.meas {
        None => 0,
        Some(m) => div_floor(adjustment(flow, m.value), root + 1),
    }
}

// The same, rounded up.
fn above(stream: &Stream, root: i128, flow: i128) -> i128
    requires limits { IsWithinLimits stream.now }
    requires root { root ≡ standard_deviation_of stream.now.meas }
    requires flow { IsFlow flow }
    ensures value { result ≡ adjustment_above stream.now.meas flow }
    ensures nonneg { pos 0 ≤ℤ result }
{
    match stream.meas {
        None => 0,
        Some(m) => div_ceil(adjustment(flow, m.value), root),
    }
}

// The sum of the squares of the adjustments, each rounded down and capped.
fn capped_squares(streams: &[Stream], standard_deviations: &[i128], flows: &[i128]) -> i128
    requires { AreMeasured streams.now standard_deviations.now flows.now }
    ensures value { result
        ≡ capped_squares (adjustments_by adjustment_below streams.now flows.now) }
    ensures nonneg { pos 0 ≤ℤ result }
    ensures within { result ≤ℤ pos (most_streams * 2 ^ 104) }
{
    let mut total = 0;
    for (j, stream) in streams.iter().enumerate() {
        total += square(capped(below(stream, standard_deviations[j], flows[j])));
    }
    total
}

// The sum of the squares of the adjustments, each rounded up, or None if one of these is above the cap.
fn full_squares(streams: &[Stream], standard_deviations: &[i128], flows: &[i128]) -> Option<i128>
    requires { AreMeasured streams.now standard_deviations.now flows.now }
    ensures value { let bs = adjustments_by adjustment_above streams.now flows.now in
        result
        ≡ (if list_any (λ b. int_lt adjustment_cap b) bs then None
        else Some (full_squares bs)) }
    ensures within { IfSome result (λ t. (pos 0 ≤ℤ t) × (t ≤ℤ pos (most_streams * 2 ^ 104))) }
{
    let mut total = 0;
    for (j, stream) in streams.iter().enumerate() {
        let adjustment = above(stream, standard_deviations[j], flows[j]);
        if adjustment > ADJUSTMENT_CAP {
            return None;
        }
        total += square(adjustment);
    }
    Some(total)
}

/// The low end of the statistic, in thousandths.
pub fn low(streams: &[Stream], standard_deviations: &[i128], flows: &[i128], gap: Gap) -> i128
    requires measured { AreMeasured streams.now standard_deviations.now flows.now }
    requires gap { IsGapInRange gap }
    ensures value { result ≡ low_of streams.now flows.now gap }
    ensures nonneg { pos 0 ≤ℤ result }
    ensures within { IsWide result }
{
    let size = size(gap);
    if size > 1 << 57 {
        return 0;
    }
    low_end(
        capped_squares(streams, standard_deviations, flows),
        size_square(size),
    )
}

/// The high end of the statistic, in thousandths.
pub fn high(streams: &[Stream], standard_deviations: &[i128], flows: &[i128]) -> Option<i128>
    requires { AreMeasured streams.now standard_deviations.now flows.now }
    ensures value { result ≡ high_of streams.now flows.now }
    ensures within { IfSome result IsWide }
{
    match full_squares(streams, standard_deviations, flows) {
        None => None,
        Some(squares) => Some(div_ceil(thousandths(squares), 1 << 40)),
    }
}
