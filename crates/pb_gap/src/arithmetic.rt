// The arithmetic of one stream: how far a flow is from a dual flow and from a measured value.

ghost use Rattle.std.specs.Prelude.{◌≡◌, ◌⊎◌, ◌+◌, ◌*◌, ◌^◌, ◌<◌, ◌≤◌, pos, negsuc, ◌+ℤ◌, ◌-ℤ◌, ◌*ℤ◌, ◌≤ℤ◌, ◌<ℤ◌, unsigned_abs};
ghost use Rattle.std.specs.Int.{int_max, int_min};
ghost use Rattle.pb_forest.specs.Flows.{most_given_flow};
ghost use Rattle.pb_fixed.specs.Quotients.{floor_div, ceil_div, nearest_div};
ghost use Rattle.pb_fixed.specs.Blocks.{IsBlockItem};
ghost use Rattle.pb_limits.specs.Limits.{most_streams, most_value};
ghost use Rattle.pb_graph.specs.WellFormed.{IsFlow};
ghost use Rattle.pb_study.specs.WellFormed.{IsWide};
ghost use Rattle.pb_dual.specs.DualValue.{scale, most_dual_flow};
ghost use Rattle.pb_gap.specs.Statistic.{adjustment_cap};

use pb_dual::SCALE;
use pb_fixed::{div_ceil, div_floor, shift_nearest};

/// The most that an adjustment counts for.
pub const ADJUSTMENT_CAP: i128 = 1 << 52;

/// A dual flow to the nearest gram.
pub fn nearest_gram(dual_flow: i128) -> i128
    requires { unsigned_abs dual_flow ≤ most_dual_flow }
    ensures value { result ≡ nearest_div dual_flow scale }
    ensures within { unsigned_abs result ≤ most_given_flow }
{
    shift_nearest(dual_flow, 56)
}

/// How far a flow is from a dual flow, in units of 2^-56 gram.
pub fn distance(flow: i128, dual_flow: i128) -> i128
    requires flow { IsFlow flow }
    requires dual_flow { unsigned_abs dual_flow ≤ most_dual_flow }
    ensures value { result ≡ pos (unsigned_abs ((flow *ℤ scale) -ℤ dual_flow)) }
    ensures nonneg { pos 0 ≤ℤ result }
    ensures within { result <ℤ pos (2 ^ 125) }
{
    (flow * SCALE - dual_flow).abs()
}

/// How far a flow is from a dual flow, in standard deviations, in units of 2^-20, rounded up. `root` is the standard deviation in
/// units of 2^-20 gram.
pub fn deviation(flow: i128, dual_flow: i128, root: i128) -> i128
    requires flow { IsFlow flow }
    requires dual_flow { unsigned_abs dual_flow ≤ most_dual_flow }
    requires root_from { pos (2 ^ 20) ≤ℤ root }
    requires root_to { root <ℤ pos (2 ^ 63) }
    ensures value { result
        ≡ ceil_div (pos (unsigned_abs ((flow *ℤ scale) -ℤ dual_flow))) (root *ℤ pos (2 ^ 16)) }
    ensures within { IsBlockItem result }
    ensures width { result <ℤ pos (2 ^ 89) }
{
    div_ceil(distance(flow, dual_flow), root * (1 << 16))
}

/// How far a flow is from a measured value, in units of 2^-40 gram.
pub fn adjustment(flow: i128, value: i128) -> i128
    requires flow { IsFlow flow }
    requires value { unsigned_abs value ≤ most_value }
    ensures value { result ≡ pos (unsigned_abs (flow -ℤ value)) *ℤ pos (2 ^ 40) }
    ensures nonneg { pos 0 ≤ℤ result }
    ensures within { result <ℤ pos (2 ^ 109) }
{
    (flow - value).abs() * (1 << 40)
}

/// An adjustment, capped at the most that it counts for.
pub fn capped(adjustment: i128) -> i128
    requires { pos 0 ≤ℤ adjustment }
    ensures value { result ≡ int_min adjustment adjustment_cap }
    ensures nonneg { pos 0 ≤ℤ result }
    ensures within { result ≤ℤ adjustment_cap }
{
    adjustment.min(ADJUSTMENT_CAP)
}

/// The square of an adjustment.
pub fn square(adjustment: i128) -> i128
    requires nonneg { pos 0 ≤ℤ adjustment }
    requires within { adjustment ≤ℤ adjustment_cap }
    ensures value { result ≡ adjustment *ℤ adjustment }
    ensures nonneg { pos 0 ≤ℤ result }
    ensures within { result ≤ℤ pos (2 ^ 104) }
{
    adjustment * adjustment
}

/// The square of a deviation. A deviation above the limit counts as one more than the limit.
pub fn square_up_to(deviation: i128, limit: i128) -> i128
    requires deviation { pos 0 ≤ℤ deviation }
    requires from { pos 0 ≤ℤ limit }
    requires to { limit <ℤ adjustment_cap }
    ensures below { result ≤ℤ (deviation *ℤ deviation) }
    ensures nonneg { pos 0 ≤ℤ result }
    ensures within { result <ℤ pos (2 ^ 105) }
{
    square(deviation.min(limit + 1))
}

/// A number with a sign.
pub fn signed(sign: i8, x: i128) -> i128
    requires sign { (sign ≡ pos 1) ⊎ (sign ≡ negsuc 0) }
    requires x { unsigned_abs x ≤ most_dual_flow }
    ensures value { result ≡ sign *ℤ x }
    ensures within { unsigned_abs result ≤ most_dual_flow }
{
    if sign > 0 { x } else { -x }
}

/// A thousand times a sum of squares in units of 2^-40.
pub fn thousandths(squares: i128) -> i128
    requires { unsigned_abs squares ≤ (most_streams + 1) * 2 ^ 104 }
    ensures value { result ≡ pos 1000 *ℤ squares }
    ensures within { unsigned_abs result < 2 ^ 126 }
{
    1_000 * squares
}

/// The square of the size of a gap.
pub fn size_square(size: u128) -> i128
    requires { size ≤ 2 ^ 57 }
    ensures value { result ≡ pos size *ℤ pos size }
    ensures nonneg { pos 0 ≤ℤ result }
    ensures within { result ≤ℤ pos (2 ^ 114) }
{
    (size * size) as i128
}

/// A thousand times the squares of the adjustments less the square of the gap, rounded down to a whole number, and at least 0.
pub fn low_end(squares: i128, size_square: i128) -> i128
    requires squares_from { pos 0 ≤ℤ squares }
    requires squares_to { squares ≤ℤ pos (most_streams * 2 ^ 104) }
    requires size_from { pos 0 ≤ℤ size_square }
    requires size_to { size_square ≤ℤ pos (2 ^ 114) }
    ensures value { result
        ≡ int_max (pos 0) (floor_div (pos 1000 *ℤ (squares -ℤ size_square)) (pos (2 ^ 40))) }
    ensures nonneg { pos 0 ≤ℤ result }
    ensures within { IsWide result }
{
    div_floor(thousandths(squares - size_square), 1 << 40).max(0)
}
