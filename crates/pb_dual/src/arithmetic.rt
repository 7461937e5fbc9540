// The arithmetic of prices and dual flows.

ghost use Rattle.std.specs.Prelude.{◌≡◌, ◌*◌, ◌^◌, ◌<◌, ◌≤◌, pos, neg_ℤ, ◌+ℤ◌, ◌-ℤ◌, ◌*ℤ◌, ◌≤ℤ◌, ◌<ℤ◌, ◌↔◌, IsTrue, unsigned_abs, if◌then◌else◌};
ghost use Rattle.std.specs.Int.{int_max, int_min};
ghost use Rattle.pb_fixed.specs.Quotients.{nearest_div};
ghost use Rattle.pb_limits.specs.Limits.{most_price, most_streams, most_value};
ghost use Rattle.pb_graph.specs.WellFormed.{IsPrice};
ghost use Rattle.pb_graph.specs.Prices.{most_adjustment};
ghost use Rattle.pb_dual.specs.DualValue.{scale, most_dual_flow};
ghost use Rattle.pb_dual.specs.Best.{clamped};

use pb_fixed::div_nearest;

/// The units of dual flow in a gram.
pub const SCALE: i128 = 1 << 56;

/// How much the price rises from one end of a stream to the other.
pub fn rise(from: i128, to: i128) -> i128
    requires from { IsPrice from }
    requires to { IsPrice to }
    ensures { result ≡ to -ℤ from }
{
    to - from
}

/// A value in units of dual flow.
pub fn scaled(value: i128) -> i128
    requires { unsigned_abs value ≤ most_value }
    ensures value { result ≡ scale *ℤ value }
    ensures within { unsigned_abs result < 2 ^ 106 }
{
    SCALE * value
}

/// The dual flow of a measurement along which the price rises.
pub fn flow(value: i128, variance: i128, rise: i128) -> i128
    requires value { unsigned_abs value ≤ most_value }
    requires in_box { unsigned_abs (variance *ℤ rise) ≤ most_adjustment }
    ensures value { result ≡ (scale *ℤ value) +ℤ (variance *ℤ rise) }
    ensures within { unsigned_abs result ≤ most_dual_flow }
{
    scaled(value) + variance * rise
}

/// A lower bound, raised to a price less a room if that is greater.
pub fn raised(lo: i128, price: i128, room: i128) -> i128
    requires price { IsPrice price }
    requires room { unsigned_abs room ≤ most_adjustment }
    ensures { result ≡ int_max lo (price -ℤ room) }
{
    lo.max(price - room)
}

/// An upper bound, lowered to a price plus a room if that is less.
pub fn lowered(hi: i128, price: i128, room: i128) -> i128
    requires price { IsPrice price }
    requires room { unsigned_abs room ≤ most_adjustment }
    ensures { result ≡ int_min hi (price +ℤ room) }
{
    hi.min(price + room)
}

/// The whole price nearest to the peak of the dual value along a group's price, or the lower one if two are equally near:
/// the present price less the nearest quotient of the net dual flow by the variance.
pub fn peak(price: i128, net: i128, variance: i128) -> i128
    requires price { IsPrice price }
    requires net { unsigned_abs net < 2 ^ 125 }
    requires positive { pos 0 <ℤ variance }
    requires variance { variance <ℤ pos (2 ^ 125) }
    ensures value { result ≡ price -ℤ nearest_div net variance }
    ensures within { unsigned_abs result < 2 ^ 126 }
{
    price - div_nearest(net, variance)
}

/// Whether the size of a price and the greatest price together are within a room.
pub fn is_within(price: i128, greatest: i128, room: i128) -> bool
    requires price { unsigned_abs price < 2 ^ 126 }
    requires greatest_from { pos 0 ≤ℤ greatest }
    requires greatest_to { greatest ≤ℤ pos most_price }
    ensures { IsTrue result ↔ ((pos (unsigned_abs price) +ℤ greatest) ≤ℤ room) }
{
    price.abs() + greatest <= room
}

/// The greater of a number and the size of a price.
pub fn greater(greatest: i128, price: i128) -> i128
    requires { IsPrice price }
    ensures { result ≡ int_max greatest (pos (unsigned_abs price)) }
{
    greatest.max(price.abs())
}

/// A price, or the end of an interval that is nearest to it.
pub fn into_interval(price: i128, lo: i128, hi: i128) -> i128
    ensures { result ≡ clamped lo hi price }
{
    if price < lo {
        lo
    } else if hi < price {
        hi
    } else {
        price
    }
}
