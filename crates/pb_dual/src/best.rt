// Passes over the border of one group.
//
// The best price of a group is the present one less the nearest quotient of net dual flow and variance, if
// that is allowed. Each stream at the border allows an interval around the price at its other end (its
// room, the greatest adjustment over its variance), and all of them together the interval from the greatest
// low end to the least high end. To find it costs a pass over the border, which is nearly always needless:
// if the price and the greatest price so far are together within the least room, every interval has it.

ghost use Rattle.std.specs.Prelude.{◌≡◌, ◌*◌, ◌^◌, ◌<◌, ◌≤◌, ℤ, pos, neg_ℤ, List, length, All, unsigned_abs};
ghost use Rattle.pb_limits.specs.Limits.{most_price, most_streams};
ghost use Rattle.pb_graph.specs.WellFormed.{IsPrice};
ghost use Rattle.pb_graph.specs.Prices.{most_adjustment};
ghost use Rattle.pb_dual.specs.DualValue.{most_dual_flow};
ghost use Rattle.pb_dual.specs.Best.{clamped};
ghost use Rattle.pb_dual.specs.Border.{IsBorderStream, AreBorder, IsGreatest, HaveFlows, AreSameElsewhere, border_rise, border_stream_flow, inflow_of, border_flow, border_room, border_low, border_high};

use crate::arithmetic::{flow, into_interval, is_within, lowered, raised, rise};
use crate::border::BorderStream;
use pb_graph::MOST_PRICE;

// How much the price rises along a stream at the border of a group.
fn rise_along(stream: &BorderStream, prices: &[i128], group: u32) -> i128
    requires group { group < length prices.now }
    requires stream { IsBorderStream prices.now group stream.now }
    requires small { All IsPrice prices.now }
    ensures { result ≡ border_rise prices.now group stream.now }
{
    let own = prices[group as usize];
    let other = prices[stream.other as usize];
    if stream.enters {
        rise(other, own)
    } else {
        rise(own, other)
    }
}

// The dual flow of a stream at the border of a group.
fn flow_along(stream: &BorderStream, prices: &[i128], group: u32) -> i128
    requires group { group < length prices.now }
    requires stream { IsBorderStream prices.now group stream.now }
    requires small { All IsPrice prices.now }
    ensures { result ≡ border_stream_flow prices.now group stream.now }
{
    flow(
        stream.value,
        stream.variance,
        rise_along(stream, prices, group),
    )
}

/// Writes the dual flow of each stream at the border of a group.
pub fn write_flows(border: &[BorderStream], prices: &[i128], group: u32, flows: &mut [i128])
    requires group { group < length prices.now }
    requires border { AreBorder prices.now group border.now }
    requires small { All IsPrice prices.now }
    requires there { All (λ a. a.stream < length flows.old) border.now }
    ensures { (others : List ℤ) → length others ≡ length flows.old
        → HaveFlows prices.now group border.now others
        → AreSameElsewhere border.now flows.old others
        → flows.new ≡ others }
{
    for stream in border {
        flows[stream.stream as usize] = flow_along(stream, prices, group);
    }
}

// The dual flow that a stream at its border brings to a group.
fn inflow(stream: &BorderStream, flows: &[i128]) -> i128
    requires there { stream.now.stream < length flows.now }
    requires small { All (λ u. unsigned_abs u ≤ most_dual_flow) flows.now }
    ensures value { result ≡ inflow_of flows.now stream.now }
    ensures within { unsigned_abs result ≤ most_dual_flow }
{
    let flow = flows[stream.stream as usize];
    if stream.enters { flow } else { -flow }
}

/// The net dual flow of a group.
pub fn net_flow(border: &[BorderStream], flows: &[i128]) -> i128
    requires few { length border.now ≤ most_streams }
    requires there { All (λ a. a.stream < length flows.now) border.now }
    requires small { All (λ u. unsigned_abs u ≤ most_dual_flow) flows.now }
    ensures value { result ≡ border_flow flows.now border.now }
    ensures within { unsigned_abs result ≤ length border.now * most_dual_flow }
{
    let mut total = 0;
    for stream in border {
        total += inflow(stream, flows);
    }
    total
}

// The least price of a group that its border allows.
fn lowest(border: &[BorderStream], prices: &[i128], group: u32) -> i128
    requires border { AreBorder prices.now group border.now }
    requires small { All IsPrice prices.now }
    ensures { result ≡ border_low prices.now (neg_ℤ (pos most_price)) border.now }
{
    let mut lo = -MOST_PRICE;
    for stream in border {
        lo = raised(lo, prices[stream.other as usize], stream.room);
    }
    lo
}

// The greatest price of a group that its border allows.
fn highest(border: &[BorderStream], prices: &[i128], group: u32) -> i128
    requires border { AreBorder prices.now group border.now }
    requires small { All IsPrice prices.now }
    ensures { result ≡ border_high prices.now (pos most_price) border.now }
{
    let mut hi = MOST_PRICE;
    for stream in border {
        hi = lowered(hi, prices[stream.other as usize], stream.room);
    }
    hi
}

/// A price, moved into the interval that the border of a group allows.
///
/// If the price and the greatest price together are within the least room, the interval contains the price.
pub fn into_box(
    price: i128,
    border: &[BorderStream],
    prices: &[i128],
    group: u32,
    room: i128,
    greatest: i128,
) -> i128
    requires price { unsigned_abs price < 2 ^ 126 }
    requires border { AreBorder prices.now group border.now }
    requires room { room ≡ border_room (pos most_adjustment) border.now }
    requires greatest { IsGreatest greatest prices.now }
    ensures { result
        ≡ clamped (border_low prices.now (neg_ℤ (pos most_price)) border.now)
        (border_high prices.now (pos most_price) border.now) price }
{
    if is_within(price, greatest, room) {
        return price;
    }
    let lowest = lowest(border, prices, group);
    into_interval(price, lowest, highest(border, prices, group))
}
