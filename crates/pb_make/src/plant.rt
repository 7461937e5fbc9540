// The plant of a made session.

ghost use Rattle.std.specs.Prelude.{◌≡◌, ◌≤◌, ◌+◌, ◌*◌, ◌%◌, ◌==◌, ◌+ℤ◌, ◌++◌, ℕ, pos, if◌then◌else◌, length, unsigned_abs, All, IfOk, OnOk, map};
ghost use Rattle.std.specs.List.{range_with_len};
ghost use Rattle.pb_limits.specs.Limits.{most_made_streams};
ghost use Rattle.pb_fixed.specs.Sums.{sum_over};
ghost use Rattle.pb_make.specs.Draws.{state_after_draws};
ghost use Rattle.pb_make.specs.Plant.{added_to, leads_back, least_streams, line_grams, line_stream, made_streams, passes_by, side_at, sides_of, units_of};
ghost use Rattle.pb_make.specs.Bounds.{IsMade, IsSide, most_side_grams};

use crate::draws::Draws;
use std::alloc::{AllocError, Global};

/// A stream of a made plant: from one node to another, where 0 is the environment and the units are numbered from 1, with the grams that it
/// carries a day.
#[derive(Clone, Copy, Debug)]
pub struct MadeStream {
    pub from: u32,
    pub to: u32,
    pub truth: i128,
}

// What the line carries before a side stream leaves or joins it, in grams per day.
const LINE_GRAMS: i128 = 50_000_000_000;

/// The number of units of a plant of this many streams: one for every three, and one more.
pub fn units_of(streams: u32) -> u32
    requires { streams ≤ most_made_streams }
    ensures value { result ≡ units_of streams }
{
    streams / 3 + 1
}

// The side stream of three draws.
fn side_by(units: u32, first: u32, second: u32, third: u32) -> MadeStream
    requires some { 1 ≤ units }
    requires few { units ≤ most_made_streams }
    ensures from { result.from ≡ first % units + 1 }
    ensures to { result.to ≡ (if second % (units + 1) == first % units + 1 then 0
        else second % (units + 1)) }
    ensures truth { result.truth ≡ pos (1000000 + third % 9000000) }
{
    let from = first % units + 1;
    let to = second % (units + 1);
    MadeStream {
        from,
        to: if to == from { 0 } else { to },
        truth: 1_000_000 + i128::from(third % 9_000_000),
    }
}

// The next side stream.
fn next_side(draws: &mut Draws, units: u32) -> MadeStream
    requires some { 1 ≤ units }
    requires few { units ≤ most_made_streams }
    ensures value { (number place : ℕ) → draws.old.state ≡ state_after_draws number (3 * place)
        → result ≡ side_at number units place }
    ensures state { (number place : ℕ) → draws.old.state ≡ state_after_draws number (3 * place)
        → draws.new.state ≡ state_after_draws number (3 * (place + 1)) }
{
    let first = draws.draw();
    let second = draws.draw();
    let third = draws.draw();
    side_by(units, first, second, third)
}

// The side streams of a plant of this many units.
fn side_streams(
    alloc: Global,
    draws: &mut Draws,
    units: u32,
    count: u32,
) -> Result<Vec<MadeStream>, AllocError>
    requires some { 1 ≤ units }
    requires few { units ≤ most_made_streams }
    ensures value { IfOk result (λ sides. sides.items
        ≡ map (side_at draws.old.state units) (range_with_len 0 count)) }
    ensures state { OnOk result (draws.new.state ≡ state_after_draws draws.old.state (3 * count)) }
{
    let mut sides = Vec::new(alloc);
    for _k in 0..count {
        sides.push(next_side(draws, units))?;
    }
    Ok(sides)
}

// Whether a side stream passes by a stream of the line.
fn passes_by(side: &MadeStream, i: u32) -> bool
    ensures { result ≡ passes_by side.now i }
{
    side.from < i && (side.to == 0 || i <= side.to)
}

// Whether a side stream leads back over a stream of the line.
fn leads_back(side: &MadeStream, i: u32) -> bool
    ensures { result ≡ leads_back side.now i }
{
    side.to != 0 && side.to < i && i <= side.from
}

// What a side stream adds to the true flow of a stream of the line.
fn change_of(side: &MadeStream, i: u32) -> i128
    requires { IsSide most_made_streams side.now }
    ensures value { result ≡ added_to i side.now }
    ensures within { unsigned_abs result ≤ most_side_grams }
{
    if passes_by(side, i) {
        -side.truth
    } else if leads_back(side, i) {
        side.truth
    } else {
        0
    }
}

// The true flow of a stream of the line.
fn line_truth(sides: &[MadeStream], i: u32) -> i128
    requires few { length sides.now ≤ most_made_streams }
    requires each { All (IsSide most_made_streams) sides.now }
    ensures value { result ≡ line_grams +ℤ sum_over (added_to i) sides.now }
{
    let mut truth = LINE_GRAMS;
    for side in sides {
        truth += change_of(side, i);
    }
    truth
}

// The stream of the line with this number.
fn line_stream(units: u32, sides: &[MadeStream], i: u32) -> MadeStream
    requires few { length sides.now ≤ most_made_streams }
    requires each { All (IsSide most_made_streams) sides.now }
    requires from { 1 ≤ i }
    requires units { units ≤ most_made_streams }
    ensures { result ≡ line_stream units sides.now i }
{
    MadeStream {
        from: i - 1,
        to: if i == units + 1 { 0 } else { i },
        truth: line_truth(sides, i),
    }
}

// The streams of a plant: those of the line, followed by the side streams.
fn made_streams(
    alloc: Global,
    units: u32,
    sides: &[MadeStream],
) -> Result<Vec<MadeStream>, AllocError>
    requires few { length sides.now ≤ most_made_streams }
    requires each { All (IsSide most_made_streams) sides.now }
    requires units { units ≤ most_made_streams }
    ensures { IfOk result (λ streams. streams.items
        ≡ map (line_stream units sides.now) (range_with_len 1 (units + 1)) ++ sides.now) }
{
    let mut streams = Vec::new(alloc);
    for k in 0..units + 1 {
        streams.push(line_stream(units, sides, k + 1))?;
    }
    streams.extend_from_slice(sides)?;
    Ok(streams)
}

/// The plant of a session of this many streams. The side streams take the first draws.
pub fn made_plant(
    alloc: Global,
    draws: &mut Draws,
    streams: u32,
) -> Result<Vec<MadeStream>, AllocError>
    requires least { least_streams ≤ streams }
    requires most { streams ≤ most_made_streams }
    ensures value { IfOk result (λ plant. plant.items ≡ made_streams draws.old.state streams) }
    ensures state { OnOk result
        (draws.new.state ≡ state_after_draws draws.old.state (3 * sides_of streams)) }
    ensures count { IfOk result (λ plant. length plant.items ≡ streams) }
    ensures made { IfOk result (λ plant. All (IsMade most_made_streams) plant.items) }
{
    let units = units_of(streams);
    let sides = side_streams(alloc, draws, units, streams - (units + 1))?;
    made_streams(alloc, units, &sides)
}
