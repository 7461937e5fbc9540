// Test 5: the box of each measured stream.

ghost use Rattle.std.specs.Prelude.{◌≡◌, ◌<◌, ◌≤◌, ◌^◌, ℕ, pos, ◌≤ℤ◌, ◌-ℤ◌, unsigned_abs, length, MatchOption, All};
ghost use Rattle.pb_graph.specs.ProcessGraph.{IsMeasurement, IsProcessGraph};
ghost use Rattle.pb_graph.specs.WellFormed.{IsPrice};
ghost use Rattle.pb_graph.specs.Prices.{IsInBox};
ghost use Rattle.pb_study.specs.WellFormed.{IsWellFormed};
ghost use Rattle.pb_dual.specs.Candidates.{room_of};
ghost use Rattle.pb_stage.specs.Printed.{printed_price};
ghost use Rattle.pb_check.specs.Faults.{IsBoxFault};
ghost use Rattle.pb_check.specs.Places.{IsInBoxAt, IsOutOfBox};

use crate::faults::{Fault, Place};
use pb_fixed::div_floor;
use pb_graph::{MOST_ADJUSTMENT, Meas};
use pb_study::Stage;

// The most by which the prices at the ends of a stream of this variance may differ.
fn room(meas: &Meas) -> i128
    requires { IsMeasurement meas.now }
    ensures { result ≡ room_of meas.now.variance }
{
    div_floor(MOST_ADJUSTMENT, meas.variance)
}

// How much two prices differ.
fn difference(from: i128, to: i128) -> i128
    requires from { IsPrice from }
    requires to { IsPrice to }
    ensures { result ≡ pos (unsigned_abs (to -ℤ from)) }
{
    (to - from).abs()
}

// The fault of the stream at a place, if it is measured and the prices at its ends differ by more than they may.
fn out_of_box(stage: &Stage, place: u32) -> Option<Fault>
    requires formed { IsWellFormed stage.now }
    requires limits { IsProcessGraph stage.now.graph }
    requires place { place < length stage.now.graph.streams }
    ensures { MatchOption result (IsInBoxAt stage.now place) (IsOutOfBox stage.now place) }
{
    let stream = stage.graph.stream(place);
    let Some(meas) = stream.meas else {
        return None;
    };
    let stated = difference(
        *stage.prices.at(stream.from as usize),
        *stage.prices.at(stream.to as usize),
    );
    let found = room(&meas);
    if stated <= found {
        return None;
    }
    Some(Fault {
        place: Place::Stream(place),
        stated,
        found,
    })
}

/// Test 5: the adjustment of each measured flow is within its limit.
pub fn box_fault(stage: &Stage) -> Option<Fault>
    requires { IsWellFormed stage.now }
    ensures { MatchOption result
        (All (IsInBox (printed_price stage.now)) stage.now.graph.streams) (IsBoxFault stage.now) }
{
    for place in 0..stage.graph.len() {
        if let Some(fault) = out_of_box(stage, place) {
            return Some(fault);
        }
    }
    None
}
