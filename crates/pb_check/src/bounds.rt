// Test 9: the bounds of each stream.

ghost use Rattle.std.specs.Prelude.{◌≡◌, is_some, IfOk, MatchOption};
ghost use Rattle.pb_graph.specs.Certificates.{IsCertified};
ghost use Rattle.pb_study.specs.WellFormed.{IsWellFormed};
ghost use Rattle.pb_gap.specs.GapRange.{IsGapInRange};
ghost use Rattle.pb_gap.specs.StreamBounds.{stream_bounds};
ghost use Rattle.pb_stage.specs.Printed.{printed_gap, printed_price, EachStream};
ghost use Rattle.pb_stage.specs.Signs.{AreWitnessSigns};
ghost use Rattle.pb_stage.specs.Certified.{found_bounds};
ghost use Rattle.pb_check.specs.Faults.{IsBoundsFault};
ghost use Rattle.pb_check.specs.Places.{DifferAt};
ghost use Rattle.pb_check.specs.Pairs.{IsPairOf};
ghost use Rattle.pb_check.specs.Asked.{HasClassAt};

use crate::faults::{Fault, Place};
use pb_gap::{FlowPair, Gap};
use pb_graph::Classified;
use pb_stage::sum_for;
use pb_study::{Bounds, Stage};
use std::alloc::{AllocError, Global};

// The bounds of a stream by its class and its certificate, or none if it is unobservable.
fn found_bounds(
    alloc: Global,
    stage: &Stage,
    pair: &FlowPair,
    gap: Gap,
    stream: u32,
    classified: &Classified,
) -> Result<Option<Bounds>, AllocError>
    requires pair { IsPairOf stage.now pair.now }
    requires gap { gap ≡ printed_gap stage.now }
    requires range { IsGapInRange gap }
    requires signs { AreWitnessSigns classified.now.witness }
    requires certified { IsCertified stage.now.graph stream classified.now }
    ensures { IfOk result (λ bounds. bounds
        ≡ stream_bounds (printed_price stage.now) stage.now.graph.streams (printed_gap stage.now)
        stream classified.now) }
{
    match sum_for(alloc, stream, classified)? {
        None => Ok(None),
        Some(members) => Ok(Some(pair.bounds(members.as_slice(), gap))),
    }
}

// A fault at a stream, with its two numbers.
fn bounds_at(stream: u32, stated: i128, found: i128) -> Fault
    ensures { result ≡ record { place = Place.Stream stream; stated = stated; found = found } }
{
    Fault {
        place: Place::Stream(stream),
        stated,
        found,
    }
}

/// If the bounds of a stream differ, the first number that does: lo, and then hi.
pub fn bounds_difference(
    stream: u32,
    stated: Option<Bounds>,
    found: Option<Bounds>,
) -> Option<Fault>
    requires { is_some stated ≡ is_some found }
    ensures { MatchOption result (stated ≡ found) (DifferAt stream stated found) }
{
    let (Some(stated), Some(found)) = (stated, found) else {
        return None;
    };
    if stated.lo != found.lo {
        return Some(bounds_at(stream, stated.lo, found.lo));
    }
    if stated.hi != found.hi {
        return Some(bounds_at(stream, stated.hi, found.hi));
    }
    None
}

/// Test 9: the bounds of each stream are those of the printed prices, gap and certificate.
pub fn bounds_fault(
    alloc: Global,
    stage: &Stage,
    pair: &FlowPair,
    gap: Gap,
) -> Result<Option<Fault>, AllocError>
    requires formed { IsWellFormed stage.now }
    requires pair { IsPairOf stage.now pair.now }
    requires gap { gap ≡ printed_gap stage.now }
    requires range { IsGapInRange gap }
    requires classes { EachStream stage.now (HasClassAt stage.now) }
    requires shown { EachStream stage.now (λ j r. IsCertified stage.now.graph j r.classified) }
    ensures { IfOk result
        (λ found. MatchOption found
        (EachStream stage.now (λ j r. r.bounds ≡ found_bounds stage.now j r))
        (IsBoundsFault stage.now (λ r. r.bounds) (found_bounds stage.now))) }
{
    for j in 0..stage.graph.len() {
        let printed = stage.streams.at(j as usize);
        let found = found_bounds(alloc, stage, pair, gap, j, &printed.classified)?;
        if let Some(fault) = bounds_difference(j, printed.bounds, found) {
            return Ok(Some(fault));
        }
    }
    Ok(None)
}
