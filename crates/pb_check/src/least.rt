// Test 13: the least bounds of each stream, if the stage has any.

ghost use Rattle.std.specs.Prelude.{◌≡◌, IfOk, MatchOption};
ghost use Rattle.pb_graph.specs.Certificates.{IsCertified};
ghost use Rattle.pb_study.specs.WellFormed.{IsWellFormed};
ghost use Rattle.pb_gap.specs.GapRange.{IsGapInRange};
ghost use Rattle.pb_gap.specs.LeastBounds.{stream_least_bounds};
ghost use Rattle.pb_stage.specs.Printed.{have_least, printed_flows, printed_gap, printed_price, EachStream, HasLeastBounds};
ghost use Rattle.pb_stage.specs.Signs.{AreWitnessSigns};
ghost use Rattle.pb_stage.specs.Certified.{found_least};
ghost use Rattle.pb_check.specs.Places.{IsLeastFault};
ghost use Rattle.pb_check.specs.Pairs.{IsPairOf};
ghost use Rattle.pb_check.specs.Asked.{HasClassAt};

use crate::bounds::bounds_difference;
use crate::faults::Fault;
use pb_gap::{FlowPair, Gap};
use pb_graph::Classified;
use pb_stage::sum_for;
use pb_study::{Bounds, Stage, StreamResult};
use std::alloc::{AllocError, Global};

/// Whether some stream has least bounds.
pub fn have_least(streams: &[StreamResult]) -> bool
    ensures { result ≡ have_least streams.now }
{
    streams.iter().any(|stream| stream.least.is_some())
}

// The least bounds of a stream by its class and its certificate, or none if it is unobservable.
fn found_least(
    alloc: Global,
    stage: &Stage,
    pair: &FlowPair,
    gap: Gap,
    stream: u32,
    classified: &Classified,
) -> Result<Option<Bounds>, AllocError>
    requires pair { IsPairOf stage.now pair.now }
    requires gap { gap ≡ printed_gap stage.now }
    requires range { IsGapInRange gap }
    requires signs { AreWitnessSigns classified.now.witness }
    requires certified { IsCertified stage.now.graph stream classified.now }
    ensures { IfOk result (λ bounds. bounds
        ≡ stream_least_bounds (printed_price stage.now) stage.now.graph.streams
        (printed_flows stage.now) (printed_gap stage.now) stream classified.now) }
{
    match sum_for(alloc, stream, classified)? {
        None => Ok(None),
        Some(members) => Ok(Some(pair.least(members.as_slice(), gap))),
    }
}

/// Test 13: if some stream has least bounds, those of each stream are those of the printed flows, prices, gap and certificate.
pub fn least_fault(
    alloc: Global,
    stage: &Stage,
    pair: &FlowPair,
    gap: Gap,
) -> Result<Option<Fault>, AllocError>
    requires formed { IsWellFormed stage.now }
    requires pair { IsPairOf stage.now pair.now }
    requires gap { gap ≡ printed_gap stage.now }
    requires range { IsGapInRange gap }
    requires classes { EachStream stage.now (HasClassAt stage.now) }
    requires shown { EachStream stage.now (λ j r. IsCertified stage.now.graph j r.classified) }
    ensures { IfOk result
        (λ found. MatchOption found
        (HasLeastBounds stage.now
        → EachStream stage.now (λ j r. r.least ≡ found_least stage.now j r))
        (IsLeastFault stage.now)) }
{
    if !have_least(stage.streams.as_slice()) {
        return Ok(None);
    }
    for j in 0..stage.graph.len() {
        let printed = stage.streams.at(j as usize);
        let found = found_least(alloc, stage, pair, gap, j, &printed.classified)?;
        if let Some(fault) = bounds_difference(j, printed.least, found) {
            return Ok(Some(fault));
        }
    }
    Ok(None)
}
