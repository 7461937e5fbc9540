// Tests 1 and 2: the class of each stream, and the cut or cycle that shows it.

ghost use Rattle.std.specs.Prelude.{◌≡◌, ◌↔◌, ◌==◌, ◌<◌, Some, None, length, slice_get, IfSome, IsSome, All, IsTrue, MatchOption};
ghost use Rattle.std.specs.List.{list_any};
ghost use Rattle.pb_graph.specs.declared.records.Member.{Member};
ghost use Rattle.pb_graph.specs.declared.records.Step.{Step};
ghost use Rattle.pb_graph.specs.declared.records.Stream.{Stream};
ghost use Rattle.pb_graph.specs.Cycle.{IsCycle};
ghost use Rattle.pb_graph.specs.Certificates.{CutsOff, GoesRound, Shows, IsCertified};
ghost use Rattle.pb_study.specs.WellFormed.{IsWellFormed};
ghost use Rattle.pb_stage.specs.Printed.{have_least, EachStream};
ghost use Rattle.pb_check.specs.Others.{IsOtherMeasured, IsOtherUnmeasured};
ghost use Rattle.pb_check.specs.Asked.{HasClassAt};
ghost use Rattle.pb_check.specs.Places.{is_of_measured, is_bounded, AtStream, HasClassBits, IsStreamFault};

use crate::faults::{Fault, at_stream};
use crate::least::have_least;
use pb_graph::{Class, Graph, Member, Step, Stream, Witness};
use pb_study::{Stage, StreamResult};

// Whether a class is one of those of measured streams.
fn is_of_measured(class: Class) -> bool
    ensures { result ≡ is_of_measured class }
{
    matches!(class, Class::Redundant | Class::Nonredundant)
}

// Whether a stream of a class has bounds.
fn is_bounded(class: Class) -> bool
    ensures { result ≡ is_bounded class }
{
    !matches!(class, Class::Unobservable)
}

// Whether a stream has a class of measured streams exactly when it is measured, bounds exactly when it isn't unobservable, and least bounds
// exactly when it has bounds and its stage has least bounds.
fn has_class(in_stage: bool, stream: &Stream, printed: &StreamResult) -> bool
    ensures { IsTrue result ↔ HasClassBits in_stage stream.now printed.now }
{
    let class = printed.classified.class;
    let bounded = printed.bounds.is_some();
    is_of_measured(class) == stream.meas.is_some()
        && bounded == is_bounded(class)
        && printed.least.is_some() == (bounded && in_stage)
}

// Whether this holds of the stream at a place.
fn has_class_at(stage: &Stage, in_stage: bool, j: u32) -> bool
    requires formed { IsWellFormed stage.now }
    requires in_stage { in_stage ≡ have_least stage.now.streams }
    requires place { j < length stage.now.graph.streams }
    ensures { IsTrue result ↔ AtStream stage.now (HasClassAt stage.now) j }
{
    has_class(
        in_stage,
        &stage.graph.stream(j),
        stage.streams.at(j as usize),
    )
}

/// Test 1: each stream has a class of measured streams exactly when it is measured, bounds exactly when it isn't unobservable, and least
/// bounds exactly when it has bounds and some stream has least bounds.
pub fn class_fault(stage: &Stage) -> Option<Fault>
    requires { IsWellFormed stage.now }
    ensures { MatchOption result (EachStream stage.now (HasClassAt stage.now))
        (IsStreamFault stage.now (HasClassAt stage.now)) }
{
    let in_stage = have_least(stage.streams.as_slice());
    for j in 0..stage.graph.len() {
        if !has_class_at(stage, in_stage, j) {
            return Some(at_stream(j));
        }
    }
    None
}

// Whether the stream at a place is measured, if there is one.
fn is_measured_at(graph: &Graph, stream: u32) -> bool
    ensures { IsTrue result
        ↔ ((s : Stream) → slice_get graph.now.streams stream ≡ Some s → IsSome s.meas) }
{
    match graph.streams().get(stream as usize) {
        None => true,
        Some(s) => s.meas.is_some(),
    }
}

// Whether the stream at a place is unmeasured, if there is one.
fn is_unmeasured_at(graph: &Graph, stream: u32) -> bool
    ensures { IsTrue result
        ↔ ((s : Stream) → slice_get graph.now.streams stream ≡ Some s → s.meas ≡ None) }
{
    match graph.streams().get(stream as usize) {
        None => true,
        Some(s) => s.meas.is_none(),
    }
}

// Whether a member is measured unless it is this stream.
fn is_other_measured(graph: &Graph, id: u32, member: &Member) -> bool
    ensures { IsTrue result ↔ IsOtherMeasured graph.now id member.now }
{
    member.stream == id || is_measured_at(graph, member.stream)
}

// Whether a step is along an unmeasured stream unless it is along this one.
fn is_other_unmeasured(graph: &Graph, id: u32, step: &Step) -> bool
    ensures { IsTrue result ↔ IsOtherUnmeasured graph.now id step.now }
{
    step.stream == id || is_unmeasured_at(graph, step.stream)
}

// Whether the members other than a stream are measured.
fn others_measured(graph: &Graph, id: u32, members: &[Member]) -> bool
    ensures { IsTrue result ↔ All (IsOtherMeasured graph.now id) members.now }
{
    members
        .iter()
        .all(|member| is_other_measured(graph, id, member))
}

// Whether the steps, except along a stream, are along unmeasured streams.
fn others_unmeasured(graph: &Graph, id: u32, steps: &[Step]) -> bool
    ensures { IsTrue result ↔ All (IsOtherUnmeasured graph.now id) steps.now }
{
    steps
        .iter()
        .all(|step| is_other_unmeasured(graph, id, step))
}

// Whether a stream is one of the members.
fn has_member(members: &[Member], id: u32) -> bool
    ensures { result ≡ list_any (λ (m : Member). m.stream == id) members.now }
{
    members.iter().any(|member| member.stream == id)
}

// Whether one of the steps goes along a stream.
fn has_step(steps: &[Step], id: u32) -> bool
    ensures { result ≡ list_any (λ (t : Step). t.stream == id) steps.now }
{
    steps.iter().any(|step| step.stream == id)
}

// Whether the members are a cut that has a stream, and all other members are measured.
#[tactic(auto, using(crate::proofs::OtherLemmas::each_by_recursion, crate::proofs::OtherLemmas::each_by_place))]
fn cuts_off(graph: &Graph, id: u32, side: &[bool], members: &[Member]) -> bool
    ensures { IsTrue result ↔ CutsOff graph.now id side.now members.now }
{
    graph.is_cut(side, members) && has_member(members, id) && others_measured(graph, id, members)
}

// Whether the steps are a cycle. One that is known isn't walked again.
fn is_cycle(graph: &Graph, steps: &[Step], known: Option<&[Step]>) -> bool
    requires { IfSome known (λ cycle. IsCycle graph.now cycle.now) }
    ensures { IsTrue result ↔ IsCycle graph.now steps.now }
{
    match known {
        Some(cycle) if steps == cycle => true,
        _ => graph.is_cycle(steps),
    }
}

// Whether the steps are a cycle that goes along a stream, and all other steps are along unmeasured streams.
#[tactic(auto, using(crate::proofs::OtherLemmas::each_by_recursion, crate::proofs::OtherLemmas::each_by_place))]
fn goes_round(graph: &Graph, id: u32, steps: &[Step], known: Option<&[Step]>) -> bool
    requires { IfSome known (λ cycle. IsCycle graph.now cycle.now) }
    ensures { IsTrue result ↔ GoesRound graph.now id steps.now }
{
    is_cycle(graph, steps, known) && has_step(steps, id) && others_unmeasured(graph, id, steps)
}

// Whether a certificate shows the class of a stream.
fn shows(
    graph: &Graph,
    id: u32,
    stream: &Stream,
    class: Class,
    witness: &Witness,
    known: Option<&[Step]>,
) -> bool
    requires { IfSome known (λ cycle. IsCycle graph.now cycle.now) }
    ensures { IsTrue result ↔ Shows graph.now id stream.now class witness.now }
{
    match witness {
        Witness::Cut { side, members } => match class {
            Class::Observable => {
                stream.meas.is_none() && cuts_off(graph, id, side.as_slice(), members.as_slice())
            }
            Class::Redundant => {
                stream.meas.is_some() && cuts_off(graph, id, side.as_slice(), members.as_slice())
            }
            _ => false,
        },
        Witness::Cycle { steps } => match class {
            Class::Unobservable => {
                stream.meas.is_none() && goes_round(graph, id, steps.as_slice(), known)
            }
            Class::Nonredundant => {
                stream.meas.is_some() && goes_round(graph, id, steps.as_slice(), known)
            }
            _ => false,
        },
    }
}

// Whether the printed cut or cycle shows the class of the stream at a place.
fn is_shown_at(stage: &Stage, j: u32, known: Option<&[Step]>) -> bool
    requires formed { IsWellFormed stage.now }
    requires place { j < length stage.now.graph.streams }
    requires known { IfSome known (λ cycle. IsCycle stage.now.graph cycle.now) }
    ensures { IsTrue result
        ↔ AtStream stage.now (λ j r. IsCertified stage.now.graph j r.classified) j }
{
    let classified = &stage.streams.at(j as usize).classified;
    let stream = stage.graph.stream(j);
    shows(
        &stage.graph,
        j,
        &stream,
        classified.class,
        &classified.witness,
        known,
    )
}

// The cycle that was shown last: that of the stream at a place, if it has one.
fn cycle_after<'a>(stage: &'a Stage, j: u32, known: Option<&'a [Step]>) -> Option<&'a [Step]>
    requires formed { IsWellFormed stage.now }
    requires place { j < length stage.now.graph.streams }
    requires known { IfSome known (λ cycle. IsCycle stage.now.graph cycle.now) }
    requires shown { AtStream stage.now (λ j r. IsCertified stage.now.graph j r.classified) j }
    ensures { IfSome result (λ cycle. IsCycle stage.now.graph cycle.now) }
{
    match &stage.streams.at(j as usize).classified.witness {
        Witness::Cycle { steps } => Some(steps.as_slice()),
        Witness::Cut { .. } => known,
    }
}

/// Test 2: the printed cut or cycle shows the class of each stream. The work is proportional to the numbers of members and steps.
pub fn witness_fault(stage: &Stage) -> Option<Fault>
    requires { IsWellFormed stage.now }
    ensures { MatchOption result
        (EachStream stage.now (λ j r. IsCertified stage.now.graph j r.classified))
        (IsStreamFault stage.now (λ j r. IsCertified stage.now.graph j r.classified)) }
{
    let mut known = None;
    for j in 0..stage.graph.len() {
        if !is_shown_at(stage, j, known) {
            return Some(at_stream(j));
        }
        known = cycle_after(stage, j, known);
    }
    None
}
