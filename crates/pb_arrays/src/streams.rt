// The results of streams, with their certificates.
ghost use Rattle.std.specs.Prelude.{◌≡◌, ◌≤◌, ◌<◌, None, Some, length, take, IfSome, IsSomeAnd};
ghost use Rattle.std.specs.Option.{option_map};
ghost use Rattle.pb_arrays.specs.Found.{result_in};
ghost use Rattle.pb_arrays.specs.ShownStream.{ShowsBounds, ShowsResult, ShowsWitness, certificate_member, class_number, class_numbers, member_in, member_shown, side_in, side_of, step_shown};

use crate::numbers::{PlantbalWide, wide_of};
use pb_graph::{Class, Classified, Member, Step, Witness};
use pb_study::{Bounds, StreamResult, Study};

/// What a stage says of a stream: its class with its certificate, its reconciled flow, and bounds of that flow.
#[repr(C)]
#[derive(Clone, Copy)]
pub struct PlantbalResult {
    /// 0 observable, 1 unobservable, 2 redundant, 3 nonredundant.
    pub stream_class: u8,
    /// Whether its certificate is a cycle. If not, it is a cut.
    pub cycle: bool,
    /// Whether there are bounds. An unobservable stream has none.
    pub bounded: bool,
    /// Whether there are least bounds.
    pub least_bounded: bool,
    /// How many streams its certificate has.
    pub members: u64,
    /// The reconciled flow in grams.
    pub flow: PlantbalWide,
    /// The flow is at least this much in each balanced vector that is no worse.
    pub lo: PlantbalWide,
    /// It is at most this much.
    pub hi: PlantbalWide,
    /// The flow is at least this much in each least vector.
    pub least_lo: PlantbalWide,
    /// It is at most this much.
    pub least_hi: PlantbalWide,
}

/// A stream of a certificate.
#[repr(C)]
#[derive(Clone, Copy)]
pub struct PlantbalMember {
    /// The place of the stream.
    pub stream: u32,
    /// Of a cut, 1 if the stream enters the side and -1 if it leaves it; of a cycle, 1 along the stream's arrow and -1 against it.
    pub sign: i32,
}

/// The result of a stream in a stage; `None` iff there is no such stage or stream.
pub fn result_at(study: &Study, stage: usize, stream: u32) -> Option<PlantbalResult>
    ensures value { IfSome result (λ shown.
        IsSomeAnd (result_in study.now stage stream) (λ found. ShowsResult found shown)) }
    ensures none { result ≡ None → result_in study.now stage stream ≡ None }
{
    match found(study, stage, stream) {
        Some(found) => Some(shown_result(found)),
        None => None,
    }
}

// The result of a stream in a stage.
fn found(study: &Study, stage: usize, stream: u32) -> Option<&StreamResult>
    ensures { option_map (λ found. found.now) result ≡ result_in study.now stage stream }
{
    match study.stages.as_slice().get(stage) {
        Some(stage) => stage.streams.as_slice().get(stream as usize),
        None => None,
    }
}

/// The stream at a place of the certificate of a stream; `None` iff there is none.
pub fn member_at(study: &Study, stage: usize, stream: u32, place: usize) -> Option<PlantbalMember>
    ensures { result ≡ member_in study.now stage stream place }
{
    match found(study, stage, stream) {
        Some(found) => member_of(&found.classified.witness, place),
        None => None,
    }
}

// The stream at a place of a certificate.
fn member_of(witness: &Witness, place: usize) -> Option<PlantbalMember>
    ensures { result ≡ certificate_member place witness.now }
{
    match witness {
        Witness::Cut { members, .. } => match members.as_slice().get(place) {
            Some(member) => Some(shown_member(member)),
            None => None,
        },
        Witness::Cycle { steps } => match steps.as_slice().get(place) {
            Some(step) => Some(shown_step(step)),
            None => None,
        },
    }
}

/// Whether a node is inside the cut of a stream; `None` iff its certificate is a cycle, or there is no such stage, stream or node.
pub fn is_inside(study: &Study, stage: usize, stream: u32, node: u32) -> Option<bool>
    ensures { result ≡ side_in study.now stage stream node }
{
    match found(study, stage, stream) {
        Some(found) => side_of(&found.classified.witness, node as usize),
        None => None,
    }
}

// Whether a node is inside a cut.
fn side_of(witness: &Witness, node: usize) -> Option<bool>
    ensures { result ≡ side_of node witness.now }
{
    match witness {
        Witness::Cut { side, .. } => side.as_slice().get(node).copied(),
        Witness::Cycle { .. } => None,
    }
}

// A result as C has it.
fn shown_result(stream: &StreamResult) -> PlantbalResult
    ensures { ShowsResult stream.now result }
{
    let (cycle, members) = witness_of(&stream.classified.witness);
    let (bounded, lo, hi) = bounds_if(stream.bounds);
    let (least_bounded, least_lo, least_hi) = bounds_if(stream.least);
    PlantbalResult {
        stream_class: class_number(stream.classified.class),
        cycle,
        bounded,
        least_bounded,
        members,
        flow: wide_of(stream.flow),
        lo,
        hi,
        least_lo,
        least_hi,
    }
}

// Whether a certificate is a cycle, and how many streams it has.
fn witness_of(witness: &Witness) -> (bool, u64)
    ensures { ShowsWitness witness.now result.0 result.1 }
{
    match witness {
        Witness::Cut { members, .. } => (false, members.len() as u64),
        Witness::Cycle { steps } => (true, steps.len() as u64),
    }
}

// Whether there are bounds, and both ends.
fn bounds_if(bounds: Option<Bounds>) -> (bool, PlantbalWide, PlantbalWide)
    ensures { ShowsBounds bounds result.0 result.1 result.2 }
{
    match bounds {
        Some(bounds) => (true, wide_of(bounds.lo), wide_of(bounds.hi)),
        None => (false, wide_of(0), wide_of(0)),
    }
}

// A stream of a cut as C has it.
fn shown_member(member: &Member) -> PlantbalMember
    ensures { result ≡ member_shown member.now }
{
    PlantbalMember {
        stream: member.stream,
        sign: member.sign as i32,
    }
}

// A step of a cycle as C has it.
fn shown_step(step: &Step) -> PlantbalMember
    ensures { result ≡ step_shown step.now }
{
    PlantbalMember {
        stream: step.stream,
        sign: if step.forward { 1 } else { -1 },
    }
}

// The number of a class.
fn class_number(class: Class) -> u8
    ensures { result ≡ class_number class }
{
    match class {
        Class::Observable => 0,
        Class::Unobservable => 1,
        Class::Redundant => 2,
        Class::Nonredundant => 3,
    }
}

/// Writes the numbers of the classes of some streams, if there is room for all. Returns how many there are.
pub fn write_classes(classes: &[Classified], room: &mut [u8]) -> usize
    ensures count { result ≡ length classes.now }
    ensures numbers { result ≤ length room.old → take result room.new ≡ class_numbers classes.now }
    ensures full { length room.old < result → room.new ≡ room.old }
{
    if classes.len() <= room.len() {
        copy_classes(classes, room);
    }
    classes.len()
}

// Writes the numbers of classes to the front of an array.
fn copy_classes(classes: &[Classified], room: &mut [u8])
    requires { length classes.now ≤ length room.old }
    ensures { take (length classes.now) room.new ≡ class_numbers classes.now }
{
    for (j, classified) in classes.iter().enumerate() {
        room[j] = class_number(classified.class);
    }
}
