// The boundary of a set of nodes: made, and compared with given members.

ghost use Rattle.std.specs.Prelude.{◌≡◌, ◌≤◌, ◌↔◌, Some, length, slice_get, All, IsTrue, IfOk};
ghost use Rattle.pb_limits.specs.Limits.{most_streams};
ghost use Rattle.pb_graph.specs.ProcessGraph.{IsStream};
ghost use Rattle.pb_graph.specs.Boundary.{sign_at, member_at, boundary_of};

use crate::list::List;
use crate::records::{Member, Stream};
use std::alloc::{AllocError, Global};

// The sign of a stream, by whether each of its ends is in a side.
fn sign(from_in: bool, to_in: bool) -> Option<i8>
    ensures { result ≡ sign_at from_in to_in }
{
    match (from_in, to_in) {
        (false, true) => Some(1),
        (true, false) => Some(-1),
        _ => None,
    }
}

// A stream as a member of the side's boundary.
fn member(side: &[bool], stream_id: u32, stream: &Stream) -> Option<Member>
    requires { IsStream (length side.now) stream.now }
    ensures { result ≡ member_at side.now stream_id stream.now }
{
    match sign(side[stream.from as usize], side[stream.to as usize]) {
        None => None,
        Some(sign) => Some(Member {
            stream: stream_id,
            sign,
        }),
    }
}

/// The boundary of a side, which has one item for each node: every stream with exactly one end in it, in order, with its sign.
#[tactic(auto, using(crate::proofs::BoundaryLemmas::no_member_more, crate::proofs::BoundaryLemmas::member_more))]
pub fn boundary(
    alloc: Global,
    streams: &[Stream],
    side: &[bool],
) -> Result<List<Member>, AllocError>
    requires few { length streams.now ≤ most_streams }
    requires ends { All (IsStream (length side.now)) streams.now }
    ensures value { IfOk result (λ members. members ≡ boundary_of side.now streams.now) }
{
    let mut members = List::new(alloc);
    for (j, stream) in streams.iter().enumerate() {
        if let Some(member) = member(side, j as u32, stream) {
            members.push(member)?;
        }
    }
    Ok(members)
}

// Whether the list has this member at this place.
fn has_at(members: &[Member], at: usize, wanted: &Member) -> bool
    ensures { IsTrue result ↔ (slice_get members.now at ≡ Some wanted.now) }
{
    match members.get(at) {
        None => false,
        Some(member) => *member == *wanted,
    }
}

/// Whether the members are the side's boundary, in order, with their signs.
pub fn is_boundary(streams: &[Stream], side: &[bool], members: &[Member]) -> bool
    requires few { length streams.now ≤ most_streams }
    requires ends { All (IsStream (length side.now)) streams.now }
    ensures { IsTrue result ↔ (members.now ≡ boundary_of side.now streams.now) }
{
    let mut at = 0;
    for (j, stream) in streams.iter().enumerate() {
        if let Some(wanted) = member(side, j as u32, stream) {
            if !has_at(members, at, &wanted) {
                return false;
            }
            at += 1;
        }
    }
    at == members.len()
}
