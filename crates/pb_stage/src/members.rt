// The measured streams whose signed sum is the flow of a stream, from its class and its certificate.

ghost use Rattle.std.specs.Prelude.{◌≡◌, ◌≤◌, [], ◌∷◌, pos, ◌*ℤ◌, neg_ℤ, unsigned_abs, All, IfOk};
ghost use Rattle.pb_gap.specs.StreamBounds.{sign_in, others_times, sum_for};
ghost use Rattle.pb_graph.specs.WellFormed.{IsSign};
ghost use Rattle.pb_stage.specs.Signs.{HasSign, AreWitnessSigns};

use pb_graph::{Class, Classified, List, Member, Witness};
use std::alloc::{AllocError, Global};

// The sign of a stream in a list of members, or 0 if it isn't among them.
fn sign_in(stream: u32, members: &[Member]) -> i8
    requires { All HasSign members.now }
    ensures value { result ≡ sign_in stream members.now }
    ensures within { unsigned_abs result ≤ 1 }
{
    for m in members {
        if m.stream == stream {
            return m.sign;
        }
    }
    0
}

// The members other than a stream, each with its sign times z.
fn others_times(
    alloc: Global,
    stream: u32,
    z: i8,
    members: &[Member],
) -> Result<List<Member>, AllocError>
    requires signs { All HasSign members.now }
    requires within { unsigned_abs z ≤ 1 }
    ensures { IfOk result (λ others. others ≡ others_times stream z members.now) }
{
    let mut others = List::new(alloc);
    for m in members {
        if m.stream != stream {
            others.push(Member {
                stream: m.stream,
                sign: m.sign * z,
            })?;
        }
    }
    Ok(others)
}

// A single stream, with the sign 1.
fn itself(alloc: Global, stream: u32) -> Result<List<Member>, AllocError>
    ensures { IfOk result (λ members. members ≡ record { stream = stream; sign = pos 1 } ∷ []) }
{
    let mut members = List::new(alloc);
    members.push(Member { stream, sign: 1 })?;
    Ok(members)
}

// The other members of the cut of a stream, whose signed sum is its flow.
fn others(alloc: Global, stream: u32, members: &[Member]) -> Result<List<Member>, AllocError>
    requires { All HasSign members.now }
    ensures { IfOk result (λ others. others
        ≡ others_times stream (neg_ℤ (sign_in stream members.now)) members.now) }
{
    others_times(alloc, stream, -sign_in(stream, members), members)
}

/// The measured streams whose signed sum is the flow of a stream: a measured stream itself, and for an observable one the other
/// members of its cut, each with its sign times -1 times the sign of the stream. An unobservable stream has none.
pub fn sum_for(
    alloc: Global,
    stream: u32,
    classified: &Classified,
) -> Result<Option<List<Member>>, AllocError>
    requires { AreWitnessSigns classified.now.witness }
    ensures { IfOk result (λ sum. sum
        ≡ sum_for stream classified.now.class classified.now.witness) }
{
    match classified.class {
        Class::Redundant | Class::Nonredundant => Ok(Some(itself(alloc, stream)?)),
        Class::Unobservable => Ok(None),
        Class::Observable => match &classified.witness {
            Witness::Cycle { .. } => Ok(None),
            Witness::Cut { members, .. } => Ok(Some(others(alloc, stream, members.as_slice())?)),
        },
    }
}
