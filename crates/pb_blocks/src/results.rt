// A stream's result, once the streams in its certificate are looked up by their names.

ghost use Rattle.std.specs.Prelude.{◌≡◌, true, IfOk};
ghost use Rattle.pb_choices.specs.declared.places.Shape.TheVariants.{Cycle};
ghost use Rattle.pb_blocks.specs.Results.{result_of, witness_by};

use crate::known::Known;
use crate::lists::{members_of, steps_of};
use crate::rows::StreamRow;
use pb_choices::Shape;
use pb_graph::{Classified, Witness};
use pb_study::StreamResult;
use std::alloc::{AllocError, Global};

/// A stream's result by its row. A stream of the certificate that isn't one of these gets their number as its place.
pub fn result_of(
    alloc: Global,
    streams: &Known,
    row: &StreamRow,
) -> Result<StreamResult, AllocError>
    ensures { IfOk result (λ made. made ≡ result_of streams.now row.now) }
{
    Ok(with_witness(row, witness_of(alloc, streams, row)?))
}

/// The same, if the result of another row is known: a cycle that both rows write alike is copied.
pub fn result_beside(
    alloc: Global,
    streams: &Known,
    row: &StreamRow,
    other: &StreamRow,
    made: &StreamResult,
) -> Result<StreamResult, AllocError>
    requires { made.now ≡ result_of streams.now other.now }
    ensures { IfOk result (λ made. made ≡ result_of streams.now row.now) }
{
    let known = &made.classified.witness;
    Ok(with_witness(row, witness_beside(alloc, streams, row, other, known)?))
}

// What a row says of its stream, with this certificate.
fn with_witness(row: &StreamRow, witness: Witness) -> StreamResult
    ensures { result ≡ record {
      classified = record { class = row.now.class; witness = witness };
      flow = row.now.flow;
      bounds = row.now.bounds;
      least = row.now.least;
    } }
{
    StreamResult {
        classified: Classified {
            class: row.class,
            witness,
        },
        flow: row.flow,
        bounds: row.bounds,
        least: row.least,
    }
}

// The certificate of a row, if that of another row is known.
fn witness_beside(
    alloc: Global,
    streams: &Known,
    row: &StreamRow,
    other: &StreamRow,
    known: &Witness,
) -> Result<Witness, AllocError>
    requires { known.now ≡ witness_by other.now.shape streams.now other.now }
    ensures { IfOk result (λ witness. witness ≡ witness_by row.now.shape streams.now row.now) }
{
    if have_one_cycle(row, other) {
        known.copy(alloc)
    } else {
        witness_of(alloc, streams, row)
    }
}

// Whether two rows have a cycle that both write alike.
fn have_one_cycle(row: &StreamRow, other: &StreamRow) -> bool
    ensures here { result ≡ true → row.now.shape ≡ Cycle }
    ensures there { result ≡ true → other.now.shape ≡ Cycle }
    ensures alike { result ≡ true → row.now.parts ≡ other.now.parts }
{
    match (row.shape, other.shape) {
        (Shape::Cycle, Shape::Cycle) => row.parts == other.parts,
        _ => false,
    }
}

// A certificate: the members of a cut with its side, or the steps of a cycle.
fn witness_of(alloc: Global, streams: &Known, row: &StreamRow) -> Result<Witness, AllocError>
    ensures { IfOk result (λ witness. witness ≡ witness_by row.now.shape streams.now row.now) }
{
    let parts = row.parts.as_slice();
    match row.shape {
        Shape::Cut => Ok(Witness::Cut {
            side: row.side.copy(alloc)?,
            members: members_of(alloc, streams, parts)?,
        }),
        Shape::Cycle => Ok(Witness::Cycle {
            steps: steps_of(alloc, streams, parts)?,
        }),
    }
}
