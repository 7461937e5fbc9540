// The graph once the chosen streams have meters.

ghost use Rattle.std.specs.Prelude.{◌≡◌, length, IfOk};
ghost use Rattle.pb_advise.specs.Choice.{metered, metered_graph};

use pb_graph::{Graph, Meas, Stream};
use std::alloc::{AllocError, Global};

// What a new meter reads: it doesn't matter.
const SOME_MEASUREMENT: Meas = Meas {
    value: 0,
    variance: 1,
};

// A stream, with a meter if it is chosen.
fn metered_stream(stream: &Stream, chosen: bool) -> Stream
    ensures { result ≡ metered chosen stream.now }
{
    if chosen {
        Stream {
            meas: Some(SOME_MEASUREMENT),
            ..*stream
        }
    } else {
        *stream
    }
}

/// The graph once the chosen streams have meters.
pub fn metered_copy(alloc: Global, graph: &Graph, chosen: &[bool]) -> Result<Graph, AllocError>
    requires { length chosen.now ≡ length graph.now.streams }
    ensures { IfOk result (λ copy. copy ≡ metered_graph graph.now chosen.now) }
{
    let mut copy = Graph::new(alloc, graph.nodes());
    for (j, stream) in graph.streams().iter().enumerate() {
        copy.push(metered_stream(stream, chosen[j]))?;
    }
    Ok(copy)
}
