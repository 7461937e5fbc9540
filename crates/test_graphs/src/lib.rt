//! What the tests of graphs share: streams, and the graph of a list of them.
#![tactic(auto)]

ghost use Rattle.std.specs.Prelude.{◌≡◌, IfOk, IfSome};

use pb_graph::{Graph, Meas, Stream};
use pb_limits::MOST_NODES;
use std::alloc::{AllocError, Global};

/// A reading, if only the fact counts that there is one.
pub const METER: Option<Meas> = Some(Meas {
    value: 5_000,
    variance: 100,
});

/// A stream from one node to another, measured or not.
pub const fn stream(from: u32, to: u32, meas: Option<Meas>) -> Stream {
    Stream { from, to, meas }
}

/// An unmeasured stream.
pub const fn plain(from: u32, to: u32) -> Stream {
    stream(from, to, None)
}

/// A measured stream: its reading in grams, and the variance in squared grams.
pub const fn metered(from: u32, to: u32, value: i128, variance: i128) -> Stream {
    stream(from, to, Some(Meas { value, variance }))
}

/// What a test says if its streams don't fit the graph that it wants.
pub const UNFIT: &str = "the nodes and streams of a graph";

/// The graph with this number of nodes and with these streams, if they fit.
pub fn graph_of(alloc: Global, nodes: u32, streams: &[Stream]) -> Result<Option<Graph>, AllocError>
    ensures { IfOk result (λ found. IfSome found (λ g. g.nodes ≡ nodes)) }
{
    if nodes == 0 || nodes > MOST_NODES {
        return Ok(None);
    }
    let mut g = Graph::new(alloc, nodes);
    for s in streams {
        if !g.fits(s) {
            return Ok(None);
        }
        g.push(*s)?;
    }
    Ok(Some(g))
}
