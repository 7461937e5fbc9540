// The streams that aren't held, each with the branches that its ends hang by.

ghost use Rattle.std.specs.Prelude.{◌≡◌, ◌<◌, length, get_or, IfOk};
ghost use Rattle.pb_graph.specs.ProcessGraph.{IsStream, some_stream};
ghost use Rattle.pb_forest.specs.Trees.{AreWhole, up_of};
ghost use Rattle.pb_forest.specs.Balancing.{chord_at, chords_of};

use crate::trees::Trees;
use pb_graph::{Graph, Stream};
use std::alloc::{AllocError, Global};

/// A stream that isn't held, a chord of the forest, with the held streams from its ends to their parents, or None at a root.
#[derive(Clone, Copy, Debug)]
pub struct Chord {
    pub stream: u32,
    pub from: Option<u32>,
    pub to: Option<u32>,
}

// A stream as a chord.
fn as_chord(trees: &Trees, k: u32, stream: &Stream) -> Chord
    requires { IsStream (length trees.now.up) stream.now }
    ensures { result
        ≡ record {
          stream = k;
          from = up_of trees.now stream.now.from;
          to = up_of trees.now stream.now.to;
        } }
{
    Chord {
        stream: k,
        from: trees.up(stream.from),
        to: trees.up(stream.to),
    }
}

/// The streams that aren't held.
pub fn chords_of(
    alloc: Global,
    graph: &Graph,
    held: &[bool],
    trees: &Trees,
) -> Result<Vec<Chord>, AllocError>
    requires marks { length held.now ≡ length graph.now.streams }
    requires trees { AreWhole graph.now.nodes graph.now.streams held.now trees.now }
    ensures { IfOk result (λ v. v.items
        ≡ chords_of graph.now.streams held.now trees.now (length graph.now.streams)) }
{
    let mut chords = Vec::new(alloc);
    for (k, stream) in graph.streams().iter().enumerate() {
        if !held[k] {
            chords.push(as_chord(trees, k as u32, stream))?;
        }
    }
    Ok(chords)
}
