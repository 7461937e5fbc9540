// Which streams are held.

ghost use Rattle.std.specs.Prelude.{◌≡◌, ℕ, Bool, false, not, All, IfOk, Some, length, slice_get, get_or};
ghost use Rattle.pb_graph.specs.declared.records.Stream.{Stream};
ghost use Rattle.pb_graph.specs.ProcessGraph.{IsStream, is_measured};
ghost use Rattle.pb_graph.specs.Parts.{IsLabelling};
ghost use Rattle.pb_forest.specs.Forest.{is_before, IsDecided, IsForest};

use pb_graph::{Parts, Stream};
use std::alloc::{AllocError, Global};

// Takes the streams of one kind, measured or not, in order, and marks those whose ends were apart.
fn pass(streams: &[Stream], measured: bool, parts: &mut Parts, held: &mut [bool])
    requires each { length held.old ≡ length streams.now }
    requires ends { All (IsStream (length parts.old)) streams.now }
    requires begins { IsLabelling streams.now (length parts.old) (is_before measured 0) parts.old }
    ensures parts { IsLabelling streams.now (length parts.old)
        (is_before measured (length streams.now)) parts.new }
    ensures marks { (j : ℕ) (s : Stream) → slice_get streams.now j ≡ Some s
        → is_measured s ≡ measured → IsDecided streams.now j (get_or held.new j false) }
    ensures others { (j : ℕ) (s : Stream) → slice_get streams.now j ≡ Some s
        → is_measured s ≡ not measured → get_or held.new j false ≡ get_or held.old j false }
{
    for (j, stream) in streams.iter().enumerate() {
        if stream.meas.is_some() == measured {
            held[j] = parts.join(stream);
        }
    }
}

// Marks the streams that are held: the unmeasured ones are taken first, and then the measured ones.
fn mark(streams: &[Stream], parts: &mut Parts, held: &mut [bool])
    requires each { length held.old ≡ length streams.now }
    requires ends { All (IsStream (length parts.old)) streams.now }
    requires begins { IsLabelling streams.now (length parts.old) (is_before false 0) parts.old }
    ensures { IsForest streams.now held.new }
{
    pass(streams, false, parts, held);
    pass(streams, true, parts, held);
}

/// One mark for each stream: whether it is held in the spanning forest.
pub fn held_streams(alloc: Global, nodes: u32, streams: &[Stream]) -> Result<Vec<bool>, AllocError>
    requires ends { All (IsStream nodes) streams.now }
    ensures { IfOk result (λ held. IsForest streams.now held.items) }
{
    let mut parts = Parts::new(alloc, nodes)?;
    let mut held = vec![in alloc; false; streams.len()]?;
    mark(streams, &mut parts, &mut held);
    Ok(held)
}
