// The parts that the unmeasured streams make of the nodes.

ghost use Rattle.std.specs.Prelude.{◌≡◌, length, All, IfOk};
ghost use Rattle.pb_graph.specs.ProcessGraph.{IsStream};
ghost use Rattle.pb_graph.specs.Walk.{unmeasured};
ghost use Rattle.pb_graph.specs.Parts.{IsLabelling};
ghost use Rattle.pb_graph.specs.Numbers.{unmeasured_before};

use crate::parts::Parts;
use crate::records::Stream;
use std::alloc::{AllocError, Global};

// Joins the parts at the ends of all unmeasured streams.
fn join_all(parts: &mut Parts, streams: &[Stream])
    requires ends { All (IsStream (length parts.old)) streams.now }
    requires begins { IsLabelling streams.now (length parts.old) (unmeasured_before 0) parts.old }
    ensures { IsLabelling streams.now (length parts.old) unmeasured parts.new }
{
    for stream in streams {
        if stream.meas.is_none() {
            parts.join(stream);
        }
    }
}

/// The parts of the nodes that unmeasured streams join.
pub fn unmeasured_parts(alloc: Global, nodes: u32, streams: &[Stream]) -> Result<Parts, AllocError>
    requires { All (IsStream nodes) streams.now }
    ensures { IfOk result (IsLabelling streams.now nodes unmeasured) }
{
    let mut parts = Parts::new(alloc, nodes)?;
    join_all(&mut parts, streams);
    Ok(parts)
}
