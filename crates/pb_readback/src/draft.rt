// What the rows of a block have said so far, and which kinds the next row may have.

ghost use Rattle.std.specs.Prelude.{◌≡◌};
ghost use Rattle.pb_readback.specs.Drafts.{kinds_after, kinds_next, stream_kinds};

use pb_blocks::{Heading, Known, Solution, StreamRow};
use pb_form::OutputKind;
use pb_graph::{Graph, List};
use pb_study::Tests;

/// What the rows of a block have said so far, and the kind of the last row. The solution is what the `solved` row says, once it has
/// come.
#[derive(Drop)]
pub struct Draft {
    pub last: OutputKind,
    pub heading: Heading,
    pub nodes: Known,
    pub prices: List<i128>,
    pub streams: Known,
    pub graph: Graph,
    pub rows: List<StreamRow>,
    pub solution: Solution,
    pub tests: Option<Tests>,
}

impl Draft {
    // The kinds of rows that may come next.
    pub(crate) fn kinds_next(&self) -> &'static [OutputKind]
        ensures { result.now ≡ kinds_next self.now }
    {
        if self.nodes.len() < self.heading.nodes {
            &[OutputKind::Node]
        } else if self.streams.len() < self.heading.streams {
            stream_kinds(self.last)
        } else {
            kinds_after(self.last)
        }
    }
}

// The kinds of a stream's row: all streams of a block have the kind of the first.
fn stream_kinds(last: OutputKind) -> &'static [OutputKind]
    ensures { result.now ≡ stream_kinds last }
{
    match last {
        OutputKind::Stream => &[OutputKind::Stream],
        OutputKind::StreamBefore => &[OutputKind::StreamBefore],
        _ => &[OutputKind::Stream, OutputKind::StreamBefore],
    }
}

// The kinds of rows that may come after the last stream and the rows after it.
fn kinds_after(last: OutputKind) -> &'static [OutputKind]
    ensures { result.now ≡ kinds_after last }
{
    match last {
        OutputKind::Solved => &[OutputKind::Global, OutputKind::End],
        OutputKind::Global | OutputKind::Nodal => {
            &[OutputKind::Nodal, OutputKind::Measure, OutputKind::End]
        }
        OutputKind::Measure => &[OutputKind::Measure, OutputKind::End],
        OutputKind::End => &[],
        _ => &[OutputKind::Solved],
    }
}
