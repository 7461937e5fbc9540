// The graph of a window.

ghost use Rattle.std.specs.Prelude.{◌≡◌, length, IfErr, IfOk};
ghost use Rattle.pb_plan.specs.declared.graph.WindowAssembly.TheVariants.{NoMemory};
ghost use Rattle.pb_plan.specs.Window.{IsWindow};
ghost use Rattle.pb_plan.specs.Graph.{IsFirstOutside, graph_stream, window_graph};

use crate::window::{Window, WindowStream};
use pb_graph::{Graph, Meas, Stream};
use std::alloc::{AllocError, Global};

/// Why there is no graph of a window.
#[derive(Clone, Copy, Debug, PartialEq, Eq)]
pub enum WindowAssembly {
    /// This stream is the first one whose measurement is outside the limits of a graph.
    Over(u32),
    NoMemory,
}

impl From<AllocError> for WindowAssembly {
    ghost from_gives = { λ _ assembly. assembly ≡ NoMemory };

    fn from(_: AllocError) -> WindowAssembly {
        WindowAssembly::NoMemory
    }
}

// A stream of a window, with what was measured of it.
fn graph_stream(stream: &WindowStream, meas: Option<Meas>) -> Stream
    ensures { result ≡ graph_stream stream.now meas }
{
    Stream {
        from: stream.from,
        to: stream.to,
        meas,
    }
}

/// The graph of a window, with what was measured of each of its streams: for a flow, what its period measured of its arc; for a content,
/// the dip of its day. Or the first stream whose measurement is outside the limits.
pub fn window_graph(
    alloc: Global,
    window: &Window,
    measured: &[Option<Meas>],
) -> Result<Graph, WindowAssembly>
    requires window { IsWindow window.now }
    requires each { length measured.now ≡ length window.now.streams }
    ensures ok { IfOk result (λ graph. graph ≡ window_graph window.now measured.now) }
    ensures over { IfErr result (IsFirstOutside (window_graph window.now measured.now)) }
{
    let mut graph = Graph::new(alloc, 1 + window.nodes.len() as u32);
    for (j, &meas) in measured.iter().enumerate() {
        let stream = graph_stream(window.streams.at(j), meas);
        if !graph.fits(&stream) {
            return Err(WindowAssembly::Over(j as u32));
        }
        graph.push(stream)?;
    }
    Ok(graph)
}
