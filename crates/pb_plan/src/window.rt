// Windows.

ghost use Rattle.std.specs.Prelude.{◌≡◌, ◌≢◌, ◌≤◌, length, All, Err, IfOk};
ghost use Rattle.pb_limits.specs.Limits.{most_periods_of_window};
ghost use Rattle.pb_plan.specs.declared.window.WindowFault.TheVariants.{NoMemory};
ghost use Rattle.pb_plan.specs.Plant.{IsPlant, IsSpan};
ghost use Rattle.pb_plan.specs.Codes.{AreWindowNames};
ghost use Rattle.pb_plan.specs.Places.{IsNamedBy};
ghost use Rattle.pb_plan.specs.Window.{IsWindow, is_too_great, window_of};

use crate::contents::push_contents;
use crate::flows::push_flows;
use crate::nodes::window_nodes;
use crate::plant::{Plant, Span};
use pb_graph::{List, MOST_NODES, MOST_STREAMS};
use std::alloc::{AllocError, Global};

/// A node of a window: the number of its period, counted from 1, its place in the graph of that period, and its number in the
/// plant. Node 0 of the window's graph is the environment, and its other nodes follow in order.
#[derive(Clone, Copy, Debug, PartialEq, Eq)]
pub struct WindowNode {
    pub period: u32,
    pub place: u32,
    pub node: u32,
}

/// What a stream of a window is.
#[derive(Clone, Copy, Debug, PartialEq, Eq)]
pub enum Source {
    /// The flow of an arc in a period.
    Flow,
    /// What a tank holds at the end of this day, as days since 1970-01-01.
    Content(i32),
}

/// A stream of a window. A flow has the number of its period, its place in the graph of that period, and the number of its arc in the
/// plant. A content has the number of the period that it follows, 0 before the first one, and the number of the tank's arc as its place.
#[derive(Clone, Copy, Debug, PartialEq, Eq)]
pub struct WindowStream {
    pub source: Source,
    pub period: u32,
    pub place: u32,
    pub arc: u32,
    pub from: u32,
    pub to: u32,
}

/// The nodes of a window except the environment, and its streams, both in order.
#[derive(Debug, Drop)]
pub struct Window {
    pub nodes: List<WindowNode>,
    pub streams: List<WindowStream>,
}

/// Why there is no window.
#[derive(Clone, Copy, Debug, PartialEq, Eq)]
pub enum WindowFault {
    /// It would have more nodes or more streams than a graph may have.
    TooGreat,
    NoMemory,
}

impl From<AllocError> for WindowFault {
    ghost from_gives = { λ _ fault. fault ≡ NoMemory };

    fn from(_: AllocError) -> WindowFault {
        WindowFault::NoMemory
    }
}

// Whether a window has more nodes or streams than a graph may have.
fn is_too_great(window: &Window) -> bool
    ensures { result ≡ is_too_great window.now }
{
    window.nodes.len() >= MOST_NODES as usize || window.streams.len() > MOST_STREAMS
}

/// The window of some periods in order of days: their nodes, their flows, and the contents of the tanks between them.
pub fn window_of(alloc: Global, plant: &Plant, spans: &[Span]) -> Result<Window, WindowFault>
    requires plant { IsPlant plant.now }
    requires spans { All IsSpan spans.now }
    requires few { length spans.now ≤ most_periods_of_window }
    ensures answer { result ≢ Err WindowFault.NoMemory → result ≡ window_of plant.now spans.now }
    ensures form { IfOk result IsWindow }
    ensures names { IfOk result AreWindowNames }
    ensures places { IfOk result (IsNamedBy plant.now spans.now) }
{
    let nodes = window_nodes(alloc, plant, spans)?;
    let mut streams = Vec::new(alloc);
    push_flows(plant.arcs.as_slice(), &nodes, spans, &mut streams)?;
    push_contents(plant.arcs.as_slice(), &nodes, spans, &mut streams)?;
    let window = Window {
        nodes: List::from_vec(nodes),
        streams: List::from_vec(streams),
    };
    if is_too_great(&window) {
        return Err(WindowFault::TooGreat);
    }
    Ok(window)
}
