// The names of a window's graph, and what they stand for.

ghost use Rattle.std.specs.Prelude.{◌≡◌, ◌-◌, ◌<◌, ◌++◌, ◌∷◌, [], codes, length, map, slice_index_or, All, IfOk, OnOk};
ghost use Rattle.pb_plan.specs.Codes.{node_code, stream_code, window_names};
ghost use Rattle.pb_plan.specs.Places.{HasNodeNames, HasStreamNames, HaveNames, node_place, stream_place, window_places};

use crate::codes::{node_code, stream_code};
use crate::window::{Window, WindowNode, WindowStream};
use pb_graph::List;
use pb_rows::{Name, NameList, Names};
use std::alloc::{AllocError, Global};

/// What a name of a window stands for: a node or a stream of the plant, by its declared name, in a period. A content stands for a tank in
/// the period that it follows; the first one is in the first period.
#[derive(Clone, Copy, Debug)]
pub struct WindowPlace {
    pub code: Name,
    pub period: Name,
    pub name: Name,
}

// The environment's name.
fn env() -> Name
    ensures { result ≡ codes "env" }
{
    Name::read(b"env").unwrap()
}

// The names of the nodes of a window, the environment first.
fn node_names(alloc: Global, nodes: &[WindowNode]) -> Result<NameList, AllocError>
    ensures { IfOk result (λ names. names ≡ codes "env" ∷ map node_code nodes.now) }
{
    let mut names = NameList::new(alloc);
    names.push(env())?;
    for node in nodes {
        names.push(node_code(alloc, node)?)?;
    }
    Ok(names)
}

// The names of its streams.
fn stream_names(alloc: Global, streams: &[WindowStream]) -> Result<NameList, AllocError>
    ensures { IfOk result (λ names. names ≡ map stream_code streams.now) }
{
    let mut names = NameList::new(alloc);
    for stream in streams {
        names.push(stream_code(alloc, stream)?)?;
    }
    Ok(names)
}

/// The names of the nodes and streams of a window's graph.
pub fn window_names(alloc: Global, window: &Window) -> Result<Names, AllocError>
    ensures { IfOk result (λ names. names ≡ window_names window.now) }
{
    Ok(Names {
        nodes: node_names(alloc, window.nodes.as_slice())?,
        streams: stream_names(alloc, window.streams.as_slice())?,
    })
}

// The name of a period, by its number; the name of the first one for 0.
fn period_name(periods: &NameList, period: u32) -> Name
    requires { period - 1 < length periods.now }
    ensures { result ≡ slice_index_or periods.now (period - 1) [] }
{
    *periods.at((period as usize).saturating_sub(1))
}

// What a node of a window stands for.
fn node_place(
    alloc: Global,
    plant: &Names,
    periods: &NameList,
    node: &WindowNode,
) -> Result<WindowPlace, AllocError>
    requires { HasNodeNames plant.now periods.now node.now }
    ensures { IfOk result (λ place. place ≡ node_place plant.now periods.now node.now) }
{
    Ok(WindowPlace {
        code: node_code(alloc, node)?,
        period: period_name(periods, node.period),
        name: *plant.nodes.at(node.node as usize),
    })
}

// What a stream of a window stands for.
fn stream_place(
    alloc: Global,
    plant: &Names,
    periods: &NameList,
    stream: &WindowStream,
) -> Result<WindowPlace, AllocError>
    requires { HasStreamNames plant.now periods.now stream.now }
    ensures { IfOk result (λ place. place ≡ stream_place plant.now periods.now stream.now) }
{
    Ok(WindowPlace {
        code: stream_code(alloc, stream)?,
        period: period_name(periods, stream.period),
        name: *plant.streams.at(stream.arc as usize),
    })
}

// Appends what nodes stand for.
fn push_nodes(
    plant: &Names,
    periods: &NameList,
    nodes: &[WindowNode],
    places: &mut Vec<WindowPlace>,
) -> Result<(), AllocError>
    requires { All (HasNodeNames plant.now periods.now) nodes.now }
    ensures { OnOk result (places.new.items
        ≡ places.old.items ++ map (node_place plant.now periods.now) nodes.now) }
{
    let alloc = *places.allocator();
    for node in nodes {
        places.push(node_place(alloc, plant, periods, node)?)?;
    }
    Ok(())
}

// Appends what streams stand for.
fn push_streams(
    plant: &Names,
    periods: &NameList,
    streams: &[WindowStream],
    places: &mut Vec<WindowPlace>,
) -> Result<(), AllocError>
    requires { All (HasStreamNames plant.now periods.now) streams.now }
    ensures { OnOk result (places.new.items
        ≡ places.old.items ++ map (stream_place plant.now periods.now) streams.now) }
{
    let alloc = *places.allocator();
    for stream in streams {
        places.push(stream_place(alloc, plant, periods, stream)?)?;
    }
    Ok(())
}

/// What the names of a window stand for: those of its nodes except the environment, and then those of its streams. `plant` has the names of
/// the plant's nodes, the environment first, and of its arcs, and `periods` those of the window's periods.
pub fn window_places(
    alloc: Global,
    window: &Window,
    plant: &Names,
    periods: &NameList,
) -> Result<List<WindowPlace>, AllocError>
    requires { HaveNames plant.now periods.now window.now }
    ensures { IfOk result (λ places. places ≡ window_places plant.now periods.now window.now) }
{
    let mut places = Vec::new(alloc);
    push_nodes(plant, periods, window.nodes.as_slice(), &mut places)?;
    push_streams(plant, periods, window.streams.as_slice(), &mut places)?;
    Ok(List::from_vec(places))
}
