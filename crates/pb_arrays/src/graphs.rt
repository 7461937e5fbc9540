// A process graph as an array of streams.
ghost use Rattle.std.specs.Prelude.{◌≡◌, ◌≤◌, ◌<◌, length, map, take, All, IfErr, IfOk};
ghost use Rattle.pb_limits.specs.Limits.{most_nodes, most_streams};
ghost use Rattle.pb_graph.specs.ProcessGraph.{IsWithinLimits};
ghost use Rattle.pb_arrays.specs.Given.{IsNoGraph, given_graph, given_measurement, given_stream};

use crate::numbers::{PlantbalWide, whole_of, wide_of};
use pb_graph::{Graph, Meas, Stream};
use pb_limits::{MOST_NODES, MOST_STREAMS};
use std::alloc::{AllocError, Global};

/// A stream of a process graph, from one node to another, measured or not.
#[repr(C)]
#[derive(Clone, Copy)]
pub struct PlantbalMeasuredStream {
    /// The place of the node from which it leads. Node 0 is the environment.
    pub from: u32,
    /// The place of the node to which it leads.
    pub to: u32,
    /// Whether it is measured.
    pub measured: bool,
    /// The measured grams, at most 10^15 either way. Meaningless if it isn't measured.
    pub value: i64,
    /// The variance of the measurement in squared grams, from 1 to 10^22. Meaningless if it isn't measured.
    pub variance: PlantbalWide,
}

/// Why an array of streams is no process graph.
#[derive(Clone, Copy, PartialEq, Eq)]
pub enum NoGraph {
    /// There is no node, or there are more than `MOST_NODES`.
    Nodes,
    /// There are more than `MOST_STREAMS` streams.
    Streams,
    /// The stream at this place leads to no node or to where it begins, or its measurement is outside the limits.
    Stream(usize),
    NoMemory,
}

impl From<AllocError> for NoGraph {
    ghost use Rattle.pb_arrays.specs.declared.graphs.NoGraph.TheVariants.{NoMemory};

    ghost from_gives = { λ _ why. why ≡ NoMemory };

    fn from(_: AllocError) -> NoGraph {
        NoGraph::NoMemory
    }
}

/// The process graph of an array of streams; or why there is none.
pub fn graph_of(
    alloc: Global,
    nodes: u32,
    streams: &[PlantbalMeasuredStream],
) -> Result<Graph, NoGraph>
    ensures graph { IfOk result (λ graph. graph ≡ given_graph nodes streams.now) }
    ensures some_node { IfOk result (λ _. 1 ≤ nodes) }
    ensures nodes { IfOk result (λ _. nodes ≤ most_nodes) }
    ensures streams { IfOk result (λ _. length streams.now ≤ most_streams) }
    ensures none { IfErr result (IsNoGraph nodes streams.now) }
{
    if nodes == 0 || nodes > MOST_NODES {
        return Err(NoGraph::Nodes);
    }
    if streams.len() > MOST_STREAMS {
        return Err(NoGraph::Streams);
    }
    let mut graph = Graph::new(alloc, nodes);
    for (j, given) in streams.iter().enumerate() {
        let stream = stream_of(given);
        if !graph.fits(&stream) {
            return Err(NoGraph::Stream(j));
        }
        graph.push(stream)?;
    }
    Ok(graph)
}

// The stream that is meant.
fn stream_of(given: &PlantbalMeasuredStream) -> Stream
    ensures { result ≡ given_stream given.now }
{
    Stream {
        from: given.from,
        to: given.to,
        meas: measurement_of(given),
    }
}

// Its measurement.
fn measurement_of(given: &PlantbalMeasuredStream) -> Option<Meas>
    ensures { result ≡ given_measurement given.now }
{
    if !given.measured {
        return None;
    }
    Some(Meas {
        value: given.value as i128,
        variance: whole_of(&given.variance),
    })
}

/// Writes the streams of a process graph, if there is room for all. Returns how many there are.
pub fn write_streams(graph: &Graph, room: &mut [PlantbalMeasuredStream]) -> usize
    ensures count { result ≡ length graph.now.streams }
    ensures streams { result ≤ length room.old
        → given_graph graph.now.nodes (take result room.new) ≡ graph.now }
    ensures full { length room.old < result → room.new ≡ room.old }
{
    let streams = graph.streams();
    if streams.len() <= room.len() {
        copy_streams(streams, room);
    }
    streams.len()
}

// Writes streams to the front of an array.
fn copy_streams(streams: &[Stream], room: &mut [PlantbalMeasuredStream])
    requires room { length streams.now ≤ length room.old }
    requires limits { All IsWithinLimits streams.now }
    ensures { map given_stream (take (length streams.now) room.new) ≡ streams.now }
{
    for (j, stream) in streams.iter().enumerate() {
        room[j] = shown_stream(stream);
    }
}

// A stream as C has it.
fn shown_stream(stream: &Stream) -> PlantbalMeasuredStream
    requires { IsWithinLimits stream.now }
    ensures { given_stream result ≡ stream.now }
{
    match stream.meas {
        Some(meas) => PlantbalMeasuredStream {
            from: stream.from,
            to: stream.to,
            measured: true,
            value: meas.value as i64,
            variance: wide_of(meas.variance),
        },
        None => PlantbalMeasuredStream {
            from: stream.from,
            to: stream.to,
            measured: false,
            value: 0,
            variance: wide_of(0),
        },
    }
}
