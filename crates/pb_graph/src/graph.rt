// The process graph.

ghost use Rattle.std.specs.Prelude.{◌≡◌, ◌<◌, ◌≤◌, ◌^◌, ◌↔◌, ◌++◌, ◌∷◌, [], Some, length, slice_get, unsigned_abs, All, IsTrue, IfOk, OnOk, OnErr};
ghost use Rattle.pb_limits.specs.Limits.{most_nodes};
ghost use Rattle.pb_graph.specs.ProcessGraph.{ProcessGraph, IsProcessGraph, IsStream, IsMeasurement, IsWithinLimits, Fits, unmeasured_at};
ghost use Rattle.pb_graph.specs.Boundary.{IsCut};
ghost use Rattle.pb_graph.specs.Cycle.{IsCycle};
ghost use Rattle.pb_graph.specs.Balance.{net_of, IsBalanced};
ghost use Rattle.pb_graph.specs.Alike.{AreAlike, shape_of, shapes_of};

use crate::records::{Meas, Member, Step, Stream};
use crate::{balance, cut, cycle};
use pb_limits::{MOST_STREAMS, MOST_VALUE, MOST_VARIANCE};
use std::alloc::{AllocError, Global};
use std::marker::Model;

/// The process graph of a plant: 1 to `MOST_NODES` nodes, of which node 0 is the environment, and at most `MOST_STREAMS` streams.
///
/// The two ends of a stream differ. A measured value is at most `MOST_VALUE` grams either way, and its variance is from 1 to
/// `MOST_VARIANCE` squared grams.
#[derive(Debug, Drop)]
pub struct Graph {
    nodes: u32,
    streams: Vec<Stream>,
}

impl Model for Graph {
    ghost use Rattle.pb_graph.specs.ProcessGraph.{ProcessGraph, IsProcessGraph};

    ghost Value = { ProcessGraph };

    ghost view = { λ a. record { nodes = a.nodes; streams = a.streams.items } };

    ghost invariant = { λ a.
        IsProcessGraph (record { nodes = a.nodes; streams = a.streams.items }) };
}

impl Graph {
    /// A graph with this many nodes and no streams.
    pub fn new(alloc: Global, nodes: u32) -> Graph
        requires env { 1 ≤ nodes }
        requires most { nodes ≤ most_nodes }
        ensures { result ≡ record { nodes = nodes; streams = [] } }
    {
        Graph {
            nodes,
            streams: Vec::new(alloc),
        }
    }

    /// Whether the graph with this stream appended is within the limits.
    pub fn fits(&self, stream: &Stream) -> bool
        ensures { IsTrue result ↔ Fits self.now stream.now }
    {
        self.streams.len() < MOST_STREAMS && joins(self.nodes, stream) && is_within_limits(stream)
    }

    /// Appends a stream. If memory runs out, the graph is unchanged.
    pub fn push(&mut self, stream: Stream) -> Result<(), AllocError>
        requires { Fits self.old stream }
        ensures ok { OnOk result
            (self.new ≡ record self.old { streams = self.old.streams ++ stream ∷ [] }) }
        ensures err { OnErr result (self.new ≡ self.old) }
    {
        self.streams.push(stream)?;
        Ok(())
    }

    /// The number of nodes, including the environment.
    pub fn nodes(&self) -> u32
        ensures value { result ≡ self.now.nodes }
        ensures limits { IsProcessGraph self.now }
    {
        self.nodes
    }

    /// The number of streams.
    pub fn len(&self) -> u32
        ensures value { result ≡ length self.now.streams }
        ensures limits { IsProcessGraph self.now }
    {
        self.streams.len() as u32
    }

    /// The stream at a place.
    pub fn stream(&self, stream_id: u32) -> Stream
        requires { stream_id < length self.now.streams }
        ensures { slice_get self.now.streams stream_id ≡ Some result }
    {
        self.streams[stream_id as usize]
    }

    /// The streams in order.
    pub fn streams(&self) -> &[Stream]
        ensures value { result.now ≡ self.now.streams }
        ensures limits { IsProcessGraph self.now }
    {
        self.streams.as_slice()
    }

    /// The net flow at a node in grams: what enters less what leaves.
    pub fn net(&self, flows: &[i128], node: u32) -> i128
        requires each { length flows.now ≡ length self.now.streams }
        requires within { All (λ flow. unsigned_abs flow < 2 ^ 100) flows.now }
        requires node { node < self.now.nodes }
        ensures { result ≡ net_of node self.now.streams flows.now }
    {
        balance::net(&self.streams, flows, node)
    }

    /// Whether the flows balance at every node, including the environment.
    pub fn is_balanced(&self, flows: &[i128]) -> bool
        requires each { length flows.now ≡ length self.now.streams }
        requires within { All (λ flow. unsigned_abs flow < 2 ^ 100) flows.now }
        ensures { IsTrue result ↔ IsBalanced self.now flows.now }
    {
        balance::is_balanced(self.nodes, &self.streams, flows)
    }

    /// The same graph, with the measurement of one stream removed.
    pub fn unmeasure(&self, alloc: Global, stream_id: u32) -> Result<Graph, AllocError>
        requires { stream_id < length self.now.streams }
        ensures { IfOk result
            (λ g. g ≡ record self.now { streams = unmeasured_at stream_id self.now.streams }) }
    {
        Ok(Graph {
            nodes: self.nodes,
            streams: unmeasured(alloc, &self.streams, stream_id)?,
        })
    }

    /// A copy of the graph.
    pub fn copy(&self, alloc: Global) -> Result<Graph, AllocError>
        ensures { IfOk result (λ g. g ≡ self.now) }
    {
        Ok(Graph {
            nodes: self.nodes,
            streams: Vec::from_slice(alloc, &self.streams)?,
        })
    }

    /// Whether two graphs are alike: they have the same number of nodes and of streams, and the streams at each place have the same ends
    /// and are both measured or both unmeasured. The classes of the streams of one graph are then those of the other.
    pub fn alike(&self, other: &Graph) -> bool
        ensures { IsTrue result ↔ AreAlike self.now other.now }
    {
        self.nodes == other.nodes && are_of_same_shapes(&self.streams, &other.streams)
    }

    /// Whether the side has one item for each node and the members are its boundary, in order, with their signs.
    pub fn is_cut(&self, side: &[bool], members: &[Member]) -> bool
        ensures { IsTrue result ↔ IsCut self.now side.now members.now }
    {
        side.len() == self.nodes as usize && cut::is_boundary(&self.streams, side, members)
    }

    /// Whether the steps are a cycle: a closed walk of at least one step on which no stream and no node appears twice.
    pub fn is_cycle(&self, steps: &[Step]) -> bool
        ensures { IsTrue result ↔ IsCycle self.now steps.now }
    {
        cycle::is_cycle(self.nodes, &self.streams, steps)
    }
}

// The streams, with the measurement of one of them removed.
fn unmeasured(alloc: Global, streams: &[Stream], stream_id: u32) -> Result<Vec<Stream>, AllocError>
    requires { stream_id < length streams.now }
    ensures { IfOk result (λ v. v.items ≡ unmeasured_at stream_id streams.now) }
{
    let mut copy = Vec::from_slice(alloc, streams)?;
    copy[stream_id as usize] = Stream {
        meas: None,
        ..streams[stream_id as usize]
    };
    Ok(copy)
}

// Whether two streams have the same ends, and both are measured or neither is.
fn are_of_one_shape(one: &Stream, other: &Stream) -> bool
    ensures { IsTrue result ↔ (shape_of one.now ≡ shape_of other.now) }
{
    one.from == other.from && one.to == other.to && one.meas.is_some() == other.meas.is_some()
}

// Whether two lists have the same number of streams, with the same shapes in order.
fn are_of_same_shapes(ones: &[Stream], others: &[Stream]) -> bool
    ensures { IsTrue result ↔ (shapes_of ones.now ≡ shapes_of others.now) }
{
    if ones.len() != others.len() {
        return false;
    }
    for (j, one) in ones.iter().enumerate() {
        if !are_of_one_shape(one, &others[j]) {
            return false;
        }
    }
    true
}

// Whether a stream joins two nodes.
fn joins(nodes: u32, stream: &Stream) -> bool
    ensures { IsTrue result ↔ IsStream nodes stream.now }
{
    stream.from < nodes && stream.to < nodes && stream.from != stream.to
}

// Whether the measurement of a stream, if it has one, is within the limits.
fn is_within_limits(stream: &Stream) -> bool
    ensures { IsTrue result ↔ IsWithinLimits stream.now }
{
    match stream.meas {
        None => true,
        Some(meas) => is_measurement(&meas),
    }
}

// Whether a measurement is within the limits.
fn is_measurement(meas: &Meas) -> bool
    ensures { IsTrue result ↔ IsMeasurement meas.now }
{
    meas.value.unsigned_abs() <= MOST_VALUE && meas.variance >= 1 && meas.variance <= MOST_VARIANCE
}
