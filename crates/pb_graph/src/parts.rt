// The parts of a graph, as streams join more of its nodes.

ghost use Rattle.std.specs.Prelude.{◌≡◌, ℕ, ◌<◌, Bool, List as Seq, length, map, max, min, not, ◌==◌, vec_len, IfOk};
ghost use Rattle.pb_graph.specs.declared.records.Stream.{Stream};
ghost use Rattle.pb_graph.specs.ProcessGraph.{IsStream};
ghost use Rattle.pb_graph.specs.Parts.{label_at, IsLabelling, IsOneMore, TakesNone};
ghost use Rattle.pb_graph.specs.Labels.{lowered, joined};

use crate::records::Stream;
use std::alloc::{AllocError, Global};
use std::marker::Model;

/// The parts that joined streams make of nodes, each named by its least node (a disjoint-set structure: Cormen, Leiserson,
/// Rivest and Stein, Introduction to Algorithms, chapter 21).
#[derive(Debug, Drop)]
pub struct Parts {
    labels: Vec<u32>,
}

impl Model for Parts {
    ghost use Rattle.std.specs.Prelude.{List, ℕ};

    ghost Value = { List ℕ };

    ghost view = { λ a. a.labels.items };
}

impl Parts {
    /// Each node in a separate part.
    pub fn new(alloc: Global, nodes: u32) -> Result<Parts, AllocError>
        ensures apart { IfOk result (λ parts. (streams : Seq Stream) (may : ℕ → Stream → Bool)
            → TakesNone streams may → IsLabelling streams nodes may parts) }
    {
        Ok(Parts {
            labels: own_labels(alloc, nodes)?,
        })
    }

    /// Joins the parts at the ends of a stream, and returns whether they were two different parts.
    pub fn join(&mut self, stream: &Stream) -> bool
        requires { IsStream (length self.old) stream.now }
        ensures apart { result
            ≡ not (label_at self.old stream.now.from == label_at self.old stream.now.to) }
        ensures each { length self.new ≡ length self.old }
        ensures joined { (streams : Seq Stream) (may more : ℕ → Stream → Bool) (stream_id : ℕ)
            → IsOneMore streams may more stream_id stream.now
            → IsLabelling streams (length self.old) may self.old
            → IsLabelling streams (length self.old) more self.new }
    {
        join(self.labels.as_mut_slice(), stream.from, stream.to)
    }

    /// The label of a node: the least node of its part.
    pub fn label(&self, node: u32) -> u32
        requires { node < length self.now }
        ensures { result ≡ label_at self.now node }
    {
        self.labels[node as usize]
    }

    /// The label of each node.
    pub fn labels(&self) -> &[u32]
        ensures { result.now ≡ self.now }
    {
        self.labels.as_slice()
    }
}

// For each node, the node itself.
fn own_labels(alloc: Global, nodes: u32) -> Result<Vec<u32>, AllocError>
    ensures each { IfOk result (λ labels. vec_len labels ≡ nodes) }
    ensures own { IfOk result (λ labels. (n : ℕ) → n < nodes → label_at labels.items n ≡ n) }
{
    let mut labels = Vec::new(alloc);
    for node in 0..nodes {
        labels.push(node)?;
    }
    Ok(labels)
}

// A label, with `high` replaced by `low`.
fn lower(label: u32, high: u32, low: u32) -> u32
    ensures { result ≡ lowered high low label }
{
    if label == high { low } else { label }
}

// Replaces each label `high` by `low`.
fn lower_all(labels: &mut [u32], high: u32, low: u32)
    ensures { labels.new ≡ map (lowered high low) labels.old }
{
    for label in labels.iter_mut() {
        *label = lower(*label, high, low);
    }
}

// Gives the parts of two nodes the lower of their labels, and returns whether the labels were different.
fn join(labels: &mut [u32], a: u32, b: u32) -> bool
    requires a { a < length labels.old }
    requires b { b < length labels.old }
    ensures apart { result ≡ not (label_at labels.old a == label_at labels.old b) }
    ensures labels { labels.new ≡ joined labels.old a b }
{
    let label_a = labels[a as usize];
    let label_b = labels[b as usize];
    if label_a == label_b {
        return false;
    }
    lower_all(labels, label_a.max(label_b), label_a.min(label_b));
    true
}
