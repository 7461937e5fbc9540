// The span of entry numbers below each node, with the least and the greatest number that count there.
//
// Tarjan's low and high points (1974, "A note on finding the bridges of a graph"), without recursion: each
// entry begins with a span of its own number; the ends of each unmeasured stream outside the forest (a
// leap) count for each other; then, from the last entry to the first, a span takes in the spans after it
// as long as their entries are deeper. When an entry's turn comes, those after it are complete. Each span
// is joined once, so the work is proportional to the number of nodes and streams.

ghost use Rattle.std.specs.Prelude.{◌≡◌, ℕ, ◌+◌, ◌<◌, length, get_or, IfOk};
ghost use Rattle.pb_graph.specs.ProcessGraph.{IsProcessGraph, some_stream};
ghost use Rattle.pb_forest.specs.Forest.{IsForestOf};
ghost use Rattle.pb_classify.specs.Points.{unheld_unmeasured};
ghost use Rattle.pb_classify.specs.Tables.{number_of, span_at};
ghost use Rattle.pb_classify.specs.Walk.{IsWalked};
ghost use Rattle.pb_classify.specs.Spans.{own_span, counted, both, noted, AreOwn, IsWholeSpan, AreWholeFrom};

use crate::walk::Walk;
use pb_forest::Forest;
use pb_graph::{Graph, Stream};
use std::alloc::{AllocError, Global};

/// Consecutive entry numbers: the last of them, and the least and the greatest number that count there.
#[derive(Clone, Copy, Debug)]
pub struct Span {
    pub last: u32,
    pub low: u32,
    pub high: u32,
}

// Whether a stream is unmeasured and isn't held.
fn is_leap(graph: &Graph, forest: &Forest, j: u32) -> bool
    requires forest { IsForestOf graph.now forest.now }
    requires stream { j < length graph.now.streams }
    ensures { result
        ≡ unheld_unmeasured forest.now.held j (get_or graph.now.streams j some_stream) }
{
    !forest.holds(j) && graph.stream(j).meas.is_none()
}

// A span, with one more number that counts for it.
fn counted(span: Span, number: u32) -> Span
    ensures { result ≡ counted span number }
{
    Span {
        last: span.last,
        low: span.low.min(number),
        high: span.high.max(number),
    }
}

// A span joined to the one after it.
fn both(span: Span, next: Span) -> Span
    ensures { result ≡ both span next }
{
    Span {
        last: next.last,
        low: span.low.min(next.low),
        high: span.high.max(next.high),
    }
}

// Lets one more number count for the span at a place.
fn note(spans: &mut [Span], i: u32, number: u32)
    requires { i < length spans.old }
    ensures { spans.new ≡ noted spans.old i number }
{
    spans[i as usize] = counted(spans[i as usize], number);
}

// Lets the ends of a stream count for each other.
fn note_ends(walk: &Walk, stream: &Stream, spans: &mut [Span])
    requires from { stream.now.from < length walk.now.numbers }
    requires to { stream.now.to < length walk.now.numbers }
    requires from_number { number_of walk.now stream.now.from < length spans.old }
    requires to_number { number_of walk.now stream.now.to < length spans.old }
    ensures { spans.new ≡ noted (noted spans.old
        (number_of walk.now stream.now.from) (number_of walk.now stream.now.to))
        (number_of walk.now stream.now.to) (number_of walk.now stream.now.from) }
{
    let from = walk.number(stream.from);
    let to = walk.number(stream.to);
    note(spans, from, to);
    note(spans, to, from);
}

// Lets the ends of each unmeasured stream that isn't held count for each other.
fn note_leaps(graph: &Graph, forest: &Forest, walk: &Walk, spans: &mut [Span])
    requires forest { IsForestOf graph.now forest.now }
    requires walked { IsWalked graph.now.nodes graph.now.streams forest.now.held walk.now }
    requires own { AreOwn graph.now.streams forest.now.held walk.now 0 spans.old }
    ensures { AreOwn graph.now.streams forest.now.held walk.now
        (length graph.now.streams) spans.new }
{
    for j in 0..graph.len() {
        if is_leap(graph, forest, j) {
            note_ends(walk, &graph.stream(j), spans);
        }
    }
}

// For each entry, the span of that single entry.
fn own_spans(alloc: Global, count: u32) -> Result<Vec<Span>, AllocError>
    ensures each { IfOk result (λ spans. length spans.items ≡ count) }
    ensures own { IfOk result (λ spans.
        (i : ℕ) → i < count → span_at spans.items i ≡ own_span i) }
{
    let mut spans = Vec::new(alloc);
    for i in 0..count {
        spans.push(Span {
            last: i,
            low: i,
            high: i,
        })?;
    }
    Ok(spans)
}

// The whole span of an entry, if the spans after it are whole: these are joined to its own span while they are deeper.
fn whole_span(graph: &Graph, forest: &Forest, walk: &Walk, spans: &[Span], i: usize) -> Span
    requires entry { i < length walk.now.list }
    requires behind { AreWholeFrom graph.now.streams forest.now.held walk.now (i + 1) spans.now }
    ensures { IsWholeSpan graph.now.streams forest.now.held walk.now i result }
{
    let depth = walk.entry(i).depth;
    let mut span = spans[i];
    while span.last as usize + 1 < walk.len() && walk.entry(span.last as usize + 1).depth > depth {
        span = both(span, spans[span.last as usize + 1]);
    }
    span
}

// Joins the spans, from the last entry to the first.
fn join_spans(graph: &Graph, forest: &Forest, walk: &Walk, spans: &mut [Span])
    requires own { AreOwn graph.now.streams forest.now.held walk.now
        (length graph.now.streams) spans.old }
    ensures { AreWholeFrom graph.now.streams forest.now.held walk.now 0 spans.new }
{
    for i in (0..walk.len()).rev() {
        spans[i] = whole_span(graph, forest, walk, spans, i);
    }
}

/// For each entry number, the span of the numbers below it.
pub fn spans_of(
    alloc: Global,
    graph: &Graph,
    forest: &Forest,
    walk: &Walk,
) -> Result<Vec<Span>, AllocError>
    requires forest { IsForestOf graph.now forest.now }
    requires walked { IsWalked graph.now.nodes graph.now.streams forest.now.held walk.now }
    ensures spans { IfOk result (λ spans.
        AreWholeFrom graph.now.streams forest.now.held walk.now 0 spans.items) }
    ensures limits { IfOk result (λ spans. IsProcessGraph graph.now) }
{
    let mut spans = own_spans(alloc, graph.nodes())?;
    note_leaps(graph, forest, walk, &mut spans);
    join_spans(graph, forest, walk, &mut spans);
    Ok(spans)
}
