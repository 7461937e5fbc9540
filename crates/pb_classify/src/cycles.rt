// The cycles of the streams outside the forest.
//
// A stream outside the forest and the path in the forest between its ends are a cycle: a fundamental cycle
// (Deo, Graph Theory with Applications to Engineering and Computer Science, chapter 3). It shows that the
// stream's flow is free if all of it is unmeasured. A held stream that is unobservable takes the first such
// cycle that has it, so that each stream has one certificate, the same in every run. The streams are gone
// through in order, and a cycle is given to those on it that have none yet; the work is the number of
// steps of all these cycles.

ghost use Rattle.std.specs.Prelude.{◌≡◌, ℕ, ◌+◌, ◌<◌, ◌∷◌, true, false, None, All, length, get_or, IfOk, OnOk};
ghost use Rattle.pb_graph.specs.ProcessGraph.{IsProcessGraph};
ghost use Rattle.pb_forest.specs.Forest.{IsForestOf};
ghost use Rattle.pb_classify.specs.Certificate.{IsCycleOf};
ghost use Rattle.pb_classify.specs.Chords.{IsJoined, AreFirstBefore, after_cycle};

use pb_forest::Forest;
use pb_graph::{Graph, List, Step, forward_then};
use std::alloc::{AllocError, Global};

/// The cycle of stream j, which is outside the forest.
pub fn cycle_of(
    alloc: Global,
    graph: &Graph,
    forest: &Forest,
    j: u32,
) -> Result<List<Step>, AllocError>
    requires limits { IsProcessGraph graph.now }
    requires forest { IsForestOf graph.now forest.now }
    requires stream { j < length graph.now.streams }
    requires outside { get_or forest.now.held j false ≡ false }
    requires joined { IsJoined graph.now forest.now.held j }
    ensures { IfOk result (λ steps. IsCycleOf graph.now forest.now.held j steps) }
{
    let stream = graph.stream(j);
    // held streams join its ends
    let back = forest.path(alloc, stream.to, stream.from)?.unwrap();
    forward_then(alloc, j, back.as_slice())
}

// Gives a cycle to each stream on it that has none yet.
fn give(alloc: Global, steps: &[Step], cycles: &mut [Option<List<Step>>]) -> Result<(), AllocError>
    requires { All (λ t. t.stream < length cycles.old) steps.now }
    ensures { OnOk result ((j : ℕ) → j < length cycles.old
        → get_or cycles.new j None ≡ after_cycle steps.now j (get_or cycles.old j None)) }
{
    for step in steps {
        if cycles[step.stream as usize].is_none() {
            cycles[step.stream as usize] = Some(List::from_vec(Vec::from_slice(alloc, steps)?));
        }
    }
    Ok(())
}

// This many streams without a cycle.
fn no_cycles(alloc: Global, count: u32) -> Result<Vec<Option<List<Step>>>, AllocError>
    ensures each { IfOk result (λ cycles. length cycles.items ≡ count) }
    ensures none { IfOk result (λ cycles. (j : ℕ) → get_or cycles.items j None ≡ None) }
{
    let mut cycles = Vec::new(alloc);
    for _stream in 0..count {
        cycles.push(None)?;
    }
    Ok(cycles)
}

// Goes on by one stream: gives its cycle to the streams on it, if it is unmeasured and outside the forest.
fn give_next(
    alloc: Global,
    graph: &Graph,
    forest: &Forest,
    e: u32,
    cycles: &mut [Option<List<Step>>],
) -> Result<(), AllocError>
    requires limits { IsProcessGraph graph.now }
    requires forest { IsForestOf graph.now forest.now }
    requires stream { e < length graph.now.streams }
    requires known { AreFirstBefore graph.now forest.now.held e cycles.old }
    ensures { OnOk result (AreFirstBefore graph.now forest.now.held (e + 1) cycles.new) }
{
    if graph.stream(e).meas.is_some() || forest.holds(e) {
        return Ok(());
    }
    let steps = cycle_of(alloc, graph, forest, e)?;
    give(alloc, steps.as_slice(), cycles)
}

// Goes through the streams in order.
fn give_all(
    alloc: Global,
    graph: &Graph,
    forest: &Forest,
    cycles: &mut [Option<List<Step>>],
) -> Result<(), AllocError>
    requires forest { IsForestOf graph.now forest.now }
    requires begins { AreFirstBefore graph.now forest.now.held 0 cycles.old }
    ensures { OnOk result
        (AreFirstBefore graph.now forest.now.held (length graph.now.streams) cycles.new) }
{
    for e in 0..graph.len() {
        give_next(alloc, graph, forest, e, cycles)?;
    }
    Ok(())
}

/// For each stream, the cycle of the first unmeasured stream outside the forest whose cycle has it, if there is one.
pub fn first_cycles(
    alloc: Global,
    graph: &Graph,
    forest: &Forest,
) -> Result<Vec<Option<List<Step>>>, AllocError>
    requires { IsForestOf graph.now forest.now }
    ensures { IfOk result (λ cycles.
        AreFirstBefore graph.now forest.now.held (length graph.now.streams) cycles.items) }
{
    let mut cycles = no_cycles(alloc, graph.len())?;
    give_all(alloc, graph, forest, &mut cycles)?;
    Ok(cycles)
}
