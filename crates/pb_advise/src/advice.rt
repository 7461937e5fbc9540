// What is advised.

ghost use Rattle.std.specs.Prelude.{◌≡◌, ◌<◌, ◌∷◌, true, length, IfOk};
ghost use Rattle.pb_graph.specs.ProcessGraph.{IsProcessGraph};
ghost use Rattle.pb_forest.specs.Forest.{IsForestOf};
ghost use Rattle.pb_advise.specs.Choice.{AreCosts, metered_graph};
ghost use Rattle.pb_advise.specs.Advice.{IsAdvice, IsAdviceWithin, IsAdvisedChoice, IsCheapest};
ghost use Rattle.pb_advise.specs.Order.{AreJoined, AreMetersBefore, IsCycleIfChosen};

use crate::choice::advised_choice;
use crate::metered::metered_copy;
use pb_forest::Forest;
use pb_graph::{Graph, List, Step, forward_then};
use std::alloc::{AllocError, Global};

/// A stream to meter, what its meter costs, and a cycle that shows why: one of the streams on it needs a meter, and no other
/// costs less.
#[derive(Debug, Drop)]
pub struct Meter {
    pub stream: u32,
    pub cost: i64,
    pub steps: List<Step>,
}

/// The streams to meter, in order, and what their meters cost together.
#[derive(Debug, Drop)]
pub struct Advice {
    pub meter: List<Meter>,
    pub total: i128,
}

// The cycle that a chosen stream makes with streams that stay unmeasured; None if the stream isn't chosen. The forest is that of the graph
// with meters on the chosen streams, whose unmeasured streams are those that stay unmeasured.
fn cycle_of(
    alloc: Global,
    graph: &Graph,
    chosen: &[bool],
    forest: &Forest,
    j: u32,
) -> Result<Option<List<Step>>, AllocError>
    requires limits { IsProcessGraph graph.now }
    requires each { length chosen.now ≡ length graph.now.streams }
    requires joined { AreJoined graph.now chosen.now }
    requires forest { IsForestOf (metered_graph graph.now chosen.now) forest.now }
    requires stream { j < length graph.now.streams }
    ensures { IfOk result (IsCycleIfChosen graph.now chosen.now j) }
{
    if !chosen[j as usize] {
        return Ok(None);
    }
    let stream = graph.stream(j);
    match forest.path(alloc, stream.to, stream.from)? {
        None => Ok(None),
        Some(back) => Ok(Some(forward_then(alloc, j, back.as_slice())?)),
    }
}

// The meters of the chosen streams, in order.
fn meters_of(
    alloc: Global,
    graph: &Graph,
    costs: &[i64],
    chosen: &[bool],
    forest: &Forest,
) -> Result<Advice, AllocError>
    requires costs { AreCosts graph.now costs.now }
    requires advised { IsAdvisedChoice graph.now costs.now chosen.now }
    requires forest { IsForestOf (metered_graph graph.now chosen.now) forest.now }
    ensures { IfOk result (IsAdvice graph.now costs.now) }
{
    let mut advice = Advice {
        meter: List::new(alloc),
        total: 0,
    };
    for j in 0..graph.len() {
        if let Some(steps) = cycle_of(alloc, graph, chosen, forest, j)? {
            let cost = costs[j as usize];
            advice.meter.push(Meter {
                stream: j,
                cost,
                steps,
            })?;
            advice.total += i128::from(cost);
        }
    }
    Ok(advice)
}

/// The cheapest metering of a graph: which unmeasured streams to meter, at these costs, so that every stream is observable.
///
/// Among the choices that cost the least, this one takes streams by falling cost, the earlier first among equals, and leaves a stream
/// without a meter unless the streams before it join its ends. The work is proportional to the numbers of nodes and streams (and to sorting
/// the streams), to the steps of the cycles, and to the joins. There are at most as many joins as nodes, and each goes over the nodes.
pub fn advise(alloc: Global, graph: &Graph, costs: &[i64]) -> Result<Advice, AllocError>
    requires { AreCosts graph.now costs.now }
    ensures advice { IfOk result (IsAdvice graph.now costs.now) }
    ensures cheapest { IfOk result (IsCheapest graph.now costs.now) }
    ensures within { IfOk result (IsAdviceWithin graph.now) }
{
    let chosen = advised_choice(alloc, graph, costs)?;
    let metered = metered_copy(alloc, graph, &chosen)?;
    let forest = Forest::of(alloc, &metered)?;
    meters_of(alloc, graph, costs, &chosen, &forest)
}
