// The nodes of a window.

ghost use Rattle.std.specs.Prelude.{◌≡◌, ◌+◌, ◌<◌, ◌≤◌, ◌^◌, ◌++◌, ◌||◌, Err, length, map, position, IfOk, OnOk};
ghost use Rattle.std.specs.List.{enumerate_from};
ghost use Rattle.pb_limits.specs.Limits.{most_periods_of_window, most_units_and_tanks};
ghost use Rattle.pb_plan.specs.declared.window.WindowFault.TheVariants as WindowFault;
ghost use Rattle.pb_plan.specs.Joined.{AreJoined, MarksEnds, is_marked};
ghost use Rattle.pb_plan.specs.Plant.{IsPlant, nodes_in};
ghost use Rattle.pb_plan.specs.Window.{nodes_of_period, stands_for, window_node, window_nodes, window_number_of};

use crate::plant::{Plant, PlantArc, Span, is_served};
use crate::window::{WindowFault, WindowNode};
use pb_graph::MOST_NODES;
use std::alloc::{AllocError, Global};

// Marks the ends of an arc.
fn mark(joined: &mut [bool], arc: &PlantArc)
    requires from { arc.now.from < length joined.old }
    requires to { arc.now.to < length joined.old }
    ensures { MarksEnds arc.now joined.old joined.new }
{
    joined[arc.from as usize] = true;
    joined[arc.to as usize] = true;
}

// For the environment and each unit and tank, whether an arc in service joins it in a period.
fn joined_in(alloc: Global, plant: &Plant, span: &Span) -> Result<Vec<bool>, AllocError>
    requires { IsPlant plant.now }
    ensures { IfOk result (λ joined.
        AreJoined plant.now.arcs span.now (plant.now.nodes + 1) joined.items) }
{
    let mut joined = vec![in alloc; false; plant.nodes as usize + 1]?;
    for arc in plant.arcs.as_slice() {
        if is_served(span, arc) {
            mark(joined.as_mut_slice(), arc);
        }
    }
    Ok(joined)
}

// Whether a unit or tank is a node of the graph of a period, if the marked ones are those that arcs join in it.
fn is_kept(plant: &Plant, joined: &[bool], node: u32) -> bool
    requires { node < length joined.now }
    ensures { result ≡ (plant.now.keeps_idle || is_marked joined.now node) }
{
    plant.keeps_idle || joined[node as usize]
}

// The units and tanks that are nodes of the graph of a period.
fn nodes_in(alloc: Global, plant: &Plant, span: &Span) -> Result<Vec<u32>, AllocError>
    requires { IsPlant plant.now }
    ensures value { IfOk result (λ list. list.items ≡ nodes_in plant.now span.now) }
    ensures few { IfOk result (λ list. length list.items ≤ most_units_and_tanks) }
{
    let joined = joined_in(alloc, plant, span)?;
    let mut list = Vec::new(alloc);
    for k in 0..plant.nodes {
        if is_kept(plant, &joined, k + 1) {
            list.push(k + 1)?;
        }
    }
    Ok(list)
}

// Appends the nodes of a period: these units and tanks.
fn push_nodes(period: u32, list: &[u32], nodes: &mut Vec<WindowNode>) -> Result<(), AllocError>
    requires { length list.now ≤ most_units_and_tanks }
    ensures { OnOk result (nodes.new.items
        ≡ nodes.old.items ++ map (window_node period) (enumerate_from 1 list.now)) }
{
    for (i, &node) in list.iter().enumerate() {
        nodes.push(WindowNode {
            period,
            place: i as u32 + 1,
            node,
        })?;
    }
    Ok(())
}

/// The nodes of a window except the environment, period after period. Fails if there are too many.
pub fn window_nodes(
    alloc: Global,
    plant: &Plant,
    spans: &[Span],
) -> Result<Vec<WindowNode>, WindowFault>
    requires plant { IsPlant plant.now }
    requires few { length spans.now ≤ most_periods_of_window }
    ensures value { IfOk result (λ nodes. nodes.items ≡ window_nodes plant.now spans.now) }
    ensures few { IfOk result (λ nodes. length nodes.items ≤ most_units_and_tanks) }
    ensures too_many { result ≡ Err WindowFault.TooGreat
        → most_units_and_tanks < length (window_nodes plant.now spans.now) }
{
    let mut nodes = Vec::new(alloc);
    for (t, span) in spans.iter().enumerate() {
        let list = nodes_in(alloc, plant, span)?;
        push_nodes(t as u32 + 1, &list, &mut nodes)?;
        if nodes.len() >= MOST_NODES as usize {
            return Err(WindowFault::TooGreat);
        }
    }
    Ok(nodes)
}

// The place of a node of the plant in a period among the nodes of a window.
fn place_of(nodes: &[WindowNode], period: u32, node: u32) -> Option<usize>
    ensures { result ≡ position (stands_for period node) nodes.now }
{
    nodes
        .iter()
        .position(|one| one.period == period && one.node == node)
}

/// The number of a node of the plant in a period among the nodes of a window's graph; 0 for the environment, and for what isn't a node of
/// the period.
pub fn number_of(nodes: &[WindowNode], period: u32, node: u32) -> u32
    requires { length nodes.now < 2 ^ 31 }
    ensures { result ≡ window_number_of nodes.now period node }
{
    match place_of(nodes, period, node) {
        Some(place) => 1 + place as u32,
        None => 0,
    }
}
