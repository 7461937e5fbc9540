// The flows of a window.

ghost use Rattle.std.specs.Prelude.{◌≡◌, ◌<◌, ◌≤◌, ◌^◌, ◌++◌, Err, length, IfOk, OnOk};
ghost use Rattle.std.specs.List.{enumerate_from, filter_map};
ghost use Rattle.pb_limits.specs.Limits.{most_periods_of_window, most_streams};
ghost use Rattle.pb_plan.specs.declared.window.WindowFault.TheVariants as WindowFault;
ghost use Rattle.pb_plan.specs.Plant.{arcs_in};
ghost use Rattle.pb_plan.specs.Window.{flow_of, window_flows};

use crate::nodes::number_of;
use crate::plant::{PlantArc, Span, is_served};
use crate::window::{Source, WindowFault, WindowNode, WindowStream};
use pb_graph::MOST_STREAMS;
use std::alloc::{AllocError, Global};

// The arcs that are in service in a period, each preceded by its number in the plant.
fn arcs_in(
    alloc: Global,
    arcs: &[PlantArc],
    span: &Span,
) -> Result<Vec<(u32, PlantArc)>, AllocError>
    requires { length arcs.now ≤ most_streams }
    ensures value { IfOk result (λ list. list.items ≡ arcs_in arcs.now span.now) }
    ensures few { IfOk result (λ list. length list.items ≤ most_streams) }
{
    let mut list = Vec::new(alloc);
    for (j, arc) in arcs.iter().enumerate() {
        if is_served(span, arc) {
            list.push((j as u32, *arc))?;
        }
    }
    Ok(list)
}

// The flow of an arc in a period, by its place in the graph of the period.
fn flow_of(
    nodes: &[WindowNode],
    period: u32,
    place: u32,
    number: u32,
    arc: &PlantArc,
) -> Option<WindowStream>
    requires { length nodes.now < 2 ^ 31 }
    ensures { result ≡ flow_of nodes.now period (place, (number, arc.now)) }
{
    if arc.is_tank {
        return None;
    }
    Some(WindowStream {
        source: Source::Flow,
        period,
        place,
        arc: number,
        from: number_of(nodes, period, arc.from),
        to: number_of(nodes, period, arc.to),
    })
}

// Appends the flows of a period, in which these arcs are in service.
fn push_period(
    list: &[(u32, PlantArc)],
    nodes: &[WindowNode],
    period: u32,
    streams: &mut Vec<WindowStream>,
) -> Result<(), AllocError>
    requires nodes { length nodes.now < 2 ^ 31 }
    requires few { length list.now ≤ most_streams }
    ensures { OnOk result (streams.new.items
        ≡ streams.old.items ++ filter_map (flow_of nodes.now period) (enumerate_from 0 list.now)) }
{
    for (place, (number, arc)) in list.iter().enumerate() {
        if let Some(stream) = flow_of(nodes, period, place as u32, *number, arc) {
            streams.push(stream)?;
        }
    }
    Ok(())
}

/// Appends the flows of a window, period after period. Fails if there are too many.
pub fn push_flows(
    arcs: &[PlantArc],
    nodes: &[WindowNode],
    spans: &[Span],
    streams: &mut Vec<WindowStream>,
) -> Result<(), WindowFault>
    requires nodes { length nodes.now < 2 ^ 31 }
    requires arcs { length arcs.now ≤ most_streams }
    requires spans { length spans.now ≤ most_periods_of_window }
    ensures value { OnOk result (streams.new.items
        ≡ streams.old.items ++ window_flows arcs.now nodes.now spans.now) }
    ensures too_many { result ≡ Err WindowFault.TooGreat → most_streams
        < length (streams.old.items ++ window_flows arcs.now nodes.now spans.now) }
{
    let alloc = *streams.allocator();
    for (t, span) in spans.iter().enumerate() {
        let list = arcs_in(alloc, arcs, span)?;
        push_period(&list, nodes, t as u32 + 1, streams)?;
        if streams.len() > MOST_STREAMS {
            return Err(WindowFault::TooGreat);
        }
    }
    Ok(())
}
