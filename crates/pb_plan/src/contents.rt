// What tanks hold between the periods of a window.

ghost use Rattle.std.specs.Prelude.{◌≡◌, ◌<◌, ◌≤◌, ◌^◌, ◌++◌, length, All, IfSome, OnOk};
ghost use Rattle.pb_limits.specs.Limits.{most_periods_of_window, most_streams};
ghost use Rattle.pb_plan.specs.Plant.{IsSpan};
ghost use Rattle.pb_plan.specs.Window.{content_after, content_day, content_end, contents_of_arc, span_of, stay_of, window_contents};

use crate::nodes::number_of;
use crate::plant::{PlantArc, Span, closing_day, is_served, opening_day};
use crate::window::{Source, WindowNode, WindowStream};
use std::alloc::AllocError;

// The period with a number, counted from 1.
fn span_of(spans: &[Span], period: u32) -> Option<Span>
    requires { All IsSpan spans.now }
    ensures value { result ≡ span_of spans.now period }
    ensures begins { IfSome result IsSpan }
{
    if period == 0 {
        return None;
    }
    spans.get(period as usize - 1).copied()
}

// The period with a number, if there is one and an arc is in service in it.
fn stay_of(spans: &[Span], arc: &PlantArc, period: u32) -> Option<Span>
    requires { All IsSpan spans.now }
    ensures value { result ≡ stay_of spans.now arc.now period }
    ensures begins { IfSome result IsSpan }
{
    let span = span_of(spans, period)?;
    if is_served(&span, arc) {
        Some(span)
    } else {
        None
    }
}

// The day at whose end the content between two periods is held.
fn content_day(arc: &PlantArc, before: Option<Span>, after: Option<Span>) -> Option<i32>
    requires { IfSome after IsSpan }
    ensures { result ≡ content_day arc.now before after }
{
    match (before, after) {
        (Some(before), _) => Some(closing_day(arc, &before)),
        (None, Some(after)) => Some(opening_day(arc, &after)),
        (None, None) => None,
    }
}

// An end of a content.
fn content_end(nodes: &[WindowNode], period: u32, arc: &PlantArc, stay: Option<Span>) -> u32
    requires { length nodes.now < 2 ^ 31 }
    ensures { result ≡ content_end nodes.now period arc.now stay }
{
    match stay {
        None => 0,
        Some(_) => number_of(nodes, period, arc.from),
    }
}

// What a tank holds after the period with a number and before the next one.
fn content_of(
    nodes: &[WindowNode],
    spans: &[Span],
    number: u32,
    arc: &PlantArc,
    period: u32,
) -> Option<WindowStream>
    requires nodes { length nodes.now < 2 ^ 31 }
    requires spans { All IsSpan spans.now }
    requires period { period ≤ most_periods_of_window }
    ensures { result ≡ content_after nodes.now spans.now (number, arc.now) period }
{
    let before = stay_of(spans, arc, period);
    let after = stay_of(spans, arc, period + 1);
    let day = content_day(arc, before, after)?;
    Some(WindowStream {
        source: Source::Content(day),
        period,
        place: number,
        arc: number,
        from: content_end(nodes, period, arc, before),
        to: content_end(nodes, period + 1, arc, after),
    })
}

// Appends the contents of an arc; there are none unless it is a tank's.
fn push_arc(
    nodes: &[WindowNode],
    spans: &[Span],
    number: u32,
    arc: &PlantArc,
    streams: &mut Vec<WindowStream>,
) -> Result<(), AllocError>
    requires nodes { length nodes.now < 2 ^ 31 }
    requires spans { All IsSpan spans.now }
    requires few { length spans.now ≤ most_periods_of_window }
    ensures { OnOk result (streams.new.items
        ≡ streams.old.items ++ contents_of_arc nodes.now spans.now (number, arc.now)) }
{
    if !arc.is_tank {
        return Ok(());
    }
    for period in 0..spans.len() as u32 + 1 {
        if let Some(stream) = content_of(nodes, spans, number, arc, period) {
            streams.push(stream)?;
        }
    }
    Ok(())
}

/// Appends the contents of a window, tank after tank.
pub fn push_contents(
    arcs: &[PlantArc],
    nodes: &[WindowNode],
    spans: &[Span],
    streams: &mut Vec<WindowStream>,
) -> Result<(), AllocError>
    requires nodes { length nodes.now < 2 ^ 31 }
    requires arcs { length arcs.now ≤ most_streams }
    requires spans { All IsSpan spans.now }
    requires few { length spans.now ≤ most_periods_of_window }
    ensures { OnOk result (streams.new.items
        ≡ streams.old.items ++ window_contents arcs.now nodes.now spans.now) }
{
    for (j, arc) in arcs.iter().enumerate() {
        push_arc(nodes, spans, j as u32, arc, streams)?;
    }
    Ok(())
}
