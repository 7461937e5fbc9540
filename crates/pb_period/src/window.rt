// What the facts say about the streams of a window, and its graph.

ghost use Rattle.std.specs.Prelude.{◌≡◌, ◌≢◌, ◌<◌, ◌≤ℤ◌, pos, length, slice_get, option_and_then, All, Err, IfErr, IfOk, IfSome, Some};
ghost use Rattle.pb_site.specs.Row.{IsArcBase};
ghost use Rattle.pb_site.specs.Site.{arcs_of, names_of};
ghost use Rattle.pb_book.specs.Rows.{declared_of, periods_of};
ghost use Rattle.pb_periods.specs.Windows.{names_of_periods};
ghost use Rattle.pb_plan.specs.Places.{HasStreamNames};
ghost use Rattle.pb_plan.specs.Window.{IsWindow};
ghost use Rattle.pb_period.specs.declared.graph.Assembly.TheVariants.{NoMemory};
ghost use Rattle.pb_period.specs.WindowGraph.{IsStreamOfWindow, content_measured, flow_measured, periods_at, stream_measured, window_assembly, window_measured};

use crate::days::Days;
use crate::graph::{Assembly, measured};
use crate::measured::held_at;
use pb_book::Book;
use pb_graph::{Graph, Meas};
use pb_plan::{Source, Window, WindowAssembly, WindowStream, window_graph};
use pb_rows::NameList;
use pb_site::{Arc, Version};
use std::alloc::{AllocError, Global};

/// The graph of a window of the periods at these places, from the facts that are live; or the first stream whose value or variance
/// is above the limits. A flow has the measurement of its arc in its period. A content is measured iff there is a dip on its day:
/// the grams of the dip, and the sum of the tank's base variance and the dip's.
pub fn assemble_window(
    alloc: Global,
    book: &Book,
    window: &Window,
    places: &[u32],
) -> Result<Graph, Assembly>
    requires form { IsWindow window.now }
    requires places { All (λ i. i < length (periods_of book.now)) places.now }
    requires streams { All (HasStreamNames (names_of (declared_of book.now))
        (names_of_periods (periods_at book.now places.now))) window.now.streams }
    ensures answer { result ≢ Err Assembly.NoMemory
        → result ≡ window_assembly book.now (periods_at book.now places.now) window.now }
    ensures over { IfErr result (IsStreamOfWindow window.now) }
{
    let measured = window_measured(alloc, book, window, places)?;
    match window_graph(alloc, window, &measured) {
        Ok(graph) => Ok(graph),
        Err(WindowAssembly::Over(j)) => Err(Assembly::Over(j)),
        Err(WindowAssembly::NoMemory) => Err(Assembly::NoMemory),
    }
}

/// The names of the periods at these places.
pub fn names_of_periods(alloc: Global, book: &Book, places: &[u32]) -> Result<NameList, AllocError>
    requires { All (λ i. i < length (periods_of book.now)) places.now }
    ensures { IfOk result (λ names.
        names ≡ names_of_periods (periods_at book.now places.now)) }
{
    let mut names = NameList::new(alloc);
    for place in places {
        names.push(book.period(*place).name)?;
    }
    Ok(names)
}

// What is measured of the streams of a window, in order.
fn window_measured(
    alloc: Global,
    book: &Book,
    window: &Window,
    places: &[u32],
) -> Result<Vec<Option<Meas>>, AllocError>
    requires places { All (λ i. i < length (periods_of book.now)) places.now }
    requires streams { All (HasStreamNames (names_of (declared_of book.now))
        (names_of_periods (periods_at book.now places.now))) window.now.streams }
    ensures value { IfOk result (λ list. list.items
        ≡ window_measured book.now (periods_at book.now places.now) window.now) }
    ensures least { IfOk result
        (λ list. All (λ found. IfSome found (λ meas. pos 1 ≤ℤ meas.variance)) list.items) }
{
    let mut list = Vec::new(alloc);
    for stream in window.streams.as_slice() {
        list.push(stream_measured(book, places, stream))?;
    }
    Ok(list)
}

// What is measured of a stream of a window of the periods at these places.
fn stream_measured(book: &Book, places: &[u32], stream: &WindowStream) -> Option<Meas>
    requires places { All (λ i. i < length (periods_of book.now)) places.now }
    requires there { HasStreamNames (names_of (declared_of book.now))
        (names_of_periods (periods_at book.now places.now)) stream.now }
    ensures value { result
        ≡ stream_measured book.now (periods_at book.now places.now) stream.now }
    ensures least { IfSome result (λ meas. pos 1 ≤ℤ meas.variance) }
{
    let arc = book.site().arc(stream.arc);
    match stream.source {
        Source::Flow => {
            let place = places[(stream.period as usize).saturating_sub(1)];
            flow_measured(book, place, stream.arc, &arc)
        }
        Source::Content(day) => content_measured(book, stream.arc, &arc, day),
    }
}

// What the period at a place measured of an arc.
fn flow_measured(book: &Book, place: u32, j: u32, arc: &Arc) -> Option<Meas>
    requires there { place < length (periods_of book.now) }
    requires place { slice_get (arcs_of (declared_of book.now)) j ≡ Some arc.now }
    requires base { IsArcBase arc.now.kind arc.now.base }
    ensures value { result
        ≡ option_and_then (flow_measured book.now arc.now) (slice_get (periods_of book.now) place) }
    ensures least { IfSome result (λ meas. pos 1 ≤ℤ meas.variance) }
{
    let days = Days::of(&book.period(place));
    match book.site().version() {
        Version::One => measured(book, days, None, j, arc),
        Version::Two => measured(book, days, arc.service, j, arc),
    }
}

// The measurement of what a tank holds at the end of a day.
fn content_measured(book: &Book, j: u32, arc: &Arc, day: i32) -> Option<Meas>
    requires place { slice_get (arcs_of (declared_of book.now)) j ≡ Some arc.now }
    requires base { IsArcBase arc.now.kind arc.now.base }
    ensures value { result ≡ content_measured book.now arc.now day }
    ensures least { IfSome result (λ meas. pos 1 ≤ℤ meas.variance) }
{
    let strap = book.site().strap(j)?;
    let held = held_at(book.facts(), strap, &arc.name, day)?;
    Some(held.measured(arc.base))
}
