// The graph of the plant: as it is declared, and as the days of a period measured it.

ghost use Rattle.std.specs.Prelude.{◌≡◌, ◌≢◌, ◌<◌, ◌≤ℤ◌, pos, length, slice_get, option_map, false, Err, IfErr, IfOk, IfSome, None, Some};
ghost use Rattle.pb_limits.specs.Limits.{most_facts, most_streams};
ghost use Rattle.pb_graph.specs.ProcessGraph.{Fits, IsMeasurement, IsStream, IsWithinLimits};
ghost use Rattle.pb_site.specs.declared.declared.Version.TheVariants.{One, Two};
ghost use Rattle.pb_site.specs.Laws.{JoinsPlaces};
ghost use Rattle.pb_site.specs.Row.{IsArcBase};
ghost use Rattle.pb_site.specs.Site.{arcs_of, node_names, version_of};
ghost use Rattle.pb_facts.specs.Facts.{live_facts};
ghost use Rattle.pb_book.specs.Rows.{declared_of, facts_of, periods_of};
ghost use Rattle.pb_period.specs.declared.graph.Assembly.TheVariants.{NoMemory};
ghost use Rattle.pb_period.specs.Amounts.{IsAmount};
ghost use Rattle.pb_period.specs.Days.{AreDays, days_of};
ghost use Rattle.pb_period.specs.Laws.{AreGraphNames};
ghost use Rattle.pb_period.specs.Measurement.{amount_of, measured};
ghost use Rattle.pb_period.specs.PeriodGraph.{IsStreamOfGraph, NamesAStream, assembly_of, base_of, design_graph, graph_in, is_over, measured_in, period_graph, period_names, stream_among, stream_with, within_limits};

use crate::amount::Amount;
use crate::days::Days;
use crate::measured::{change, read_total};
use crate::transfers::transferred;
use pb_book::Book;
use pb_graph::{Graph, Meas, Stream};
use pb_rows::Names;
use pb_site::{Arc, ArcKind, OnDays, Service, Version, is_in_service_within, names_on};
use std::alloc::{AllocError, Global};

/// Why there is no graph of a period.
#[derive(Clone, Copy, Debug, PartialEq, Eq)]
pub enum Assembly {
    /// This stream is the first one whose value is above 10^15 grams either way, or whose variance is above 10^22 squared grams.
    Over(u32),
    NoMemory,
}

impl From<AllocError> for Assembly {
    ghost from_gives = { λ _ assembly. assembly ≡ NoMemory };

    fn from(_: AllocError) -> Assembly {
        Assembly::NoMemory
    }
}

/// The graph of the declared plant before any reading: each metered and batch stream and each tank's inventory stream is measured,
/// with the value 0 and its base variance.
pub fn design(alloc: Global, book: &Book) -> Result<Graph, AllocError>
    ensures { IfOk result (λ graph. graph ≡ design_graph book.now) }
{
    let site = book.site();
    let mut graph = Graph::new(alloc, site.nodes());
    for j in 0..site.arcs() {
        graph.push(declared_stream(&site.arc(j)))?;
    }
    Ok(graph)
}

/// The graph of a period, from the facts that are live; or the first stream whose value or variance is above the limits. In a session
/// of version 2 it has the streams and tanks that are in service on some day of the period, and the nodes that these join.
pub fn assemble(alloc: Global, book: &Book, period: u32) -> Result<Graph, Assembly>
    requires { period < length (periods_of book.now) }
    ensures answer { result ≢ Err Assembly.NoMemory
        → IfSome (slice_get (periods_of book.now) period)
        (λ period. result ≡ assembly_of book.now (days_of period)) }
    ensures over { IfSome (slice_get (periods_of book.now) period)
        (λ period. IfErr result (NamesAStream book.now (days_of period))) }
{
    let days = Days::of(&book.period(period));
    match book.site().version() {
        Version::One => measured_graph(alloc, book, days),
        Version::Two => served_graph(alloc, book, days),
    }
}

/// The names of the nodes and streams of the graph of a period. No two nodes have the same name, and no two streams.
pub fn names(alloc: Global, book: &Book, period: u32) -> Result<Names, AllocError>
    requires { period < length (periods_of book.now) }
    ensures ok { IfOk result (λ names. IfSome (slice_get (periods_of book.now) period)
        (λ period. names ≡ period_names book.now (days_of period))) }
    ensures named { IfSome (slice_get (periods_of book.now) period)
        (λ period. AreGraphNames (period_names book.now (days_of period))
        (period_graph book.now (days_of period))) }
{
    let days = Days::of(&book.period(period));
    names_on(alloc, book.site(), days.first, days.last)
}

// The stream of an arc.
fn stream_of(arc: &Arc, meas: Option<Meas>) -> Stream
    ensures { result ≡ record { from = arc.now.from; to = arc.now.to; meas = meas } }
{
    Stream {
        from: arc.from,
        to: arc.to,
        meas,
    }
}

// The stream of an arc before any reading.
fn declared_stream(arc: &Arc) -> Stream
    requires { IsArcBase arc.now.kind arc.now.base }
    ensures value { result ≡ stream_with base_of arc.now }
    ensures limits { IsWithinLimits result }
{
    stream_of(arc, base_of(arc))
}

// The value 0 with the base variance, for all streams except plain ones.
fn base_of(arc: &Arc) -> Option<Meas>
    requires { IsArcBase arc.now.kind arc.now.base }
    ensures value { result ≡ base_of arc.now }
    ensures limits { IfSome result IsMeasurement }
{
    match arc.kind {
        ArcKind::Plain => None,
        _ => Some(Meas {
            value: 0,
            variance: arc.base,
        }),
    }
}

// The graph of the whole plant, with what some days measured.
fn measured_graph(alloc: Global, book: &Book, days: Days) -> Result<Graph, Assembly>
    requires { AreDays days }
    ensures answer { result ≢ Err Assembly.NoMemory
        → result ≡ within_limits (graph_in One book.now days) }
    ensures over { IfErr result (IsStreamOfGraph (graph_in One book.now days)) }
{
    let site = book.site();
    let mut graph = Graph::new(alloc, site.nodes());
    for j in 0..site.arcs() {
        let stream = measured_stream(book, days, j);
        if is_over(&graph, &stream) {
            return Err(Assembly::Over(j));
        }
        graph.push(stream)?;
    }
    Ok(graph)
}

// The graph of the part of the plant that is in service on some days, with what these days measured.
fn served_graph(alloc: Global, book: &Book, days: Days) -> Result<Graph, Assembly>
    requires days { AreDays days }
    requires version { version_of (declared_of book.now) ≡ Two }
    ensures answer { result ≢ Err Assembly.NoMemory
        → result ≡ within_limits (graph_in Two book.now days) }
    ensures over { IfErr result (IsStreamOfGraph (graph_in Two book.now days)) }
{
    let site = book.site();
    let part = OnDays::of(alloc, site, days.first, days.last)?;
    let mut graph = Graph::new(alloc, part.nodes().len() as u32);
    for j in 0..site.arcs() {
        let arc = site.arc(j);
        if is_in_service_within(arc.service, days.first, days.last) {
            let stream = served_stream(book, &part, days, j, &arc);
            if is_over(&graph, &stream) {
                return Err(Assembly::Over(graph.streams().len() as u32));
            }
            graph.push(stream)?;
        }
    }
    Ok(graph)
}

// Whether a stream is above the limits of the graph that it will join.
fn is_over(graph: &Graph, stream: &Stream) -> bool
    requires room { length graph.now.streams < most_streams }
    requires joins { IsStream graph.now.nodes stream.now }
    requires least { IfSome stream.now.meas (λ meas. pos 1 ≤ℤ meas.variance) }
    ensures value { result ≡ is_over stream.now }
    ensures fits { result ≡ false → Fits graph.now stream.now }
{
    !graph.fits(stream)
}

// The stream of an arc, with what some days measured of it; it counts as in service on each of them.
fn measured_stream(book: &Book, days: Days, j: u32) -> Stream
    requires days { AreDays days }
    requires place { j < length (arcs_of (declared_of book.now)) }
    ensures value { Some result ≡ option_map
        (stream_with (measured (declared_of book.now) (live_facts (facts_of book.now)) days None))
        (slice_get (arcs_of (declared_of book.now)) j) }
    ensures joins { IsStream (length (node_names (declared_of book.now))) result }
    ensures least { IfSome result.meas (λ meas. pos 1 ≤ℤ meas.variance) }
{
    let arc = book.site().arc(j);
    stream_of(&arc, measured(book, days, None, j, &arc))
}

// The stream of an arc among the nodes of the part of the plant that is in service on some days, with what these days measured of
// it.
fn served_stream(book: &Book, part: &OnDays, days: Days, j: u32, arc: &Arc) -> Stream
    requires days { AreDays days }
    requires place { slice_get (arcs_of (declared_of book.now)) j ≡ Some arc.now }
    requires base { IsArcBase arc.now.kind arc.now.base }
    requires joins { JoinsPlaces part.now arc.now }
    ensures value { result ≡ stream_among part.now
        (measured_in Two (declared_of book.now) (live_facts (facts_of book.now)) days) arc.now }
    ensures joins { IsStream (length part.now) result }
    ensures least { IfSome result.meas (λ meas. pos 1 ≤ℤ meas.variance) }
{
    Stream {
        from: part.place(arc.from),
        to: part.place(arc.to),
        meas: measured(book, days, arc.service, j, arc),
    }
}

/// What some days measured of an arc, given its days of service.
pub fn measured(
    book: &Book,
    days: Days,
    service: Option<Service>,
    j: u32,
    arc: &Arc,
) -> Option<Meas>
    requires days { AreDays days }
    requires place { slice_get (arcs_of (declared_of book.now)) j ≡ Some arc.now }
    requires base { IsArcBase arc.now.kind arc.now.base }
    ensures value { result ≡ measured (declared_of book.now) (live_facts (facts_of book.now)) days
        service arc.now }
    ensures least { IfSome result (λ meas. pos 1 ≤ℤ meas.variance) }
{
    let amount = amount_of(book, days, service, j, arc)?;
    Some(amount.measured(arc.base))
}

// What the facts say about an arc on some days, given its days of service.
fn amount_of(book: &Book, days: Days, service: Option<Service>, j: u32, arc: &Arc) -> Option<Amount>
    requires days { AreDays days }
    requires place { slice_get (arcs_of (declared_of book.now)) j ≡ Some arc.now }
    ensures value { result ≡ amount_of (declared_of book.now) (live_facts (facts_of book.now)) days
        service arc.now.kind arc.now.name }
    ensures within { IfSome result (IsAmount most_facts) }
{
    match arc.kind {
        ArcKind::Metered => read_total(book.facts(), &arc.name, days, service),
        ArcKind::Batch => Some(transferred(book.facts(), &arc.name, days)),
        ArcKind::Plain => None,
        ArcKind::Tank => change(
            book.facts(),
            book.site().strap(j)?,
            &arc.name,
            days,
            service,
        ),
    }
}
