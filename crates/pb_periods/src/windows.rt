// Windows over consecutive periods: their faults, and what they are made from.

ghost use Rattle.std.specs.Prelude.{◌≡◌, ◌≢◌, ◌<◌, ◌≤◌, All, Contains, Err, filter_map, length, map, slice_get, true, IfOk, MatchOption};
ghost use Rattle.pb_limits.specs.Limits.{most_periods_of_window};
ghost use Rattle.pb_site.specs.Site.{arcs_of, version_of};
ghost use Rattle.pb_plan.specs.declared.window.WindowFault.TheVariants.{NoMemory};
ghost use Rattle.pb_plan.specs.Codes.{AreWindowNames};
ghost use Rattle.pb_plan.specs.Places.{IsNamedBy};
ghost use Rattle.pb_plan.specs.Plant.{IsPlant, IsSpan};
ghost use Rattle.pb_plan.specs.Window.{IsWindow, unless_too_great};
ghost use Rattle.pb_site.specs.Row.{is_inventory};
ghost use Rattle.pb_periods.specs.Windows.{ArePlacesOf, arc_service, fault_between, fault_over, has_gap, span_of_period, window_arc, window_over, window_plant};
ghost use Rattle.pb_periods.specs.Ranges.{IsPeriod};

use crate::period::Period;
use crate::periods::Periods;
use pb_graph::List;
use pb_limits::MOST_PERIODS_OF_WINDOW;
use pb_plan::{Plant, PlantArc, Service as ArcService, Span, Window, WindowFault, window_of};
use pb_site::{Arc, ArcKind, Service, Site, Version};
use std::alloc::{AllocError, Global};

/// What is wrong with a window from one period to another, in the order in which the faults are tested.
#[derive(Clone, Copy, PartialEq, Eq, Debug)]
pub enum BetweenFault {
    /// The second period begins before the first.
    Order,
    /// Some day between the two isn't in any period.
    Gap,
    /// There are more periods than a window may have.
    TooLong,
    /// There are more nodes or streams than a graph may have.
    TooGreat,
}

// The days of service of an arc, as a window uses them; version 1 has none.
fn arc_service(version: Version, service: Option<Service>) -> Option<ArcService>
    ensures { result ≡ arc_service version service }
{
    match (version, service) {
        (Version::Two, Some(service)) => Some(ArcService {
            since: service.since,
            until: service.until,
        }),
        _ => None,
    }
}

// Whether an arc of this kind is the inventory of a tank.
fn is_inventory(kind: ArcKind) -> bool
    ensures { result ≡ is_inventory kind }
{
    matches!(kind, ArcKind::Tank)
}

// An arc, as a window uses it.
fn window_arc(version: Version, arc: &Arc) -> PlantArc
    ensures { result ≡ window_arc version arc.now }
{
    PlantArc {
        from: arc.from,
        to: arc.to,
        is_tank: is_inventory(arc.kind),
        service: arc_service(version, arc.service),
    }
}

// The arcs of the declared plant, as a window uses them.
fn window_arcs(alloc: Global, site: &Site) -> Result<Vec<PlantArc>, AllocError>
    ensures { IfOk result (λ arcs. arcs.items
        ≡ map (window_arc (version_of site.now)) (arcs_of site.now)) }
{
    let version = site.version();
    let mut arcs = Vec::new(alloc);
    for place in 0..site.arcs() {
        arcs.push(window_arc(version, &site.arc(place)))?;
    }
    Ok(arcs)
}

// The declared plant, as a window uses it.
fn window_plant(alloc: Global, site: &Site) -> Result<Plant, AllocError>
    ensures value { IfOk result (λ plant. plant ≡ window_plant site.now) }
    ensures plant { IfOk result IsPlant }
{
    Ok(Plant {
        nodes: site.nodes() - 1,
        arcs: List::from_vec(window_arcs(alloc, site)?),
        keeps_idle: matches!(site.version(), Version::One),
    })
}

// A period, as a window uses it.
fn span_of_period(period: &Period) -> Span
    ensures { result ≡ span_of_period period.now }
{
    Span {
        first: period.first,
        last: period.last,
    }
}

// The periods at these places, as a window uses them.
fn spans_at(alloc: Global, periods: &Periods, places: &[u32]) -> Result<Vec<Span>, AllocError>
    requires { All (λ place. place < length periods.now) places.now }
    ensures value { IfOk result (λ spans. spans.items
        ≡ map span_of_period (filter_map (slice_get periods.now) places.now)) }
    ensures spans { IfOk result (λ spans. All IsSpan spans.items) }
{
    let mut spans = Vec::new(alloc);
    for &place in places {
        spans.push(span_of_period(&periods.at(place)))?;
    }
    Ok(spans)
}

/// The places of the periods from one to another, in order of days; `None` iff some day from the first day of `first` to the last
/// day of `last` isn't in any period.
pub fn places_between(
    alloc: Global,
    periods: &Periods,
    first: &Period,
    last: &Period,
) -> Result<Option<Vec<u32>>, AllocError>
    requires first { Contains periods.now first.now }
    requires first_days { IsPeriod first.now }
    requires last { Contains periods.now last.now }
    requires last_days { IsPeriod last.now }
    ensures { IfOk result (λ found. MatchOption found
        (has_gap periods.now first.now last.now ≡ true)
        (λ places. ArePlacesOf periods.now first.now last.now places.items)) }
{
    let mut places = Vec::new(alloc);
    let mut day = first.first;
    while day <= last.last {
        match periods.begun_on(day) {
            Some(place) => {
                places.push(place)?;
                day = periods.at(place).last + 1;
            }
            None => return Ok(None),
        }
    }
    Ok(Some(places))
}

/// The window over the periods at these places, or a fault if it is too great.
pub fn window_over(
    alloc: Global,
    site: &Site,
    periods: &Periods,
    places: &[u32],
) -> Result<Window, WindowFault>
    requires there { All (λ place. place < length periods.now) places.now }
    requires few { length places.now ≤ most_periods_of_window }
    ensures answer { result ≢ Err NoMemory → result ≡ unless_too_great
        (window_over site.now (filter_map (slice_get periods.now) places.now)) }
    ensures form { IfOk result IsWindow }
    ensures names { IfOk result AreWindowNames }
    ensures places { IfOk result (IsNamedBy (window_plant site.now)
        (map span_of_period (filter_map (slice_get periods.now) places.now))) }
{
    let plant = window_plant(alloc, site)?;
    let spans = spans_at(alloc, periods, places)?;
    window_of(alloc, &plant, &spans)
}

/// The first fault of a window from one period to another; `None` iff there is none.
pub fn judge_window(
    alloc: Global,
    site: &Site,
    periods: &Periods,
    first: &Period,
    last: &Period,
) -> Result<Option<BetweenFault>, AllocError>
    requires first { Contains periods.now first.now }
    requires first_days { IsPeriod first.now }
    requires last { Contains periods.now last.now }
    requires last_days { IsPeriod last.now }
    ensures { IfOk result (λ fault. fault ≡ fault_between site.now periods.now first.now last.now) }
{
    if last.first < first.first {
        return Ok(Some(BetweenFault::Order));
    }
    match places_between(alloc, periods, first, last)? {
        Some(places) => judge_places(alloc, site, periods, &places),
        None => Ok(Some(BetweenFault::Gap)),
    }
}

// The first fault of a window over the periods at these places: there are too many periods, or the window is too great.
fn judge_places(
    alloc: Global,
    site: &Site,
    periods: &Periods,
    places: &[u32],
) -> Result<Option<BetweenFault>, AllocError>
    requires { All (λ place. place < length periods.now) places.now }
    ensures { IfOk result (λ fault. fault
        ≡ fault_over site.now (filter_map (slice_get periods.now) places.now)) }
{
    if places.len() > MOST_PERIODS_OF_WINDOW {
        return Ok(Some(BetweenFault::TooLong));
    }
    match window_over(alloc, site, periods, places) {
        Ok(_) => Ok(None),
        Err(WindowFault::TooGreat) => Ok(Some(BetweenFault::TooGreat)),
        Err(WindowFault::NoMemory) => Err(AllocError),
    }
}
