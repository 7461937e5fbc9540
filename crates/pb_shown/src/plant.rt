// The nodes and the streams of a plant.
ghost use Rattle.std.specs.Prelude.{◌≡◌, ◌≤◌, length, slice_get, IsSomeAnd, MatchOption};
ghost use Rattle.pb_book.specs.Rows.{declared_of};
ghost use Rattle.pb_site.specs.Site.{arcs_of, is_tank, node_names};
ghost use Rattle.pb_shown.specs.Plant.{ShowsNode, ShowsService, ShowsStream, kind_number};

use crate::numbers::{PlantbalWide, wide_of};
use crate::texts::padded_name;
use pb_book::Book;
use pb_site::{Arc, ArcKind, Service};

/// A node of the plant: the environment, a unit or a tank.
#[repr(C)]
#[derive(Clone, Copy)]
pub struct PlantbalNode {
    /// Its name, with zeros after it.
    pub name: [u8; 33],
    /// Whether it is a tank.
    pub tank: bool,
}

/// A stream of the plant, or a tank as what it holds, which leads from the tank to the environment.
#[repr(C)]
#[derive(Clone, Copy)]
pub struct PlantbalStream {
    /// Its name, with zeros after it.
    pub name: [u8; 33],
    /// 0 for a metered stream, 1 for one that moves in batches, 2 for a plain one, 3 for a tank.
    pub kind: u8,
    /// Whether it has days of service. If not, it is in service on every day.
    pub served: bool,
    /// The place of the node from which it leads.
    pub from: u32,
    /// The place of the node to which it leads.
    pub to: u32,
    /// The first day of its service, counted from 1970-01-01.
    pub since: i32,
    /// The last day of its service.
    pub until: i32,
    /// Its base variance in squared grams; 0 for a plain one.
    pub base: PlantbalWide,
}

/// The node at a place; `None` iff there is none.
pub fn node_at(book: &Book, place: u32) -> Option<PlantbalNode>
    ensures { MatchOption result (length (node_names (declared_of book.now)) ≤ place)
        (λ shown. IsSomeAnd (slice_get (node_names (declared_of book.now)) place)
        (λ name. ShowsNode (declared_of book.now) name shown)) }
{
    let site = book.site();
    if site.nodes() <= place {
        return None;
    }
    let name = site.node_name(place);
    Some(PlantbalNode {
        name: padded_name(&name),
        tank: site.is_tank(&name),
    })
}

/// The stream at a place; `None` iff there is none.
pub fn stream_at(book: &Book, place: u32) -> Option<PlantbalStream>
    ensures { MatchOption result (length (arcs_of (declared_of book.now)) ≤ place)
        (λ shown. IsSomeAnd (slice_get (arcs_of (declared_of book.now)) place)
        (λ arc. ShowsStream arc shown)) }
{
    let site = book.site();
    if site.arcs() <= place {
        return None;
    }
    Some(shown_stream(&site.arc(place)))
}

// A stream as C has it.
fn shown_stream(arc: &Arc) -> PlantbalStream
    ensures { ShowsStream arc.now result }
{
    let (served, since, until) = days_of(&arc.service);
    PlantbalStream {
        name: padded_name(&arc.name),
        kind: kind_number(arc.kind),
        served,
        from: arc.from,
        to: arc.to,
        since,
        until,
        base: wide_of(arc.base),
    }
}

// Whether something has days of service, and these.
fn days_of(service: &Option<Service>) -> (bool, i32, i32)
    ensures { ShowsService service.now result.0 result.1 result.2 }
{
    match service {
        Some(service) => (true, service.since, service.until),
        None => (false, 0, 0),
    }
}

// The number of a kind.
fn kind_number(kind: ArcKind) -> u8
    ensures { result ≡ kind_number kind }
{
    match kind {
        ArcKind::Metered => 0,
        ArcKind::Batch => 1,
        ArcKind::Plain => 2,
        ArcKind::Tank => 3,
    }
}
