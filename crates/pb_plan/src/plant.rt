// A plant with its days of service, and which parts of it are there in a period.

ghost use Rattle.std.specs.Prelude.{◌≡◌, ◌↔◌, IsTrue};
ghost use Rattle.pb_plan.specs.Plant.{IsPlant, IsPlantArc, IsSpan, closing_day, is_served, opening_day};

use pb_graph::List;
use pb_limits::{MOST_STREAMS, MOST_UNITS_AND_TANKS};

/// The days on which a stream or a tank is in service, from the first to the last, both included, as days since 1970-01-01.
#[derive(Clone, Copy, Debug, PartialEq, Eq)]
pub struct Service {
    pub since: i32,
    pub until: i32,
}

/// A stream of a plant, or the inventory of a tank, which leads from the tank to the environment. The environment is node 0. An arc without
/// days of service is in service on every day.
#[derive(Clone, Copy, Debug, PartialEq, Eq)]
pub struct PlantArc {
    pub from: u32,
    pub to: u32,
    pub is_tank: bool,
    pub service: Option<Service>,
}

/// A plant, as far as a window needs it: the number of its units and tanks, its streams and inventories in order of declaration, and
/// whether a unit or tank that no arc in service joins is a node all the same.
#[derive(Debug, Drop)]
pub struct Plant {
    pub nodes: u32,
    pub arcs: List<PlantArc>,
    pub keeps_idle: bool,
}

/// A period, from its first day to its last one, both included, as days since 1970-01-01.
#[derive(Clone, Copy, Debug, PartialEq, Eq)]
pub struct Span {
    pub first: i32,
    pub last: i32,
}

/// Whether an arc is in service on some day of a period.
pub fn is_served(span: &Span, arc: &PlantArc) -> bool
    ensures { result ≡ is_served span.now arc.now }
{
    match arc.service {
        None => true,
        Some(service) => service.since <= span.last && span.first <= service.until,
    }
}

/// The day at whose end the content of a tank opens in a period.
pub fn opening_day(arc: &PlantArc, span: &Span) -> i32
    requires { IsSpan span.now }
    ensures { result ≡ opening_day arc.now.service span.now }
{
    match arc.service {
        None => span.first - 1,
        Some(service) => span.first.max(service.since) - 1,
    }
}

/// The day at whose end the content of a tank closes in a period.
pub fn closing_day(arc: &PlantArc, span: &Span) -> i32
    ensures { result ≡ closing_day arc.now.service span.now }
{
    match arc.service {
        None => span.last,
        Some(service) => span.last.min(service.until),
    }
}

// Whether the ends of an arc are nodes and differ, and a tank's second end is the environment.
fn is_plant_arc(nodes: u32, arc: &PlantArc) -> bool
    ensures { IsTrue result ↔ IsPlantArc nodes arc.now }
{
    arc.from <= nodes && arc.to <= nodes && arc.from != arc.to && (!arc.is_tank || arc.to == 0)
}

/// Whether a plant has no more units, tanks and streams than a graph may have, and each arc joins two of its nodes; the arc of a tank leads
/// to the environment.
pub fn is_plant(plant: &Plant) -> bool
    ensures { IsTrue result ↔ IsPlant plant.now }
{
    plant.nodes as usize <= MOST_UNITS_AND_TANKS
        && plant.arcs.len() <= MOST_STREAMS
        && plant
            .arcs
            .as_slice()
            .iter()
            .all(|arc| is_plant_arc(plant.nodes, arc))
}
