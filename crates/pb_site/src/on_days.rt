// The part of the plant that is in service on some days.

ghost use Rattle.std.specs.Prelude.{◌≡◌, ◌<◌, ◌≤◌, filter, map, length, All, IfOk, true};
ghost use Rattle.pb_limits.specs.Limits.{most_nodes};
ghost use Rattle.pb_site.specs.declared.declared.Arc.{Arc};
ghost use Rattle.pb_site.specs.Kept.{AreEnds, MarksEnds, MarksNodes, marked_nodes};
ghost use Rattle.pb_site.specs.Laws.{IsPartOnDays};
ghost use Rattle.pb_site.specs.OnDays.{has_place, is_arc_in_service, name_at_node, names_on, nodes_on, place_among};
ghost use Rattle.pb_site.specs.Site.{arcs_of, node_names, version_of};

use crate::declared::{Arc, Version};
use crate::service::is_in_service_within;
use crate::site::Site;
use pb_rows::{NameList, Names};
use std::alloc::{AllocError, Global};
use std::marker::Model;

/// The nodes of the part of a plant that is in service on some days: the environment, and then all units and tanks in version 1, or
/// in version 2 those that are an end of an arc in service on one of these days.
#[derive(Drop)]
pub struct OnDays {
    nodes: Vec<u32>,
}

impl Model for OnDays {
    ghost use Rattle.std.specs.Prelude.{ℕ, List};
    ghost use Rattle.pb_site.specs.Kept.{AreNodes};

    ghost Value = { List ℕ };

    ghost view = { λ a. a.nodes.items };

    ghost invariant = { λ a. AreNodes a.nodes.items };
}

impl OnDays {
    /// The part of a plant that is in service on the days from `first` to `last`.
    pub fn of(alloc: Global, site: &Site, first: i32, last: i32) -> Result<OnDays, AllocError>
        ensures value { IfOk result (λ nodes. nodes
            ≡ nodes_on (version_of site.now) site.now first last) }
        ensures part { IsPartOnDays (version_of site.now) site.now first last }
    {
        let marks = marks_on(alloc, site, first, last)?;
        Ok(OnDays {
            nodes: marked(alloc, marks.as_slice())?,
        })
    }

    /// The nodes in order; the first is the environment.
    pub fn nodes(&self) -> &[u32]
        ensures value { result.now ≡ self.now }
        ensures within { length self.now ≤ most_nodes }
    {
        self.nodes.as_slice()
    }

    /// The place of a node among the nodes on these days.
    pub fn place(&self, node: u32) -> u32
        requires { has_place self.now node ≡ true }
        ensures value { result ≡ place_among self.now node }
        ensures within { result < length self.now }
    {
        self.nodes.partition_point(|other| *other < node) as u32
    }
}

/// The names of the nodes and arcs of the part of a plant that is in service on the days from `first` to `last`, in order.
pub fn names_on(alloc: Global, site: &Site, first: i32, last: i32) -> Result<Names, AllocError>
    ensures value { IfOk result (λ names. names
        ≡ names_on (version_of site.now) site.now first last) }
    ensures part { IsPartOnDays (version_of site.now) site.now first last }
{
    match site.version() {
        Version::One => site.names(),
        Version::Two => {
            let part = OnDays::of(alloc, site, first, last)?;
            Ok(Names {
                nodes: node_names(alloc, site, part.nodes())?,
                streams: arc_names_on(alloc, site, first, last)?,
            })
        }
    }
}

// The names of nodes.
fn node_names(alloc: Global, site: &Site, nodes: &[u32]) -> Result<NameList, AllocError>
    requires { All (λ node. node < length (node_names site.now)) nodes.now }
    ensures { IfOk result (λ names. names ≡ map (name_at_node site.now) nodes.now) }
{
    let mut names = NameList::new(alloc);
    for node in nodes {
        names.push(site.node_name(*node))?;
    }
    Ok(names)
}

// The names of the arcs that are in service on these days.
fn arc_names_on(alloc: Global, site: &Site, first: i32, last: i32) -> Result<NameList, AllocError>
    ensures { IfOk result (λ names. names
        ≡ map (λ (arc : Arc). arc.name)
        (filter (is_arc_in_service first last) (arcs_of site.now))) }
{
    let mut names = NameList::new(alloc);
    for place in 0..site.arcs() {
        let arc = site.arc(place);
        if is_in_service_within(arc.service, first, last) {
            names.push(arc.name)?;
        }
    }
    Ok(names)
}

// For each node of the plant, whether it is one of the nodes on these days.
fn marks_on(alloc: Global, site: &Site, first: i32, last: i32) -> Result<Vec<bool>, AllocError>
    ensures marks { IfOk result (λ marks. MarksNodes (length (node_names site.now))
        (nodes_on (version_of site.now) site.now first last) marks.items) }
    ensures part { IsPartOnDays (version_of site.now) site.now first last }
{
    match site.version() {
        Version::One => vec![in alloc; true; site.nodes() as usize],
        Version::Two => ends_on(alloc, site, first, last),
    }
}

// For each node of the plant, whether it is an end of an arc that is in service on these days.
fn ends_on(alloc: Global, site: &Site, first: i32, last: i32) -> Result<Vec<bool>, AllocError>
    ensures { IfOk result (λ ends. AreEnds (length (node_names site.now))
        (filter (is_arc_in_service first last) (arcs_of site.now)) ends.items) }
{
    let mut ends = vec![in alloc; false; site.nodes() as usize]?;
    for place in 0..site.arcs() {
        let arc = site.arc(place);
        if is_in_service_within(arc.service, first, last) {
            mark(ends.as_mut_slice(), &arc);
        }
    }
    Ok(ends)
}

// Marks the ends of an arc.
fn mark(ends: &mut [bool], arc: &Arc)
    requires begins { arc.now.from < length ends.old }
    requires ends { arc.now.to < length ends.old }
    ensures { MarksEnds arc.now ends.old ends.new }
{
    ends[arc.from as usize] = true;
    ends[arc.to as usize] = true;
}

// The environment, and the other nodes that are marked, in order.
fn marked(alloc: Global, marks: &[bool]) -> Result<Vec<u32>, AllocError>
    requires some { 0 < length marks.now }
    requires few { length marks.now ≤ most_nodes }
    ensures { IfOk result (λ nodes. nodes.items ≡ marked_nodes marks.now) }
{
    let mut nodes = Vec::new(alloc);
    nodes.push(0)?;
    for node in 1..marks.len() {
        if marks[node] {
            nodes.push(node as u32)?;
        }
    }
    Ok(nodes)
}
