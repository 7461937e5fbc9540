// The declared plant.

ghost use Rattle.std.specs.Prelude.{◌≡◌, ◌≤◌, ◌<◌, ◌∷◌, ◌++◌, [], length, Option, Some, None, IfOk, OnOk, OnErr, IsTrue, ◌↔◌, nat_le, position, slice_get, option_and_then, option_copied};
ghost use Rattle.pb_limits.specs.Limits.{most_boundaries, most_nodes, most_streams};
ghost use Rattle.pb_rows.specs.Name.{same_name};
ghost use Rattle.pb_site.specs.Row.{IsDeclaredInRange};
ghost use Rattle.pb_site.specs.Laws.{IsDeclaredPlant};
ghost use Rattle.pb_site.specs.Site.{HasDistinctNames, IsArc, arc_named, arc_names, arcs_of, boundary_names, global_of, is_tank, kind_of, measure_of, names_of, nodal_of, node_names, node_of, service_in, table_of, table_of_arc, version_of};
ghost use Rattle.pb_site.specs.Faults.{has_most_arcs, has_most_nodes, is_declaration_out_of_order, is_duplicate_declaration, is_mismatched_declaration, is_node, is_one_node, is_plant_full, is_taken, most_arcs, refers_to_unknown, site_fault_of};

use crate::declared::{Arc, ArcKind, Declared, Service, SiteFault, Version};
use crate::index::{Index, env, is_env};
use crate::service::is_reversed;
use indexmap::IndexSet;
use pb_limits::{MOST_BOUNDARIES, MOST_STREAMS, MOST_STREAMS_OF_VERSION_1, MOST_UNITS_AND_TANKS};
use pb_rows::{Name, NameList, Names};
use pb_strap::Strap;
use std::alloc::{AllocError, Global};
use std::collections::HashMap;
use std::marker::Model;

/// The declared plant: the declarations in order.
#[derive(Drop)]
pub struct Site {
    alloc: Global,
    declared: Vec<Declared>,
    index: Index,
}

impl Model for Site {
    ghost use Rattle.std.specs.Prelude.{List};
    ghost use Rattle.pb_site.specs.declared.declared.Declared.{Declared};
    ghost use Rattle.pb_site.specs.Kept.{IsKept};

    ghost Value = { List Declared };

    ghost view = { λ a. a.declared.items };

    ghost invariant = { λ a. IsKept a.declared.items a.index };
}

impl Site {
    /// A plant without declarations.
    pub fn new(alloc: Global) -> Site
        ensures { result ≡ [] }
    {
        Site {
            alloc,
            declared: Vec::new(alloc),
            index: Index {
                version: Version::One,
                boundaries: IndexSet::new(alloc),
                nodes: IndexSet::new(alloc),
                arc_names: IndexSet::new(alloc),
                arcs: Vec::new(alloc),
                straps: HashMap::new(alloc),
                global: HashMap::new(alloc),
                nodal: None,
                measure: None,
            },
        }
    }

    /// The first fault of a new declaration, in the order Unknown, Duplicate, Order, Mismatch, Full; `None` iff it has no fault.
    pub fn judge(&self, row: &Declared) -> Option<SiteFault>
        ensures { result ≡ site_fault_of (version_of self.now) self.now row.now }
    {
        if self.is_unknown(row) {
            Some(SiteFault::Unknown)
        } else if self.is_duplicate(row) {
            Some(SiteFault::Duplicate)
        } else if self.is_out_of_order(row) {
            Some(SiteFault::Order)
        } else if self.is_mismatch(row) {
            Some(SiteFault::Mismatch)
        } else if self.is_full(row) {
            Some(SiteFault::Full)
        } else {
            None
        }
    }

    /// Adds a declaration that has no fault. After an `Err` (out of memory), the plant is as it was.
    pub fn add(&mut self, row: Declared) -> Result<(), AllocError>
        requires in_range { IsDeclaredInRange row }
        requires no_fault { site_fault_of (version_of self.old) self.old row ≡ None }
        ensures added { OnOk result (self.new ≡ self.old ++ row ∷ []) }
        ensures unchanged { OnErr result (self.new ≡ self.old) }
    {
        self.declared.reserve(1)?;
        self.index.reserve()?;
        self.index.note(self.alloc, &row)?;
        self.declared.push_reserved(row);
        Ok(())
    }

    /// The declarations in order.
    pub fn declared(&self) -> &[Declared]
        ensures value { result.now ≡ self.now }
        ensures plant { IsDeclaredPlant self.now }
    {
        self.declared.as_slice()
    }

    /// The number of declarations.
    pub fn len(&self) -> usize
        ensures { result ≡ length self.now }
    {
        self.declared.len()
    }

    /// Whether nothing is declared yet.
    pub fn is_empty(&self) -> bool
        ensures { IsTrue result ↔ (self.now ≡ []) }
    {
        self.declared.is_empty()
    }

    /// The version of the session, which only the first declaration can state.
    pub fn version(&self) -> Version
        ensures value { result ≡ version_of self.now }
        ensures plant { IsDeclaredPlant self.now }
    {
        self.index.version
    }

    /// Whether the session is of version 2: whether `Version2` was added.
    pub fn version2(&self) -> bool
        ensures { IsTrue result ↔ (version_of self.now ≡ Version.Two) }
    {
        matches!(self.index.version, Version::Two)
    }

    /// The number of nodes: the environment, the units and the tanks.
    pub fn nodes(&self) -> u32
        ensures value { result ≡ length (node_names self.now) }
        ensures within { result ≤ most_nodes }
    {
        self.index.nodes.len() as u32 + 1
    }

    /// The name of a node: the environment's, a unit's or a tank's.
    pub fn node_name(&self, node: u32) -> Name
        requires { node < length (node_names self.now) }
        ensures { slice_get (node_names self.now) node ≡ Some result }
    {
        if node == 0 {
            return env();
        }
        self.index.nodes.as_slice()[node as usize - 1]
    }

    /// The number of arcs: the streams and the tanks.
    pub fn arcs(&self) -> u32
        ensures value { result ≡ length (arcs_of self.now) }
        ensures within { result ≤ most_streams }
    {
        self.index.arcs.len() as u32
    }

    /// The arc at a place, counted from 0 in the order of declaration.
    pub fn arc(&self, place: u32) -> Arc
        requires { place < length (arcs_of self.now) }
        ensures value { slice_get (arcs_of self.now) place ≡ Some result }
        ensures joins { IsArc (length (node_names self.now)) result }
    {
        self.index.arcs[place as usize]
    }

    /// The strapping table of the arc at a place; `None` iff the arc isn't a tank's inventory.
    pub fn strap(&self, place: u32) -> Option<&Strap>
        requires { place < length (arcs_of self.now) }
        ensures { option_copied result
            ≡ option_and_then (table_of_arc self.now) (slice_get (arcs_of self.now) place) }
    {
        let arc = &self.index.arcs[place as usize];
        match arc.kind {
            ArcKind::Tank => self.strap_of(&arc.name),
            _ => None,
        }
    }

    /// The node of a name; 0 for a boundary, and `None` iff no node has the name.
    pub fn node_of(&self, name: &Name) -> Option<u32>
        ensures { result ≡ node_of self.now name.now }
    {
        self.index.node_of(name)
    }

    /// The arc of a name; `None` iff no arc has it.
    pub fn arc_of(&self, name: &Name) -> Option<u32>
        ensures { result ≡ position (same_name name.now) (arc_names self.now) }
    {
        match self.index.arc_names.get_index_of(name) {
            Some(i) => Some(i as u32),
            None => None,
        }
    }

    /// The kind of the arc of a name: that of a stream, or a tank's inventory; `None` iff no arc has the name.
    pub fn kind_of(&self, name: &Name) -> Option<ArcKind>
        ensures { result ≡ kind_of self.now name.now }
    {
        match self.arc_named(name) {
            Some(arc) => Some(arc.kind),
            None => None,
        }
    }

    /// The days on which the stream or tank of a name is in service; `None` in version 1, if its row has no such days, or if there
    /// is no stream or tank of this name.
    pub fn service_of(&self, name: &Name) -> Option<Service>
        ensures { result ≡ service_in (version_of self.now) self.now name.now }
    {
        match self.index.version {
            Version::One => None,
            Version::Two => self.arc_named(name)?.service,
        }
    }

    /// Whether a tank of the name is declared.
    pub fn is_tank(&self, name: &Name) -> bool
        ensures { result ≡ is_tank self.now name.now }
    {
        self.index.straps.contains_key(name)
    }

    /// The strapping table of the tank of a name; `None` iff no tank has it.
    pub fn strap_of(&self, name: &Name) -> Option<&Strap>
        ensures { option_copied result ≡ table_of self.now name.now }
    {
        self.index.straps.get(name)
    }

    /// The critical value of the global test with these degrees of freedom; `None` iff none was declared.
    pub fn global(&self, dof: u32) -> Option<i64>
        ensures { result ≡ global_of self.now dof }
    {
        self.index.global.get(&dof).copied()
    }

    /// The critical value of the nodal tests; `None` iff none was declared.
    pub fn nodal(&self) -> Option<i64>
        ensures { result ≡ nodal_of self.now }
    {
        self.index.nodal
    }

    /// The critical value of the measurement tests; `None` iff none was declared.
    pub fn measure(&self) -> Option<i64>
        ensures { result ≡ measure_of self.now }
    {
        self.index.measure
    }

    /// The names of the nodes and arcs. No two nodes have the same name (the environment counts as one), and no two arcs; nor have
    /// any two units, boundaries, tanks or streams.
    pub fn names(&self) -> Result<Names, AllocError>
        ensures ok { IfOk result (λ names. names ≡ names_of self.now) }
        ensures distinct { HasDistinctNames self.now }
    {
        let mut names = Names {
            nodes: NameList::new(self.alloc),
            streams: NameList::new(self.alloc),
        };
        names.nodes.push(env())?;
        push_all(&mut names.nodes, self.index.nodes.as_slice())?;
        push_all(&mut names.streams, self.index.arc_names.as_slice())?;
        Ok(names)
    }

    // The arc of a name.
    fn arc_named(&self, name: &Name) -> Option<Arc>
        ensures { result ≡ arc_named self.now name.now }
    {
        match self.index.arc_names.get_index_of(name) {
            Some(i) => Some(self.index.arcs[i]),
            None => None,
        }
    }

    // Whether a point names a tank that isn't declared, or an end of a stream isn't a node.
    fn is_unknown(&self, row: &Declared) -> bool
        ensures { result ≡ refers_to_unknown self.now row.now }
    {
        match row {
            Declared::Strap { tank, .. } => !self.is_tank(tank),
            Declared::Stream { from, to, .. } => !self.is_node(from) || !self.is_node(to),
            _ => false,
        }
    }

    // Whether the name is taken, that critical value is already declared, or the version isn't the first declaration.
    fn is_duplicate(&self, row: &Declared) -> bool
        ensures { result ≡ is_duplicate_declaration self.now row.now }
    {
        match row {
            Declared::Version2 => !self.declared.is_empty(),
            Declared::Unit { name } => self.is_taken(name),
            Declared::Boundary { name } => self.is_taken(name),
            Declared::Tank { name, .. } => self.is_taken(name),
            Declared::Stream { name, .. } => self.is_taken(name),
            Declared::Strap { .. } => false,
            Declared::CritGlobal { dof, .. } => self.global(*dof).is_some(),
            Declared::CritNodal { .. } => self.nodal().is_some(),
            Declared::CritMeasure { .. } => self.measure().is_some(),
        }
    }

    // Whether a point can't follow the last one of its table, or the last day in service comes before the first.
    fn is_out_of_order(&self, row: &Declared) -> bool
        ensures { result ≡ is_declaration_out_of_order self.now row.now }
    {
        match row {
            Declared::Strap { tank, mm, ml } => match self.index.straps.get(tank) {
                Some(strap) => !strap.rises(*mm, *ml),
                None => false,
            },
            Declared::Tank { service, .. } => is_reversed(*service),
            Declared::Stream { service, .. } => is_reversed(*service),
            _ => false,
        }
    }

    // Whether there are already as many units and tanks, boundaries, streams and tanks, or points of the table as are allowed.
    fn is_full(&self, row: &Declared) -> bool
        ensures { result ≡ is_plant_full (version_of self.now) self.now row.now }
    {
        match row {
            Declared::Unit { .. } => self.has_most_nodes(),
            Declared::Boundary { .. } => self.has_most_boundaries(),
            Declared::Tank { .. } => self.has_most_nodes() || self.has_most_arcs(),
            Declared::Stream { .. } => self.has_most_arcs(),
            Declared::Strap { tank, .. } => match self.index.straps.get(tank) {
                Some(strap) => strap.is_full(),
                None => false,
            },
            _ => false,
        }
    }

    // Whether a stream leads from a node to itself.
    fn is_mismatch(&self, row: &Declared) -> bool
        ensures { result ≡ is_mismatched_declaration self.now row.now }
    {
        match row {
            Declared::Stream { from, to, .. } => is_one_node(self.node_of(from), self.node_of(to)),
            _ => false,
        }
    }

    // Whether there are already as many units and tanks as are allowed.
    fn has_most_nodes(&self) -> bool
        ensures { result ≡ has_most_nodes self.now }
    {
        self.index.nodes.len() >= MOST_UNITS_AND_TANKS
    }

    // Whether there are already as many boundaries as are allowed.
    fn has_most_boundaries(&self) -> bool
        ensures { result ≡ nat_le most_boundaries (length (boundary_names self.now)) }
    {
        self.index.boundaries.len() >= MOST_BOUNDARIES
    }

    // Whether there are already as many streams and tanks as are allowed.
    fn has_most_arcs(&self) -> bool
        ensures { result ≡ has_most_arcs (version_of self.now) self.now }
    {
        self.index.arcs.len() >= most_arcs(self.index.version)
    }

    // Whether a name belongs to the environment or to a declared boundary, unit or tank.
    fn is_node(&self, name: &Name) -> bool
        ensures { result ≡ is_node self.now name.now }
    {
        self.index.boundaries.contains(name) || is_env(name) || self.index.nodes.contains(name)
    }

    // Whether a name belongs to the environment or to a declared boundary, unit, tank or stream.
    fn is_taken(&self, name: &Name) -> bool
        ensures { result ≡ is_taken self.now name.now }
    {
        self.is_node(name) || self.index.arc_names.contains(name)
    }
}

// The most streams and tanks that a plant of this version can have.
fn most_arcs(version: Version) -> usize
    ensures { result ≡ most_arcs version }
{
    match version {
        Version::One => MOST_STREAMS_OF_VERSION_1,
        Version::Two => MOST_STREAMS,
    }
}

// Whether both ends are known, and are the same node.
fn is_one_node(from: Option<u32>, to: Option<u32>) -> bool
    ensures { result ≡ is_one_node from to }
{
    match (from, to) {
        (Some(from), Some(to)) => from == to,
        _ => false,
    }
}

// Appends names.
fn push_all(list: &mut NameList, names: &[Name]) -> Result<(), AllocError>
    ensures { OnOk result (list.new ≡ list.old ++ names.now) }
{
    for name in names {
        list.push(*name)?;
    }
    Ok(())
}
