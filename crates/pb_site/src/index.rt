// What is kept for look-ups, so that they don't walk through the declarations.

ghost use Rattle.std.specs.Prelude.{◌≡◌, ℕ, ◌<◌, ◌≤◌, ◌∷◌, ◌++◌, [], List, Option, Some, IsSomeAnd, if◌then◌else◌, true, false, length, position, OnOk, OnErr};
ghost use Rattle.std.specs.HashMap.{get, spare};
ghost use Rattle.indexmap.specs.IndexSet as set;
ghost use Rattle.pb_limits.specs.Limits.{most_nodes, most_units_and_tanks};
ghost use Rattle.pb_rows.specs.Name.{same_name};
ghost use Rattle.pb_site.specs.Row.{names_include, node_among};
ghost use Rattle.pb_site.specs.Kept.{CanAdd, HasRoom, IsNew, Notes, SameIndex, has_node, node_by, nodes_in, table_with};
ghost use Rattle.std.specs.Prelude.{codes};

use crate::declared::{Arc, ArcKind, Declared, Service, Version};
use indexmap::IndexSet;
use pb_rows::Name;
use pb_strap::Strap;
use std::alloc::{AllocError, Global};
use std::collections::HashMap;
use std::hash::Hash;

/// The version, the names of boundaries, units and tanks, the arcs and their names, the tables of the tanks and the critical values.
#[derive(Drop)]
pub struct Index {
    pub version: Version,
    pub boundaries: IndexSet<Name>,
    pub nodes: IndexSet<Name>,
    pub arc_names: IndexSet<Name>,
    pub arcs: Vec<Arc>,
    pub straps: HashMap<Name, Strap>,
    pub global: HashMap<u32, i64>,
    pub nodal: Option<i64>,
    pub measure: Option<i64>,
}

impl Index {
    /// Makes room for one more declaration, and changes nothing else.
    pub fn reserve(&mut self) -> Result<(), AllocError>
        ensures same { SameIndex self.old self.new }
        ensures room { OnOk result (HasRoom self.new) }
    {
        self.boundaries.reserve(1)?;
        self.nodes.reserve(1)?;
        self.arc_names.reserve(1)?;
        self.arcs.reserve(1)?;
        self.straps.reserve(1)?;
        self.global.reserve(1)
    }

    /// Notes a declaration whose names are new. After an `Err` (out of memory), everything is as it was.
    pub fn note(&mut self, alloc: Global, row: &Declared) -> Result<(), AllocError>
        requires room { HasRoom self.old }
        requires few { length self.old.nodes.keys ≤ most_units_and_tanks }
        requires new { IsNew self.old row.now }
        ensures ok { OnOk result (Notes self.old self.new row.now) }
        ensures err { OnErr result (SameIndex self.old self.new) }
    {
        match row {
            Declared::Version2 => self.version = Version::Two,
            Declared::Unit { name } => put_name(&mut self.nodes, *name),
            Declared::Boundary { name } => put_name(&mut self.boundaries, *name),
            Declared::Tank {
                name,
                base,
                service,
            } => {
                put_name(&mut self.nodes, *name);
                put_name(&mut self.arc_names, *name);
                put(&mut self.straps, *name, Strap::new(alloc));
                self.arcs
                    .push_reserved(inventory(&self.nodes, *name, *base, *service));
            }
            Declared::Strap { tank, mm, ml } => return add_point(&mut self.straps, tank, *mm, *ml),
            Declared::Stream {
                name,
                from,
                to,
                kind,
                base,
                service,
            } => {
                let arc = Arc {
                    name: *name,
                    from: self.end(from),
                    to: self.end(to),
                    kind: ArcKind::from(*kind),
                    base: *base,
                    service: *service,
                };
                put_name(&mut self.arc_names, *name);
                self.arcs.push_reserved(arc);
            }
            Declared::CritGlobal { dof, value } => put(&mut self.global, *dof, *value),
            Declared::CritNodal { value } => self.nodal = Some(*value),
            Declared::CritMeasure { value } => self.measure = Some(*value),
        }
        Ok(())
    }

    /// The node of a name; `None` iff no node has it.
    pub fn node_of(&self, name: &Name) -> Option<u32>
        requires { length self.now.nodes.keys ≤ most_units_and_tanks }
        ensures { result ≡ node_by self.now name.now }
    {
        if is_env(name) || self.boundaries.contains(name) {
            return Some(0);
        }
        match self.nodes.get_index_of(name) {
            Some(i) => Some(i as u32 + 1),
            None => None,
        }
    }

    // The node of a name that is known to belong to one.
    fn end(&self, name: &Name) -> u32
        requires few { length self.now.nodes.keys ≤ most_units_and_tanks }
        requires known { has_node self.now name.now ≡ true }
        ensures { result ≡ node_among self.now.boundaries.keys (nodes_in self.now) name.now }
    {
        self.node_of(name).unwrap()
    }
}

/// The environment's name.
pub fn env() -> Name
    ensures { result ≡ codes "env" }
{
    Name::read(b"env").unwrap()
}

/// Whether this is the environment's name.
pub fn is_env(name: &Name) -> bool
    ensures { result ≡ same_name name.now (codes "env") }
{
    name.bytes() == b"env".as_slice()
}

// The inventory stream of the last node, which is a tank.
fn inventory(nodes: &IndexSet<Name>, name: Name, base: i128, service: Option<Service>) -> Arc
    requires { length nodes.now.keys ≤ most_nodes }
    ensures { result ≡ record {
      name = name;
      from = length nodes.now.keys;
      to = 0;
      kind = ArcKind.Tank;
      base = base;
      service = service;
    } }
{
    Arc {
        name,
        from: nodes.len() as u32,
        to: 0,
        kind: ArcKind::Tank,
        base,
        service,
    }
}

// Puts a new name after the others.
fn put_name(names: &mut IndexSet<Name>, name: Name)
    requires room { 0 < set.spare names.old }
    requires new { names_include names.old.keys name ≡ false }
    ensures { names.new.keys ≡ names.old.keys ++ name ∷ [] }
{
    names.insert(name).unwrap();
}

// Puts an entry for which there is room.
fn put<K: Eq + Hash + Drop, V: Drop>(map: &mut HashMap<K, V>, key: K, value: V)
    requires { 0 < spare map.old }
    ensures { (q : K)
        → get K.eq map.new q ≡ (if K.eq key q then Some value else get K.eq map.old q) }
{
    let put: Result<_, _> = map.insert(key, value);
    put.unwrap();
}

// Adds a point to a tank's table. After an `Err` (out of memory), the tables are as they were.
fn add_point(
    straps: &mut HashMap<Name, Strap>,
    tank: &Name,
    mm: i64,
    ml: i64,
) -> Result<(), AllocError>
    requires { IsSomeAnd (get same_name straps.old tank.now) (CanAdd mm ml) }
    ensures ok { OnOk result ((name : List ℕ) → get same_name straps.new name
        ≡ table_with (Declared.Strap tank.now mm ml) name (get same_name straps.old name)) }
    ensures err { OnErr result ((name : List ℕ)
        → get same_name straps.new name ≡ get same_name straps.old name) }
{
    straps.get_mut(tank).unwrap().add(mm, ml)
}
