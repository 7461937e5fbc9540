// The groups of the nodes of a graph.

ghost use Rattle.std.specs.Prelude.{◌≡◌, ℕ, ◌<◌, ◌≤◌, false, pos, ◌≤ℤ◌, length, get_or, IfOk};
ghost use Rattle.pb_graph.specs.ProcessGraph.{IsProcessGraph};
ghost use Rattle.pb_graph.specs.Groups.{group_at, group_count};
ghost use Rattle.pb_graph.specs.Variance.{most_group_variance};
ghost use Rattle.pb_graph.specs.Grouping.{AreGroupsOf, least_at};

use crate::graph::Graph;
use crate::merge::unmeasured_parts;
use crate::numbers::{Numbers, number_all};
use crate::variance::{free_groups, variances};
use std::alloc::{AllocError, Global};
use std::marker::Model;

/// The groups of the nodes of a graph: two nodes are in the same group if unmeasured streams join them, directly or by way of
/// other nodes. Groups are numbered from 0 in the order of their least nodes, so group 0 is the group of the environment.
#[derive(Debug, Drop)]
pub struct Groups {
    group: Vec<u32>,
    least: Vec<u32>,
    free: Vec<bool>,
    variance: Vec<i128>,
}

impl Model for Groups {
    ghost use Rattle.pb_graph.specs.Grouping.{Grouping, IsGrouping};

    ghost Value = { Grouping };

    ghost view = { λ a. record {
      group = a.group.items;
      least = a.least.items;
      free = a.free.items;
      variance = a.variance.items;
    } };

    ghost invariant = { λ a. IsGrouping (record {
      group = a.group.items;
      least = a.least.items;
      free = a.free.items;
      variance = a.variance.items;
    }) };
}

impl Groups {
    /// The groups of a graph.
    pub fn of(alloc: Global, graph: &Graph) -> Result<Groups, AllocError>
        ensures limits { IsProcessGraph graph.now }
        ensures groups { IfOk result (AreGroupsOf graph.now) }
    {
        let parts = unmeasured_parts(alloc, graph.nodes(), graph.streams())?;
        let Numbers { group, least } = number_all(alloc, parts.labels())?;
        let variance = variances(alloc, least.len(), &group, graph.streams())?;
        let free = free_groups(alloc, &variance)?;
        Ok(Groups {
            group,
            least,
            free,
            variance,
        })
    }

    /// The number of groups.
    pub fn count(&self) -> u32
        ensures { result ≡ group_count self.now.group }
    {
        self.least.len() as u32
    }

    /// The number of a node's group.
    pub fn group(&self, node: u32) -> u32
        requires { node < length self.now.group }
        ensures value { result ≡ group_at self.now.group node }
        ensures within { result < group_count self.now.group }
    {
        self.group[node as usize]
    }

    /// The number of each node's group.
    pub fn numbers(&self) -> &[u32]
        ensures { result.now ≡ self.now.group }
    {
        self.group.as_slice()
    }

    /// The least node of a group.
    pub fn least(&self, group: u32) -> u32
        requires { group < group_count self.now.group }
        ensures { result ≡ least_at self.now.least group }
    {
        self.least[group as usize]
    }

    /// Whether a group is free: it isn't the group of the environment, and some stream has exactly one end in it.
    pub fn free(&self, group: u32) -> bool
        requires { group < group_count self.now.group }
        ensures { result ≡ get_or self.now.free group false }
    {
        self.free[group as usize]
    }

    /// The sum of the variances of the streams with exactly one end in a group, in squared grams.
    pub fn variance(&self, group: u32) -> i128
        requires { group < group_count self.now.group }
        ensures value { result ≡ get_or self.now.variance group (pos 0) }
        ensures least { pos 0 ≤ℤ result }
        ensures greatest { result ≤ℤ pos most_group_variance }
    {
        self.variance[group as usize]
    }
}
