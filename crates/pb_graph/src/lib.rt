//! The process graph of a plant: its streams and nodes, what certificates are made of, groups of nodes, and laws of balanced flow vectors.
//!
//! Nodes are units and tanks, arcs are streams, and node 0 is the environment `env`, which closes the graph
//! (Mah, Stanley and Downing 1976; Narasimhan and Jordache, "Data Reconciliation and Gross Error Detection").
#![tactic(auto)]

mod balance;
mod cut;
mod cycle;
mod graph;
mod groups;
mod laws;
mod list;
mod merge;
mod neighbours;
mod numbers;
mod parts;
mod prices;
mod records;
mod search;
mod variance;
mod well_formed;

pub use cut::boundary;
pub use graph::Graph;
pub use groups::Groups;
pub use laws::{
    boundary_sum_law, certificate_form_law, certificate_law, closed_set_law, crossing_law, cut_law,
    cycle_law, determined_law, env_balance_law, free_law, labels_law, more_streams_law,
    numbering_law, one_class_law, priced_sum_law, reach_law, some_groups_law, walks_law,
};
pub use list::List;
pub use neighbours::Neighbours;
pub use parts::Parts;
pub use pb_limits::{MOST_NODES, MOST_STREAMS};
pub use prices::{MOST_ADJUSTMENT, MOST_PRICE, price_limits_law};
pub use records::{Class, Classified, Meas, Member, Step, Stream, Witness};
pub use search::{forward_then, path, reach};
