//! Groups of nodes that unmeasured streams join.
//!
//! They are in `pb_graph`, since walks and forests use them too, and are handed on here under the name of what they are for.
#![tactic(auto)]

pub use pb_graph::Groups;
