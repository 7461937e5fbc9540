//! The tests of a stage: of the whole graph, of a group of nodes and of one measurement.
//!
//! They are in `pb_stage`, which says what a stage with tests promises, and are handed on here under the name of what they are for.
#![tactic(auto)]

pub use pb_stage::{global, measure, nodal};
