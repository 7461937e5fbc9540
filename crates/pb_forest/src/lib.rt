//! The spanning forest of a process graph: which streams it holds, its degrees of freedom, its paths, the balanced
//! flows that it completes, and its laws.
//!
//! The laws are the contracts of empty functions, which state them for the crates above.
#![tactic(auto)]

mod branches;
mod chords;
mod climb;
mod flows;
mod forest;
mod labels;
mod laws;
mod rank;
mod trees;

pub use forest::Forest;
pub use laws::{
    acyclic_law, chord_law, few_held_law, one_balanced_law, one_forest_law, part_law,
    some_balanced_law, some_forest_law, some_path_law, spans_law, unique_law,
};
