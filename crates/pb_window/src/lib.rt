//! The window between two periods of a book: its graph, the names of the graph's nodes and streams, and what these names stand for.
#![tactic(auto)]

mod between;

pub use between::{code_of, places, window};
pub use pb_plan::WindowPlace;
