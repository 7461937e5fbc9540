//! The graph of the declared plant before any reading, that of a period, and that of a window of several periods: what meters,
//! transfers and dips measured.
//!
//! Amounts are grams and variances are squared grams.
#![tactic(auto)]

mod amount;
mod days;
mod graph;
mod laws;
mod measured;
mod transfers;
mod window;

pub use days::Days;
pub use graph::{Assembly, assemble, design, names};
pub use laws::{
    agreeing_law, closed_graphs_law, graphs_law, plain_graphs_law, untouched_law, window_graphs_law,
};
pub use window::{assemble_window, names_of_periods};
