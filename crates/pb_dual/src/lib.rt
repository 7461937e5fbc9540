//! Prices of groups of nodes, and sweeps of best prices that raise the dual value of weighted least squares.
//!
//! A price is half of what one more gram of imbalance at its node costs in weighted squares (Rockafellar, Network Flows and
//! Monotropic Optimization). The dual value of prices that fit is a lower bound on the weighted squares of every balanced vector,
//! and a sweep never lowers it.
#![tactic(auto)]

mod arithmetic;
mod best;
mod border;
mod dual;
pub mod laws;

pub use arithmetic::SCALE;
pub use dual::{Dual, dual_flow};
