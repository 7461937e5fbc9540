//! The solver: flows that belong to prices, the gap between them, the bounds that it gives, and the statistic.
//!
//! Prices that fit give a lower bound on the weighted squares of every balanced vector, their dual value. Flows whose weighted squares
//! are near it are near the least vector, and so is every vector no worse than they are. The gap says how near, and the bounds and the
//! statistic follow from it. The laws are the contracts of empty functions, which state them for the crates above.
#![tactic(auto)]

mod adjustments;
mod arithmetic;
mod deviations;
mod dual_flows;
mod flow_pair;
mod flows;
mod gap;
mod iterate;
mod laws;
mod least;
mod measurements;
mod nets;
mod solver;
mod sums;

pub use dual_flows::write_dual_flows;
pub use flow_pair::FlowPair;
pub use gap::Gap;
pub use laws::{
    duality_law, enclosure_law, gap_law, least_bounds_law, least_law, net_law, one_solution_law,
    one_state_law, outside_law, range_law, schwarz_law, solved_statistic_law, some_solution_law,
    some_state_law, statistic_law, stream_law, weight_law,
};
pub use measurements::standard_deviations;
pub use solver::Solver;
