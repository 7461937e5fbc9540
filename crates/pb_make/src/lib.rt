//! Large valid sessions, made from a number.
//!
//! A line of units with side streams drawn by lot, whose true flows balance, and 30 daily readings of each meter with small errors. The
//! same number and count of streams give the same bytes in each run, and the book accepts each row.
#![tactic(auto)]

mod draws;
mod laws;
mod plant;
mod readings;
mod rows;
mod sessions;

pub use laws::{accepted_law, balance_law, count_law, metered_law, period_law, reads_back_law};
pub use sessions::make;
