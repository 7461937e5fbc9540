//! The judgement of reports by their own numbers, wherever they came from.
//!
//! [`judge_next`] reads the next block of a report, judges it, and gives its row: `yes`, or `no` with the first test that it fails. At a
//! row that can't be read it gives `unreadable`, and nothing is judged after it. Only the current block is kept.
#![tactic(auto)]

mod judge;
mod laws;
mod rows;

pub use judge::{Judged, judge_next};
pub use laws::{certified_law, findings_law, passed_law};
