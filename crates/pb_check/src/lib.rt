//! Judging: a stage of a study, wherever it came from, is checked by its own numbers.
//!
//! Thirteen tests are made in order, each over all nodes, streams or rows in order. The answer is that the stage passes all of them, or the
//! first failure: its test, its place, what is stated there, and what the rule gives. How the stage was made doesn't matter: any true
//! certificate, any balanced flows and any fitting prices will do.
#![tactic(auto)]

mod balance;
mod bounds;
mod boxes;
mod classes;
mod faults;
mod flows;
mod freedom;
mod graphs;
mod judge;
mod laws;
mod least;
mod numbers;
mod prices;
mod rows;
mod verdicts;

pub use faults::{CheckFault, Fault, Place, Test};
pub use judge::check;
pub use laws::{right_law, solved_law, sound_law};
pub use verdicts::{one_verdict_law, place_law, some_verdict_law};
