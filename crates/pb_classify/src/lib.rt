//! The class of each stream of a process graph, according to what the balances determine, with its canonical certificate: a cut for a
//! stream that the measured flows determine, and a cycle for any other (Narasimhan and Jordache, "Data Reconciliation and Gross Error
//! Detection", chapter 3).
#![tactic(auto)]

mod classes;
mod cuts;
mod cycles;
mod laws;
mod points;
mod spans;
mod walk;

pub use classes::{classify, classify_in};
pub use cuts::Cuts;
pub use laws::{alike_law, one_classification_law, points_law, some_classification_law};
pub use points::Points;
