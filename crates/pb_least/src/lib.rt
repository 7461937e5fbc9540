//! Least vectors: each process graph has one, and they differ only on streams about which the measurements say nothing.
//!
//! The functions are empty: the contract of each is a law.
#![tactic(auto)]

mod laws;

pub use laws::{one_least_law, some_least_law};
