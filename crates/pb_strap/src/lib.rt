//! Strapping tables: the volume of a tank at a level, and the grams that it holds.
#![tactic(auto)]

mod laws;
mod strap;

pub use laws::tables_law;
pub use strap::{Point, Strap, StrapRefused};
