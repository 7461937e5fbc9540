//! What C reads of a book: the plant, the periods, the facts with their edits, each by its place, as a struct of numbers and names;
//! and lists of names.
//!
//! A struct is laid out as C has it. A name is its bytes with zeros after them, so it ends as a text of C does; a number of more than
//! 64 bits is two words.
#![tactic(auto)]

mod edits;
mod facts;
mod named;
mod names;
mod numbers;
mod periods;
mod plant;
mod texts;

pub use edits::{PlantbalEdit, edit_at, edit_touches};
pub use facts::{PlantbalFact, fact_at, fact_touches};
pub use named::{fact_named, node_named, period_named, stream_named};
pub use names::{PlantbalName, write_names};
pub use numbers::{PlantbalCounts, PlantbalWide, counts_of, wide_of};
pub use periods::{PlantbalPeriod, period_at};
pub use plant::{PlantbalNode, PlantbalStream, node_at, stream_at};
