//! The facts of a plant: readings, transfers and dips, kept in the order in which they were added; and its assays, which give the grades
//! of components.
//!
//! Days are counted from 1970-01-01. Amounts are grams and variances are squared grams. An assay's grade is a value of its own.
#![tactic(auto)]

mod assays;
mod fact;
mod facts;
mod grade;
mod laws;
mod places;
mod shares;
mod shelf;

pub use assays::{Assay, Assays, MOST_ASSAYS};
pub use fact::{Change, Fact, FactFault};
pub use facts::{Facts, KeptFact};
pub use grade::Grade;
pub use laws::{most_assays_law, shares_law};
pub use shares::share;
