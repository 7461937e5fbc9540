//! What a record of a session asks for, and what a stored row does: records are read by the table of kinds, and effects are written
//! as records by it.
//!
//! A new kind of rows is a line of the table in `pb_form`, a line of `request_of` (in `specs/Requests.antt` and `reading.rt`), and an
//! arm of `write_effect`, if it is stored.
#![tactic(auto)]

mod costs;
mod facts;
mod laws;
mod reading;
mod rows;
mod there;
mod writing;

pub use costs::{NamedCost, NamedCosts};
pub use laws::{asking_law, named_costs_law, stored_law};
pub use pb_facts::Assay;
pub use reading::{read_reading, read_request};
pub use rows::{Edit, Effect, Request, StoredRow};
pub use writing::write_effect;
