//! A session: records in, one at a time, and the rows that each record adds to the output.
//!
//! The book accepts or refuses each record. A `design` row writes the class of each stream of the declared plant, an `advise` row
//! its cheapest metering, a `report` row the report of a period as it is now, a `window` row that of several periods at once, a
//! `component` row the balance of a component in a period, and a `history` row the edits that touch a period. A refused record
//! writes its cause, and the session goes on after it.
#![tactic(auto)]

mod classes;
mod criticals;
mod history;
mod kept;
mod laws;
mod session;

pub use laws::{
    agreeing_report_law, criticals_law, edited_file_law, kept_law, left_out_law, one_text_law,
    some_text_law, version_one_text_law,
};
pub use session::Session;
