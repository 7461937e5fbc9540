//! The book of a session: each row is accepted or refused, in one order of causes, and a refused row changes nothing.
//!
//! A record is read by `pb_kinds`, and then judged by what it does (its effect), given the rows stored before it.
#![tactic(auto)]

mod answer;
mod book;
mod costs;
mod judge;
mod laws;
mod originals;
mod plain;
mod rows;
mod shelves;

pub use answer::{Accepted, NotAccepted, Refused};
pub use book::Book;
pub use laws::{
    accepted_law, asked_window_law, book_windows_law, grades_law, live_law, meter_costs_law,
    named_law, plain_law, ranges_law, touched_law, version_one_law,
};
pub use pb_periods::Period;
