//! Rows of a session and of a report: records and their fields in, rows out.
//!
//! A record is what `csv` reads by its own definition of reading (flexible, without headers, without trimming, a byte order
//! mark removed from the front); a row is written as `csv` writes it and ended by a line feed.
//! Fields are read exactly: names, reasons, whole numbers and civil dates.
#![tactic(auto)]

mod date;
mod laws;
mod name;
mod number;
mod reason;
mod records;
mod row;
mod writer;

pub use date::read_date;
pub use laws::{date_text_law, number_text_law, reason_limit_law, written_rows_law};
pub use name::{Name, NameList, Names};
pub use number::{read_whole, whole_bytes};
pub use reason::{MOST_REASON, Reason};
pub use records::{Records, Rows};
pub use row::Row;
pub use writer::RowWriter;
