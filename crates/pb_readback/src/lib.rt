//! Reports read back: the rows of a block as a stage, or the first row that doesn't have the form and its fault.
//!
//! A block is read row by row, each row by the columns of its kind (`pb_blocks`) and after the rows before it. Only the block that is
//! being read is kept.
#![tactic(auto)]

mod adding;
mod block;
mod draft;
mod faults;
mod laws;
mod reading;
mod written;

pub use block::Block;
pub use laws::{formed_law, join_law, next_law};
pub use reading::{ReadRefused, read};
pub use written::{passed_rows_law, row_text_law, row_words_law, study_rows_law, study_text_law};
