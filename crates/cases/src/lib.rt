//! What the programs of cases share: the fields of a line, and an answer to each line of standard input.
#![tactic(auto)]

mod fields;
mod lines;

pub use fields::{append_word, field, fields_from, fields_of, row_of};
pub use lines::answer_lines;
