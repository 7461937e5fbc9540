//! The form of rows: what a column takes, which columns a kind of rows has, and rows read and written by them.
//!
//! A schema is the list of a kind's columns, the first of which holds the kind's word. A record is read by a schema to one value
//! for each column, or to its first fault in one order of faults; values are written by a schema to the only record that reads back
//! as them.
#![tactic(auto)]

mod column;
mod day;
mod fault;
mod field;
mod fields;
mod json;
mod laws;
mod output;
mod reading;
mod session;
mod table;
mod telling;
mod texts;
mod value;
mod words;
mod writing;

pub use column::{Column, Holds, Schema};
pub use fault::FormFault;
pub use fields::Fields;
pub use json::write_json;
pub use laws::{fitting_law, one_kind_law, one_record_law};
pub use output::{OutputKind, output_json, output_record, output_schema, output_word_law};
pub use reading::{read, read_columns};
pub use session::{
    SessionKind, is_of_kind, kind_of_version_1, kind_of_version_2, session_record, session_schema,
    session_schemas,
};
pub use telling::tell;
pub use texts::text_law;
pub use value::{ROOM, Value, Values};
pub use words::{
    CAUSE_WORDS, CLASS_WORDS, EDIT_WORDS, MEASURED_WORDS, PERIOD_WORDS, SHAPE_WORDS, STATE_WORDS,
    STOP_WORDS, TEST_WORDS, UNREAD_WORDS, VERDICT_WORDS,
};
pub use writing::write;
