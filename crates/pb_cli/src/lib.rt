//! The top call: the program from its arguments to its exit status, and a session from bytes to bytes.
//!
//! [`run_program`] takes the arguments of the program and its three ends, and reports on the third how it ended. [`run`] reads the
//! words of its command, then a source to its end. [`answer`] takes the records of its bytes one by one and writes what each adds
//! to the output before it takes the next; [`judge`] does the same with the blocks of a report. [`summary`] makes a session from a
//! number, and returns the row that sums up its study. A run ends with one of seven statuses, each with its own cause.
#![tactic(auto)]

mod answers;
mod checks;
mod laws;
mod making;
mod program;
mod runs;
mod status;
mod texts;

pub use answers::answer;
pub use checks::judge;
pub use laws::{
    check_text_law, one_summary_law, own_law, own_reports_law, run_text_law, some_summary_law,
};
pub use pb_words::{Command, Words, WordsRefused, read_words};
pub use program::run_program;
pub use runs::run;
pub use status::Status;
pub use texts::summary;
