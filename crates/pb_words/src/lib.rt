//! The words of a command line, and the command that they give.
//!
//! [`words_of`] takes the words out of the system's arguments. [`read_words`] reads them as `clap` takes them apart: the mode,
//! flags, and options with their values. Numbers are read as in the fields of rows.
#![tactic(auto)]

mod args;
mod command;
mod laws;
mod line;
mod words;

pub use args::{refused_args, words_of};
pub use command::{Command, WordsRefused, read_words};
pub use laws::{clap_law, one_command_law};
pub use words::Words;
