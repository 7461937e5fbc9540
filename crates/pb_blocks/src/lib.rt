//! The rows of a block of a report, one at a time: which kind a row is of, what it says, and what may be wrong with it.
//!
//! A row is read by its columns (`pb_form`). Its names and lists are looked up among the names of the nodes and streams before it.
#![tactic(auto)]

mod beside;
mod fault;
mod heading;
mod items;
mod kinds;
mod known;
mod laws;
mod lists;
mod results;
mod rows;
mod texts;
mod values;

pub use beside::{
    has_bad_list, has_bad_list_beside, has_unknown_node, is_half_told, is_round, is_word,
    leads_to_itself,
};
pub use fault::{RowFault, lowest};
pub use heading::heading_in;
pub use kinds::{is_passed_over, kind_among};
pub use known::Known;
pub use laws::row_read_law;
pub use results::{result_beside, result_of};
pub use rows::{Heading, Solution, StreamRow};
pub use texts::name_field;
pub use values::{
    number, said_arc, said_global, said_measure, said_nodal, said_solution, said_stream,
};
