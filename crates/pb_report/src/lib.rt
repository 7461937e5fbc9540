//! The rows of a session's output: refused records, the classes of a design, advice, reports, balances of components, windows,
//! histories of periods, and summaries.
//!
//! Each call appends whole rows to `out`, in a form. If it runs out of memory, `out` is as it was.
//! A row is a kind and its values, one for each column of the kind; pb_form has the columns, and one function writes rows in a form.
#![tactic(auto)]

mod advice;
mod block;
mod certificate;
mod component;
mod design;
mod form;
mod history;
mod output;
mod over;
mod parts;
mod refused;
mod study;
mod summary;
mod values;
mod verdicts;
mod window;

pub use advice::write_advise;
pub use component::write_component;
pub use design::write_design;
pub use form::{Form, write_row};
pub use history::{edit_words_law, write_history};
pub use over::write_over;
pub use refused::write_refused;
pub use study::write_study;
pub use summary::write_summary;
pub use window::write_window;
