//! What C calls for a study: a process graph that is handed over in arrays is reconciled, and what the study says is read back.
//!
//! The study is held by a handle, two words that C keeps and never copies. Each export answers with a status, and says the same of what
//! it did as the call below it. Studies are those of `pb_elim`, with which reports are made too.
#![tactic(auto)]

mod handle;
mod opened;
mod reads;
mod status;
mod studies;

pub use handle::StudyHandle;
