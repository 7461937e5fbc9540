//! What C calls: a run, a check, and a session that takes records one block after another.
//!
//! Everything is held by a handle, two words that C keeps and never copies. While its flag is set, the handle owns a session and the
//! output that C hasn't taken yet. Each export answers with a status, and says the same of what it did as the call below it.
//! Records are judged by `pb_session`, runs and checks are those of `pb_cli`.
#![tactic(auto)]

mod apart;
mod blocks;
mod fields;
mod graphs;
mod handle;
mod looks;
mod made;
mod opened;
mod options;
mod runs;
mod sessions;
mod status;
mod text_sink;

pub use graphs::PlantbalGraphSize;
pub use handle::SessionHandle;
pub use options::PlantbalOptions;
