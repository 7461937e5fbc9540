//! Windows: several consecutive periods reconciled at once, with what each tank holds between two of them as a stream.
//!
//! A window's graph has a copy of the plant for each of its periods. The content of a tank at the end of a period leads from the
//! tank's node in that period to its node in the next one (dynamic data reconciliation by a balance over each interval;
//! Narasimhan and Jordache, "Data Reconciliation and Gross Error Detection", chapter 6).
//!
//! The laws are the contracts of empty functions, which state them for the crates above.
#![tactic(auto)]

mod codes;
mod contents;
mod flows;
mod graph;
mod laws;
mod names;
mod nodes;
mod plant;
mod window;

pub use codes::{node_code, stream_code};
pub use graph::{WindowAssembly, window_graph};
pub use laws::{window_form_law, window_law, window_names_law, window_places_law};
pub use names::{WindowPlace, window_names, window_places};
pub use plant::{Plant, PlantArc, Service, Span, is_plant};
pub use window::{Source, Window, WindowFault, WindowNode, WindowStream, window_of};
