//! The balance of one component, such as copper, on the printed flows of a period: the component graph, whose streams are measured
//! by what their flows carry of the component.
//!
//! Flows are reconciled first and count as exact here. A bilinear reconciliation adjusts flows and grades at once
//! (Narasimhan and Jordache, "Data Reconciliation and Gross Error Detection", chapter 4).
//!
//! The laws are the contracts of empty functions, which state them for the crates above.
#![tactic(auto)]

mod carried;
mod component;
mod laws;

pub use carried::carried_by;
pub use component::{ComponentFault, component_graph};
pub use laws::{component_form_law, component_law, error_law, first_over_law};
