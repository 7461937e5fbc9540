//! The cheapest metering of a process graph: which unmeasured streams to meter, so that every stream is observable at least
//! cost (Narasimhan and Jordache, "Data Reconciliation and Gross Error Detection", chapter 10).
//!
//! The laws are the contracts of empty functions, which state them for the crates above.
#![tactic(auto)]

mod advice;
mod choice;
mod laws;
mod limits;
mod metered;
mod order;

pub use advice::{Advice, Meter, advise};
pub use laws::{
    advice_form_law, cheapest_law, cost_limit_law, cycles_law, one_advice_law, some_advice_law,
    suffices_law,
};
pub use limits::MOST_COST;
