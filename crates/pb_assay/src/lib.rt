//! The balance of one component in a period of a book: the component graph, by what a stage of the period's study prints and by the assays
//! of the component in the period.
#![tactic(auto)]

mod balance;

pub use balance::component;
