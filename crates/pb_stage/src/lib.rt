//! A stage of a study as it is printed: what it shows, and what it promises to whoever reads it, whatever made it; and its gross error
//! tests: global, nodal, and of each measurement. Each test decides only if the ends of its statistic do.
//!
//! A rejection holds for every balanced vector, and an acceptance for the printed flows; in between, a test is undecided (Narasimhan and
//! Jordache, "Data Reconciliation and Gross Error Detection"; Mah and Tamhane 1982). The laws are the contracts of empty functions, which
//! state them for the crates above.
#![tactic(auto)]

mod laws;
mod measures;
mod members;
mod nodals;
mod verdicts;

pub use laws::{
    decided_drop_law, decided_global_law, decided_measure_law, ends_law, free_groups_law,
    measure_test_law, measure_tests_law, nodal_range_law, nodal_tests_law, shown_law,
};
pub use measures::{measure, measure_tests};
pub use members::sum_for;
pub use nodals::{nodal, nodal_tests, nodal_verdict};
pub use verdicts::{global, global_test, verdict};
