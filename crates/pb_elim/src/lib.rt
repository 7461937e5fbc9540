//! The whole study of a process graph: classes with their certificates, reconciled flows, bounds, least bounds, prices, the statistic and
//! tests; and serial elimination, which takes out suspects one after another.
//!
//! Each stage of a study is certified: what it prints promises by itself what an auditor may rely on, whatever made it.
#![tactic(auto)]

mod elimination;
mod laws;
mod stages;
mod studies;
mod testing;

pub use laws::{
    certified_law, decided_law, formed_law, least_throughout_law, one_study_law, solution_law,
    some_study_law, tested_law,
};
pub use stages::stage;
pub use studies::{study, study_classed};
