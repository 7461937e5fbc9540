//! The data of a study of a process graph: what is asked of it, the results of each stage, and the form that those who write and read
//! them rely on.
#![tactic(auto)]

mod results;
mod well_formed;

pub use results::{
    Bounds, Critical, CriticalRow, GlobalTest, MeasureTest, NodalTest, Options, Solved, Stage,
    Stop, StreamResult, Study, Taken, Tests, Verdict,
};
