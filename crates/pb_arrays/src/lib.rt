//! A process graph as C hands it over, and the study of one as C reads it: arrays and structs of numbers.
//!
//! A struct is laid out as C has it. A number that may take more than 64 bits is two words.
#![tactic(auto)]

mod asked;
mod criticals;
mod graphs;
mod numbers;
mod stages;
mod streams;
mod tests;

pub use asked::{PlantbalStudyOptions, options_of};
pub use criticals::{PlantbalCriticalRow, critical_of};
pub use graphs::{NoGraph, PlantbalMeasuredStream, graph_of, write_streams};
pub use numbers::{PlantbalWide, whole_of, wide_of};
pub use stages::{
    PlantbalStage, PlantbalStudied, PlantbalTaken, price_at, stage_at, studied, taken_at,
};
pub use streams::{PlantbalMember, PlantbalResult, is_inside, member_at, result_at, write_classes};
pub use tests::{PlantbalMeasureTest, PlantbalNodalTest, measure_at, nodal_at};
