// What the rows of a block say.

use pb_choices::Shape;
use pb_graph::{Class, List};
use pb_rows::Name;
use pb_study::{Bounds, Solved};

/// What the row that opens a block says: the period and the round, how many nodes and streams the block has, the gap in
/// thousandths and the greatest number of sweeps.
#[derive(Clone, Copy)]
pub struct Heading {
    pub period: Name,
    pub round: u32,
    pub nodes: u32,
    pub streams: u32,
    pub gap: u32,
    pub sweeps: u32,
}

/// What the row of a stream says besides its name and its ends. The parts of the certificate are kept as they are written until
/// all streams are named.
#[derive(Drop)]
pub struct StreamRow {
    pub class: Class,
    pub flow: i128,
    pub bounds: Option<Bounds>,
    pub least: Option<Bounds>,
    pub shape: Shape,
    pub side: List<bool>,
    pub parts: List<u8>,
}

/// How a stage was solved: the sweeps done and whether the gap was met, its two numbers, the degrees of freedom, and the bounds
/// of the weighted squares in thousandths.
#[derive(Clone, Copy)]
pub struct Solution {
    pub solved: Solved,
    pub g: u64,
    pub h: u32,
    pub dof: u32,
    pub low: i128,
    pub high: Option<i128>,
}
