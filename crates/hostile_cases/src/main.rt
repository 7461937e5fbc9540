//! Graphs of the environment and one unit, with as many streams as there may be and the most extreme values and variances: how the
//! solver ends, whether the flows balance, and whether the stage of the study passes its check.
//!
//! The streams of each graph are a line of `stdin`, and what should come out of it, worked out by another program, is a line of `stdout`.
#![tactic(auto)]

mod extremes;

use cases::answer_lines;
use extremes::append_outcome;
use std::io;

fn main(rt: HostRuntime) -> io::Result<()> {
    answer_lines(&rt, |line, text| append_outcome(rt.alloc(), line, text))
}
