//! What a check says of reports with a fault: each line again, preceded by the name of the run's status and the rows that it wrote.
//!
//! The reports and their faults are in `stdin`, and what should be said of each, worked out by another program, is in `stdout`.
#![tactic(auto)]

mod case;
mod checked;

use case::Case;
use cases::answer_lines;
use std::io;

fn main(rt: HostRuntime) -> io::Result<()> {
    let mut case = Case::new(rt.alloc());
    answer_lines(&rt, |line, text| case.line(line, text))
}
