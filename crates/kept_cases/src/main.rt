//! The periods whose studies a session keeps after each record of cases: each line again, preceded by the names of these periods.
//!
//! The cases are in `stdin`, and their answers, which come from outside, in `stdout`.
#![tactic(auto)]

mod case;

use case::Case;
use cases::answer_lines;
use std::io;

fn main(rt: HostRuntime) -> io::Result<()> {
    let mut case = Case::new(rt.alloc(), false)?;
    answer_lines(&rt, |line, text| case.line(line, text))
}
