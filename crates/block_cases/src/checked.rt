// A check of a report in memory.

use pb_cli::{Status, Words, run};
use pb_io::{MemSink, MemSource};
use std::alloc::{AllocError, Global};

const MOST_AT_ONCE: usize = 4_096;

const ROOM: usize = 65_536;

/// Appends the name of the status with which a check of a report ends and the rows that it writes, each followed by a space.
pub fn append_checked(
    alloc: Global,
    report: Vec<u8>,
    text: &mut Vec<u8>,
) -> Result<(), AllocError> {
    let mut sink = MemSink::new(alloc, ROOM, MOST_AT_ONCE, Vec::new(alloc))?;
    let status = check_into(alloc, report, &mut sink)?;
    append_told(status.name().as_bytes(), sink.bytes(), text)
}

// Checks a report.
fn check_into(alloc: Global, report: Vec<u8>, sink: &mut MemSink) -> Result<Status, AllocError> {
    let mut words = Words::new(alloc);
    words.push("check")?;
    let mut source = MemSource::new(report, MOST_AT_ONCE, Vec::new(alloc));
    Ok(run(alloc, &words, &mut source, sink))
}

// Appends a name and rows, each followed by a space.
fn append_told(name: &[u8], rows: &[u8], text: &mut Vec<u8>) -> Result<(), AllocError> {
    text.extend_from_slice(name)?;
    text.push(b' ')?;
    for byte in rows {
        text.push(if *byte == b'\n' { b' ' } else { *byte })?;
    }
    Ok(())
}
