// The lines of standard input.

use std::alloc::AllocError;
use std::io;
use std::io::Write;

/// Writes an answer to each line of standard input, as `answer` appends it, once all are read.
pub fn answer_lines<R, F>(rt: &R, mut answer: F) -> io::Result<()>
where
    R: Input + Print + AllocGlobal,
    F: FnMut(&[u8], &mut Vec<u8>) -> Result<(), AllocError>,
    requires { F.IsAlwaysCallable answer }
{
    let mut text = Vec::new(rt.alloc());
    for line in rt.lines(rt.alloc()) {
        answer(line?.as_str().as_bytes(), &mut text)?;
    }
    io::writer(rt).write_all(&text)
}
