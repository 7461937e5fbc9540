// What no clause says: that the program finds memory for its run, and what it writes to its third end, byte for byte.

use pb_cli::run_program;
use pb_io::{MemSink, MemSource};
use std::alloc::{AllocError, Global};
use std::env::Args;
use std::io;
use std::process::ExitCode;

/// How the program goes over ends in memory: its words, or why the system doesn't give them; its input, the number of the take and of the
/// put that fails, counted from 1 (0 for none), and how many bytes the third end has room for.
#[derive(Clone, Copy)]
struct Case<'a> {
    words: Result<&'a [&'a str], io::ErrorKind>,
    input: &'a str,
    failing_take: u32,
    failing_put: u32,
    room: usize,
}

/// A unit that is declared twice.
const TWICE: Case<'static> = Case {
    words: Ok(&["run"]),
    input: "unit,U\nunit,U\n",
    failing_take: 0,
    failing_put: 0,
    room: 64,
};

/// Words that are no command, and a third end with this much room.
fn mistyped(room: usize) -> Case<'static> {
    Case {
        words: Ok(&["runs"]),
        room,
        ..TWICE
    }
}

/// Words that the system doesn't give.
fn not_given(kind: io::ErrorKind) -> Case<'static> {
    Case {
        words: Err(kind),
        ..TWICE
    }
}

// The arguments of the program with these words.
fn args_of(alloc: Global, words: &[&str]) -> Result<Args, AllocError> {
    let mut args = Vec::new(alloc);
    args.push(String::from_str(alloc, "plantbal")?)?;
    for word in words {
        args.push(String::from_str(alloc, word)?)?;
    }
    Ok(args.into_iter())
}

// What the system gives for a case.
fn given(alloc: Global, case: Case<'_>) -> Result<io::Result<Args>, AllocError> {
    match case.words {
        Ok(words) => Ok(Ok(args_of(alloc, words)?)),
        Err(kind) => Ok(Err(io::Error::from(kind))),
    }
}

fn source_of(alloc: Global, case: Case<'_>) -> Result<MemSource, AllocError> {
    let failing_takes = vec![in alloc; case.failing_take]?;
    let input = Vec::from_slice(alloc, case.input.as_bytes())?;
    Ok(MemSource::new(input, 4_096, failing_takes))
}

fn sink_of(alloc: Global, room: usize, failing_put: u32) -> Result<MemSink, AllocError> {
    let failing_puts = vec![in alloc; failing_put]?;
    MemSink::new(alloc, room, 4_096, failing_puts)
}

// The program over ends in memory, about which nothing is claimed here.
fn run_in_memory(
    alloc: Global,
    args: io::Result<Args>,
    source: &mut MemSource,
    sink: &mut MemSink,
    errors: &mut MemSink,
) -> ExitCode {
    run_program(alloc, args, source, sink, errors)
}

// How the program ends over these ends.
fn ended(
    alloc: Global,
    case: Case<'_>,
    source: &mut MemSource,
    sink: &mut MemSink,
    errors: &mut MemSink,
) -> Result<ExitCode, AllocError> {
    let args = given(alloc, case)?;
    Ok(run_in_memory(alloc, args, source, sink, errors))
}

// Whether the program ends over a case with this number, writes this output, and puts this line on its third end.
fn gives(
    alloc: Global,
    case: Case<'_>,
    number: u8,
    output: &str,
    line: &str,
) -> Result<bool, AllocError> {
    let mut source = source_of(alloc, case)?;
    let mut sink = sink_of(alloc, 4_096, case.failing_put)?;
    let mut errors = sink_of(alloc, case.room, 0)?;
    let ended = ended(alloc, case, &mut source, &mut sink, &mut errors)?;
    Ok(
        ended == ExitCode::from(number)
            && sink.bytes() == output.as_bytes()
            && errors.bytes() == line.as_bytes(),
    )
}

/// Each status with its number and, unless it is a success, its line; a third end with too little room, which holds what goes into it; and
/// arguments that the system doesn't give.
#[test]
fn ends_with_a_number_and_a_line(rt: HostRuntime) -> Result<(), AllocError> {
    let refused = "refused,2,7,duplicate\n";
    let json = "{\"at\":\"2\",\"code\":\"7\",\"row\":\"refused\",\"word\":\"duplicate\"}\n";
    let once = Case {
        input: "unit,U\n",
        ..TWICE
    };
    let objects = Case {
        words: Ok(&["run", "--format", "json"]),
        ..TWICE
    };
    let unread = Case {
        failing_take: 1,
        ..TWICE
    };
    let unwritten = Case {
        failing_put: 1,
        ..TWICE
    };
    let cases: [(Case<'_>, u8, &str, &str); 12] = [
        (once, 0, "", ""),
        (TWICE, 1, refused, ""),
        (objects, 1, json, ""),
        (unread, 3, "", "ReadFault\n"),
        (unwritten, 4, "", "WriteFault\n"),
        (mistyped(0), 2, "", ""),
        (mistyped(3), 2, "", "Usa"),
        (mistyped(5), 2, "", "Usage"),
        (mistyped(6), 2, "", "Usage\n"),
        (not_given(io::ErrorKind::InvalidData), 2, "", "Usage\n"),
        (not_given(io::ErrorKind::Other), 2, "", "Usage\n"),
        (not_given(io::ErrorKind::OutOfMemory), 6, "", "NoMemory\n"),
    ];
    for (case, number, output, line) in cases {
        let is_so = gives(rt.alloc(), case, number, output, line)?;
        assert!(rt; is_so, "not {number}, {output} and {line}");
    }
    Ok(())
}
