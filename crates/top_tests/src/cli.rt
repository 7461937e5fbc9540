// What no clause says: that a run succeeds with ample memory, and failing ends in mid-stream. The outputs of whole sessions are data, in
// examples/worked.
ghost use Rattle.std.specs.Prelude.{◌≢◌};
ghost use Rattle.pb_cli.specs.declared.status.Status.TheVariants.{ReadFault, WriteFault};

use crate::inputs::{joined, words_from};
use pb_cli::*;
use pb_io::{MemSink, MemSource, SureSink, SureSource, sure_law};
use pb_limits::MOST_BYTES;
use std::alloc::{AllocError, Global};
use std::process::Abort;

/// The session of two meters that disagree, and its report, with tests.
const TWO_METERS: &str = "\
unit,U
stream,A,env,U,metered,1
stream,B,U,env,metered,1
period,d1,2024-03-01,2024-03-01
critical,global,1,3841
reading,r1,A,2024-03-01,102000000,999999999999
reading,r2,B,2024-03-01,100000000,999999999999
report,d1
";

const REPORT: &str = "\
report,d1,0,2,2,10,5000
node,env,0
node,U,-72057594038
stream,A,env,U,102000000,1000000000000,redundant,101000000,100999997,101000002,100999998,101000001,cut,env,-A +B
stream,B,U,env,100000000,1000000000000,redundant,101000000,100999998,101000003,100999999,101000002,cut,U,+A -B
solved,1,converged,2,0,1,1999,2000
global,3841,accept
nodal,U,2000000,2000000000000,,nocritical
measure,A,1999,2000,,nocritical
measure,B,1999,2000,,nocritical
end,d1,0
";

/// How a run over ends in memory goes: its words, the most bytes of a take and of a put, the number of the take and of the put that fails,
/// counted from 1 (0 for none), and how many bytes there is room for.
#[derive(Clone, Copy)]
struct Ends<'a> {
    words: &'a [&'a str],
    take: usize,
    put: usize,
    failing_take: u32,
    failing_put: u32,
    room: usize,
}

const PLAIN: Ends<'static> = Ends {
    words: &["run"],
    take: 4_096,
    put: 4_096,
    failing_take: 0,
    failing_put: 0,
    room: 65_536,
};

const TESTS: Ends<'static> = Ends {
    words: &["run", "--tests"],
    take: 4_096,
    put: 4_096,
    failing_take: 0,
    failing_put: 0,
    room: 65_536,
};

const CHECK: Ends<'static> = Ends {
    words: &["check"],
    take: 4_096,
    put: 4_096,
    failing_take: 0,
    failing_put: 0,
    room: 65_536,
};

// A run over ends in memory, about which nothing is claimed here.
fn run_in_memory(
    alloc: Global,
    words: &Words,
    source: &mut MemSource,
    sink: &mut MemSink,
) -> Status {
    run(alloc, words, source, sink)
}

fn source_of(alloc: Global, ends: &Ends<'_>, input: &[u8]) -> Result<MemSource, AllocError> {
    let failing_takes = vec![in alloc; ends.failing_take]?;
    let bytes = Vec::from_slice(alloc, input)?;
    Ok(MemSource::new(bytes, ends.take.max(1), failing_takes))
}

fn sink_of(alloc: Global, ends: &Ends<'_>) -> Result<MemSink, AllocError> {
    let failing_puts = vec![in alloc; ends.failing_put]?;
    MemSink::new(alloc, ends.room, ends.put.max(1), failing_puts)
}

// Runs, and compares how that ends and what it writes.
fn assert_run(
    rt: &impl Abort,
    alloc: Global,
    words: &Words,
    source: &mut MemSource,
    sink: &mut MemSink,
    wanted: (Status, &[u8]),
) {
    let status = run_in_memory(alloc, words, source, sink);
    assert_eq!(rt;
        (status, sink.bytes()),
        wanted,
        "how the run ends, and what it writes"
    );
}

// The same over a copy of the input.
fn gives(
    rt: &impl Abort,
    alloc: Global,
    ends: Ends<'_>,
    input: &[u8],
    status: Status,
    output: &str,
) -> Result<(), AllocError> {
    let words = words_from(alloc, ends.words)?;
    let mut source = source_of(alloc, &ends, input)?;
    let mut sink = sink_of(alloc, &ends)?;
    let wanted = (status, output.as_bytes());
    assert_run(rt, alloc, &words, &mut source, &mut sink, wanted);
    Ok(())
}

const MAKE: Ends<'static> = Ends {
    words: &["make", "--streams=3", "--number", "1"],
    take: 4_096,
    put: 4_096,
    failing_take: 0,
    failing_put: 0,
    room: 65_536,
};

// The k-th put fails, with one byte per put: the first k - 1 bytes are written, or all bytes if that put would come after the last one.
fn assert_cut_at_each_put(
    rt: &impl Abort,
    alloc: Global,
    ends: Ends<'_>,
    input: &[u8],
    output: &str,
) -> Result<(), AllocError> {
    let mut cut = Ends {
        put: 1,
        failing_put: 1,
        ..ends
    };
    for before in 0..output.len() {
        let begin = output.get(..before).unwrap_or(output);
        gives(rt, alloc, cut, input, Status::WriteFault, begin)?;
        cut.failing_put = cut.failing_put.saturating_add(1);
    }
    gives(rt, alloc, cut, input, Status::Done, output)
}

/// Over a report, and over the judgement of two reports.
#[test]
fn stops_where_a_put_fails(rt: HostRuntime) -> Result<(), AllocError> {
    let alloc = rt.alloc();
    assert_cut_at_each_put(&rt, alloc, TESTS, TWO_METERS.as_bytes(), REPORT)?;
    let reports = joined(alloc, &[REPORT.as_bytes(), REPORT.as_bytes()])?;
    assert_cut_at_each_put(&rt, alloc, CHECK, &reports, "yes,d1,0\nyes,d1,0\n")
}

/// The k-th take fails, with seven bytes per take: nothing is written.
#[test]
fn stops_where_a_take_fails(rt: HostRuntime) -> Result<(), AllocError> {
    let takes = TWO_METERS.len() as u32 / 7 + 2;
    for k in 1..takes + 2 {
        let ends = Ends {
            take: 7,
            failing_take: k,
            ..TESTS
        };
        let (status, output) = if k <= takes {
            (Status::ReadFault, "")
        } else {
            (Status::Done, REPORT)
        };
        gives(&rt, rt.alloc(), ends, TWO_METERS.as_bytes(), status, output)?;
    }
    Ok(())
}

/// A run over ends that never fail, and how many bytes it writes. It is proved that its status is no fault of an end.
fn sure_run(alloc: Global, words: &Words, input: Vec<u8>) -> (Status, u64)
    ensures read { result.0 ≢ ReadFault }
    ensures written { result.0 ≢ WriteFault }
{
    sure_law();
    let mut source = SureSource::new(input);
    let mut sink = SureSink::new();
    let status = run(alloc, words, &mut source, &mut sink);
    (status, sink.taken())
}

// The same with tests, of two meters.
fn sure_run_of_two_meters(alloc: Global) -> Result<(Status, u64), AllocError> {
    let words = words_from(alloc, TESTS.words)?;
    let input = Vec::from_slice(alloc, TWO_METERS.as_bytes())?;
    Ok(sure_run(alloc, &words, input))
}

#[test]
fn runs_over_sure_ends(rt: HostRuntime) -> Result<(), AllocError> {
    let ran = sure_run_of_two_meters(rt.alloc())?;
    assert_eq!(rt; ran, (Status::Done, REPORT.len() as u64), "the run");
    Ok(())
}

/// One byte more than the limit.
#[test]
fn refuses_one_byte_too_many(rt: HostRuntime) -> Result<(), AllocError> {
    let ends = Ends {
        take: 1 << 20,
        ..PLAIN
    };
    let feeds = vec![in rt.alloc(); b'\n'; MOST_BYTES + 1]?;
    gives(&rt, rt.alloc(), ends, &feeds, Status::TooLarge, "")
}

/// Words that are no command; input that is cut, and names and numbers of another form; a made session whose sixth put of one byte fails;
/// and a sink with room for the first 100 bytes of a report.
#[test]
fn ends_by_words_input_and_sink(rt: HostRuntime) -> Result<(), AllocError> {
    let no_command = Ends {
        words: &["run", "run"],
        ..PLAIN
    };
    let cut = Ends {
        put: 1,
        failing_put: 6,
        ..MAKE
    };
    let full = Ends { room: 100, ..TESTS };
    let begin = REPORT.get(..100).unwrap_or(REPORT);
    let cases: [(Ends<'_>, &[u8], Status, &str); 6] = [
        (no_command, b"", Status::Usage, ""),
        (
            PLAIN,
            b"unit,U\nstream,A,en",
            Status::DoneRefused,
            "refused,2,2,fields\n",
        ),
        (
            PLAIN,
            b"unit,a\x00\nunit,\xff\nunit,nnnnnnnnnnnnnnnnnnnnnnnnnnnnnnnn\nunit,mmmmmmmmmmmmmmmmmmmmmmmmmmmmmmmmm\n",
            Status::DoneRefused,
            "refused,1,3,name\nrefused,2,3,name\nrefused,4,3,name\n",
        ),
        (
            PLAIN,
            b"tank,K,+1\ntank,K,1e3\n",
            Status::DoneRefused,
            "refused,1,4,number\nrefused,2,4,number\n",
        ),
        (cut, b"", Status::WriteFault, "unit,"),
        (full, TWO_METERS.as_bytes(), Status::WriteFault, begin),
    ];
    for (ends, input, status, output) in cases {
        gives(&rt, rt.alloc(), ends, input, status, output)?;
    }
    Ok(())
}
