//! Runs and checks of bytes in memory: each way that they end with ample memory.

ghost use Rattle.std.specs.Prelude.{◌≤◌, length};
ghost use Rattle.pb_limits.specs.Limits.{most_bytes};

use pb_cli::{Status, answer, judge};
use pb_io::MemSink;
use pb_limits::MOST_BYTES;
use pb_report::Form;
use pb_study::Options;
use std::alloc::{AllocError, Global};
use std::process::Abort;

/// What is done with bytes in memory: their records are answered, or their blocks judged.
#[derive(Clone, Copy)]
enum Deed {
    Answer,
    Judge,
}

/// A sink with room for some rows, whose put of this number fails, counted from 1; 0 for none.
fn sink_of(alloc: Global, failing_put: u32) -> Result<MemSink, AllocError> {
    let failing_puts = vec![in alloc; failing_put]?;
    MemSink::new(alloc, 4_096, 4_096, failing_puts)
}

// How it ends.
fn ended(alloc: Global, deed: Deed, input: &[u8], sink: &mut MemSink) -> Status
    requires { length input.now ≤ most_bytes }
{
    let options = Options {
        gap: 10,
        sweeps: 5_000,
        tests: false,
        eliminate: 0,
    };
    match deed {
        Deed::Answer => answer(alloc, options, Form::Csv, input, sink),
        Deed::Judge => judge(alloc, input, sink),
    }
}

fn assert_ended(
    rt: &impl Abort,
    alloc: Global,
    deed: Deed,
    text: &str,
    sink: &mut MemSink,
    wanted: (Status, &[u8]),
) {
    let input = text.as_bytes();
    assert!(rt; input.len() <= MOST_BYTES, "bytes");
    let status = ended(alloc, deed, input, sink);
    assert_eq!(rt; (status, sink.bytes()), wanted, "{text}");
}

fn gives(
    rt: &impl Abort,
    alloc: Global,
    deed: Deed,
    text: &str,
    failing_put: u32,
    wanted: (Status, &[u8]),
) -> Result<(), AllocError> {
    let mut sink = sink_of(alloc, failing_put)?;
    assert_ended(rt, alloc, deed, text, &mut sink, wanted);
    Ok(())
}

const PLANT: &str = "unit,U\nstream,P,U,env,plain,0\nstream,R,U,env,plain,0\ndesign\n";

const CLASSES: &[u8] =
    b"design,2,2\nclass,P,U,env,no,unobservable,cycle,,+R -P\nclass,R,U,env,no,unobservable,cycle,,+R -P\n";

/// The report of a unit with one unmeasured stream.
const REPORT: &str = "\
report,d1,0,2,1,10,5000
node,env,0
node,U,0
stream,A,U,env,,,observable,0,0,0,0,0,cut,U,-A
solved,0,converged,0,0,0,0,0
end,d1,0
";

#[test]
fn takes_bytes_in_hand(rt: HostRuntime) -> Result<(), AllocError> {
    let cases: [(Deed, &str, u32, Status, &[u8]); 6] = [
        (Deed::Answer, PLANT, 0, Status::Done, CLASSES),
        (
            Deed::Answer,
            "unit,U\nunit,U\n",
            0,
            Status::DoneRefused,
            b"refused,2,7,duplicate\n",
        ),
        (Deed::Answer, PLANT, 1, Status::WriteFault, b""),
        (Deed::Judge, REPORT, 0, Status::Done, b"yes,d1,0\n"),
        (
            Deed::Judge,
            "repport\n",
            0,
            Status::DoneRefused,
            b"unreadable,1,1,kind\n",
        ),
        (Deed::Judge, REPORT, 1, Status::WriteFault, b""),
    ];
    for (deed, text, failing_put, status, output) in cases {
        gives(&rt, rt.alloc(), deed, text, failing_put, (status, output))?;
    }
    Ok(())
}
