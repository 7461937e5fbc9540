// What no clause says: that records are answered, and that the first stage of a period is there, if memory is ample. The outputs of
// whole sessions are data, in examples/worked.

ghost use Rattle.std.specs.Prelude.{◌≡◌, false};

use pb_period::Assembly;
use pb_report::Form;
use pb_rows::{Row, Rows};
use pb_session::Session;
use pb_study::Options;
use std::alloc::Global;
use std::test::Fail;

// A day of a stream that is transferred, and of one that carries it on.
const PLANT: &[u8] =
    b"unit,U\nstream,T,env,U,batch,1\nstream,O,U,env,plain,0\nperiod,d1,2024-01-30,2024-01-30\n";

// What the studies are asked for: a gap of 10 thousandths, and at most 5,000 sweeps.
fn asked() -> Options
    ensures { result ≡ record { gap = 10; sweeps = 5000; tests = false; eliminate = 0 } }
{
    Options {
        gap: 10,
        sweeps: 5_000,
        tests: false,
        eliminate: 0,
    }
}

// The rows of that day with transfers of 10^13 grams each, a hundred of which are the greatest total, and a last row.
fn rows_of(alloc: Global, transfers: u32, last: &[u8]) -> Result<Rows, Fail> {
    let mut text = Vec::from_slice(alloc, PLANT)?;
    for i in 0..transfers {
        let row = format!(in alloc; "transfer,t{i},T,2024-01-30,2024-01-30,10000000000000,0\n")?;
        text.extend_from_slice(row.as_bytes())?;
    }
    text.extend_from_slice(last)?;
    Ok(Rows::of(alloc, text.as_slice())?)
}

// Whether a session refuses a row.
fn is_refused(session: &mut Session, at: u32, row: &Row, out: &mut Vec<u8>) -> Result<bool, Fail> {
    Ok(session.row(at, row, out)?.is_some())
}

// Takes rows one after another, and returns whether the last one is refused.
fn take_all(session: &mut Session, rows: &Rows, out: &mut Vec<u8>) -> Result<bool, Fail> {
    let mut at = 0u32;
    let mut refused = false;
    for i in 0..rows.len() {
        at = at.saturating_add(1);
        refused = is_refused(session, at, rows.at(i), out)?;
    }
    Ok(refused)
}

// The number of streams of the first stage of the first period, or the stream whose total is too great.
fn streams_of(session: &Session) -> Result<Result<usize, u32>, Fail> {
    if session.book().periods() == 0 {
        return Err(Fail::new("no period"));
    }
    match session.first_stage(0) {
        Ok(stage) => Ok(Ok(stage.streams.len())),
        Err(Assembly::Over(stream)) => Ok(Err(stream)),
        Err(Assembly::NoMemory) => Err(Fail::new("out of memory")),
    }
}

// Whether the last of some rows is refused, how many nodes and periods the book has after them, and the streams of the first period.
type Said = (bool, u32, u32, Result<usize, u32>);

fn said_of(session: &mut Session, rows: &Rows, out: &mut Vec<u8>) -> Result<Said, Fail> {
    let refused = take_all(session, rows, out)?;
    let nodes = session.book().site().nodes();
    let periods = session.book().periods();
    Ok((refused, nodes, periods, streams_of(session)?))
}

fn said_after(alloc: Global, rows: &Rows) -> Result<Said, Fail> {
    let mut session = Session::new(alloc, asked(), Form::Csv);
    said_of(&mut session, rows, &mut Vec::new(alloc))
}

fn said_by(alloc: Global, transfers: u32, last: &[u8]) -> Result<Said, Fail> {
    let rows = rows_of(alloc, transfers, last)?;
    said_after(alloc, &rows)
}

/// The greatest total of a stream, and a greater one with a row after it that is refused.
#[test]
fn takes_rows(rt: HostRuntime) -> Result<(), Fail> {
    let table: [(u32, &[u8], Said); 2] = [
        (100, b"", (false, 2, 1, Ok(2))),
        (101, b"unit,U\n", (true, 2, 1, Err(0))),
    ];
    for (transfers, last, want) in table {
        let said = said_by(rt.alloc(), transfers, last)?;
        assert_eq!(rt; said, want, "{transfers} transfers");
    }
    Ok(())
}
