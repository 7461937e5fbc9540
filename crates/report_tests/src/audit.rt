// What no clause says: that a report is judged if memory is ample, and the exact bytes of the rows. More files are checked in `cli`.

use pb_audit::{Judged, judge_next};
use pb_rows::Records;
use std::alloc::Global;
use std::test::Fail;

const GOOD: &[u8] = b"report,d1,3,1,0,10,0\nnode,env,0\nsolved,0,converged,0,0,0,0,0\nend,d1,3\n";

const BAD: &[u8] = b"report,d1,0,1,0,10,0\nnode,env,0\nsolved,0,converged,0,0,7,0,0\nend,d1,0\n";

const UNREADABLE: &[u8] = b"stop,d0,accepted,0\nreport,d1,0,2,0,10,0\nnode,env,0\nnode,U,x\n";

// Two meters that disagree, with an upper least bound of B that is too low.
const NARROW: &[u8] = b"report,d1,0,2,2,10,5000
node,env,0
node,U,-72057594038
stream,A,env,U,102000000,1000000000000,redundant,101000000,100999997,101000002,100999998,101000001,cut,env,-A +B
stream,B,U,env,100000000,1000000000000,redundant,101000000,100999998,101000003,100999999,101000001,cut,U,+A -B
solved,1,converged,2,0,1,1999,2000
end,d1,0
";

// The same meters without least bounds.
const WITHOUT_LEAST: &[u8] = b"report,d1,7,2,2,10,5000
node,env,0
node,U,-72057594038
stream,A,env,U,102000000,1000000000000,redundant,101000000,100999997,101000002,cut,env,-A +B
stream,B,U,env,100000000,1000000000000,redundant,101000000,100999998,101000003,cut,U,+A -B
solved,1,converged,2,0,1,1999,2000
end,d1,7
";

// The first finding in a short text, and its row.
fn finding(alloc: Global, text: &[u8]) -> Result<(Option<Judged>, Vec<u8>), Fail> {
    if 10_000 < text.len() {
        return Err(Fail::new("a text that isn't short"));
    }
    let mut records = Records::of(alloc, text);
    let mut row = Vec::new(alloc);
    let judged = judge_next(alloc, &mut records, &mut row)?;
    Ok((judged, row))
}

#[test]
fn judges_one_report(rt: HostRuntime) -> Result<(), Fail> {
    let table: [(&str, &[u8], Option<Judged>, &[u8]); 6] = [
        ("a good report", GOOD, Some(Judged::Passed), b"yes,d1,3\n"),
        (
            "a bad report",
            BAD,
            Some(Judged::Failed),
            b"no,d1,0,6,dof,,7,0\n",
        ),
        ("empty input", b"", None, b""),
        (
            "a row that can't be read",
            UNREADABLE,
            Some(Judged::Unreadable),
            b"unreadable,4,4,number\n",
        ),
        (
            "a narrow least bound",
            NARROW,
            Some(Judged::Failed),
            b"no,d1,0,13,least,B,101000001,101000002\n",
        ),
        (
            "a report without least bounds",
            WITHOUT_LEAST,
            Some(Judged::Passed),
            b"yes,d1,7\n",
        ),
    ];
    for (what, text, want, line) in table {
        let (judged, row) = finding(rt.alloc(), text)?;
        assert_eq!(rt; (judged, row.as_slice()), (want, line), "{what}");
    }
    Ok(())
}
