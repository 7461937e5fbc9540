// Rows of histories, in both forms.

use super::name;
use pb_facts::{Change, Fact};
use pb_kinds::{Edit, Effect, StoredRow};
use pb_report::{Form, write_history};
use pb_rows::{Name, Reason};
use std::alloc::Global;
use std::test::Fail;

fn reason(bytes: &[u8]) -> Result<Reason, Fail> {
    Ok(Reason::read(bytes).ok_or("a reason")?)
}

fn reading(id: Name, stream: Name) -> Fact {
    Fact::Reading {
        id,
        stream,
        day: 0,
        grams: 1000,
        variance: 1,
    }
}

// A closing and the edits after it.
fn history(alloc: Global, form: Form) -> Result<Vec<u8>, Fail> {
    let period = name(b"Day_1.a-Z")?;
    let id = name(b"r1")?;
    let edits = [
        StoredRow {
            at: 5,
            effect: Effect::Closes(period),
        },
        StoredRow {
            at: 7,
            effect: Effect::Books {
                fact: reading(id, name(b"s")?),
                late: true,
            },
        },
        StoredRow {
            at: 8,
            effect: Effect::Edits {
                id,
                edit: Edit::Change(Change::Amount {
                    grams: 900,
                    variance: 1,
                }),
                reason: reason(b"typed \"twice\", \\ not 'once' ~")?,
            },
        },
        StoredRow {
            at: 4294967295,
            effect: Effect::Edits {
                id,
                edit: Edit::Strike,
                reason: reason(b"wrong day")?,
            },
        },
    ];
    let mut out = Vec::new(alloc);
    write_history(alloc, &period, true, &edits, form, &mut out)?;
    Ok(out)
}

#[test]
fn writes_a_history(rt: HostRuntime) -> Result<(), Fail> {
    assert_eq!(rt;
        history(rt.alloc(), Form::Csv)?.as_slice(),
        b"history,Day_1.a-Z,closed,4
edit,5,close,,
edit,7,late,r1,
edit,8,amend,r1,\"typed \"\"twice\"\", \\ not 'once' ~\"
edit,4294967295,strike,r1,wrong day
"
            .as_slice()
    );
    assert_eq!(rt;
        history(rt.alloc(), Form::Json)?.as_slice(),
        b"{\"count\":\"4\",\"period\":\"Day_1.a-Z\",\"row\":\"history\",\"state\":\"closed\"}
{\"at\":\"5\",\"id\":\"\",\"reason\":\"\",\"row\":\"edit\",\"word\":\"close\"}
{\"at\":\"7\",\"id\":\"r1\",\"reason\":\"\",\"row\":\"edit\",\"word\":\"late\"}
{\"at\":\"8\",\"id\":\"r1\",\"reason\":\"typed \\\"twice\\\", \\\\ not 'once' ~\",\"row\":\"edit\",\"word\":\"amend\"}
{\"at\":\"4294967295\",\"id\":\"r1\",\"reason\":\"wrong day\",\"row\":\"edit\",\"word\":\"strike\"}
"
            .as_slice()
    );
    Ok(())
}

#[test]
fn writes_a_history_without_edits(rt: HostRuntime) -> Result<(), Fail> {
    let alloc = rt.alloc();
    let mut out = Vec::from_slice(alloc, b"before\n")?;
    write_history(alloc, &name(b"d1")?, false, &[], Form::Csv, &mut out)?;
    assert_eq!(rt; out.as_slice(), b"before\nhistory,d1,open,0\n".as_slice());
    Ok(())
}
