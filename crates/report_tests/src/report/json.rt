// Rows as lines of JSON. Those of designs, advice and reports are data, in examples/worked.

use super::name;
use pb_report::{Form, write_over, write_refused};
use std::alloc::Global;
use std::test::Fail;

#[test]
fn writes_a_refusal_as_json(rt: HostRuntime) -> Result<(), Fail> {
    let mut out = Vec::from_slice(rt.alloc(), b"before\n")?;
    write_refused(rt.alloc(), 1, 3, Form::Json, &mut out)?;
    assert_eq!(rt;
        out.as_slice(),
        b"before
{\"at\":\"1\",\"code\":\"3\",\"row\":\"refused\",\"word\":\"name\"}
"
            .as_slice()
    );
    Ok(())
}

// The rows of two totals.
fn totals(alloc: Global) -> Result<Vec<u8>, Fail> {
    let mut out = Vec::new(alloc);
    write_over(alloc, &name(b"d1")?, &name(b"T")?, Form::Json, &mut out)?;
    write_over(
        alloc,
        &name(b"Az_09.-")?,
        &name(b"-._")?,
        Form::Json,
        &mut out,
    )?;
    Ok(out)
}

#[test]
fn writes_a_total_too_great_as_json(rt: HostRuntime) -> Result<(), Fail> {
    assert_eq!(rt;
        totals(rt.alloc())?.as_slice(),
        b"{\"period\":\"d1\",\"row\":\"over\",\"stream\":\"T\"}
{\"period\":\"Az_09.-\",\"row\":\"over\",\"stream\":\"-._\"}
"
            .as_slice()
    );
    Ok(())
}
