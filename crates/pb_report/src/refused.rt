// The row of a refused record.

ghost use Rattle.std.specs.Prelude.{◌≡◌, ◌≤◌, ◌∷◌, [], OnOk, OnErr};
ghost use Rattle.pb_report.specs.Form.{AppendsRows};
ghost use Rattle.pb_report.specs.Given.{given_row};
ghost use Rattle.pb_report.specs.Refusal.{refused_row};

use crate::form::{Form, write_row};
use pb_form::{OutputKind, Value};
use std::alloc::{AllocError, Global};

/// Appends the row of a refused record: `refused`, the record's number `at`, the refusal's code from 1 to 13, and its word.
pub fn write_refused(
    alloc: Global,
    at: u32,
    code: u32,
    form: Form,
    out: &mut Vec<u8>,
) -> Result<(), AllocError>
    requires least { 1 ≤ code }
    requires most { code ≤ 13 }
    ensures ok { OnOk result (AppendsRows form out.old.items out.new.items
        (refused_row at code ∷ [])) }
    ensures err { OnErr result (out.new.items ≡ out.old.items) }
{
    write_row(
        alloc,
        OutputKind::Refused,
        &refused_values(at, code),
        form,
        out,
    )
}

fn refused_values(at: u32, code: u32) -> [Value<'static>; 4]
    requires { 1 ≤ code }
    ensures { given_row OutputKind.Refused result ≡ refused_row at code }
{
    [
        Value::Word(0),
        Value::Number(i128::from(at)),
        Value::Number(i128::from(code)),
        Value::Word((code - 1) as usize),
    ]
}
