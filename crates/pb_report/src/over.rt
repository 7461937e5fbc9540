// The row of a total that is too great.

ghost use Rattle.std.specs.Prelude.{◌≡◌, ◌∷◌, [], OnOk, OnErr};
ghost use Rattle.pb_report.specs.Form.{AppendsRows};
ghost use Rattle.pb_report.specs.Given.{given_row};
ghost use Rattle.pb_report.specs.Over.{over_row};

use crate::form::{Form, write_row};
use pb_form::{OutputKind, Value};
use pb_rows::Name;
use std::alloc::{AllocError, Global};

/// Appends the row of a period that can't be studied, since a stream's measured total in it exceeds the limits: `over`, and the
/// names of the period and of the stream.
pub fn write_over(
    alloc: Global,
    period: &Name,
    stream: &Name,
    form: Form,
    out: &mut Vec<u8>,
) -> Result<(), AllocError>
    ensures ok { OnOk result (AppendsRows form out.old.items out.new.items
        (over_row period.now stream.now ∷ [])) }
    ensures err { OnErr result (out.new.items ≡ out.old.items) }
{
    write_row(
        alloc,
        OutputKind::Over,
        &over_values(period, stream),
        form,
        out,
    )
}

fn over_values<'a>(period: &'a Name, stream: &'a Name) -> [Value<'a>; 3]
    ensures { given_row OutputKind.Over result ≡ over_row period.now stream.now }
{
    [
        Value::Word(0),
        Value::Text(period.as_str()),
        Value::Text(stream.as_str()),
    ]
}
