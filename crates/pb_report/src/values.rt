// Values of columns that may be left empty.

ghost use Rattle.std.specs.Prelude.{◌≡◌};
ghost use Rattle.pb_form.specs.Given.{value_as};
ghost use Rattle.pb_form.specs.Holds.{Holds};
ghost use Rattle.pb_form.specs.Value.{Number};
ghost use Rattle.pb_report.specs.Row.{value_or_none};

use pb_form::Value;

// A number, or nothing if there is none.
pub(crate) fn optional_number(number: Option<i128>) -> Value<'static>
    ensures { (takes : Holds) → value_as takes result ≡ value_or_none Number number }
{
    match number {
        Some(number) => Value::Number(number),
        None => Value::Missing,
    }
}
