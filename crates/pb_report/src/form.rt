// The form of the output, and a row in it.

ghost use Rattle.std.specs.Prelude.{◌≡◌, ◌++◌, length, OnOk, OnErr};
ghost use Rattle.pb_form.specs.OutputRows.{output_columns};
ghost use Rattle.pb_report.specs.Form.{row_text};
ghost use Rattle.pb_report.specs.Given.{given_row};

use pb_form::{OutputKind, Value, output_json, output_record};
use std::alloc::{AllocError, Global};

/// The form in which rows are written.
#[derive(Clone, Copy, Debug, PartialEq, Eq)]
pub enum Form {
    /// As `csv` writes them, each ended by a line feed.
    Csv,
    /// Each an object of texts on one line, as `serde_json` writes it compactly, ended by a line feed. The keys are those of the
    /// row's columns, in byte order; the key `row` has the row's kind.
    Json,
}

/// Appends the row of a kind in a form. There is one value for each column, and the first is the kind's word. After an `Err`, out of
/// memory, the text is as it was.
pub fn write_row(
    alloc: Global,
    kind: OutputKind,
    values: &[Value],
    form: Form,
    text: &mut Vec<u8>,
) -> Result<(), AllocError>
    requires { length values.now ≡ length (output_columns kind) }
    ensures ok { OnOk result
        (text.new.items ≡ text.old.items ++ row_text form (given_row kind values.now)) }
    ensures err { OnErr result (text.new.items ≡ text.old.items) }
{
    let row = output_record(alloc, kind, values)?;
    match form {
        Form::Csv => row.write_to(text),
        Form::Json => output_json(kind, &row, text),
    }
}
