// The rows of a history.

ghost use Rattle.std.specs.Prelude.{◌≡◌, map, OnOk, OnErr};
ghost use Rattle.pb_facts.specs.Fact.{id_of};
ghost use Rattle.pb_form.specs.Given.{value_as};
ghost use Rattle.pb_form.specs.Holds as holds;
ghost use Rattle.pb_form.specs.Value as value;
ghost use Rattle.pb_report.specs.Form.{AppendsRows};
ghost use Rattle.pb_report.specs.Given.{given_row};
ghost use Rattle.pb_report.specs.History.{EditWordsLaw, edit_row, history_rows, period_row};
ghost use Rattle.pb_report.specs.Output.{AddsRows};

use crate::form::Form;
use crate::output::Output;
use pb_choices::truth_place;
use pb_facts::Fact;
use pb_form::{OutputKind, Value};
use pb_kinds::{Edit, Effect, StoredRow};
use pb_rows::Name;
use std::alloc::{AllocError, Global};

/// The law that the word of an edit is one of its column, that each word of the column is that of an edit, and that no word appears
/// twice.
pub fn edit_words_law()
    ensures { EditWordsLaw }
{}

/// Appends the history of a period, given its name, whether it is closed, and the edits that touch it: `history` with the name, the
/// state and the number of edits, and one `edit` row for each edit.
pub fn write_history(
    alloc: Global,
    period: &Name,
    closed: bool,
    edits: &[StoredRow],
    form: Form,
    out: &mut Vec<u8>,
) -> Result<(), AllocError>
    ensures ok { OnOk result (AppendsRows form out.old.items out.new.items
        (history_rows period.now closed edits.now)) }
    ensures err { OnErr result (out.new.items ≡ out.old.items) }
{
    let mut output = Output::new(alloc, form);
    output.push(
        OutputKind::History,
        &period_values(period, closed, edits.len()),
    )?;
    write_edits(edits, &mut output)?;
    output.append_to(out)
}

fn period_values<'a>(period: &'a Name, closed: bool, edits: usize) -> [Value<'a>; 4]
    ensures { given_row OutputKind.History result ≡ period_row period.now closed edits }
{
    [
        Value::Word(0),
        Value::Text(period.as_str()),
        Value::Word(truth_place(closed)),
        Value::Number(edits as i128),
    ]
}

// Writes the rows of the edits.
fn write_edits(edits: &[StoredRow], output: &mut Output) -> Result<(), AllocError>
    ensures { OnOk result (AddsRows output.old output.new (map edit_row edits.now)) }
{
    for edit in edits {
        output.push(OutputKind::Edit, &edit_values(edit))?;
    }
    Ok(())
}

// The values of the row of an edit: the number of its record, its word, the fact that it is about and its reason.
fn edit_values<'a>(edit: &'a StoredRow) -> [Value<'a>; 5]
    ensures { given_row OutputKind.Edit result ≡ edit_row edit.now }
{
    let kind = Value::Word(0);
    let at = Value::Number(i128::from(edit.at));
    let none = Value::Missing;
    match &edit.effect {
        Effect::Closes(_) => [kind, at, Value::Word(0), none, none],
        Effect::Books { fact, late: true } => [kind, at, Value::Word(1), id_of(fact), none],
        Effect::Edits { id, edit, reason } => {
            let (id, reason) = (Value::Text(id.as_str()), Value::Text(reason.as_str()));
            match edit {
                Edit::Change(_) => [kind, at, Value::Word(2), id, reason],
                Edit::Strike => [kind, at, Value::Word(3), id, reason],
            }
        }
        Effect::Declares(_) | Effect::Opens { .. } | Effect::Books { .. } | Effect::Assays(_) => {
            [kind, at, none, none, none]
        }
    }
}

// The id of a fact.
fn id_of<'a>(fact: &'a Fact) -> Value<'a>
    ensures { value_as holds.Name result ≡ value.Name (id_of fact.now) }
{
    match fact {
        Fact::Reading { id, .. } | Fact::Transfer { id, .. } | Fact::Dip { id, .. } => {
            Value::Text(id.as_str())
        }
    }
}
