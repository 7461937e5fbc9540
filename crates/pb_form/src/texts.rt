// Fields that are the texts of values.

ghost use Rattle.std.specs.Prelude.{◌≡◌, ◌∷◌, ◌++◌, [], length, map, All, IsUtf8, IfOk, OnOk};
ghost use Rattle.pb_form.specs.Given.{value_as, values_as};
ghost use Rattle.pb_form.specs.Seen.{column_seen, holds_seen};
ghost use Rattle.pb_form.specs.TextLaws.{TextLaw};
ghost use Rattle.pb_form.specs.Texts.{texts_of, value_text};
ghost use Rattle.pb_form.specs.Value.{Word};

use crate::column::{Column, Holds};
use crate::day::push_day;
use crate::value::Value;
use pb_rows::Row;
use std::alloc::{AllocError, Global};

/// The law that the texts of values which fit the columns of a schema read back as the values.
pub fn text_law()
    ensures { TextLaw }
{}

// The record of the texts of values, one for each column.
pub(crate) fn write_texts(
    alloc: Global,
    columns: &[Column],
    values: &[Value],
) -> Result<Row, AllocError>
    requires { length values.now ≡ length columns.now }
    ensures fields { IfOk result (λ row. row ≡ texts_of (map column_seen columns.now)
        (values_as (map column_seen columns.now) values.now)) }
    ensures texts { IfOk result (All IsUtf8) }
{
    let mut row = Row::new(alloc);
    for (i, column) in columns.iter().enumerate() {
        push_text(column, values[i], &mut row)?;
    }
    Ok(row)
}

// Appends the text of a value.
fn push_text(column: &Column, value: Value, row: &mut Row) -> Result<(), AllocError>
    ensures adds { OnOk result (row.new ≡ row.old ++ value_text (holds_seen column.now.holds)
        (value_as (holds_seen column.now.holds) value.entry) ∷ []) }
    ensures texts { OnOk result (All IsUtf8 row.old → All IsUtf8 row.new) }
{
    match value {
        Value::Missing => row.push(b""),
        Value::Word(place) => row.push(word_of(&column.holds, place).as_bytes()),
        Value::Text(text) => row.push(text.as_bytes()),
        Value::Number(number) => row.push_whole(number),
        Value::Day(day) => push_day(day, row),
    }
}

// The word at a place among those of a column.
fn word_of(holds: &Holds, place: usize) -> &'static str
    ensures { result.now ≡ value_text (holds_seen holds.now) (Word place) }
{
    match holds {
        Holds::Word(words) if place < words.len() => words[place],
        _ => "",
    }
}
