// Values written by their columns.

ghost use Rattle.std.specs.Prelude.{◌≡◌, length, map, All, IsUtf8, IfOk};
ghost use Rattle.pb_form.specs.Given.{values_as};
ghost use Rattle.pb_form.specs.Seen.{column_seen, schema_seen};
ghost use Rattle.pb_form.specs.Texts.{texts_of};
ghost use Rattle.pb_form.specs.Writing.{FitEach, Writes};

use crate::column::Schema;
use crate::texts::write_texts;
use crate::value::Value;
use pb_rows::Row;
use std::alloc::{AllocError, Global};

/// The record that writes values by a schema, one for each column: their texts. It reads back as the values, and no other
/// record does.
pub fn write(alloc: Global, schema: &Schema, values: &[Value]) -> Result<Row, AllocError>
    requires each { length values.now ≡ length schema.now.columns.now }
    requires fit { FitEach (map column_seen schema.now.columns.now)
        (values_as (map column_seen schema.now.columns.now) values.now) }
    ensures value { IfOk result (λ row. Writes (schema_seen schema.now)
        (values_as (map column_seen schema.now.columns.now) values.now) row) }
    ensures fields { IfOk result (λ row. row ≡ texts_of (map column_seen schema.now.columns.now)
        (values_as (map column_seen schema.now.columns.now) values.now)) }
    ensures texts { IfOk result (All IsUtf8) }
{
    write_texts(alloc, schema.columns, values)
}
