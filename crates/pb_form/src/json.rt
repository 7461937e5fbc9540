// A record as a line of JSON.

ghost use Rattle.std.specs.Prelude.{◌≡◌, ◌<◌, ◌++◌, [], length, map, slice_index_or, string_bytes, All, IsUtf8, IfOk, OnOk, OnErr};
ghost use Rattle.serde_json.specs.Data.{no_members, object};
ghost use Rattle.serde_json.specs.View.{view};
ghost use Rattle.serde_json.specs.Written.{compact_text};
ghost use Rattle.pb_form.specs.Json.{members_after, record_line};
ghost use Rattle.pb_form.specs.Seen.{column_seen};

use crate::column::{Column, Schema};
use pb_rows::Row;
use serde_json::{Map, Value};
use std::alloc::{AllocError, Global};

/// Appends a record of a schema as a line of JSON: an object with the text of each field under its column's key, and a line feed.
/// After an `Err`, out of memory, the text is as it was.
pub fn write_json(schema: &Schema, row: &Row, out: &mut Vec<u8>) -> Result<(), AllocError>
    requires each { length row.now ≡ length schema.now.columns.now }
    requires texts { All IsUtf8 row.now }
    ensures appended { OnOk result (out.new.items
        ≡ out.old.items ++ record_line (map column_seen schema.now.columns.now) row.now) }
    ensures unchanged { OnErr result (out.new.items ≡ out.old.items) }
{
    out.extend_from_slice(line_of(*out.allocator(), schema.columns, row)?.as_bytes())
}

// The line of a record.
fn line_of(alloc: Global, columns: &[Column], row: &Row) -> Result<String, AllocError>
    requires each { length row.now ≡ length columns.now }
    requires texts { All IsUtf8 row.now }
    ensures { IfOk result (λ line. string_bytes line
        ≡ record_line (map column_seen columns.now) row.now) }
{
    let mut line = text_of(alloc, columns, row)?;
    line.push_str("\n")?;
    Ok(line)
}

// The same without the line feed.
#[tactic(auto, using(crate::proofs::JsonLemmas::record_has_no_float))]
fn text_of(alloc: Global, columns: &[Column], row: &Row) -> Result<String, AllocError>
    requires each { length row.now ≡ length columns.now }
    requires texts { All IsUtf8 row.now }
    ensures { IfOk result (λ text. string_bytes text
        ≡ compact_text (object (members_after no_members (map column_seen columns.now) row.now))) }
{
    object_of(alloc, columns, row)?.to_string(alloc)
}

// A record as an object: a text for each field under its column's key.
fn object_of(alloc: Global, columns: &[Column], row: &Row) -> Result<Value, AllocError>
    requires each { length row.now ≡ length columns.now }
    requires texts { All IsUtf8 row.now }
    ensures { IfOk result (λ value. view value
        ≡ object (members_after no_members (map column_seen columns.now) row.now)) }
{
    let mut members = Map::new(alloc);
    for (i, column) in columns.iter().enumerate() {
        let value = Value::try_from_str(alloc, text_at(row, i))?;
        serde_json::put(&mut members, alloc, column.key, value)?;
    }
    Ok(Value::Object(members))
}

// The text of the field at a place.
fn text_at(row: &Row, i: usize) -> &str
    requires there { i < length row.now }
    requires texts { All IsUtf8 row.now }
    ensures { result.now ≡ slice_index_or row.now i [] }
{
    std::str::from_utf8(row.field(i)).unwrap()
}
