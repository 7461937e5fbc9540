// A row read by its columns.

ghost use Rattle.std.specs.Prelude.{◌≡◌, ◌+◌, ◌-◌, ◌^◌, ◌<◌, ◌≤◌, [], length, map, drop, IfOk};
ghost use Rattle.pb_form.specs.Reading.{are_turns, fields_read, has_count, repeated, row_read};
ghost use Rattle.pb_form.specs.Seen.{column_seen, schema_seen};
ghost use Rattle.pb_form.specs.Writing.{FitEach};
ghost use Rattle.pb_form.specs.Told.{fault_in};

use crate::column::{Column, Schema};
use crate::fault::{FormFault, soonest};
use crate::field::field_fault;
use crate::fields::Fields;
use crate::value::Values;

/// The value of each column of a schema in the fields of a record, or their first fault.
#[inline(always)]
pub fn read<'a>(schema: &'a Schema, fields: &Fields<'a>) -> Result<Values<'a>, FormFault>
    ensures value { result ≡ row_read (schema_seen schema.now) fields.now }
    ensures fit { IfOk result (FitEach (map column_seen schema.now.columns.now)) }
{
    if !has_count(schema, fields.len()) {
        return Err(FormFault::Fields);
    }
    match tail_fault(schema.tail, fields, schema.columns.len()) {
        None => read_columns(schema.columns, fields),
        Some(fault) => Err(soonest(read_columns(schema.columns, fields).err(), fault)),
    }
}

// Whether a row of a schema has this number of fields.
#[inline(always)]
pub(crate) fn has_count(schema: &Schema, count: usize) -> bool
    ensures { result ≡ has_count (schema_seen schema.now) count }
{
    let columns = schema.columns.len();
    columns <= count && are_turns(schema.tail, count - columns)
}

// Whether this number of fields makes up whole turns of a tail.
#[inline(always)]
fn are_turns(tail: &[Column], count: usize) -> bool
    ensures { result ≡ are_turns (map column_seen tail.now) count }
{
    if tail.is_empty() {
        count == 0
    } else {
        count % tail.len() == 0
    }
}

/// The values of the first fields, one for each column, or their first fault. The fields of a turn of a tail are read in the
/// same way.
pub fn read_columns<'a>(columns: &'a [Column], fields: &Fields<'a>) -> Result<Values<'a>, FormFault>
    requires { length columns.now ≤ length fields.now }
    ensures value { result ≡ fields_read (map column_seen columns.now) fields.now }
    ensures fit { IfOk result (FitEach (map column_seen columns.now)) }
{
    match columns_fault(columns, fields) {
        None => Ok(Values::of(columns, fields.lent())),
        Some(fault) => Err(fault),
    }
}

// The first fault of the first fields, one for each column.
fn columns_fault(columns: &[Column], fields: &Fields) -> Option<FormFault>
    requires { length columns.now ≤ length fields.now }
    ensures { result ≡ fault_in (fields_read (map column_seen columns.now) fields.now) }
{
    let mut first = None;
    for (i, column) in columns.iter().enumerate() {
        if let Some(fault) = field_fault(column, fields.at(i)) {
            first = Some(soonest(first, fault));
        }
    }
    first
}

// The first fault of the fields from a place on, by the columns of a tail, repeated.
fn tail_fault(tail: &[Column], fields: &Fields, start: usize) -> Option<FormFault>
    requires { start ≤ length fields.now }
    ensures { result ≡ fault_in
        (fields_read (repeated (map column_seen tail.now) [] (length fields.now - start))
        (drop start fields.now)) }
{
    if tail.is_empty() {
        return None;
    }
    let mut first = None;
    let mut place = 0;
    for i in start..fields.len() {
        if let Some(fault) = field_fault(&tail[place], fields.at(i)) {
            first = Some(soonest(first, fault));
        }
        place = if place + 1 < tail.len() { place + 1 } else { 0 };
    }
    first
}
