// Which of several schemas a row is of.

ghost use Rattle.std.specs.Prelude.{◌≡◌, ◌<◌, ◌≤◌, [], length, map, position, slice_index_or, true, IfOk};
ghost use Rattle.std.specs.List.{list_any};
ghost use Rattle.pb_form.specs.Seen.{column_seen, holds_seen, schema_seen};
ghost use Rattle.pb_form.specs.Telling.{agrees, has_word, is_of};
ghost use Rattle.pb_form.specs.Told.{schema_told, untold};

use crate::column::{Column, Holds, Schema};
use crate::fault::FormFault;
use crate::field::is_word;
use crate::fields::Fields;
use crate::reading::has_count;

/// The place of the first schema that a record is of: the record has the words and the number of fields of this schema. Otherwise
/// `Fields`, if it has the words of one of the schemas as far as it goes, and `Kind` if it doesn't.
#[tactic(auto, using(crate::proofs::ListLemmas::position_map))]
pub fn tell(schemas: &[Schema], fields: &Fields) -> Result<usize, FormFault>
    ensures value { result ≡ schema_told (map schema_seen schemas.now) fields.now }
    ensures within { IfOk result (λ place. place < length schemas.now) }
{
    match place_of(schemas, fields) {
        Some(place) => Ok(place),
        None => Err(untold(schemas, fields)),
    }
}

// The place of the first schema that a record is of.
fn place_of(schemas: &[Schema], fields: &Fields) -> Option<usize>
    ensures { result ≡ position (λ schema. is_of fields.now (schema_seen schema)) schemas.now }
{
    schemas.iter().position(|schema| is_of(schema, fields))
}

// Whether a record has the words of one of these schemas, as far as it goes.
fn some_agrees(schemas: &[Schema], fields: &Fields) -> bool
    ensures { result ≡ list_any (λ schema. agrees (schema_seen schema).columns fields.now)
        schemas.now }
{
    schemas.iter().any(|schema| agrees(schema.columns, fields))
}

// Why a record is of none of these schemas.
#[tactic(auto, using(crate::proofs::ListLemmas::any_map))]
fn untold(schemas: &[Schema], fields: &Fields) -> FormFault
    ensures { result ≡ untold (map schema_seen schemas.now) fields.now }
{
    if some_agrees(schemas, fields) {
        FormFault::Fields
    } else {
        FormFault::Kind
    }
}

// Whether a record has the words and the number of fields of a schema.
#[inline(always)]
pub(crate) fn is_of(schema: &Schema, fields: &Fields) -> bool
    ensures { result ≡ is_of fields.now (schema_seen schema.now) }
{
    has_count(schema, fields.len()) && agrees(schema.columns, fields)
}

// Whether a record, as far as it goes, has the words that identify the kind of these columns.
#[inline(always)]
fn agrees(columns: &[Column], fields: &Fields) -> bool
    ensures { result ≡ agrees (map column_seen columns.now) fields.now }
{
    for (i, column) in columns.iter().enumerate() {
        if !has_word(column, fields, i) {
            return false;
        }
    }
    true
}

// Whether the field at a place, if a record goes that far, has the word of a column that takes just one word.
#[inline(always)]
fn has_word(column: &Column, fields: &Fields, i: usize) -> bool
    ensures there { i < length fields.now
        → result ≡ has_word (holds_seen column.now.holds) (slice_index_or fields.now i []) }
    ensures past { length fields.now ≤ i → result ≡ true }
{
    match column.holds {
        Holds::Word([word]) => fields.len() <= i || is_word(fields.at(i), word),
        _ => true,
    }
}
