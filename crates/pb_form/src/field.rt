// One field by its column: its fault, or what it says.

ghost use Rattle.std.specs.Prelude.{◌≡◌, ◌&&◌, ◌==◌, length, bytes_eq, position, option_map};
ghost use Rattle.pb_rows.specs.Date.{day_of};
ghost use Rattle.pb_form.specs.Field.{field_read};
ghost use Rattle.pb_form.specs.Said.{value_said};
ghost use Rattle.pb_form.specs.Seen.{column_seen};
ghost use Rattle.pb_form.specs.Told.{fault_in};
ghost use Rattle.pb_form.specs.Values.{day_in, items_in, name_in, number_in, reason_in, word_in};

use crate::column::{Column, Holds};
use crate::fault::FormFault;
use pb_rows::{Name, Reason, read_date, read_whole};

// The fault of a field by its column, if it has one.
#[tactic(auto, using(crate::proofs::ListLemmas::position_map))]
#[inline(always)]
pub(crate) fn field_fault(column: &Column, field: &[u8]) -> Option<FormFault>
    ensures { result ≡ fault_in (field_read (column_seen column.now) field.now) }
{
    if is_missing(column, field) {
        return None;
    }
    match column.holds {
        Holds::Word(words) => match place_of(words, field) {
            Some(_) => None,
            None => Some(FormFault::Word),
        },
        Holds::Name => match Name::read(field) {
            Some(_) => None,
            None => Some(FormFault::Name),
        },
        Holds::Reason => match Reason::read(field) {
            Some(_) => None,
            None => Some(FormFault::Name),
        },
        Holds::Number { lo, hi } => match read_whole(field, lo, hi) {
            Some(_) => None,
            None => Some(FormFault::Number),
        },
        Holds::Date => match day_of(field) {
            Some(_) => None,
            None => Some(FormFault::Date),
        },
        Holds::Items => None,
    }
}

// Whether a field is left out.
#[inline(always)]
fn is_missing(column: &Column, field: &[u8]) -> bool
    ensures { result ≡ (column.now.optional && (length field.now == 0)) }
{
    column.optional && field.is_empty()
}

// The place of the word that a field says.
#[tactic(auto, using(crate::proofs::ListLemmas::position_map))]
pub(crate) fn said_word(column: &Column, field: &[u8]) -> Option<usize>
    ensures { result ≡ word_in (value_said (column_seen column.now) field.now) }
{
    if is_missing(column, field) {
        return None;
    }
    match column.holds {
        Holds::Word(words) => place_of(words, field),
        _ => None,
    }
}

// The name that a field says.
#[inline(always)]
pub(crate) fn said_name(column: &Column, field: &[u8]) -> Option<Name>
    ensures { result ≡ name_in (value_said (column_seen column.now) field.now) }
{
    match column.holds {
        Holds::Name => Name::read(field),
        _ => None,
    }
}

// The reason that a field says.
pub(crate) fn said_reason(column: &Column, field: &[u8]) -> Option<Reason>
    ensures { result ≡ reason_in (value_said (column_seen column.now) field.now) }
{
    match column.holds {
        Holds::Reason => Reason::read(field),
        _ => None,
    }
}

// The number that a field says.
#[inline(always)]
pub(crate) fn said_number(column: &Column, field: &[u8]) -> Option<i128>
    ensures { result ≡ number_in (value_said (column_seen column.now) field.now) }
{
    match column.holds {
        Holds::Number { lo, hi } => read_whole(field, lo, hi),
        _ => None,
    }
}

// The day that a field says.
#[inline(always)]
pub(crate) fn said_day(column: &Column, field: &[u8]) -> Option<i32>
    ensures { result ≡ day_in (value_said (column_seen column.now) field.now) }
{
    match column.holds {
        Holds::Date => day_of(field),
        _ => None,
    }
}

// The list that a field says.
pub(crate) fn said_items<'a>(column: &Column, field: &'a [u8]) -> Option<&'a [u8]>
    ensures { option_map (λ text. text.now) result
        ≡ items_in (value_said (column_seen column.now) field.now) }
{
    if is_missing(column, field) {
        return None;
    }
    match column.holds {
        Holds::Items => Some(field),
        _ => None,
    }
}

// The day that a field writes.
fn day_of(field: &[u8]) -> Option<i32>
    ensures { result ≡ day_of field.now }
{
    match read_date(field) {
        Ok(day) => day,
        Err(_) => None,
    }
}

// The place of a field among words.
fn place_of(words: &[&str], field: &[u8]) -> Option<usize>
    ensures { result ≡ position (λ word. bytes_eq field.now word.now) words.now }
{
    words.iter().position(|word| is_word(field, word))
}

// Whether a field is this word.
#[inline(always)]
pub(crate) fn is_word(field: &[u8], word: &str) -> bool
    ensures { result ≡ bytes_eq field.now word.now }
{
    field == word.as_bytes()
}
