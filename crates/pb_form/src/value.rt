// The values of a row.

ghost use Rattle.std.specs.Prelude.{◌≡◌, ◌≤◌, length, map, slice_get, true};
ghost use Rattle.std.specs.Option.{option_map};
ghost use Rattle.pb_rows.specs.Name.{is_name};
ghost use Rattle.pb_rows.specs.Reason.{is_reason};
ghost use Rattle.pb_form.specs.Given.{value_as};
ghost use Rattle.pb_form.specs.Holds as takes;
ghost use Rattle.pb_form.specs.Said.{value_said, values_said};
ghost use Rattle.pb_form.specs.Seen.{column_seen};
ghost use Rattle.pb_form.specs.Value as says;
ghost use Rattle.pb_form.specs.Values.{day_in, items_in, name_in, number_in, reason_in, value_at, word_in};

use crate::column::Column;
use crate::field::{said_day, said_items, said_name, said_number, said_reason, said_word};
use crate::fields::Fields;
use pb_rows::{Name, Reason};
use std::marker::Model;

/// The most columns that a schema has, not counting its tail.
pub const ROOM: usize = 16;

/// A value to be written.
#[derive(Clone, Copy)]
pub enum Value<'a> {
    /// Nothing, in an optional column.
    Missing,
    /// The word at this place among those of the column, counted from 0.
    Word(usize),
    /// A name, a reason or a list, as the column has it.
    Text(&'a str),
    Number(i128),
    /// Days since 1970-01-01.
    Day(i32),
}

impl<'a> Value<'a> {
    /// A name, for a column that takes names.
    pub fn name(name: &'a Name) -> Value<'a>
        ensures value { value_as takes.Name result ≡ says.Name name.now }
        ensures form { is_name name.now ≡ true }
    {
        Value::Text(std::str::from_utf8(name.bytes()).unwrap())
    }

    /// A reason, for a column that takes reasons.
    pub fn reason(reason: &'a Reason) -> Value<'a>
        ensures value { value_as takes.Reason result ≡ says.Reason reason.now }
        ensures form { is_reason reason.now ≡ true }
    {
        Value::Text(std::str::from_utf8(reason.bytes()).unwrap())
    }
}

/// The values of a row, one for each column: each is read from its field when it is asked for.
#[derive(Drop)]
pub struct Values<'a> {
    columns: &'a [Column],
    fields: Fields<'a>,
}

impl<'a> Model for Values<'a> {
    ghost use Rattle.std.specs.Prelude.{◌≤◌, List, length, map};
    ghost use Rattle.pb_form.specs.Said.{values_said};
    ghost use Rattle.pb_form.specs.Seen.{column_seen};
    ghost use Rattle.pb_form.specs.Value as value;

    ghost Value = { List value.Value };

    ghost view = { λ a. values_said (map column_seen a.columns.now) a.fields };

    ghost invariant = { λ a. length a.columns.now ≤ length a.fields };
}

impl<'a> Values<'a> {
    // What fields say by these columns.
    pub(crate) fn of(columns: &'a [Column], fields: Fields<'a>) -> Values<'a>
        requires { length columns.now ≤ length fields }
        ensures { result ≡ values_said (map column_seen columns.now) fields.entry }
    {
        Values { columns, fields }
    }

    /// The number of values.
    pub fn len(&self) -> usize
        ensures { result ≡ length self.now }
    {
        self.columns.len()
    }

    // The column and the field of the value at a place.
    #[inline(always)]
    fn at(&self, place: usize) -> Option<(&'a Column, &'a [u8])>
        ensures { slice_get self.now place
            ≡ option_map (λ found. value_said (column_seen found.0.now) found.1.now) result }
    {
        if place < self.columns.len() {
            Some((&self.columns[place], self.fields.at(place)))
        } else {
            None
        }
    }

    /// The place of the word that the value at a place is, if it is one.
    pub fn word(&self, place: usize) -> Option<usize>
        ensures { result ≡ value_at word_in self.now place }
    {
        let (column, field) = self.at(place)?;
        said_word(column, field)
    }

    /// The name that the value at a place is, if it is one.
    pub fn name(&self, place: usize) -> Option<Name>
        ensures { result ≡ value_at name_in self.now place }
    {
        let (column, field) = self.at(place)?;
        said_name(column, field)
    }

    /// The reason that the value at a place is, if it is one.
    pub fn reason(&self, place: usize) -> Option<Reason>
        ensures { result ≡ value_at reason_in self.now place }
    {
        let (column, field) = self.at(place)?;
        said_reason(column, field)
    }

    /// The number that the value at a place is, if it is one.
    pub fn number(&self, place: usize) -> Option<i128>
        ensures { result ≡ value_at number_in self.now place }
    {
        let (column, field) = self.at(place)?;
        said_number(column, field)
    }

    /// The day that the value at a place is, if it is one.
    pub fn day(&self, place: usize) -> Option<i32>
        ensures { result ≡ value_at day_in self.now place }
    {
        let (column, field) = self.at(place)?;
        said_day(column, field)
    }

    /// The list that the value at a place is, if it is one.
    pub fn items(&self, place: usize) -> Option<&'a [u8]>
        ensures { option_map (λ text. text.now) result ≡ value_at items_in self.now place }
    {
        let (column, field) = self.at(place)?;
        said_items(column, field)
    }
}
