// The fields of a record that count.

ghost use Rattle.std.specs.Prelude.{◌≡◌, ◌<◌, ◌≤◌, [], drop, length, slice_index_or};
ghost use Rattle.pb_rows.specs.Records.{without_trailing_empty};

use pb_rows::Row;
use std::marker::Model;

/// Consecutive fields of a record, borrowed.
#[derive(Drop)]
pub struct Fields<'a> {
    row: &'a Row,
    start: usize,
    len: usize,
}

impl<'a> Model for Fields<'a> {
    ghost use Rattle.std.specs.Prelude.{◌+◌, ◌^◌, ◌<◌, ◌≤◌, List, ℕ, drop, length, take};

    ghost Value = { List (List ℕ) };

    ghost view = { λ a. take a.len (drop a.start a.row.now) };

    ghost invariant = { λ a. (a.start + a.len ≤ length a.row.now) × (a.start + a.len < 2 ^ 64) };
}

impl<'a> Fields<'a> {
    /// All fields of a record.
    pub fn all(row: &'a Row) -> Fields<'a>
        ensures { result ≡ row.now }
    {
        Fields {
            row,
            start: 0,
            len: row.len(),
        }
    }

    /// The fields of a record up to the last one that isn't empty.
    pub fn filled(row: &'a Row) -> Fields<'a>
        ensures { result ≡ without_trailing_empty row.now }
    {
        Fields {
            row,
            start: 0,
            len: row.filled(),
        }
    }

    /// The fields from a place on.
    pub fn skip(&self, start: usize) -> Fields<'a>
        requires { start ≤ length self.now }
        ensures { result ≡ drop start self.now }
    {
        Fields {
            row: self.row,
            start: self.start + start,
            len: self.len - start,
        }
    }

    // The same fields.
    pub(crate) fn lent(&self) -> Fields<'a>
        ensures { result ≡ self.now }
    {
        Fields {
            row: self.row,
            start: self.start,
            len: self.len,
        }
    }

    /// The number of fields.
    pub fn len(&self) -> usize
        ensures { result ≡ length self.now }
    {
        self.len
    }

    /// The bytes of the field at a place, counted from 0.
    pub fn at(&self, i: usize) -> &'a [u8]
        requires { i < length self.now }
        ensures { result.now ≡ slice_index_or self.now i [] }
    {
        self.row.field(self.start + i)
    }
}
