// The fields of a line, and the words of an answer.

ghost use Rattle.std.specs.Prelude.{◌≡◌, ◌==◌, ◌++◌, ◌∷◌, ℕ, [], IfOk, OnOk, drop, map, slice_index_or};
ghost use Rattle.std.specs.List.{slice_split};

use pb_rows::Row;
use std::alloc::{AllocError, Global};

/// The fields of a line, between commas.
pub fn fields_of<'a>(alloc: Global, line: &'a [u8]) -> Result<Vec<&'a [u8]>, AllocError>
    ensures { IfOk result (λ fields. map (λ field. field.now) fields.items
        ≡ slice_split (λ (byte : ℕ). byte == 44) line.now) }
{
    line.split(|byte| *byte == b',').collect(alloc)
}

/// The fields of a line as a row.
pub fn row_of(alloc: Global, line: &[u8]) -> Result<Row, AllocError>
    ensures { IfOk result (λ row. row ≡ slice_split (λ (byte : ℕ). byte == 44) line.now) }
{
    let fields = fields_of(alloc, line)?;
    row_with(alloc, &fields)
}

// A row with these fields.
fn row_with(alloc: Global, fields: &[&[u8]]) -> Result<Row, AllocError>
    ensures { IfOk result (λ row. row ≡ map (λ field. field.now) fields.now) }
{
    let mut row = Row::new(alloc);
    for field in fields {
        row.push(field)?;
    }
    Ok(row)
}

/// The fields of a row from a place on.
pub fn fields_from(alloc: Global, row: &Row, from: usize) -> Result<Row, AllocError>
    ensures { IfOk result (λ fields. fields ≡ drop from row.now) }
{
    let mut fields = Row::new(alloc);
    for i in from..row.len() {
        fields.push(row.field(i))?;
    }
    Ok(fields)
}

/// The field at a place, or an empty one.
pub fn field(row: &Row, i: usize) -> &[u8]
    ensures { result.now ≡ slice_index_or row.now i [] }
{
    if i < row.len() { row.field(i) } else { b"" }
}

/// Appends a word and a space.
pub fn append_word(text: &mut Vec<u8>, word: &[u8]) -> Result<(), AllocError>
    ensures { OnOk result (text.new.items ≡ text.old.items ++ word.now ++ 32 ∷ []) }
{
    text.extend_from_slice(word)?;
    text.push(b' ')?;
    Ok(())
}
