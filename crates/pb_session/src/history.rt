// The edits of a history.

ghost use Rattle.std.specs.Prelude.{◌≡◌, ◌<◌, ◌++◌, ◌∷◌, [], length, IfOk, IfSome, OnOk, slice_get};
ghost use Rattle.std.specs.Option.{option_to_list};
ghost use Rattle.pb_book.specs.Edits.{edits_of, history_of};
ghost use Rattle.pb_book.specs.Rows.{periods_of};

use pb_book::Book;
use pb_graph::List;
use pb_kinds::StoredRow;
use std::alloc::{AllocError, Global};

/// The edits that touch the period at a place, in the order of their records.
pub fn history_of(alloc: Global, book: &Book, i: u32) -> Result<List<StoredRow>, AllocError>
    requires { i < length (periods_of book.now) }
    ensures { IfOk result (λ edits. IfSome (slice_get (periods_of book.now) i)
        (λ period. edits ≡ history_of book.now period)) }
{
    let mut edits = List::new(alloc);
    for e in 0..book.edits() {
        if book.touches(e, i) {
            push_at(book, e, &mut edits)?;
        }
    }
    Ok(edits)
}

// Appends the edit at a place.
fn push_at(book: &Book, e: usize, edits: &mut List<StoredRow>) -> Result<(), AllocError>
    ensures { OnOk result (edits.new ≡ edits.old
        ++ option_to_list (slice_get (edits_of book.now) e)) }
{
    match book.edit(e) {
        Some(row) => push_copy(edits, &row),
        None => Ok(()),
    }
}

// Appends a copy of an item.
fn push_copy<T: Copy + Drop>(items: &mut List<T>, item: &T) -> Result<(), AllocError>
    ensures { OnOk result (items.new ≡ items.old ++ item.now ∷ []) }
{
    items.push(*item)
}
