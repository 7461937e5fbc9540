// A session takes a record whose fields are already apart.
ghost use Rattle.std.specs.Prelude.{◌≡◌, ◌≢◌, ◌≤◌, ◌<◌, ◌⊎◌, true, false, length, IfOk, IsNone, IfSome};
ghost use Rattle.plantbal_c.specs.Block.{TakesOne, most_records};
ghost use Rattle.plantbal_c.specs.Fields.{AreFieldEnds, fields_between, last_end};
ghost use Rattle.plantbal_c.specs.Status.{bad_handle, done, no_memory, too_large, usage};

use crate::handle::SessionHandle;
use crate::opened::{NotTaken, OpenSession};
use crate::status::{BAD_HANDLE, DONE, NO_MEMORY, TOO_LARGE, USAGE};
use pb_rows::Row;
use std::alloc::{AllocError, Global};
use std::mem::replace;

/// Takes one record, whose fields lie one after another in `text`: each ends at the place that `ends` gives, counted in bytes from
/// the beginning. Writes to `code` 0 if the record is accepted, otherwise the number of the cause for which it is refused.
/// `PLANTBAL_USAGE`: the places aren't in order, or lie beyond the text. `PLANTBAL_BAD_HANDLE`: the handle holds no session. If the
/// status isn't `PLANTBAL_DONE`, the session is as it was.
#[unsafe(no_mangle)]
pub extern "C" fn plantbal_session_row(
    alloc: Global,
    session: &mut SessionHandle,
    text: &[u8],
    ends: &[usize],
    code: &mut u8,
) -> u8
    ensures live { session.new.live ≡ session.old.live }
    ensures handle { result ≡ bad_handle → session.old.live ≡ false }
    ensures none { session.old.live ≡ false → result ≡ bad_handle }
    ensures takes { result ≡ done → TakesOne session.old.value session.new.value
        (fields_between text.now 0 ends.now) code.new }
    ensures kept { session.old.live ≡ true → result ≢ done
        → session.new.value ≡ session.old.value }
    ensures not_apart { result ≡ usage → AreFieldEnds text.now 0 ends.now → ⊥ }
    ensures many { result ≡ too_large → session.old.value.taken ≡ most_records }
    ensures answers { (result ≡ done) ⊎ (result ≡ usage) ⊎ (result ≡ too_large)
        ⊎ (result ≡ no_memory) ⊎ (result ≡ bad_handle) }
{
    match replace(session, SessionHandle::none(alloc)).into_box() {
        Some(mut held) => {
            let status = take_fields(alloc, &mut held, text, ends, code);
            *session = SessionHandle::of(held);
            status
        }
        None => BAD_HANDLE,
    }
}

// Takes one record whose fields end at these places.
fn take_fields(
    alloc: Global,
    session: &mut OpenSession,
    text: &[u8],
    ends: &[usize],
    code: &mut u8,
) -> u8
    ensures takes { result ≡ done → TakesOne session.old session.new
        (fields_between text.now 0 ends.now) code.new }
    ensures kept { result ≢ done → session.new ≡ session.old }
    ensures not_apart { result ≡ usage → AreFieldEnds text.now 0 ends.now → ⊥ }
    ensures many { result ≡ too_large → session.old.taken ≡ most_records }
    ensures answers { (result ≡ done) ⊎ (result ≡ usage) ⊎ (result ≡ too_large)
        ⊎ (result ≡ no_memory) }
{
    match row_between(alloc, text, ends) {
        Ok(Some(row)) => take_row(session, &row, code),
        Ok(None) => USAGE,
        Err(AllocError) => NO_MEMORY,
    }
}

// Takes one record.
fn take_row(session: &mut OpenSession, row: &Row, code: &mut u8) -> u8
    ensures takes { result ≡ done → TakesOne session.old session.new row.now code.new }
    ensures kept { result ≢ done → session.new ≡ session.old }
    ensures many { result ≡ too_large → session.old.taken ≡ most_records }
    ensures answers { (result ≡ done) ⊎ (result ≡ too_large) ⊎ (result ≡ no_memory) }
{
    match session.take(row) {
        Ok(answer) => {
            *code = answer;
            DONE
        }
        Err(NotTaken::TooMany) => TOO_LARGE,
        Err(NotTaken::NoMemory) => NO_MEMORY,
    }
}

// The record whose fields end at these places, if the places are in order and within the text.
fn row_between(alloc: Global, text: &[u8], ends: &[usize]) -> Result<Option<Row>, AllocError>
    ensures some { IfOk result (λ row.
        IfSome row (λ row. row ≡ fields_between text.now 0 ends.now)) }
    ensures none { IfOk result (λ row. IsNone row → AreFieldEnds text.now 0 ends.now → ⊥) }
{
    let mut row = Row::new(alloc);
    match fill_between(&mut row, text, 0, ends)? {
        Some(_) => Ok(Some(row)),
        None => Ok(None),
    }
}

/// Fills a row with the fields that end at these places, of which the first begins at `from`, if the places are in order and within
/// the text. Returns where the last one ends.
pub(crate) fn fill_between(
    row: &mut Row,
    text: &[u8],
    from: usize,
    ends: &[usize],
) -> Result<Option<usize>, AllocError>
    ensures fields { IfOk result (λ end.
        IfSome end (λ _. row.new ≡ fields_between text.now from ends.now)) }
    ensures last { IfOk result (λ end. IfSome end (λ end. end ≡ last_end from ends.now)) }
    ensures none { IfOk result (λ end. IsNone end → AreFieldEnds text.now from ends.now → ⊥) }
{
    row.clear();
    let mut begin = from;
    for i in 0..ends.len() {
        let end = ends[i];
        if end < begin || text.len() < end {
            return Ok(None);
        }
        row.push(&text[begin..end])?;
        begin = end;
    }
    Ok(Some(begin))
}
