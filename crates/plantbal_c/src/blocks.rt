// A session takes a block of records as bytes.
ghost use Rattle.std.specs.Prelude.{◌≡◌, ◌≢◌, ◌≤◌, ◌<◌, ◌⊎◌, [], true, false, length, take, drop, min, IfOk, IfErr, OnOk, OnErr};
ghost use Rattle.pb_rows.specs.Records.{records_of};
ghost use Rattle.plantbal_c.specs.Block.{TakesFirst, most_records};
ghost use Rattle.plantbal_c.specs.Next.{AnswersNext};
ghost use Rattle.plantbal_c.specs.Status.{bad_handle, done, no_memory, too_large};

use crate::handle::SessionHandle;
use crate::opened::{NotTaken, OpenSession};
use crate::status::{BAD_HANDLE, DONE, NO_MEMORY, TOO_LARGE};
use pb_rows::{Records, Row};
use std::alloc::{AllocError, Global};
use std::mem::replace;

/// Takes the records of the bytes in order, after as many as `skip` says, and writes a code for each: 0 if the record is accepted,
/// otherwise the number of the cause for which it is refused. It stops when there is no room for another code, and writes how many records
/// it took to `taken`: so the next call skips these too. `PLANTBAL_NO_MEMORY`, `PLANTBAL_TOO_LARGE`: the records that were taken stay
/// taken, and the next one wasn't. `PLANTBAL_BAD_HANDLE`: the handle holds no session; `taken` is 0.
#[unsafe(no_mangle)]
pub extern "C" fn plantbal_session_rows(
    alloc: Global,
    session: &mut SessionHandle,
    bytes: &[u8],
    skip: usize,
    codes: &mut [u8],
    taken: &mut usize,
) -> u8
    ensures live { session.new.live ≡ session.old.live }
    ensures handle { result ≡ bad_handle → session.old.live ≡ false }
    ensures none { session.old.live ≡ false → result ≡ bad_handle }
    ensures takes { session.old.live ≡ true → TakesFirst session.old.value session.new.value
        (drop skip (records_of bytes.now)) taken.new codes.new }
    ensures nothing { session.old.live ≡ false → taken.new ≡ 0 }
    ensures whole { result ≡ done
        → taken.new ≡ min (length (drop skip (records_of bytes.now))) (length codes.old) }
    ensures many { result ≡ too_large → session.new.value.taken ≡ most_records }
    ensures fewer { result ≡ too_large
        → taken.new < min (length (drop skip (records_of bytes.now))) (length codes.old) }
    ensures room { result ≡ no_memory → (taken.new ≡ 0) ⊎ (taken.new < length codes.old) }
    ensures answers { (result ≡ done) ⊎ (result ≡ too_large) ⊎ (result ≡ no_memory)
        ⊎ (result ≡ bad_handle) }
{
    match replace(session, SessionHandle::none(alloc)).into_box() {
        Some(mut held) => {
            let (count, status) = take_rows(alloc, &mut held, bytes, skip, codes);
            *taken = count;
            *session = SessionHandle::of(held);
            status
        }
        None => {
            *taken = 0;
            BAD_HANDLE
        }
    }
}

// Takes the records of the bytes after the first ones. Returns how many it took, and the status.
fn take_rows(
    alloc: Global,
    session: &mut OpenSession,
    bytes: &[u8],
    skip: usize,
    codes: &mut [u8],
) -> (usize, u8)
    ensures takes { TakesFirst session.old session.new (drop skip (records_of bytes.now)) result.0
        codes.new }
    ensures whole { result.1 ≡ done
        → result.0 ≡ min (length (drop skip (records_of bytes.now))) (length codes.old) }
    ensures many { result.1 ≡ too_large → session.new.taken ≡ most_records }
    ensures fewer { result.1 ≡ too_large
        → result.0 < min (length (drop skip (records_of bytes.now))) (length codes.old) }
    ensures room { result.1 ≡ no_memory → (result.0 ≡ 0) ⊎ (result.0 < length codes.old) }
    ensures answers { (result.1 ≡ done) ⊎ (result.1 ≡ too_large) ⊎ (result.1 ≡ no_memory) }
{
    let mut fields = Row::new(alloc);
    let mut records = Records::of(alloc, bytes);
    match pass_over(&mut fields, &mut records, skip) {
        Ok(()) => take_block(session, &mut fields, &mut records, codes),
        Err(AllocError) => (0, NO_MEMORY),
    }
}

// Passes over the first records.
fn pass_over(fields: &mut Row, records: &mut Records, count: usize) -> Result<(), AllocError>
    ensures { OnOk result (records.new.left ≡ drop count records.old.left) }
{
    let mut passed = 0;
    'turns: while passed < count {
        if !records.fill(fields)? {
            return Ok(());
        }
        passed += 1;
    }
    Ok(())
}

// Takes records until none is left or there is no room for a code.
fn take_block(
    session: &mut OpenSession,
    fields: &mut Row,
    records: &mut Records,
    codes: &mut [u8],
) -> (usize, u8)
    ensures takes { TakesFirst session.old session.new records.old.left result.0 codes.new }
    ensures whole { result.1 ≡ done
        → result.0 ≡ min (length records.old.left) (length codes.old) }
    ensures many { result.1 ≡ too_large → session.new.taken ≡ most_records }
    ensures fewer { result.1 ≡ too_large
        → result.0 < min (length records.old.left) (length codes.old) }
    ensures room { result.1 ≡ no_memory → result.0 < length codes.old }
    ensures answers { (result.1 ≡ done) ⊎ (result.1 ≡ too_large) ⊎ (result.1 ≡ no_memory) }
{
    let mut count = 0;
    'turns: while count < codes.len() {
        match take_next(session, fields, records) {
            Ok(Some(code)) => {
                codes[count] = code;
                count += 1;
            }
            Ok(None) => return (count, DONE),
            Err(NotTaken::TooMany) => return (count, TOO_LARGE),
            Err(NotTaken::NoMemory) => return (count, NO_MEMORY),
        }
    }
    (count, DONE)
}

// Takes the next record, if one is left, and returns the number of its answer.
fn take_next(
    session: &mut OpenSession,
    fields: &mut Row,
    records: &mut Records,
) -> Result<Option<u8>, NotTaken>
    ensures ok { IfOk result (AnswersNext session.old session.new records.old records.new) }
    ensures err { OnErr result (session.new ≡ session.old) }
    ensures many { IfErr result
        (λ why. why ≡ NotTaken.TooMany → session.new.taken ≡ most_records) }
    ensures left { IfErr result (λ why. why ≡ NotTaken.TooMany → records.old.left ≢ []) }
{
    if !records.fill(fields)? {
        return Ok(None);
    }
    Ok(Some(session.take(fields)?))
}
