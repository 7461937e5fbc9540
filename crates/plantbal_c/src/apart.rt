// A session takes a block of records whose fields are already apart.
ghost use Rattle.std.specs.Prelude.{◌≡◌, ◌≢◌, ◌≤◌, ◌<◌, ◌⊎◌, true, false, length, min, IfOk, IfErr, OnErr};
ghost use Rattle.plantbal_c.specs.Block.{TakesFirst, most_records};
ghost use Rattle.plantbal_c.specs.Fields.{AreRecordEnds, records_between};
ghost use Rattle.plantbal_c.specs.Next.{AnswersApart};
ghost use Rattle.plantbal_c.specs.Status.{bad_handle, done, no_memory, too_large, usage};

use crate::fields::fill_between;
use crate::handle::SessionHandle;
use crate::opened::{NotTaken, OpenSession};
use crate::status::{BAD_HANDLE, DONE, NO_MEMORY, TOO_LARGE, USAGE};
use pb_rows::Row;
use std::alloc::Global;
use std::mem::replace;

/// Takes records whose fields are already apart, in order, and writes a code for each as `plantbal_session_rows` does. The fields lie
/// one after another in `text`: each ends at the place that `ends` gives, counted in bytes from the beginning. `counts` has an item for
/// each record: how many fields there are up to its end, those of the records before it too. It stops when there is no room for
/// another code, and writes how many records it took to `taken`. `PLANTBAL_USAGE`: the places of the next record aren't in order, or
/// lie beyond the text; `PLANTBAL_NO_MEMORY`, `PLANTBAL_TOO_LARGE`: with these too the records that were taken stay taken, and the next
/// one wasn't. `PLANTBAL_BAD_HANDLE`: the handle holds no session; `taken` is 0.
#[unsafe(no_mangle)]
pub extern "C" fn plantbal_session_records(
    alloc: Global,
    session: &mut SessionHandle,
    text: &[u8],
    ends: &[usize],
    counts: &[usize],
    codes: &mut [u8],
    taken: &mut usize,
) -> u8
    ensures live { session.new.live ≡ session.old.live }
    ensures handle { result ≡ bad_handle → session.old.live ≡ false }
    ensures none { session.old.live ≡ false → result ≡ bad_handle }
    ensures takes { session.old.live ≡ true → TakesFirst session.old.value session.new.value
        (records_between text.now ends.now 0 0 counts.now) taken.new codes.new }
    ensures nothing { session.old.live ≡ false → taken.new ≡ 0 }
    ensures whole { result ≡ done → taken.new ≡ min (length counts.now) (length codes.old) }
    ensures fewer { result ≢ done → session.old.live ≡ true
        → taken.new < min (length counts.now) (length codes.old) }
    ensures not_apart { result ≡ usage → AreRecordEnds text.now ends.now 0 0 counts.now → ⊥ }
    ensures many { result ≡ too_large → session.new.value.taken ≡ most_records }
    ensures answers { (result ≡ done) ⊎ (result ≡ usage) ⊎ (result ≡ too_large)
        ⊎ (result ≡ no_memory) ⊎ (result ≡ bad_handle) }
{
    match replace(session, SessionHandle::none(alloc)).into_box() {
        Some(mut held) => {
            let (count, status) = take_apart(alloc, &mut held, text, ends, counts, codes);
            *taken = count;
            *session = SessionHandle::of(held);
            status
        }
        None => {
            *taken = 0;
            BAD_HANDLE
        }
    }
}

// Takes records until none is left or there is no room for a code. Returns how many it took, and the status.
fn take_apart(
    alloc: Global,
    session: &mut OpenSession,
    text: &[u8],
    ends: &[usize],
    counts: &[usize],
    codes: &mut [u8],
) -> (usize, u8)
    ensures takes { TakesFirst session.old session.new
        (records_between text.now ends.now 0 0 counts.now) result.0 codes.new }
    ensures whole { result.1 ≡ done → result.0 ≡ min (length counts.now) (length codes.old) }
    ensures fewer { result.1 ≢ done → result.0 < min (length counts.now) (length codes.old) }
    ensures not_apart { result.1 ≡ usage → AreRecordEnds text.now ends.now 0 0 counts.now → ⊥ }
    ensures many { result.1 ≡ too_large → session.new.taken ≡ most_records }
    ensures answers { (result.1 ≡ done) ⊎ (result.1 ≡ usage) ⊎ (result.1 ≡ too_large)
        ⊎ (result.1 ≡ no_memory) }
{
    let mut row = Row::new(alloc);
    let mut from = 0;
    let mut first = 0;
    let mut count = 0;
    let room = counts.len().min(codes.len());
    'turns: while count < room {
        let next = counts[count];
        if next < first || ends.len() < next {
            return (count, USAGE);
        }
        match take_between(session, &mut row, text, from, &ends[first..next]) {
            Ok(Some(answered)) => {
                codes[count] = answered.code;
                from = answered.end;
                first = next;
                count += 1;
            }
            Ok(None) => return (count, USAGE),
            Err(NotTaken::TooMany) => return (count, TOO_LARGE),
            Err(NotTaken::NoMemory) => return (count, NO_MEMORY),
        }
    }
    (count, DONE)
}

/// The number of the answer to a record, and where its last field ends.
#[derive(Clone, Copy)]
pub(crate) struct Answered {
    pub code: u8,
    pub end: usize,
}

// Takes the record whose fields end at these places, if the places are in order and within the text.
fn take_between(
    session: &mut OpenSession,
    row: &mut Row,
    text: &[u8],
    from: usize,
    ends: &[usize],
) -> Result<Option<Answered>, NotTaken>
    ensures ok { IfOk result (AnswersApart text.now from ends.now session.old session.new) }
    ensures err { OnErr result (session.new ≡ session.old) }
    ensures many { IfErr result
        (λ why. why ≡ NotTaken.TooMany → session.new.taken ≡ most_records) }
{
    match fill_between(row, text, from, ends)? {
        Some(end) => {
            let code = session.take(row)?;
            Ok(Some(Answered { code, end }))
        }
        None => Ok(None),
    }
}
