// A session made from a number, and its summary.
ghost use Rattle.std.specs.Prelude.{◌≡◌, ◌≢◌, ◌<◌, ◌≤◌, ◌⊎◌, ◌==◌, not, true, false, IfOk};
ghost use Rattle.pb_words.specs.Command.{IsMakeInRange};
ghost use Rattle.pb_cli.specs.Run.{IsMade};
ghost use Rattle.plantbal_c.specs.Made.{Makes};
ghost use Rattle.plantbal_c.specs.Status.{bad_handle, done, no_memory, usage};

use crate::handle::SessionHandle;
use crate::opened::OpenSession;
use crate::options::usual;
use crate::status::{BAD_HANDLE, DONE, NO_MEMORY, USAGE};
use pb_limits::{MOST_GAP, MOST_MADE_STREAMS, MOST_SWEEPS};
use pb_report::Form;
use std::alloc::{AllocError, Global};
use std::mem::replace;

// The fewest streams of a made session.
const LEAST_STREAMS: u32 = 3;

/// Makes the session of a number with this many streams, as `plantbal make` does, or, if `summary` isn't 0, studies its period by this
/// gap and this many sweeps, and makes the row that sums up the study. The handle then holds a session of the usual options that has
/// taken no record, and whose output is that text. `PLANTBAL_USAGE`: the streams, the gap or the sweeps are outside their limits.
/// `PLANTBAL_BAD_HANDLE`: the handle already holds a session, which stays. After these and `PLANTBAL_NO_MEMORY` the handle is as it was.
#[unsafe(no_mangle)]
pub extern "C" fn plantbal_make(
    alloc: Global,
    number: u32,
    streams: u32,
    summary: u32,
    gap: u32,
    sweeps: u32,
    session: &mut SessionHandle,
) -> u8
    ensures makes { result ≡ done
        → Makes number streams (not (summary == 0)) gap sweeps session.new.value }
    ensures live { result ≡ done → session.new.live ≡ true }
    ensures range { result ≡ usage → ¬ IsMakeInRange number streams gap sweeps }
    ensures there { session.old.live ≡ true → result ≡ bad_handle }
    ensures handle { result ≡ bad_handle → session.old.live ≡ true }
    ensures kept { result ≡ bad_handle → session.new.value ≡ session.old.value }
    ensures same { result ≢ done → session.new.live ≡ session.old.live }
    ensures answers { (result ≡ done) ⊎ (result ≡ usage) ⊎ (result ≡ no_memory)
        ⊎ (result ≡ bad_handle) }
{
    match replace(session, SessionHandle::none(alloc)).into_box() {
        Some(held) => {
            *session = SessionHandle::of(held);
            BAD_HANDLE
        }
        None => make_into(alloc, number, streams, summary != 0, gap, sweeps, session),
    }
}

// Makes a session or its summary. A handle that holds no session then holds one with that text.
fn make_into(
    alloc: Global,
    number: u32,
    streams: u32,
    summary: bool,
    gap: u32,
    sweeps: u32,
    session: &mut SessionHandle,
) -> u8
    requires { session.old.live ≡ false }
    ensures makes { result ≡ done → Makes number streams summary gap sweeps session.new.value }
    ensures live { result ≡ done → session.new.live ≡ true }
    ensures range { result ≡ usage → ¬ IsMakeInRange number streams gap sweeps }
    ensures same { result ≢ done → session.new.live ≡ false }
    ensures answers { (result ≡ done) ⊎ (result ≡ usage) ⊎ (result ≡ no_memory) }
{
    let within = LEAST_STREAMS <= streams
        && streams <= MOST_MADE_STREAMS
        && 1 <= gap
        && gap <= MOST_GAP
        && sweeps <= MOST_SWEEPS;
    if !within {
        return USAGE;
    }
    match made(alloc, number, streams, summary, gap, sweeps) {
        Ok(held) => {
            *session = SessionHandle::of(held);
            DONE
        }
        Err(AllocError) => NO_MEMORY,
    }
}

// A session whose output is the made one or its summary.
fn made(
    alloc: Global,
    number: u32,
    streams: u32,
    summary: bool,
    gap: u32,
    sweeps: u32,
) -> Result<Box<OpenSession>, AllocError>
    requires { IsMakeInRange number streams gap sweeps }
    ensures { IfOk result (λ held. Makes number streams summary gap sweeps held.value) }
{
    let text = made_text(alloc, number, streams, summary, gap, sweeps)?;
    Ok(Box::new(
        alloc,
        OpenSession::with_text(alloc, usual(), Form::Csv, text),
    )?)
}

// The text of the session, or its summary.
fn made_text(
    alloc: Global,
    number: u32,
    streams: u32,
    summary: bool,
    gap: u32,
    sweeps: u32,
) -> Result<Vec<u8>, AllocError>
    requires { IsMakeInRange number streams gap sweeps }
    ensures { IfOk result (λ text. IsMade number streams summary gap sweeps text.items) }
{
    if summary {
        pb_cli::summary(alloc, number, streams, gap, sweeps)
    } else {
        pb_make::make(alloc, number, streams)
    }
}
