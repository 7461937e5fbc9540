// A session is made, hands over its output, and is freed.
ghost use Rattle.std.specs.Prelude.{◌≡◌, ◌≢◌, ◌≤◌, ◌<◌, ◌⊎◌, [], true, false, length, take};
ghost use Rattle.plantbal_c.specs.Asked.{IsNotAsked};
ghost use Rattle.plantbal_c.specs.Opened.{IsOpened};
ghost use Rattle.plantbal_c.specs.Status.{bad_handle, done, no_memory, small_buffer, usage};

use crate::handle::SessionHandle;
use crate::opened::OpenSession;
use crate::options::{PlantbalOptions, asked};
use crate::status::{BAD_HANDLE, DONE, NO_MEMORY, SMALL_BUFFER, USAGE};
use std::alloc::Global;
use std::mem::replace;

/// Makes a session of these options that has taken no record. `PLANTBAL_USAGE`: the options aren't within their limits.
/// `PLANTBAL_BAD_HANDLE`: the handle already holds a session, which stays. `PLANTBAL_NO_MEMORY`: the handle still holds none.
#[unsafe(no_mangle)]
pub extern "C" fn plantbal_session_new(
    alloc: Global,
    options: &PlantbalOptions,
    session: &mut SessionHandle,
) -> u8
    ensures live { result ≡ done → session.new.live ≡ true }
    ensures opened { result ≡ done → IsOpened options.now session.new.value }
    ensures not_asked { result ≡ usage → IsNotAsked options.now }
    ensures there { session.old.live ≡ true → result ≡ bad_handle }
    ensures kept { result ≡ bad_handle → session.new.value ≡ session.old.value }
    ensures same { result ≢ done → session.new.live ≡ session.old.live }
    ensures handle { result ≡ bad_handle → session.old.live ≡ true }
    ensures answers { (result ≡ done) ⊎ (result ≡ usage) ⊎ (result ≡ no_memory)
        ⊎ (result ≡ bad_handle) }
{
    match replace(session, SessionHandle::none(alloc)).into_box() {
        Some(held) => {
            *session = SessionHandle::of(held);
            BAD_HANDLE
        }
        None => match asked(options) {
            Some((options, form)) => {
                match Box::new(alloc, OpenSession::new(alloc, options, form)) {
                    Ok(held) => {
                        *session = SessionHandle::of(held);
                        DONE
                    }
                    Err(_) => NO_MEMORY,
                }
            }
            None => USAGE,
        },
    }
}

/// Hands over the output that wasn't handed over yet, if it fits into the buffer, and writes its length to `count`.
/// `PLANTBAL_SMALL_BUFFER`: it doesn't fit, and stays. `PLANTBAL_BAD_HANDLE`: the handle holds no session; `count` is 0.
#[unsafe(no_mangle)]
pub extern "C" fn plantbal_session_output(
    alloc: Global,
    session: &mut SessionHandle,
    buffer: &mut [u8],
    count: &mut usize,
) -> u8
    ensures live { session.new.live ≡ session.old.live }
    ensures handle { result ≡ bad_handle → session.old.live ≡ false }
    ensures none { session.old.live ≡ false → result ≡ bad_handle }
    ensures given { result ≡ done → take count.new buffer.new ≡ session.old.value.text }
    ensures cleared { result ≡ done → session.new.value.text ≡ [] }
    ensures state { session.old.live ≡ true
        → session.new.value.state ≡ session.old.value.state }
    ensures taken { session.old.live ≡ true
        → session.new.value.taken ≡ session.old.value.taken }
    ensures count { session.old.live ≡ true → count.new ≡ length session.old.value.text }
    ensures nothing { session.old.live ≡ false → count.new ≡ 0 }
    ensures small { result ≡ small_buffer → session.new.value ≡ session.old.value }
    ensures smaller { result ≡ small_buffer → length buffer.old < count.new }
    ensures answers { (result ≡ done) ⊎ (result ≡ small_buffer) ⊎ (result ≡ bad_handle) }
{
    match replace(session, SessionHandle::none(alloc)).into_box() {
        Some(mut held) => {
            let status = hand_over(&mut held, buffer, count);
            *session = SessionHandle::of(held);
            status
        }
        None => {
            *count = 0;
            BAD_HANDLE
        }
    }
}

// Hands over the output that wasn't handed over yet, if it fits.
fn hand_over(held: &mut OpenSession, buffer: &mut [u8], count: &mut usize) -> u8
    ensures given { result ≡ done → take count.new buffer.new ≡ held.old.text }
    ensures cleared { result ≡ done → held.new.text ≡ [] }
    ensures state { held.new.state ≡ held.old.state }
    ensures taken { held.new.taken ≡ held.old.taken }
    ensures count { count.new ≡ length held.old.text }
    ensures small { result ≡ small_buffer → held.new ≡ held.old }
    ensures smaller { result ≡ small_buffer → length buffer.old < count.new }
    ensures answers { (result ≡ done) ⊎ (result ≡ small_buffer) }
{
    *count = copy_whole(held.text(), buffer);
    if *count > buffer.len() {
        return SMALL_BUFFER;
    }
    held.clear();
    DONE
}

// Copies a text to the front of a buffer, if it fits. Returns the text's length.
fn copy_whole(text: &[u8], buffer: &mut [u8]) -> usize
    ensures length { result ≡ length text.now }
    ensures room { length buffer.new ≡ length buffer.old }
    ensures front { result ≤ length buffer.old → take result buffer.new ≡ text.now }
{
    let n = text.len();
    if n <= buffer.len() {
        buffer[..n].copy_from_slice(text);
    }
    n
}

/// Frees the session that the handle holds, if it holds one. The handle may be used for another.
#[unsafe(no_mangle)]
pub extern "C" fn plantbal_session_free(alloc: Global, session: &mut SessionHandle)
    ensures { session.new.live ≡ false }
{
    let _held = replace(session, SessionHandle::none(alloc)).into_box();
}
