// A run and a check in one call.
ghost use Rattle.std.specs.Prelude.{◌≡◌, ◌≢◌, ◌<◌, ◌≤◌, ◌⊎◌, true, false, length, IfOk};
ghost use Rattle.pb_limits.specs.Limits.{most_bytes};
ghost use Rattle.pb_study.specs.Options.{AreOptions};
ghost use Rattle.pb_report.specs.declared.form.Form.TheVariants.{Csv};
ghost use Rattle.pb_words.specs.declared.command.Command.TheVariants.{Check, Run};
ghost use Rattle.pb_session.specs.Session.{new_session};
ghost use Rattle.pb_cli.specs.Run.{IsWhole};
ghost use Rattle.plantbal_c.specs.Asked.{IsNotAsked, usual_options};
ghost use Rattle.plantbal_c.specs.Status.{bad_handle, done, done_refused, no_memory, too_large, usage};
ghost use Rattle.plantbal_c.specs.Whole.{Answers, Judges};

use crate::handle::SessionHandle;
use crate::opened::OpenSession;
use crate::options::{PlantbalOptions, asked, usual};
use crate::status::{BAD_HANDLE, DONE, DONE_REFUSED, NO_MEMORY, TOO_LARGE, USAGE};
use crate::text_sink::TextSink;
use pb_cli::{Status, answer, judge};
use pb_limits::MOST_BYTES;
use pb_report::Form;
use pb_study::Options;
use std::alloc::{AllocError, Global};
use std::mem::replace;

/// Answers the records of the input as `plantbal run` does. The handle then holds a session of these options that has taken no record,
/// and whose output is that of the run. `PLANTBAL_DONE_REFUSED`: done, and some record was refused. `PLANTBAL_USAGE`: the options
/// aren't within their limits. `PLANTBAL_TOO_LARGE`: the input has more than 67,108,864 bytes. `PLANTBAL_BAD_HANDLE`: the handle
/// already holds a session, which stays. After these and `PLANTBAL_NO_MEMORY` the handle is as it was.
#[unsafe(no_mangle)]
pub extern "C" fn plantbal_run(
    alloc: Global,
    options: &PlantbalOptions,
    input: &[u8],
    session: &mut SessionHandle,
) -> u8
    ensures done { result ≡ done → Answers false options.now input.now session.new.value }
    ensures done_refused { result ≡ done_refused
        → Answers true options.now input.now session.new.value }
    ensures live { result ≤ done_refused → session.new.live ≡ true }
    ensures not_asked { result ≡ usage → IsNotAsked options.now }
    ensures long { result ≡ too_large → most_bytes < length input.now }
    ensures there { session.old.live ≡ true → result ≡ bad_handle }
    ensures handle { result ≡ bad_handle → session.old.live ≡ true }
    ensures kept { result ≡ bad_handle → session.new.value ≡ session.old.value }
    ensures same { done_refused < result → session.new.live ≡ session.old.live }
    ensures answers { (result ≡ done) ⊎ (result ≡ done_refused) ⊎ (result ≡ usage)
        ⊎ (result ≡ too_large) ⊎ (result ≡ no_memory) ⊎ (result ≡ bad_handle) }
{
    match replace(session, SessionHandle::none(alloc)).into_box() {
        Some(held) => {
            *session = SessionHandle::of(held);
            BAD_HANDLE
        }
        None => match asked(options) {
            Some((options, form)) => run_into(alloc, options, form, input, session),
            None => USAGE,
        },
    }
}

// Answers the records of the input. A handle that holds no session then holds one with the output.
fn run_into(
    alloc: Global,
    options: Options,
    form: Form,
    input: &[u8],
    session: &mut SessionHandle,
) -> u8
    requires options { AreOptions options }
    requires none { session.old.live ≡ false }
    ensures done { result ≡ done
        → IsWhole false (Run options form) input.now session.new.value.text }
    ensures done_refused { result ≡ done_refused
        → IsWhole true (Run options form) input.now session.new.value.text }
    ensures state { result ≤ done_refused
        → session.new.value.state ≡ new_session options form }
    ensures taken { result ≤ done_refused → session.new.value.taken ≡ 0 }
    ensures live { result ≤ done_refused → session.new.live ≡ true }
    ensures long { result ≡ too_large → most_bytes < length input.now }
    ensures same { done_refused < result → session.new.live ≡ false }
    ensures answers { (result ≡ done) ⊎ (result ≡ done_refused) ⊎ (result ≡ too_large)
        ⊎ (result ≡ no_memory) }
{
    if input.len() > MOST_BYTES {
        return TOO_LARGE;
    }
    match answered(alloc, options, form, input) {
        Ok((refused, held)) => {
            *session = SessionHandle::of(held);
            if refused { DONE_REFUSED } else { DONE }
        }
        Err(AllocError) => NO_MEMORY,
    }
}

// The output of a run, and whether a record was refused.
fn answered(
    alloc: Global,
    options: Options,
    form: Form,
    input: &[u8],
) -> Result<(bool, Box<OpenSession>), AllocError>
    requires options { AreOptions options }
    requires bytes { length input.now ≤ most_bytes }
    ensures text { IfOk result (λ told.
        IsWhole told.0 (Run options form) input.now told.1.value.text) }
    ensures state { IfOk result (λ told. told.1.value.state ≡ new_session options form) }
    ensures taken { IfOk result (λ told. told.1.value.taken ≡ 0) }
{
    let mut sink = TextSink::new(alloc);
    let refused = match answer(alloc, options, form, input, &mut sink) {
        Status::Done => false,
        Status::DoneRefused => true,
        _ => return Err(AllocError),
    };
    let held = OpenSession::with_text(alloc, options, form, sink.into_bytes());
    Ok((refused, Box::new(alloc, held)?))
}

/// Judges the blocks of a report as `plantbal check` does. The handle then holds a session of the usual options that has taken no
/// record, and whose output is that of the check. `PLANTBAL_DONE_REFUSED`: done, and a block fails or can't be read.
/// `PLANTBAL_TOO_LARGE`, `PLANTBAL_BAD_HANDLE`, `PLANTBAL_NO_MEMORY`: as with `plantbal_run`.
#[unsafe(no_mangle)]
pub extern "C" fn plantbal_check(alloc: Global, input: &[u8], session: &mut SessionHandle) -> u8
    ensures done { result ≡ done → Judges false input.now session.new.value }
    ensures done_refused { result ≡ done_refused → Judges true input.now session.new.value }
    ensures live { result ≤ done_refused → session.new.live ≡ true }
    ensures long { result ≡ too_large → most_bytes < length input.now }
    ensures there { session.old.live ≡ true → result ≡ bad_handle }
    ensures handle { result ≡ bad_handle → session.old.live ≡ true }
    ensures kept { result ≡ bad_handle → session.new.value ≡ session.old.value }
    ensures same { done_refused < result → session.new.live ≡ session.old.live }
    ensures answers { (result ≡ done) ⊎ (result ≡ done_refused) ⊎ (result ≡ too_large)
        ⊎ (result ≡ no_memory) ⊎ (result ≡ bad_handle) }
{
    match replace(session, SessionHandle::none(alloc)).into_box() {
        Some(held) => {
            *session = SessionHandle::of(held);
            BAD_HANDLE
        }
        None => check_into(alloc, input, session),
    }
}

// Judges the blocks of a report. A handle that holds no session then holds one with the output.
fn check_into(alloc: Global, input: &[u8], session: &mut SessionHandle) -> u8
    requires none { session.old.live ≡ false }
    ensures done { result ≡ done → IsWhole false Check input.now session.new.value.text }
    ensures done_refused { result ≡ done_refused
        → IsWhole true Check input.now session.new.value.text }
    ensures state { result ≤ done_refused
        → session.new.value.state ≡ new_session usual_options Csv }
    ensures taken { result ≤ done_refused → session.new.value.taken ≡ 0 }
    ensures live { result ≤ done_refused → session.new.live ≡ true }
    ensures long { result ≡ too_large → most_bytes < length input.now }
    ensures same { done_refused < result → session.new.live ≡ false }
    ensures answers { (result ≡ done) ⊎ (result ≡ done_refused) ⊎ (result ≡ too_large)
        ⊎ (result ≡ no_memory) }
{
    if input.len() > MOST_BYTES {
        return TOO_LARGE;
    }
    match judged(alloc, input) {
        Ok((wrong, held)) => {
            *session = SessionHandle::of(held);
            if wrong { DONE_REFUSED } else { DONE }
        }
        Err(AllocError) => NO_MEMORY,
    }
}

// A session with the output of a check, and whether anything wrong was found.
fn judged(alloc: Global, input: &[u8]) -> Result<(bool, Box<OpenSession>), AllocError>
    requires { length input.now ≤ most_bytes }
    ensures text { IfOk result (λ told. IsWhole told.0 Check input.now told.1.value.text) }
    ensures state { IfOk result (λ told. told.1.value.state ≡ new_session usual_options Csv) }
    ensures taken { IfOk result (λ told. told.1.value.taken ≡ 0) }
{
    let (wrong, text) = judgement(alloc, input)?;
    let held = OpenSession::with_text(alloc, usual(), Form::Csv, text);
    Ok((wrong, Box::new(alloc, held)?))
}

// The output of a check, and whether anything wrong was found.
fn judgement(alloc: Global, input: &[u8]) -> Result<(bool, Vec<u8>), AllocError>
    requires { length input.now ≤ most_bytes }
    ensures { IfOk result (λ told. IsWhole told.0 Check input.now told.1.items) }
{
    let mut sink = TextSink::new(alloc);
    match judge(alloc, input, &mut sink) {
        Status::Done => Ok((false, sink.into_bytes())),
        Status::DoneRefused => Ok((true, sink.into_bytes())),
        _ => Err(AllocError),
    }
}
