// Bytes in hand, and what is written for them.
ghost use Rattle.std.specs.Prelude.{◌≡◌, ◌≢◌, ◌⊎◌, ◌^◌, ◌<◌, ◌≤◌, true, false, length, IfOk, OnOk, IfErr};
ghost use Rattle.pb_io.specs.Counts.{Rose};
ghost use Rattle.pb_io.specs.Sink.{PutsSuch, StopsAtFault};
ghost use Rattle.pb_limits.specs.Limits.{most_bytes};
ghost use Rattle.pb_study.specs.Options.{AreOptions};
ghost use Rattle.pb_rows.specs.Records.{records_of};
ghost use Rattle.pb_book.specs.Answer.{answer_of, is_refused};
ghost use Rattle.pb_session.specs.Session.{Adds, IsSessionText, new_session, refuses_some, state_after};
ghost use Rattle.pb_cli.specs.declared.status.Status.TheVariants.{Done, DoneRefused, WriteFault, NoMemory};
ghost use Rattle.pb_cli.specs.Status.{done_status};
ghost use Rattle.pb_cli.specs.Prefix.{AreTextsOfSome, AreTextsCutShort, IsBeginningOf};
ghost use Rattle.pb_cli.specs.Run.{IsWhole, refuses};
ghost use Rattle.pb_words.specs.declared.command.Command.TheVariants.{Run};

use crate::status::Status;
use pb_io::{Sink, SinkFailed, write_all};
use pb_report::Form;
use pb_rows::{Records, Row};
use pb_session::Session;
use pb_study::Options;
use std::alloc::{AllocError, Global};

// Why the answer to a record was not written.
#[derive(Clone, Copy)]
pub(crate) enum Stopped {
    OutOfMemory,
    SinkFault,
}

impl From<AllocError> for Stopped {
    ghost use Rattle.pb_cli.specs.declared.answers.Stopped.TheVariants.{OutOfMemory};

    ghost from_gives = { λ _ stopped. stopped ≡ OutOfMemory };

    fn from(_error: AllocError) -> Stopped {
        Stopped::OutOfMemory
    }
}

impl From<SinkFailed> for Stopped {
    ghost use Rattle.pb_cli.specs.declared.answers.Stopped.TheVariants.{SinkFault};

    ghost from_gives = { λ _ stopped. stopped ≡ SinkFault };

    fn from(_failed: SinkFailed) -> Stopped {
        Stopped::SinkFault
    }
}

/// Answers the records of these bytes in order, in a session that has stored nothing, and writes the output in this form. (It
/// writes what each record adds before it takes the next, but no clause says when.)
pub fn answer<W: Sink>(
    alloc: Global,
    options: Options,
    form: Form,
    input: &[u8],
    sink: &mut W,
) -> Status
    requires options { AreOptions options }
    requires bytes { length input.now ≤ most_bytes }

    // All of the output was written, and the status says whether some record was refused.
    ensures done { result ≡ Done →
        PutsSuch (IsWhole false (Run options form) input.now) (W.seen sink.old) (W.seen sink.new) }
    ensures done_refused { result ≡ DoneRefused →
        PutsSuch (IsWhole true (Run options form) input.now) (W.seen sink.old) (W.seen sink.new) }

    // WriteFault is the answer iff the sink counted a fault. What was written is a proper beginning of the output.
    ensures write_fault { result ≡ WriteFault →
        Rose (W.seen sink.old).faults (W.seen sink.new).faults }
    ensures write_fault_cut { result ≡ WriteFault →
        PutsSuch (AreTextsCutShort (new_session options form) (records_of input.now))
        (W.seen sink.old) (W.seen sink.new) }
    ensures no_write_fault { result ≢ WriteFault →
        (W.seen sink.new).faults ≡ (W.seen sink.old).faults }

    // If memory ran out, the texts of the first records were written, whole.
    ensures no_memory { result ≡ NoMemory →
        PutsSuch (AreTextsOfSome (new_session options form) (records_of input.now))
        (W.seen sink.old) (W.seen sink.new) }

    // No other answer is possible.
    ensures answers { (result ≡ done_status (refuses options form input.now))
        ⊎ (result ≡ WriteFault) ⊎ (result ≡ NoMemory) }

    // No empty piece was put, and none after a fault.
    ensures idle { (W.seen sink.new).idle ≡ (W.seen sink.old).idle }
    ensures faults_stay { (W.seen sink.old).faults ≤ (W.seen sink.new).faults }
    ensures stops { StopsAtFault (W.seen sink.old) (W.seen sink.new) }
{
    let mut records = Records::of(alloc, input);
    match answer_records(alloc, options, form, &mut records, sink) {
        Ok(false) => Status::Done,
        Ok(true) => Status::DoneRefused,
        Err(Stopped::SinkFault) => Status::WriteFault,
        Err(Stopped::OutOfMemory) => Status::NoMemory,
    }
}

// Takes the records in order, in a session that has stored nothing, and writes what each adds. Returns true iff some record was
// refused.
fn answer_records<W: Sink>(
    alloc: Global,
    options: Options,
    form: Form,
    records: &mut Records,
    sink: &mut W,
) -> Result<bool, Stopped>
    requires options { AreOptions options }
    requires none_taken { records.now.taken ≡ 0 }
    requires few { length records.now.left < 2 ^ 32 }
    ensures refused { IfOk result (λ refused.
        refused ≡ refuses_some (new_session options form) 1 records.old.left) }
    ensures whole { OnOk result (PutsSuch
        (IsSessionText (new_session options form) 1 records.old.left)
        (W.seen sink.old) (W.seen sink.new)) }
    ensures cut { IfErr result (λ e. e ≡ Stopped.SinkFault → PutsSuch
        (AreTextsCutShort (new_session options form) records.old.left)
        (W.seen sink.old) (W.seen sink.new)) }
    ensures some { IfErr result (λ e. e ≡ Stopped.OutOfMemory → PutsSuch
        (AreTextsOfSome (new_session options form) records.old.left)
        (W.seen sink.old) (W.seen sink.new)) }
    ensures cause { IfErr result (λ e. e ≡ Stopped.SinkFault →
        Rose (W.seen sink.old).faults (W.seen sink.new).faults) }
    ensures no_fault { OnOk result ((W.seen sink.new).faults ≡ (W.seen sink.old).faults) }
    ensures memory_no_fault { IfErr result (λ e. e ≡ Stopped.OutOfMemory →
        (W.seen sink.new).faults ≡ (W.seen sink.old).faults) }
    ensures idle { (W.seen sink.new).idle ≡ (W.seen sink.old).idle }
    ensures faults_stay { (W.seen sink.old).faults ≤ (W.seen sink.new).faults }
    ensures stops { StopsAtFault (W.seen sink.old) (W.seen sink.new) }
{
    let mut session = Session::new(alloc, options, form);
    let mut fields = Row::new(alloc);
    answer_in(alloc, &mut session, &mut fields, records, sink)
}

// Takes the records in order, one at a time into the same row, and writes what each adds before it takes the next. Returns true iff
// some record was refused.
fn answer_in<W: Sink>(
    alloc: Global,
    session: &mut Session,
    fields: &mut Row,
    records: &mut Records,
    sink: &mut W,
) -> Result<bool, Stopped>
    requires none_taken { records.now.taken ≡ 0 }
    requires few { length records.now.left < 2 ^ 32 }
    ensures refused { IfOk result (λ refused.
        refused ≡ refuses_some session.old.state 1 records.old.left) }
    ensures whole { OnOk result (PutsSuch
        (IsSessionText session.old.state 1 records.old.left)
        (W.seen sink.old) (W.seen sink.new)) }
    ensures cut { IfErr result (λ e. e ≡ Stopped.SinkFault → PutsSuch
        (AreTextsCutShort session.old.state records.old.left)
        (W.seen sink.old) (W.seen sink.new)) }
    ensures some { IfErr result (λ e. e ≡ Stopped.OutOfMemory → PutsSuch
        (AreTextsOfSome session.old.state records.old.left)
        (W.seen sink.old) (W.seen sink.new)) }
    ensures cause { IfErr result (λ e. e ≡ Stopped.SinkFault →
        Rose (W.seen sink.old).faults (W.seen sink.new).faults) }
    ensures no_fault { OnOk result ((W.seen sink.new).faults ≡ (W.seen sink.old).faults) }
    ensures memory_no_fault { IfErr result (λ e. e ≡ Stopped.OutOfMemory →
        (W.seen sink.new).faults ≡ (W.seen sink.old).faults) }
    ensures idle { (W.seen sink.new).idle ≡ (W.seen sink.old).idle }
    ensures faults_stay { (W.seen sink.old).faults ≤ (W.seen sink.new).faults }
    ensures stops { StopsAtFault (W.seen sink.old) (W.seen sink.new) }
{
    let mut some_refused = false;
    'turns: while records.fill(fields)? {
        let at = records.taken() as u32;
        some_refused |= answer_record(alloc, session, at, fields, sink)?;
    }
    Ok(some_refused)
}

// Takes one record and writes what it adds to the output. Returns true iff the record was refused.
fn answer_record<W: Sink>(
    alloc: Global,
    session: &mut Session,
    at: u32,
    fields: &Row,
    sink: &mut W,
) -> Result<bool, Stopped>
    ensures stored { OnOk result (session.new.state ≡ state_after session.old.state at fields.now) }
    ensures refused { IfOk result (λ refused.
        refused ≡ is_refused (answer_of session.old.state.rows fields.now)) }
    ensures whole { OnOk result (PutsSuch
        (Adds session.old.state at fields.now) (W.seen sink.old) (W.seen sink.new)) }
    ensures no_memory { IfErr result (λ e. e ≡ Stopped.OutOfMemory → sink.new ≡ sink.old) }
    ensures cut { IfErr result (λ e. e ≡ Stopped.SinkFault → PutsSuch
        (IsBeginningOf (Adds session.old.state at fields.now)) (W.seen sink.old)
        (W.seen sink.new)) }
    ensures cause { IfErr result (λ e. e ≡ Stopped.SinkFault →
        Rose (W.seen sink.old).faults (W.seen sink.new).faults) }
    ensures no_fault { OnOk result ((W.seen sink.new).faults ≡ (W.seen sink.old).faults) }
    ensures idle { (W.seen sink.new).idle ≡ (W.seen sink.old).idle }
    ensures faults_stay { (W.seen sink.old).faults ≤ (W.seen sink.new).faults }
    ensures stops { StopsAtFault (W.seen sink.old) (W.seen sink.new) }
{
    let mut text = Vec::new(alloc);
    let refused = session.row(at, fields, &mut text)?;
    write_all(sink, text.as_slice())?;
    Ok(refused.is_some())
}
