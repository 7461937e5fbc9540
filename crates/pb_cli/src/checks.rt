// Bytes in hand, and their judgement.
ghost use Rattle.std.specs.Prelude.{◌≡◌, ◌≢◌, ◌⊎◌, ◌+◌, ◌^◌, ◌<◌, ◌≤◌, true, false, length, IfOk, OnOk, IfErr};
ghost use Rattle.pb_io.specs.Counts.{Rose};
ghost use Rattle.pb_io.specs.Sink.{PutsSuch, StopsAtFault};
ghost use Rattle.pb_limits.specs.Limits.{most_bytes};
ghost use Rattle.pb_rows.specs.Records.{records_of};
ghost use Rattle.pb_audit.specs.Judgement.{IsJudgement, IsJudgementPart};
ghost use Rattle.pb_audit.specs.Laws.{IsJudgementText};
ghost use Rattle.pb_audit.specs.Next.{FindsNext};
ghost use Rattle.pb_cli.specs.declared.status.Status.TheVariants.{Done, DoneRefused, WriteFault, NoMemory};
ghost use Rattle.pb_cli.specs.Judging.{TellsFinding};
ghost use Rattle.pb_cli.specs.Prefix.{IsBeginningOf};
ghost use Rattle.pb_cli.specs.Run.{EndsAs, IsCutShort, IsWhole};
ghost use Rattle.pb_words.specs.declared.command.Command.TheVariants.{Check};

use crate::answers::Stopped;
use crate::status::Status;
use pb_audit::{Judged, judge_next};
use pb_io::{Sink, write_all};
use pb_rows::Records;
use std::alloc::Global;

/// Judges the blocks of these bytes in order, and writes what it finds: a row for each block, and one for the first record that
/// can't be read, after which nothing is judged. (It writes each row before it reads the next block, but no clause says when.)
pub fn judge<W: Sink>(alloc: Global, input: &[u8], sink: &mut W) -> Status
    requires bytes { length input.now ≤ most_bytes }

    // All rows were written, and the status says whether anything wrong was found.
    ensures done { result ≡ Done →
        PutsSuch (IsWhole false Check input.now) (W.seen sink.old) (W.seen sink.new) }
    ensures done_refused { result ≡ DoneRefused →
        PutsSuch (IsWhole true Check input.now) (W.seen sink.old) (W.seen sink.new) }

    // WriteFault is the answer iff the sink counted a fault. What was written is a proper beginning of the rows.
    ensures write_fault { result ≡ WriteFault →
        Rose (W.seen sink.old).faults (W.seen sink.new).faults }
    ensures write_fault_cut { result ≡ WriteFault →
        PutsSuch (IsCutShort Check input.now) (W.seen sink.old) (W.seen sink.new) }
    ensures no_write_fault { result ≢ WriteFault →
        (W.seen sink.new).faults ≡ (W.seen sink.old).faults }

    // If memory ran out, the first rows were written, whole.
    ensures no_memory { result ≡ NoMemory →
        PutsSuch (IsJudgementPart (records_of input.now)) (W.seen sink.old) (W.seen sink.new) }

    // No other answer is possible.
    ensures answers { EndsAs Check input.now result
        ⊎ ((result ≡ WriteFault) ⊎ (result ≡ NoMemory)) }

    // No empty piece was put, and none after a fault.
    ensures idle { (W.seen sink.new).idle ≡ (W.seen sink.old).idle }
    ensures faults_stay { (W.seen sink.old).faults ≤ (W.seen sink.new).faults }
    ensures stops { StopsAtFault (W.seen sink.old) (W.seen sink.new) }
{
    let mut records = Records::of(alloc, input);
    match judge_records(alloc, &mut records, sink) {
        Ok(false) => Status::Done,
        Ok(true) => Status::DoneRefused,
        Err(Stopped::SinkFault) => Status::WriteFault,
        Err(Stopped::OutOfMemory) => Status::NoMemory,
    }
}

// Judges the blocks of these records, and writes the row of each finding before it reads the next block. Returns true iff some
// block failed or a record can't be read.
fn judge_records<W: Sink>(
    alloc: Global,
    records: &mut Records,
    sink: &mut W,
) -> Result<bool, Stopped>
    requires none_taken { records.now.taken ≡ 0 }
    requires few { length records.now.left < 2 ^ 31 }
    ensures whole { IfOk result (λ wrong. PutsSuch
        (IsJudgement wrong records.old.left) (W.seen sink.old) (W.seen sink.new)) }
    ensures cut { IfErr result (λ e. e ≡ Stopped.SinkFault → PutsSuch
        (IsBeginningOf (IsJudgementText records.old.left)) (W.seen sink.old) (W.seen sink.new)) }
    ensures some { IfErr result (λ e. e ≡ Stopped.OutOfMemory → PutsSuch
        (IsJudgementPart records.old.left) (W.seen sink.old) (W.seen sink.new)) }
    ensures cause { IfErr result (λ e. e ≡ Stopped.SinkFault →
        Rose (W.seen sink.old).faults (W.seen sink.new).faults) }
    ensures no_fault { OnOk result ((W.seen sink.new).faults ≡ (W.seen sink.old).faults) }
    ensures memory_no_fault { IfErr result (λ e. e ≡ Stopped.OutOfMemory →
        (W.seen sink.new).faults ≡ (W.seen sink.old).faults) }
    ensures idle { (W.seen sink.new).idle ≡ (W.seen sink.old).idle }
    ensures faults_stay { (W.seen sink.old).faults ≤ (W.seen sink.new).faults }
    ensures stops { StopsAtFault (W.seen sink.old) (W.seen sink.new) }
{
    let mut some_wrong = false;
    'turns: loop {
        match judge_block(alloc, records, sink)? {
            Some(Judged::Passed) => {}
            Some(Judged::Failed) => some_wrong = true,
            Some(Judged::Unreadable) => return Ok(true),
            None => return Ok(some_wrong),
        }
    }
}

// Judges the next block, and writes its row.
fn judge_block<W: Sink>(
    alloc: Global,
    records: &mut Records,
    sink: &mut W,
) -> Result<Option<Judged>, Stopped>
    requires few { records.now.taken + length records.now.left < 2 ^ 31 }
    ensures whole { IfOk result (λ judged. PutsSuch
        (FindsNext records.old records.new judged) (W.seen sink.old) (W.seen sink.new)) }
    ensures no_memory { IfErr result (λ e. e ≡ Stopped.OutOfMemory → sink.new ≡ sink.old) }
    ensures cut { IfErr result (λ e. e ≡ Stopped.SinkFault → PutsSuch
        (IsBeginningOf (TellsFinding records.old)) (W.seen sink.old) (W.seen sink.new)) }
    ensures cause { IfErr result (λ e. e ≡ Stopped.SinkFault →
        Rose (W.seen sink.old).faults (W.seen sink.new).faults) }
    ensures no_fault { OnOk result ((W.seen sink.new).faults ≡ (W.seen sink.old).faults) }
    ensures idle { (W.seen sink.new).idle ≡ (W.seen sink.old).idle }
    ensures faults_stay { (W.seen sink.old).faults ≤ (W.seen sink.new).faults }
    ensures stops { StopsAtFault (W.seen sink.old) (W.seen sink.new) }
{
    let mut row = Vec::new(alloc);
    let judged = judge_next(alloc, records, &mut row)?;
    write_all(sink, row.as_slice())?;
    Ok(judged)
}
