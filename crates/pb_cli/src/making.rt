// A session made from a number, or its summary, and the writing of its text.
ghost use Rattle.std.specs.Prelude.{◌≡◌, ◌≢◌, ◌⊎◌, ◌≤◌, IfOk};
ghost use Rattle.pb_io.specs.Counts.{Rose};
ghost use Rattle.pb_io.specs.Sink.{PutsSuch, StopsAtFault};
ghost use Rattle.pb_words.specs.Command.{IsMakeInRange};
ghost use Rattle.pb_cli.specs.declared.status.Status.TheVariants.{Done, WriteFault, NoMemory};
ghost use Rattle.pb_cli.specs.Prefix.{IsBeginningOf};
ghost use Rattle.pb_cli.specs.Run.{IsMade};

use crate::status::Status;
use crate::texts;
use pb_io::{Sink, write_all};
use std::alloc::{AllocError, Global};

// Makes a session or its summary and writes it to a sink. Nothing is written before all of it is made.
pub(crate) fn make_session<W: Sink>(
    alloc: Global,
    number: u32,
    streams: u32,
    summary: bool,
    gap: u32,
    sweeps: u32,
    sink: &mut W,
) -> Status
    requires range { IsMakeInRange number streams gap sweeps }
    ensures done { result ≡ Done →
        PutsSuch (IsMade number streams summary gap sweeps) (W.seen sink.old) (W.seen sink.new) }
    ensures write_fault { result ≡ WriteFault →
        Rose (W.seen sink.old).faults (W.seen sink.new).faults }
    ensures write_fault_cut { result ≡ WriteFault →
        PutsSuch (IsBeginningOf (IsMade number streams summary gap sweeps))
        (W.seen sink.old) (W.seen sink.new) }
    ensures no_write_fault { result ≢ WriteFault →
        (W.seen sink.new).faults ≡ (W.seen sink.old).faults }
    ensures no_memory { result ≡ NoMemory → sink.new ≡ sink.old }
    ensures answers { (result ≡ Done) ⊎ (result ≡ WriteFault) ⊎ (result ≡ NoMemory) }
    ensures complete { ¬ Rose (W.seen sink.old).faults (W.seen sink.new).faults →
        (result ≡ Done) ⊎ (result ≡ NoMemory) }
    ensures idle { (W.seen sink.new).idle ≡ (W.seen sink.old).idle }
    ensures faults_stay { (W.seen sink.old).faults ≤ (W.seen sink.new).faults }
    ensures stops { StopsAtFault (W.seen sink.old) (W.seen sink.new) }
{
    let Ok(text) = made(alloc, number, streams, summary, gap, sweeps) else {
        return Status::NoMemory;
    };
    match write_all(sink, text.as_slice()) {
        Ok(()) => Status::Done,
        Err(_) => Status::WriteFault,
    }
}

// The text of the session, or its summary.
fn made(
    alloc: Global,
    number: u32,
    streams: u32,
    summary: bool,
    gap: u32,
    sweeps: u32,
) -> Result<Vec<u8>, AllocError>
    requires range { IsMakeInRange number streams gap sweeps }
    ensures { IfOk result (λ text. IsMade number streams summary gap sweeps text.items) }
{
    if summary {
        texts::summary(alloc, number, streams, gap, sweeps)
    } else {
        pb_make::make(alloc, number, streams)
    }
}
