// A run of the command that the words give.
ghost use Rattle.std.specs.Prelude.{◌≡◌, ◌≢◌, ◌⊎◌, ◌+◌, ◌≤◌, ℕ, Bool, List, Err, true, false, length, IfOk, IfErr, OnErr};
ghost use Rattle.pb_io.specs.Counts.{Rose};
ghost use Rattle.pb_io.specs.Sink.{StopsAtFault};
ghost use Rattle.pb_io.specs.Source.{TakesSuch};
ghost use Rattle.pb_limits.specs.Limits.{most_bytes};
ghost use Rattle.pb_cli.specs.declared.status.Status.TheVariants.{Done, DoneRefused, Usage, ReadFault, WriteFault, TooLarge, NoMemory};
ghost use Rattle.pb_words.specs.declared.command.Command.{Command};
ghost use Rattle.pb_words.specs.declared.command.Command.TheVariants.{Make};
ghost use Rattle.pb_words.specs.Command.{IsCommandInRange, IsCommandOf};
ghost use Rattle.pb_words.specs.Line.{are_plain_or_named};
ghost use Rattle.pb_cli.specs.Run.{Does, EndsAs, GiveCommand, IsCutShort, IsFront, IsGiven, IsWhole, Reads, is_making};

use crate::answers::answer;
use crate::checks::judge;
use crate::making::make_session;
use crate::status::Status;
use pb_io::{ReadEnd, Sink, Source, read_all};
use pb_limits::MOST_BYTES;
use pb_words::{Command, Words, WordsRefused, read_words};
use std::alloc::Global;

/// Does what the command of the words asks: reads a session from a source to its end and writes its output to a sink; or reads a
/// report and writes its judgement, block by block; or makes a session, for which it reads nothing, and writes it.
///
/// The whole input is read before anything is written, and what each record or block adds is written before the next is taken. The
/// code does so; no clause says when.
///
/// The clauses are about the bytes that were taken and put. If an end doesn't show its bytes, as standard input and output don't,
/// they are only about the numbers of bytes; [`answer`] and [`judge`] say the same about bytes in hand.
pub fn run<R: Source, W: Sink>(alloc: Global, words: &Words, source: &mut R, sink: &mut W) -> Status
    // Whatever rows come in, the bytes written are the reports of the rows before them with amendments applied; in each, every
    // class stands with a true cutset or cycle, flows balance, every balanced fractional vector no worse than the printed flows
    // lies within the bounds that the printed prices give, every least one within the least bounds, and Unconverged comes only
    // after the allowed sweeps of best prices.
    //
    // This holds for the text of a run, which besides reports has the row of each refusal, the classes of each design and the edits
    // of each history. A vector lies within bounds if each measured and each observable stream does. A least vector is balanced and
    // no worse than any balanced fractional vector. If a report says Unconverged, the gap is met neither before the first sweep nor
    // after any of the allowed sweeps. In a check the bytes written are the judgement, and each block that gets a yes is certified
    // in the same way, whatever wrote it, though it may have no least bounds.
    ensures done { result ≡ Done → Does (IsWhole false) words.now
        (R.seen source.old) (R.seen source.new) (W.seen sink.old) (W.seen sink.new) }
    ensures done_refused { result ≡ DoneRefused → Does (IsWhole true) words.now
        (R.seen source.old) (R.seen source.new) (W.seen sink.old) (W.seen sink.new) }

    // Usage is the answer only if the words aren't accepted. If they aren't, the only other possible answer is NoMemory, and
    // nothing is read or written; if one of them doesn't have the form of any word of a command, the answer is always Usage.
    ensures usage { result ≡ Usage → GiveCommand words.now → ⊥ }
    ensures unaccepted { (GiveCommand words.now → ⊥) → (result ≡ Usage) ⊎ (result ≡ NoMemory) }
    ensures malformed { are_plain_or_named words.now ≡ false → result ≡ Usage }
    ensures unread { (GiveCommand words.now → ⊥) → source.new ≡ source.old }
    ensures unwritten { (GiveCommand words.now → ⊥) → sink.new ≡ sink.old }

    // ReadFault is the answer iff the source counted a fault. Then nothing is written.
    ensures read_fault { result ≡ ReadFault →
        Rose (R.seen source.old).faults (R.seen source.new).faults }
    ensures no_read_fault { result ≢ ReadFault →
        (R.seen source.new).faults ≡ (R.seen source.old).faults }
    ensures read_fault_unwritten { result ≡ ReadFault → sink.new ≡ sink.old }

    // WriteFault is the answer iff the sink counted a fault. What was written is a proper beginning of the output.
    ensures write_fault { result ≡ WriteFault →
        Rose (W.seen sink.old).faults (W.seen sink.new).faults }
    ensures no_write_fault { result ≢ WriteFault →
        (W.seen sink.new).faults ≡ (W.seen sink.old).faults }
    ensures write_fault_cut { result ≡ WriteFault → Does IsCutShort words.now
        (R.seen source.old) (R.seen source.new) (W.seen sink.old) (W.seen sink.new) }

    // TooLarge is the answer iff one byte more than the limit was taken. Then nothing is written.
    ensures too_large { result ≡ TooLarge →
        TakesSuch (λ bytes. length bytes ≡ most_bytes + 1) (R.seen source.old) (R.seen source.new) }
    ensures too_large_unwritten { result ≡ TooLarge → sink.new ≡ sink.old }
    ensures not_too_large { result ≢ TooLarge →
        TakesSuch (λ bytes. length bytes ≤ most_bytes) (R.seen source.old) (R.seen source.new) }

    // If memory ran out, nothing was written, or the texts of the first rows or of the first blocks, whole.
    ensures no_memory { result ≡ NoMemory → (sink.new ≡ sink.old) ⊎ Does IsFront words.now
        (R.seen source.old) (R.seen source.new) (W.seen sink.old) (W.seen sink.new) }

    // If the source shows its bytes and no fault was counted, the bytes decide how the command ends; if the command makes a
    // session, it doesn't need them, and nothing is read. The only other possible answer is NoMemory.
    ensures complete { (command : Command) (input : List ℕ)
        → IsCommandOf words.now command
        → IsGiven command (R.seen source.old) (R.seen source.new) input →
        ¬ Rose (W.seen sink.old).faults (W.seen sink.new).faults →
        EndsAs command input result ⊎ (result ≡ NoMemory) }
    ensures make_unread { (number streams : ℕ) (summary : Bool) (gap sweeps : ℕ)
        → IsCommandOf words.now (Make number streams summary gap sweeps)
        → source.new ≡ source.old }

    // No empty piece was put, and none after a fault.
    ensures idle { (W.seen sink.new).idle ≡ (W.seen sink.old).idle }
    ensures source_faults_stay { (R.seen source.old).faults ≤ (R.seen source.new).faults }
    ensures sink_faults_stay { (W.seen sink.old).faults ≤ (W.seen sink.new).faults }
    ensures stops { StopsAtFault (W.seen sink.old) (W.seen sink.new) }
{
    let command = match read_words(alloc, words) {
        Ok(command) => command,
        Err(WordsRefused::Usage) => return Status::Usage,
        Err(WordsRefused::NoMemory) => return Status::NoMemory,
    };
    let input = match read_input(alloc, command, source) {
        Ok(input) => input,
        Err(status) => return status,
    };
    match command {
        Command::Run { options, form } => answer(alloc, options, form, input.as_slice(), sink),
        Command::Check => judge(alloc, input.as_slice(), sink),
        Command::Make {
            number,
            streams,
            summary,
            gap,
            sweeps,
        } => make_session(alloc, number, streams, summary, gap, sweeps, sink),
    }
}

// Reads what a command reads: the source to its end, or nothing if a session is made. On failure, returns the status that says why.
fn read_input<R: Source>(alloc: Global, command: Command, source: &mut R) -> Result<Vec<u8>, Status>
    ensures read { IfOk result (λ input.
        Reads command (R.seen source.old) (R.seen source.new) input.items) }
    ensures within { IfOk result (λ input. length input.items ≤ most_bytes) }
    ensures given { (input : List ℕ)
        → IsGiven command (R.seen source.old) (R.seen source.new) input →
        IfOk result (λ read. read.items ≡ input) }
    ensures complete { (input : List ℕ)
        → IsGiven command (R.seen source.old) (R.seen source.new) input →
        IfErr result (λ status. status ≡ NoMemory) }
    ensures unread { is_making command ≡ true → source.new ≡ source.old }
    ensures read_fault { IfErr result (λ status. status ≡ ReadFault →
        Rose (R.seen source.old).faults (R.seen source.new).faults) }
    ensures no_read_fault { result ≢ Err ReadFault →
        (R.seen source.new).faults ≡ (R.seen source.old).faults }
    ensures too_large { IfErr result (λ status. status ≡ TooLarge →
        TakesSuch (λ bytes. length bytes ≡ most_bytes + 1)
        (R.seen source.old) (R.seen source.new)) }
    ensures not_too_large { result ≢ Err TooLarge →
        TakesSuch (λ bytes. length bytes ≤ most_bytes) (R.seen source.old) (R.seen source.new) }
    ensures answers { IfErr result (λ status.
        (status ≡ ReadFault) ⊎ ((status ≡ TooLarge) ⊎ (status ≡ NoMemory))) }
    ensures faults_stay { (R.seen source.old).faults ≤ (R.seen source.new).faults }
{
    if matches!(command, Command::Make { .. }) {
        return Ok(Vec::new(alloc));
    }
    match read_all(alloc, source, MOST_BYTES) {
        Ok(input) => Ok(input),
        Err(ReadEnd::Fault) => Err(Status::ReadFault),
        Err(ReadEnd::TooLarge) => Err(Status::TooLarge),
        Err(ReadEnd::NoMemory) => Err(Status::NoMemory),
    }
}
