// Sinks of bytes, and writing a slice whole.
ghost use Rattle.std.specs.Prelude.{◌≡◌, ◌-◌, ◌<◌, ◌≤◌, [], length, min, take, Ok, IfOk, IsOk, OnOk, OnErr};
ghost use Rattle.pb_io.specs.Counts.{counted, Rose};
ghost use Rattle.pb_io.specs.Sink.{SinkSeen, Puts, PutsPrefix, StopsAtFault};

use thiserror::Error;

/// A call of [`Sink::put`] failed.
#[derive(Clone, Copy, Debug, PartialEq, Eq, Error)]
#[error("the sink failed")]
pub struct SinkFailed;

/// Something that bytes are put into.
///
/// A contract sees the bytes that are held, if a sink shows them, and five counts: of the bytes
/// put, of the calls, of the calls that took no byte, of the faults, and of the calls that came
/// after a fault. Each count stays once it is the greatest u64.
pub trait Sink {
    // What the sink has been seen to do.
    ghost seen: { Self → SinkSeen };

    /// Appends bytes from the front of `piece`, at least one if there is one, and returns their
    /// number.
    fn put(&mut self, piece: &[u8]) -> Result<usize, SinkFailed>
        ensures within { IfOk result (λ n. n ≤ length piece.now) }
        ensures some { IfOk result (λ n. 0 < length piece.now → 0 < n) }
        ensures bytes { IfOk result (λ n. Puts (seen self.old) (seen self.new) (take n piece.now)) }
        ensures empty { piece.now ≡ [] → result ≡ Ok 0 }

        // Exactly the calls that take no byte are counted as idle.
        ensures idle { IfOk result (λ n.
            (seen self.new).idle ≡ counted (seen self.old).idle (1 - n)) }

        // It fails exactly when a fault was counted, and then no byte was put.
        ensures cause { OnErr result (Rose (seen self.old).faults (seen self.new).faults) }
        ensures no_fault { OnOk result ((seen self.new).faults ≡ (seen self.old).faults) }
        ensures none { OnErr result (Puts (seen self.old) (seen self.new) []) }
        ensures not_idle { OnErr result ((seen self.new).idle ≡ (seen self.old).idle) }

        ensures faults_stay { (seen self.old).faults ≤ (seen self.new).faults }
        ensures called { (seen self.new).calls ≡ counted (seen self.old).calls 1 }

        // The call is counted as one after a fault iff a fault had been counted before it.
        ensures after_fault { (seen self.new).after_fault
            ≡ counted (seen self.old).after_fault (min 1 (seen self.old).faults) };
}

/// Puts all the bytes into a sink, without an empty piece. After a failure a prefix of them was put, and no further piece is.
#[tactic(auto, using(crate::proofs::PieceLemmas::puts_none))]
pub fn write_all<W: Sink>(sink: &mut W, bytes: &[u8]) -> Result<(), SinkFailed>
    ensures whole { OnOk result (Puts (W.seen sink.old) (W.seen sink.new) bytes.now) }
    ensures prefix { OnErr result (PutsPrefix (W.seen sink.old) (W.seen sink.new) bytes.now) }

    // It fails exactly when the sink counted a fault.
    ensures cause { OnErr result (Rose (W.seen sink.old).faults (W.seen sink.new).faults) }
    ensures complete { ¬ Rose (W.seen sink.old).faults (W.seen sink.new).faults → IsOk result }
    ensures no_fault { OnOk result ((W.seen sink.new).faults ≡ (W.seen sink.old).faults) }
    ensures faults_stay { (W.seen sink.old).faults ≤ (W.seen sink.new).faults }
    ensures stops { StopsAtFault (W.seen sink.old) (W.seen sink.new) }

    // No piece is empty, so there are at most as many calls as bytes.
    ensures idle { (W.seen sink.new).idle ≡ (W.seen sink.old).idle }
    ensures turns { (W.seen sink.new).calls ≤ counted (W.seen sink.old).calls (length bytes.now) }
{
    let mut done = 0;
    while done < bytes.len() {
        done += sink.put(&bytes[done..])?;
    }
    Ok(())
}
