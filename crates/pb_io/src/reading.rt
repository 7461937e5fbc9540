// Sources of bytes, and reading one to its end.
ghost use Rattle.std.specs.Prelude.{◌≡◌, ◌≢◌, ◌+◌, ◌-◌, ◌^◌, ◌<◌, ◌≤◌, ◌⊎◌, [], length, take, Some, Err, vec_len, IfSome, IfOk, OnOk, OnErr, IsErrOf, IsOkUnless};
ghost use Rattle.std.specs.Io.KnownBytes.{IsAtEnd};
ghost use Rattle.pb_io.specs.Counts.{counted, Rose};
ghost use Rattle.pb_io.specs.Source.{SourceSeen, Takes, TakesInTurns, TakesSuch};
ghost use Rattle.pb_io.specs.declared.reading.ReadEnd.TheVariants.{Fault, NoMemory};

use std::alloc::{AllocError, Global};
use thiserror::Error;

/// A call of [`Source::take`] failed.
#[derive(Clone, Copy, Debug, PartialEq, Eq, Error)]
#[error("the source failed")]
pub struct SourceFailed;

/// Why [`read_all`] gave no bytes.
#[derive(Clone, Copy, Debug, PartialEq, Eq, Error)]
pub enum ReadEnd {
    /// A call of the source failed.
    #[error("the source failed")]
    Fault,
    /// The source has more bytes than the limit.
    #[error("more bytes than the limit")]
    TooLarge,
    /// No memory was found for the bytes.
    #[error("out of memory")]
    NoMemory,
}

impl From<SourceFailed> for ReadEnd {
    ghost from_gives = { λ _ end. end ≡ Fault };

    fn from(_failed: SourceFailed) -> ReadEnd {
        ReadEnd::Fault
    }
}

impl From<AllocError> for ReadEnd {
    ghost from_gives = { λ _ end. end ≡ NoMemory };

    fn from(_error: AllocError) -> ReadEnd {
        ReadEnd::NoMemory
    }
}

/// Something that bytes are taken from.
///
/// A contract sees the bytes that remain, if a source shows them, and four counts: of the bytes
/// taken, of the calls, of the calls that gave no byte, and of the faults. Each count stays once it
/// is the greatest u64.
pub trait Source {
    // What the source has been seen to do.
    ghost seen: { Self → SourceSeen };

    /// Takes the next bytes into the front of `buf`, and returns their number; 0 for a buffer that
    /// isn't empty is the end of the input. What `buf` holds after these bytes, or after a failure,
    /// is unspecified.
    fn take(&mut self, buf: &mut [u8]) -> Result<usize, SourceFailed>
        ensures within { IfOk result (λ n. n ≤ length buf.new) }
        ensures bytes { IfOk result (λ n. Takes (seen self.old) (seen self.new) (take n buf.new)) }
        ensures end { IfOk result (λ n.
            n ≡ 0 → 0 < length buf.new → IsAtEnd (seen self.new).remaining) }
        ensures only_end { (seen self.old).remaining ≡ Some [] → IfOk result (λ n. n ≡ 0) }

        // Exactly the calls that give no byte are counted as idle.
        ensures idle { IfOk result (λ n.
            (seen self.new).idle ≡ counted (seen self.old).idle (1 - n)) }

        // It fails exactly when a fault was counted, and then no byte was taken.
        ensures cause { OnErr result (Rose (seen self.old).faults (seen self.new).faults) }
        ensures no_fault { OnOk result ((seen self.new).faults ≡ (seen self.old).faults) }
        ensures none { OnErr result (Takes (seen self.old) (seen self.new) []) }
        ensures not_idle { OnErr result ((seen self.new).idle ≡ (seen self.old).idle) }

        ensures faults_stay { (seen self.old).faults ≤ (seen self.new).faults }
        ensures called { (seen self.new).calls ≡ counted (seen self.old).calls 1 };
}

// The most bytes that one turn asks for.
const CHUNK: usize = 8192;

/// Reads a source to its end, and returns its bytes, of which there may be at most `limit`.
///
/// It stops once it has taken one byte more than the limit. After an error the bytes that were
/// taken are gone from the source.
#[tactic(auto, using(crate::proofs::TakingLemmas::takes_none, crate::proofs::TakingLemmas::takes_more))]
pub fn read_all<S: Source>(alloc: Global, source: &mut S, limit: usize) -> Result<Vec<u8>, ReadEnd>
    requires { limit < 2 ^ 32 }

    // All the bytes to the end, within the limit.
    ensures bytes { IfOk result (λ all.
        TakesInTurns (S.seen source.old) (S.seen source.new) all.items) }
    ensures whole { IfSome (S.seen source.old).remaining (λ bytes.
        IfOk result (λ all. all.items ≡ bytes)) }
    ensures end { OnOk result (IsAtEnd (S.seen source.new).remaining) }
    ensures within { IfOk result (λ all. vec_len all ≤ limit) }

    // The last turn of a whole reading gives no byte, and each other turn gives at least one.
    ensures idle { OnOk result
        ((S.seen source.new).idle ≡ counted (S.seen source.old).idle 1) }
    ensures never_idle { OnErr result
        ((S.seen source.new).idle ≡ (S.seen source.old).idle) }

    // `TooLarge` is the answer exactly when one more byte than the limit was taken.
    ensures too_large { IsErrOf result ReadEnd.TooLarge →
        TakesSuch (λ bytes. length bytes ≡ limit + 1) (S.seen source.old) (S.seen source.new) }
    ensures not_too_large { result ≢ Err ReadEnd.TooLarge →
        TakesSuch (λ bytes. length bytes ≤ limit) (S.seen source.old) (S.seen source.new) }

    // `Fault` is the answer exactly when the source counted a fault.
    ensures cause { IsErrOf result ReadEnd.Fault →
        Rose (S.seen source.old).faults (S.seen source.new).faults }
    ensures no_fault { result ≢ Err ReadEnd.Fault →
        (S.seen source.new).faults ≡ (S.seen source.old).faults }
    ensures faults_stay { (S.seen source.old).faults ≤ (S.seen source.new).faults }

    // If the bytes are shown and no fault was counted, their number decides. Only `NoMemory` is
    // always possible.
    ensures small { IfSome (S.seen source.old).remaining (λ bytes. length bytes ≤ limit →
        ¬ Rose (S.seen source.old).faults (S.seen source.new).faults →
        IsOkUnless result ReadEnd.NoMemory) }
    ensures large { IfSome (S.seen source.old).remaining (λ bytes. limit < length bytes →
        ¬ Rose (S.seen source.old).faults (S.seen source.new).faults →
        IsErrOf result ReadEnd.TooLarge ⊎ IsErrOf result ReadEnd.NoMemory) }
{
    let mut all = Vec::new(alloc);
    let mut chunk = [0u8; CHUNK];
    'turns: loop {
        let room = (limit + 1 - all.len()).min(CHUNK);
        let count = source.take(&mut chunk[..room])?;
        if count == 0 {
            return Ok(all);
        }
        if count > limit - all.len() {
            return Err(ReadEnd::TooLarge);
        }
        all.extend_from_slice(&chunk[..count])?;
    }
}
