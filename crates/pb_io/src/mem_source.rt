// A source in memory.
ghost use Rattle.std.specs.Prelude.{◌≡◌, ◌<◌, ◌↔◌, [], ◌++◌, length, take, min, IfOk, IsErr, OnErr};
ghost use Rattle.pb_io.specs.Counts.{Rose};
ghost use Rattle.pb_io.specs.MemSource.{FailsNext, after_giving, source_after_fault, source_seen_in_memory};

use crate::copying::copy_front;
use crate::counts::{idle_calls, is_named, saturating_count};
use crate::reading::{Source, SourceFailed};
use std::marker::Model;

/// A source that gives the bytes of a vector, a few in each call, and fails at the calls that a
/// list names.
///
/// Its calls are counted from 1, in a u64 that stays at its greatest value.
#[derive(Drop)]
pub struct MemSource {
    bytes: Vec<u8>,
    at: usize,
    most: usize,
    fails: Vec<u32>,
    calls: u64,
    idle: u64,
    faults: u64,
}

impl Model for MemSource {
    ghost use Rattle.std.specs.Prelude.{◌<◌, ◌≤◌, drop, vec_len};
    ghost use Rattle.pb_io.specs.MemSource.{SourceInMemory};

    ghost Value = { SourceInMemory };

    ghost view = { λ a. record {
      remaining = drop a.at a.bytes.items;
      taken = a.at;
      most = a.most;
      fails = a.fails.items;
      calls = a.calls;
      idle = a.idle;
      faults = a.faults;
    } };

    ghost invariant = { λ a. (a.at ≤ vec_len a.bytes) × (0 < a.most) };
}

impl MemSource {
    /// A source of `bytes` that gives at most `most` of them in a call, and fails at the calls
    /// whose numbers are in `fails`.
    pub fn new(bytes: Vec<u8>, most: usize, fails: Vec<u32>) -> MemSource
        requires { 0 < most }
        ensures { result ≡ record {
          remaining = bytes.items;
          taken = 0;
          most = most;
          fails = fails.items;
          calls = 0;
          idle = 0;
          faults = 0;
        } }
    {
        MemSource {
            bytes,
            at: 0,
            most,
            fails,
            calls: 0,
            idle: 0,
            faults: 0,
        }
    }
}

impl Source for MemSource {
    ghost seen = { λ s. source_seen_in_memory s };

    fn take(&mut self, buf: &mut [u8]) -> Result<usize, SourceFailed>
        // It fails exactly at the calls that the list names, and then only its counts go up.
        ensures fails { IsErr result ↔ FailsNext self.old }
        ensures err { OnErr result (self.new ≡ source_after_fault self.old) }
        ensures cause { OnErr result (Rose self.old.faults self.new.faults) }

        // Otherwise it gives as many bytes as `most`, the bytes left and the buffer allow.
        ensures number { IfOk result (λ n.
            n ≡ min self.old.most (min (length self.old.remaining) (length buf.new))) }
        ensures bytes { IfOk result
            (λ n. self.old.remaining ≡ take n buf.new ++ self.new.remaining) }
        ensures ok { IfOk result (λ n. self.new ≡ after_giving self.old n) }
        ensures end { IfOk result (λ n. n ≡ 0 → 0 < length buf.new → self.old.remaining ≡ []) }
    {
        self.calls = saturating_count(self.calls, 1);
        if is_named(&self.fails, self.calls) {
            self.faults = saturating_count(self.faults, 1);
            return Err(SourceFailed);
        }
        let count = copy_front(&self.bytes[self.at..], self.most, buf);
        self.at += count;
        self.idle = saturating_count(self.idle, idle_calls(count));
        Ok(count)
    }
}
