// A source that never fails.
ghost use Rattle.std.specs.Prelude.{◌≡◌, ◌<◌, [], ◌++◌, length, take, min, Ok, IfOk};
ghost use Rattle.pb_io.specs.SureSource.{seen_without_fault, sure_after_giving};

use crate::copying::copy_front;
use crate::counts::{idle_calls, saturating_count};
use crate::reading::{Source, SourceFailed};
use std::marker::Model;

/// A source that gives the bytes of a vector, as many in each call as the buffer takes, and never
/// fails.
#[derive(Drop)]
pub struct SureSource {
    bytes: Vec<u8>,
    at: usize,
    calls: u64,
    idle: u64,
}

impl Model for SureSource {
    ghost use Rattle.std.specs.Prelude.{◌≤◌, drop, vec_len};
    ghost use Rattle.pb_io.specs.SureSource.{SourceWithoutFault};

    ghost Value = { SourceWithoutFault };

    ghost view = { λ a. record {
      remaining = drop a.at a.bytes.items;
      taken = a.at;
      calls = a.calls;
      idle = a.idle;
    } };

    ghost invariant = { λ a. a.at ≤ vec_len a.bytes };
}

impl SureSource {
    /// A source of `bytes`.
    pub fn new(bytes: Vec<u8>) -> SureSource
        ensures { result ≡ record {
          remaining = bytes.items;
          taken = 0;
          calls = 0;
          idle = 0;
        } }
    {
        SureSource {
            bytes,
            at: 0,
            calls: 0,
            idle: 0,
        }
    }
}

impl Source for SureSource {
    ghost seen = { λ s. seen_without_fault s };

    fn take(&mut self, buf: &mut [u8]) -> Result<usize, SourceFailed>
        // It gives as many bytes as are left and the buffer takes.
        ensures sure { result ≡ Ok (min (length self.old.remaining) (length buf.new)) }
        ensures bytes { IfOk result
            (λ n. self.old.remaining ≡ take n buf.new ++ self.new.remaining) }
        ensures ok { IfOk result (λ n. self.new ≡ sure_after_giving self.old n) }
        ensures end { IfOk result (λ n. n ≡ 0 → 0 < length buf.new → self.old.remaining ≡ []) }
    {
        self.calls = saturating_count(self.calls, 1);
        let room = buf.len();
        let count = copy_front(&self.bytes[self.at..], room, buf);
        self.at += count;
        self.idle = saturating_count(self.idle, idle_calls(count));
        Ok(count)
    }
}
