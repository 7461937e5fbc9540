// A sink that never fails.
ghost use Rattle.std.specs.Prelude.{◌≡◌, length, Ok};
ghost use Rattle.pb_io.specs.SureSink.{after_dropping, counted_without_fault};

use crate::counts::{idle_calls, saturating_count};
use crate::writing::{Sink, SinkFailed};
use std::marker::Model;

/// A sink that takes each piece whole, keeps only the number of bytes, and never fails.
#[derive(Drop)]
pub struct SureSink {
    taken: u64,
    calls: u64,
    idle: u64,
}

impl Model for SureSink {
    ghost use Rattle.pb_io.specs.SureSink.{SinkWithoutFault};

    ghost Value = { SinkWithoutFault };

    ghost view = { λ a. record {
      written = a.taken;
      calls = a.calls;
      idle = a.idle;
    } };
}

impl SureSink {
    /// A sink that hasn't been given a byte yet.
    pub fn new() -> SureSink
        ensures { result ≡ record {
          written = 0;
          calls = 0;
          idle = 0;
        } }
    {
        SureSink {
            taken: 0,
            calls: 0,
            idle: 0,
        }
    }

    /// The number of bytes that the sink was given, which stays once it is the greatest u64.
    pub fn taken(&self) -> u64
        ensures { result ≡ self.now.written }
    {
        self.taken
    }
}

impl Sink for SureSink {
    ghost seen = { λ s. counted_without_fault s };

    fn put(&mut self, piece: &[u8]) -> Result<usize, SinkFailed>
        // It takes the whole piece.
        ensures sure { result ≡ Ok (length piece.now) }
        ensures ok { self.new ≡ after_dropping self.old (length piece.now) }
    {
        let count = piece.len();
        self.taken = saturating_count(self.taken, count as u64);
        self.calls = saturating_count(self.calls, 1);
        self.idle = saturating_count(self.idle, idle_calls(count));
        Ok(count)
    }
}
