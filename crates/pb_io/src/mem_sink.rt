// A sink in memory.
ghost use Rattle.std.specs.Prelude.{◌≡◌, ◌-◌, ◌<◌, ◌↔◌, [], length, take, min, IfOk, IsErr, OnErr};
ghost use Rattle.pb_io.specs.Counts.{Rose};
ghost use Rattle.pb_io.specs.MemSink.{RefusesNext, after_appending, sink_after_fault, sink_seen_in_memory};

use crate::counts::{calls_after, is_named, saturating_count};
use crate::writing::{Sink, SinkFailed};
use std::alloc::{AllocError, Global};
use std::marker::Model;

/// A sink that has room for some bytes, appends a few in each call, and fails at the calls that a
/// list names.
///
/// Its calls are counted from 1, in a u64 that stays at its greatest value.
#[derive(Drop)]
pub struct MemSink {
    bytes: Vec<u8>,
    room: usize,
    most: usize,
    fails: Vec<u32>,
    calls: u64,
    idle: u64,
    faults: u64,
    after_fault: u64,
}

impl Model for MemSink {
    ghost use Rattle.std.specs.Prelude.{◌<◌, ◌≤◌, vec_len, vec_capacity};
    ghost use Rattle.pb_io.specs.MemSink.{SinkInMemory};

    ghost Value = { SinkInMemory };

    ghost view = { λ a. record {
      contents = a.bytes.items;
      written = vec_len a.bytes;
      room = a.room;
      most = a.most;
      fails = a.fails.items;
      calls = a.calls;
      idle = a.idle;
      faults = a.faults;
      after_fault = a.after_fault;
    } };

    ghost invariant = { λ a.
        (vec_len a.bytes ≤ a.room) × (a.room ≤ vec_capacity a.bytes) × (0 < a.most) };
}

impl MemSink {
    /// A sink that has room for `room` bytes, whose memory is allocated here. It appends at most
    /// `most` bytes in a call, and fails at the calls whose numbers are in `fails`.
    pub fn new(
        alloc: Global,
        room: usize,
        most: usize,
        fails: Vec<u32>,
    ) -> Result<MemSink, AllocError>
        requires { 0 < most }
        ensures { IfOk result (λ sink. sink ≡ record {
          contents = [];
          written = 0;
          room = room;
          most = most;
          fails = fails.items;
          calls = 0;
          idle = 0;
          faults = 0;
          after_fault = 0;
        }) }
    {
        Ok(MemSink {
            bytes: Vec::with_capacity(alloc, room)?,
            room,
            most,
            fails,
            calls: 0,
            idle: 0,
            faults: 0,
            after_fault: 0,
        })
    }

    /// The bytes that the sink holds.
    pub fn bytes(&self) -> &[u8]
        ensures { result.now ≡ self.now.contents }
    {
        self.bytes.as_slice()
    }
}

impl Sink for MemSink {
    ghost seen = { λ s. sink_seen_in_memory s };

    fn put(&mut self, piece: &[u8]) -> Result<usize, SinkFailed>
        // It fails exactly when the piece isn't empty, and the list names the call or no room is left.
        // Then only its counts go up.
        ensures fails { IsErr result ↔ ((0 < length piece.now) × RefusesNext self.old) }
        ensures err { OnErr result (self.new ≡ sink_after_fault self.old) }
        ensures cause { OnErr result (Rose self.old.faults self.new.faults) }

        // Otherwise it appends as many bytes as the piece, `most` and the room left allow.
        ensures number { IfOk result (λ n. n ≡ min self.old.most
            (min (length piece.now) (self.old.room - length self.old.contents))) }
        ensures some { IfOk result (λ n. 0 < length piece.now → 0 < n) }
        ensures ok { IfOk result (λ n. self.new ≡ after_appending self.old (take n piece.now)) }
    {
        self.calls = saturating_count(self.calls, 1);
        self.after_fault = saturating_count(self.after_fault, calls_after(self.faults));
        if piece.is_empty() {
            self.idle = saturating_count(self.idle, 1);
            return Ok(0);
        }
        let left = self.room - self.bytes.len();
        if left == 0 || is_named(&self.fails, self.calls) {
            self.faults = saturating_count(self.faults, 1);
            return Err(SinkFailed);
        }
        let count = self.most.min(piece.len()).min(left);
        // The room was allocated in `new`.
        self.bytes.extend_from_slice(&piece[..count]).unwrap();
        Ok(count)
    }
}
