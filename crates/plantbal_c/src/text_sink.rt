// A sink that holds a text, and grows.
ghost use Rattle.std.specs.Prelude.{◌≡◌, [], length, IfOk};

use pb_io::{Sink, SinkFailed};
use std::alloc::Global;
use std::marker::Model;

/// A sink that takes each piece whole and holds the bytes. It fails only if memory runs out, and then takes no byte.
#[derive(Drop)]
pub(crate) struct TextSink {
    bytes: Vec<u8>,
    written: u64,
    calls: u64,
    idle: u64,
    faults: u64,
    after_fault: u64,
}

impl Model for TextSink {
    ghost use Rattle.std.specs.Prelude.{Some};
    ghost use Rattle.pb_io.specs.Sink.{SinkSeen};

    ghost Value = { SinkSeen };

    ghost view = { λ a. record {
      contents = Some a.bytes.items;
      written = a.written;
      calls = a.calls;
      idle = a.idle;
      faults = a.faults;
      after_fault = a.after_fault;
    } };
}

impl TextSink {
    ghost use Rattle.std.specs.Prelude.{Some};

    /// A sink that holds no byte.
    pub(crate) fn new(alloc: Global) -> TextSink
        ensures { result ≡ record {
          contents = Some [];
          written = 0;
          calls = 0;
          idle = 0;
          faults = 0;
          after_fault = 0;
        } }
    {
        TextSink {
            bytes: Vec::new(alloc),
            written: 0,
            calls: 0,
            idle: 0,
            faults: 0,
            after_fault: 0,
        }
    }

    /// The bytes that it holds.
    pub(crate) fn into_bytes(self) -> Vec<u8>
        ensures { Some result.items ≡ self.contents }
    {
        let TextSink { bytes, .. } = self;
        bytes
    }
}

impl Sink for TextSink {
    ghost seen = { λ s. s };

    fn put(&mut self, piece: &[u8]) -> Result<usize, SinkFailed> {
        self.calls = self.calls.saturating_add(1);
        self.after_fault = self.after_fault.saturating_add(self.faults.min(1));
        if piece.is_empty() {
            self.idle = self.idle.saturating_add(1);
            return Ok(0);
        }
        match self.bytes.extend_from_slice(piece) {
            Ok(()) => {
                self.written = self.written.saturating_add(piece.len() as u64);
                Ok(piece.len())
            }
            Err(_) => {
                self.faults = self.faults.saturating_add(1);
                Err(SinkFailed)
            }
        }
    }
}
