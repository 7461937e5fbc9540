// The readers and writers of std as sources and sinks: the edge of the program. They show as much of their bytes as std
// shows of the reader and the writer, and std shows nothing of the bytes of standard input and output.

use crate::counts::{calls_after, idle_calls, saturating_count};
use crate::reading::{Source, SourceFailed};
use crate::writing::{Sink, SinkFailed};
use std::io::{Read, Write};
use std::marker::Model;

/// A reader as a source. Each error of the reader is a fault.
#[derive(Drop)]
pub struct StdSource<R: Read> {
    reader: R,
    taken: u64,
    calls: u64,
    idle: u64,
    faults: u64,
}

impl<R: Read> Model for StdSource<R> {
    ghost use Rattle.pb_io.specs.Source.{SourceSeen};

    ghost Value = { SourceSeen };

    ghost view = { λ a. record {
      remaining = R.remaining a.reader;
      taken = a.taken;
      calls = a.calls;
      idle = a.idle;
      faults = a.faults;
    } };
}

impl<R: Read> StdSource<R> {
    ghost use Rattle.std.specs.Prelude.{◌≡◌};

    /// A source of what the reader gives.
    pub fn new(reader: R) -> StdSource<R>
        ensures { result ≡ record {
          remaining = R.remaining reader;
          taken = 0;
          calls = 0;
          idle = 0;
          faults = 0;
        } }
    {
        StdSource {
            reader,
            taken: 0,
            calls: 0,
            idle: 0,
            faults: 0,
        }
    }
}

impl<R: Read> Source for StdSource<R> {
    ghost seen = { λ s. s };

    fn take(&mut self, buf: &mut [u8]) -> Result<usize, SourceFailed> {
        self.calls = saturating_count(self.calls, 1);
        let Ok(count) = self.reader.read(buf) else {
            self.faults = saturating_count(self.faults, 1);
            return Err(SourceFailed);
        };
        self.taken = saturating_count(self.taken, count as u64);
        self.idle = saturating_count(self.idle, idle_calls(count));
        Ok(count)
    }
}

/// A writer as a sink. Each error of the writer is a fault, and so is a write that takes no byte of
/// a piece that isn't empty.
///
/// Nothing flushes the writer: a writer that buffers bytes could lose them.
#[derive(Drop)]
pub struct StdSink<W: Write> {
    writer: W,
    written: u64,
    calls: u64,
    idle: u64,
    faults: u64,
    after_fault: u64,
}

impl<W: Write> Model for StdSink<W> {
    ghost use Rattle.pb_io.specs.Sink.{SinkSeen};

    ghost Value = { SinkSeen };

    ghost view = { λ a. record {
      contents = W.contents a.writer;
      written = a.written;
      calls = a.calls;
      idle = a.idle;
      faults = a.faults;
      after_fault = a.after_fault;
    } };
}

impl<W: Write> StdSink<W> {
    ghost use Rattle.std.specs.Prelude.{◌≡◌};

    /// A sink that hands its pieces to the writer.
    pub fn new(writer: W) -> StdSink<W>
        ensures { result ≡ record {
          contents = W.contents writer;
          written = 0;
          calls = 0;
          idle = 0;
          faults = 0;
          after_fault = 0;
        } }
    {
        StdSink {
            writer,
            written: 0,
            calls: 0,
            idle: 0,
            faults: 0,
            after_fault: 0,
        }
    }
}

impl<W: Write> Sink for StdSink<W> {
    ghost seen = { λ s. s };

    fn put(&mut self, piece: &[u8]) -> Result<usize, SinkFailed> {
        self.calls = saturating_count(self.calls, 1);
        self.after_fault = saturating_count(self.after_fault, calls_after(self.faults));
        if piece.is_empty() {
            self.idle = saturating_count(self.idle, 1);
            return Ok(0);
        }
        match self.writer.write(piece) {
            Ok(count) if count > 0 => {
                self.written = saturating_count(self.written, count as u64);
                Ok(count)
            }
            _ => {
                self.faults = saturating_count(self.faults, 1);
                Err(SinkFailed)
            }
        }
    }
}
