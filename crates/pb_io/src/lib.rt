//! Where bytes come from and where they go.
//!
//! A [`Source`] gives bytes and a [`Sink`] takes them, a few in each call, and each call may fail.
//! [`read_all`] reads a source to its end, and [`write_all`] writes a slice whole. [`MemSource`]
//! and [`MemSink`] work in memory, with contracts that state each byte and each failure.
//! [`SureSource`] and [`SureSink`] never fail. [`StdSource`] and [`StdSink`] are the edge of the
//! program: they show as much of their bytes as std shows of the reader and the writer, which is
//! nothing for standard input and output.
#![tactic(auto)]

mod copying;
mod counts;
mod laws;
mod mem_sink;
mod mem_source;
mod reading;
mod standard;
mod sure_sink;
mod sure_source;
mod writing;

pub use laws::sure_law;
pub use mem_sink::MemSink;
pub use mem_source::MemSource;
pub use reading::{ReadEnd, Source, SourceFailed, read_all};
pub use standard::{StdSink, StdSource};
pub use sure_sink::SureSink;
pub use sure_source::SureSource;
pub use writing::{Sink, SinkFailed, write_all};
