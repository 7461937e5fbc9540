// What no clause says: that calls succeed with ample memory, and what readers and writers of std that fail do through their
// adapters. The program reads and writes through them in each worked case.
use pb_io::*;
use std::alloc::{AllocError, Global};
use std::io;
use std::io::{Read, Write};
use std::test::Fail;

// Whether these bytes are read whole, by takes of at most this many bytes, one of which fails; 0 for none.
fn reads_whole(
    alloc: Global,
    bytes: &[u8],
    most: usize,
    failing: u32,
    limit: u16,
) -> Result<Result<bool, ReadEnd>, AllocError> {
    let failing = vec![in alloc; failing]?;
    let mut source = MemSource::new(Vec::from_slice(alloc, bytes)?, most.max(1), failing);
    match read_all(alloc, &mut source, usize::from(limit)) {
        Ok(all) => Ok(Ok(all.as_slice() == bytes)),
        Err(end) => Ok(Err(end)),
    }
}

#[test]
fn reads_to_the_end(rt: HostRuntime) -> Result<(), Fail> {
    let cases: [(&[u8], usize, u32, u16, Result<bool, ReadEnd>); 6] = [
        (b"", 1, 0, 0, Ok(true)),
        (b"unit,U\n", 1, 0, 7, Ok(true)),
        (b"unit,U\n", 3, 0, 100, Ok(true)),
        (b"unit,U\n", 100, 0, 6, Err(ReadEnd::TooLarge)),
        (b"unit,U\n", 2, 3, 7, Err(ReadEnd::Fault)),
        (b"unit,U\n", 7, 2, 7, Err(ReadEnd::Fault)),
    ];
    for (bytes, most, failing, limit, want) in cases {
        let read = reads_whole(rt.alloc(), bytes, most, failing, limit)?;
        assert_eq!(rt; read, want, "at {most} and {failing} up to {limit}");
    }
    Ok(())
}

// Whether a report is written whole by puts of at most this many bytes, one of which fails, and whether the sink then holds these bytes.
fn writes_whole(
    alloc: Global,
    room: usize,
    most: usize,
    failing: u32,
    held: &[u8],
) -> Result<(bool, bool), AllocError> {
    let failing = vec![in alloc; failing]?;
    let mut sink = MemSink::new(alloc, room, most.max(1), failing)?;
    let is_whole = write_all(&mut sink, b"report").is_ok();
    Ok((is_whole, sink.bytes() == held))
}

#[test]
fn writes_whole_or_a_prefix(rt: HostRuntime) -> Result<(), Fail> {
    let cases: [(usize, usize, u32, &[u8], bool); 5] = [
        (6, 100, 0, b"report", true),
        (6, 1, 0, b"report", true),
        (6, 1, 3, b"re", false),
        (4, 3, 0, b"repo", false),
        (100, 100, 1, b"", false),
    ];
    for (room, most, failing, held, is_whole) in cases {
        let written = writes_whole(rt.alloc(), room, most, failing, held)?;
        assert_eq!(rt;
            written,
            (is_whole, true),
            "at {room}, {most} and {failing}"
        );
    }
    Ok(())
}

// A reader that fails, and a writer that takes no byte.
#[derive(Drop)]
struct Broken;

impl Read for Broken {
    fn read(&mut self, _buf: &mut [u8]) -> io::Result<usize> {
        Err(io::Error::from(io::ErrorKind::Other))
    }
}

impl Write for Broken {
    fn write(&mut self, _buf: &[u8]) -> io::Result<usize> {
        Ok(0)
    }

    fn flush(&mut self) -> io::Result<()> {
        Ok(())
    }
}

#[test]
fn adapts_readers(rt: HostRuntime) {
    let broken = read_all(rt.alloc(), &mut StdSource::new(Broken), 100).err();
    assert_eq!(rt; broken, Some(ReadEnd::Fault), "a reader that fails");
}

#[test]
fn adapts_writers(rt: HostRuntime) {
    let broken = write_all(&mut StdSink::new(Broken), b"report");
    assert_eq!(rt; broken, Err(SinkFailed), "a writer that takes no byte");
}

// A writer that takes one byte per call.
#[derive(Drop)]
struct OneByte {
    taken: Vec<u8>,
}

impl Write for OneByte {
    fn write(&mut self, buf: &[u8]) -> io::Result<usize> {
        self.taken.write(&buf[..buf.len().min(1)])
    }

    fn flush(&mut self) -> io::Result<()> {
        Ok(())
    }
}

// A reader that gives three bytes and then fails.
#[derive(Drop)]
struct CutShort {
    given: bool,
}

impl Read for CutShort {
    fn read(&mut self, buf: &mut [u8]) -> io::Result<usize> {
        if self.given {
            return Err(io::Error::from(io::ErrorKind::Other));
        }
        self.given = true;
        b"uni".as_slice().read(buf)
    }
}

#[test]
fn writes_whole_by_single_bytes(rt: HostRuntime) -> Result<(), Fail> {
    let mut writer = OneByte {
        taken: Vec::new(rt.alloc()),
    };
    write_all(&mut StdSink::new(&mut writer), b"report")?;
    assert_eq!(rt; writer.taken.as_slice(), b"report".as_slice());
    Ok(())
}

#[test]
fn reader_that_fails_in_mid_stream_is_a_fault(rt: HostRuntime) -> Result<(), Fail> {
    let mut source = StdSource::new(CutShort { given: false });
    let read = read_all(rt.alloc(), &mut source, 100);
    assert_eq!(rt; read.err(), Some(ReadEnd::Fault));
    Ok(())
}

// Takes five bytes, then the others, and asks again after the last: how many come first and last, and whether all are these.
fn taken(
    alloc: Global,
    source: &mut SureSource,
    first: &[u8],
    rest: &[u8],
) -> Result<(usize, bool, usize), ReadEnd> {
    let mut few = [0_u8; 5];
    let begun = source.take(&mut few)?;
    let are_first = few.as_slice() == first;
    let are_rest = read_all(alloc, source, 9)?.as_slice() == rest;
    Ok((begun, are_first && are_rest, source.take(&mut few)?))
}

#[test]
fn sure_sources_never_fail(rt: HostRuntime) -> Result<(), Fail> {
    let bytes = Vec::from_slice(rt.alloc(), b"unit,U\nunit,V\n")?;
    let taken = taken(
        rt.alloc(),
        &mut SureSource::new(bytes),
        b"unit,",
        b"U\nunit,V\n",
    )?;
    assert_eq!(rt; taken, (5, true, 0), "the bytes of a source");
    Ok(())
}

// Writes nine bytes, none and six: how many the last call takes, and how many are taken in all.
fn put_into(sink: &mut SureSink) -> Result<(usize, u64), SinkFailed> {
    write_all(sink, b"U\nunit,V\n")?;
    write_all(sink, b"")?;
    let put = sink.put(b"report")?;
    Ok((put, sink.taken()))
}

#[test]
fn sure_sinks_never_fail(rt: HostRuntime) {
    let put = put_into(&mut SureSink::new());
    assert_eq!(rt; put, Ok((6, 15)), "the bytes of a sink");
}
