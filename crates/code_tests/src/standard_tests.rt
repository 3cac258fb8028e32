//! Readers and writers that fail in mid-stream, write a part, and write nothing.

use cw_base::{Failed, MemorySink, MemorySource, Sink, Source, StdSink, StdSource};
use std::io;
use std::io::{ErrorKind, Read, Write};
use std::test::Fail;

// A reader over a source in memory.
#[derive(Drop)]
struct FakeReader {
    source: MemorySource,
}

impl Read for FakeReader {
    fn read(&mut self, buf: &mut [u8]) -> io::Result<usize> {
        match self.source.take(buf) {
            Ok(count) => Ok(count),
            Err(Failed) => Err(io::Error::from(ErrorKind::Other)),
        }
    }
}

#[test]
fn a_reader_fails_once_in_mid_stream(rt: HostRuntime) -> Result<(), Fail> {
    let bytes = [1u8, 2, 3, 4].to_vec(rt.alloc())?;
    let failing = [2u64].to_vec(rt.alloc())?;
    let mut source = StdSource::new(FakeReader {
        source: MemorySource::new(bytes, 3, failing),
    });
    let mut room = [0u8; 8];
    assert_eq!(rt; source.take(&mut room), Ok(3));
    assert_eq!(rt; source.take(&mut room), Err(Failed));
    assert_eq!(rt; source.take(&mut room), Ok(1));
    assert!(rt; &room[..3] == [4, 2, 3].as_slice());
    assert_eq!(rt; source.take(&mut room), Ok(0));
    Ok(())
}

// A writer over a sink in memory.
#[derive(Drop)]
struct FakeWriter {
    sink: MemorySink,
}

impl Write for FakeWriter {
    fn write(&mut self, buf: &[u8]) -> io::Result<usize> {
        match self.sink.put(buf) {
            Ok(count) => Ok(count),
            Err(Failed) => Err(io::Error::from(ErrorKind::Other)),
        }
    }

    fn flush(&mut self) -> io::Result<()> {
        Ok(())
    }
}

#[test]
fn a_writer_writes_a_part_and_fails_once(rt: HostRuntime) -> Result<(), Fail> {
    let failing = [2u64].to_vec(rt.alloc())?;
    let mut sink = StdSink::new(FakeWriter {
        sink: MemorySink::new(rt.alloc(), 1000, failing)?,
    });
    assert_eq!(rt; sink.put(&[7; 1020]), Ok(1000));
    assert_eq!(rt; sink.put(&[5]), Err(Failed));
    assert_eq!(rt; sink.put(&[5; 4]), Ok(4));
    assert_eq!(rt; sink.put(&[]), Ok(0));
    Ok(())
}

// A writer that takes nothing.
#[derive(Drop)]
struct Stuck;

impl Write for Stuck {
    fn write(&mut self, _buf: &[u8]) -> io::Result<usize> {
        Ok(0)
    }

    fn flush(&mut self) -> io::Result<()> {
        Ok(())
    }
}

#[test]
fn a_write_of_nothing_is_a_fault(rt: HostRuntime) {
    let mut sink = StdSink::new(Stuck);
    assert_eq!(rt; sink.put(&[1]), Err(Failed));
    assert_eq!(rt; sink.put(&[]), Ok(0));
}
