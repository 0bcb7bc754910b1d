//! The real source and sink over a reader and a writer that fail.

use pc_world::{Failed, Sink, Source, StdSink, StdSource, put_all};
use std::io;
use std::io::{Read, Write};

/// A reader and a writer each of whose calls fails, and which counts them.
#[derive(Drop)]
struct Broken {
    reads: u64,
    writes: u64,
    flushes: u64,
}

fn all_broken() -> Broken {
    Broken {
        reads: 0,
        writes: 0,
        flushes: 0,
    }
}

impl Read for Broken {
    fn read(&mut self, _into: &mut [u8]) -> io::Result<usize> {
        self.reads = self.reads.saturating_add(1);
        Err(io::Error::from(io::ErrorKind::BrokenPipe))
    }
}

impl Write for Broken {
    fn write(&mut self, _piece: &[u8]) -> io::Result<usize> {
        self.writes = self.writes.saturating_add(1);
        Err(io::Error::from(io::ErrorKind::BrokenPipe))
    }

    fn flush(&mut self) -> io::Result<()> {
        self.flushes = self.flushes.saturating_add(1);
        Err(io::Error::from(io::ErrorKind::BrokenPipe))
    }
}

/// A writer that takes nothing.
#[derive(Drop)]
struct Full;

impl Write for Full {
    fn write(&mut self, _piece: &[u8]) -> io::Result<usize> {
        Ok(0)
    }

    fn flush(&mut self) -> io::Result<()> {
        Ok(())
    }
}

#[test]
fn a_reader_that_fails_is_a_failed_read(rt: HostRuntime) {
    let mut reader = all_broken();
    let mut into = *b"....";
    let answer = StdSource::new(&mut reader).read(&mut into);
    assert_eq!(rt; answer, Err(Failed));
    assert_eq!(rt; into, *b"....");
    assert_eq!(rt; reader.reads, 1);
}

#[test]
fn a_writer_that_fails_is_a_failed_write_and_a_failed_flush(rt: HostRuntime) {
    let mut writer = all_broken();
    let mut sink = StdSink::new(&mut writer);
    assert_eq!(rt; sink.write(b"reply\n"), Err(Failed));
    assert_eq!(rt; sink.flush(), Err(Failed));
    assert_eq!(rt; put_all(&mut sink, b"reply\n"), Err(Failed));
    assert_eq!(rt; writer.writes, 2);
    assert_eq!(rt; writer.flushes, 1);
}

#[test]
fn a_writer_that_takes_nothing_is_a_failed_put(rt: HostRuntime) {
    let mut sink = StdSink::new(Full);
    assert_eq!(rt; put_all(&mut sink, b"reply\n"), Err(Failed));
    assert_eq!(rt; put_all(&mut sink, b""), Ok(()));
    assert_eq!(rt; sink.flush(), Ok(()));
}
