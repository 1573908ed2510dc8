//! Test cases of sources and sinks: each call on its happy path, and a failure in mid-stream.
use pg_io::{
    MemSink, MemSource, ReadAdapter, ReadFailed, Sink, Source, SureSink, SureSource, WriteAdapter,
    WriteFailed, put_all,
};
use std::io;
use std::test::Fail;

// Tests that `MemSource` gives its bytes in pieces, and fails at the chosen call.
#[test]
fn source_in_memory(rt: HostRuntime) -> Result<(), Fail> {
    let failing = [2].to_vec(rt.alloc())?;
    let mut source = MemSource::new(b"abcde".to_vec(rt.alloc())?, 3, failing);
    let mut buf = *b"....";
    assert!(rt; source.read(&mut buf) == Ok(3));
    assert!(rt; &buf == b"abc.");
    assert!(rt; source.read(&mut buf) == Err(ReadFailed));
    assert!(rt; &buf == b"abc." && source.at == 3 && source.faults == 1);
    assert!(rt; source.read(&mut buf) == Ok(2));
    assert!(rt; &buf == b"dec.");
    assert!(rt; source.read(&mut buf) == Ok(0));
    assert!(rt; source.faults == 1 && source.calls == 4);
    Ok(())
}

// Tests that `MemSink` takes bytes in pieces, and fails at the chosen call and where no room is left.
#[test]
fn sink_in_memory(rt: HostRuntime) -> Result<(), Fail> {
    let mut sink = MemSink::with_room(rt.alloc(), 5, 2, &[3])?;
    assert!(rt; sink.write(b"abc") == Ok(2));
    assert!(rt; put_all(&mut sink, b"cd") == Ok(()));
    assert!(rt; sink.write(b"e") == Err(WriteFailed));
    assert!(rt; sink.written.as_slice() == b"abcd".as_slice());
    assert!(rt; put_all(&mut sink, b"ef") == Err(WriteFailed));
    assert!(rt; sink.written.as_slice() == b"abcde".as_slice());
    assert!(rt; sink.faults == 2 && sink.calls == 5);
    Ok(())
}

// Tests that `SureSource` and `SureSink` give and take all bytes.
#[test]
fn sure_ones(rt: HostRuntime) -> Result<(), Fail> {
    let mut source = SureSource::new(b"abc".to_vec(rt.alloc())?, 2);
    let mut buf = *b"....";
    assert!(rt; source.read(&mut buf) == Ok(2));
    assert!(rt; source.read(&mut buf[2..]) == Ok(1));
    assert!(rt; &buf == b"abc.");
    assert!(rt; source.read(&mut buf) == Ok(0));
    let mut sink = SureSink::new();
    assert!(rt; sink.write(b"ab") == Ok(2));
    assert!(rt; put_all(&mut sink, b"cde") == Ok(()));
    assert!(rt; sink.total == 5);
    Ok(())
}

// A reader that fails at its second read.
#[derive(Drop)]
struct SecondFails(u8);

impl io::Read for SecondFails {
    // Reads three bytes, or fails at the second call.
    fn read(&mut self, buf: &mut [u8]) -> io::Result<usize> {
        self.0 = self.0.saturating_add(1);
        if self.0 == 2 {
            return Err(io::Error::from(io::ErrorKind::Other));
        }
        (&b"abc"[..]).read(buf)
    }
}

// Tests that `ReadAdapter` passes on what its reader gives, and counts its faults.
#[test]
fn reader_of_std(rt: HostRuntime) {
    let mut source = ReadAdapter::new(SecondFails(0));
    let mut buf = *b"....";
    assert!(rt; source.read(&mut buf) == Ok(3));
    assert!(rt; &buf == b"abc.");
    assert!(rt; source.read(&mut buf) == Err(ReadFailed));
    assert!(rt; source.faults == 1);
    assert!(rt; source.read(&mut buf[..1]) == Ok(1));
    assert!(rt; source.faults == 1);
}

// A writer that takes bytes until it holds three, and can be flushed twice.
#[derive(Drop)]
struct Narrow {
    held: usize,
    flushes: u8,
}

impl io::Write for Narrow {
    // Takes bytes until three are held.
    fn write(&mut self, buf: &[u8]) -> io::Result<usize> {
        let taken = buf.len().min(3usize.saturating_sub(self.held));
        self.held = self.held.saturating_add(taken);
        Ok(taken)
    }

    // Succeeds twice, and fails from then on.
    fn flush(&mut self) -> io::Result<()> {
        self.flushes = self.flushes.saturating_add(1);
        if self.flushes > 2 {
            return Err(io::Error::from(io::ErrorKind::Other));
        }
        Ok(())
    }
}

// Tests that `WriteAdapter` flushes after each write, and counts faults of writes and flushes.
#[test]
fn writer_of_std(rt: HostRuntime) {
    let mut sink = WriteAdapter::new(Narrow {
        held: 0,
        flushes: 0,
    });
    assert!(rt; sink.write(b"ab") == Ok(2));
    assert!(rt; sink.inner.flushes == 1);
    assert!(rt; sink.write(b"cd") == Ok(1));
    assert!(rt; sink.write(b"d") == Err(WriteFailed));
    assert!(rt; sink.inner.flushes == 2 && sink.faults == 1);
    sink.inner.held = 0;
    assert!(rt; sink.write(b"d") == Err(WriteFailed));
    assert!(rt; sink.inner.flushes == 3 && sink.faults == 2);
}
