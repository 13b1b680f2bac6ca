//! Readers and writers that fail once and work afterwards: each failure is reported and counted, and none is tried
//! again behind the caller's back.

use crate::expect::expect_eq;
use rt_device::{
    BufferedSink, ReadFault, ReadSource, Sink, SliceSink, SliceSource, Source, WriteFault,
    WriteSink,
};
use std::io::{self, BufWriter, Read, Write};
use std::test::Fail;

/// A reader and writer that counts its calls. The first one fails; each later one moves a byte.
#[derive(Drop)]
struct FailsFirst {
    calls: u64,
    kind: io::ErrorKind,
}

/// As if a signal had come, which std's buffer alone answers by a further try.
const INTERRUPTED: FailsFirst = FailsFirst {
    calls: 0,
    kind: io::ErrorKind::Interrupted,
};

/// As if nobody read what is written.
const BROKEN: FailsFirst = FailsFirst {
    calls: 0,
    kind: io::ErrorKind::BrokenPipe,
};

impl FailsFirst {
    fn called(&mut self) -> io::Result<()> {
        self.calls = self.calls.saturating_add(1);
        match self.calls {
            1 => Err(io::Error::from(self.kind)),
            _ => Ok(()),
        }
    }
}

impl Read for FailsFirst {
    fn read(&mut self, buffer: &mut [u8]) -> io::Result<usize> {
        self.called()?;
        Ok(buffer.len().min(1))
    }
}

impl Write for FailsFirst {
    fn write(&mut self, piece: &[u8]) -> io::Result<usize> {
        self.called()?;
        Ok(piece.len().min(1))
    }

    fn flush(&mut self) -> io::Result<()> {
        self.called()
    }
}

#[test]
fn a_failed_read_is_reported_once(rt: HostRuntime) {
    let mut source = ReadSource::new(INTERRUPTED);
    expect_eq(&rt, source.failures(), 0);
    expect_eq(&rt, source.pull(&mut [0; 4]), Err(ReadFault));
    expect_eq(&rt, source.failures(), 1);
    expect_eq(&rt, source.pull(&mut [0; 4]), Ok(1));
    expect_eq(&rt, source.failures(), 1);
}

#[test]
fn a_failed_write_is_reported_once(rt: HostRuntime) {
    let mut sink = WriteSink::new(INTERRUPTED);
    expect_eq(&rt, sink.push(b"ab"), Err(WriteFault));
    expect_eq(&rt, sink.failures(), 1);
    expect_eq(&rt, sink.push(b"ab"), Ok(1));
    expect_eq(&rt, sink.flush(), Ok(()));
    expect_eq(&rt, sink.failures(), 1);
}

#[test]
fn a_failed_flush_is_reported_once(rt: HostRuntime) {
    let mut sink = WriteSink::new(INTERRUPTED);
    expect_eq(&rt, sink.flush(), Err(WriteFault));
    expect_eq(&rt, sink.failures(), 1);
    expect_eq(&rt, sink.flush(), Ok(()));
    expect_eq(&rt, sink.failures(), 1);
}

#[test]
fn a_write_that_takes_nothing_is_a_failure(rt: HostRuntime) {
    let mut sink = WriteSink::new(&mut [][..]);
    expect_eq(&rt, sink.push(b"a"), Ok(0));
    expect_eq(&rt, sink.failures(), 1);
}

#[test]
fn bytes_wait_in_the_buffer_until_a_flush(rt: HostRuntime) -> Result<(), Fail> {
    let mut out = Vec::new(rt.alloc());
    let mut sink = BufferedSink::new(BufWriter::with_capacity(rt.alloc(), 4, &mut out)?);
    expect_eq(&rt, sink.push(b"ab"), Ok(2));
    expect_eq(&rt, sink.flush(), Ok(()));
    expect_eq(&rt, sink.push(b"cde"), Ok(3));
    expect_eq(&rt, sink.failures(), 0);
    drop(sink);
    expect_eq(&rt, out.as_slice(), b"abcde".as_slice());

    // (its first write fails, so that the push has made none, and the second flush writes each of the two bytes)
    let mut writer = BROKEN;
    let mut sink = BufferedSink::new(BufWriter::with_capacity(rt.alloc(), 4, &mut writer)?);
    expect_eq(&rt, sink.push(b"ab"), Ok(2));
    expect_eq(&rt, sink.flush(), Err(WriteFault));
    expect_eq(&rt, sink.flush(), Ok(()));
    expect_eq(&rt, sink.failures(), 1);
    drop(sink);
    expect_eq(&rt, writer.calls, 4);
    Ok(())
}

#[test]
fn no_write_follows_one_that_failed(rt: HostRuntime) -> Result<(), Fail> {
    let mut flushed = BROKEN;
    let mut sink = BufferedSink::new(BufWriter::with_capacity(rt.alloc(), 4, &mut flushed)?);
    expect_eq(&rt, sink.push(b"abc"), Ok(3));
    expect_eq(&rt, sink.flush(), Err(WriteFault));
    drop(sink);
    expect_eq(&rt, flushed.calls, 1);

    // (a push of two bytes more doesn't fit in the buffer)
    let mut filled = BROKEN;
    let mut sink = BufferedSink::new(BufWriter::with_capacity(rt.alloc(), 4, &mut filled)?);
    expect_eq(&rt, sink.push(b"abc"), Ok(3));
    expect_eq(&rt, sink.push(b"de"), Err(WriteFault));
    expect_eq(&rt, sink.failures(), 1);
    drop(sink);
    expect_eq(&rt, filled.calls, 1);
    Ok(())
}

#[test]
fn an_interrupted_write_of_the_buffer_is_tried_again(rt: HostRuntime) -> Result<(), Fail> {
    let mut writer = INTERRUPTED;
    let mut sink = BufferedSink::new(BufWriter::with_capacity(rt.alloc(), 4, &mut writer)?);
    expect_eq(&rt, sink.push(b"ab"), Ok(2));
    expect_eq(&rt, sink.flush(), Ok(()));
    expect_eq(&rt, sink.failures(), 0);
    Ok(())
}

#[test]
fn a_buffered_write_that_takes_nothing_is_a_failure(rt: HostRuntime) -> Result<(), Fail> {
    let mut sink = BufferedSink::new(BufWriter::with_capacity(rt.alloc(), 0, &mut [][..])?);
    expect_eq(&rt, sink.push(b"a"), Ok(0));
    expect_eq(&rt, sink.failures(), 1);
    Ok(())
}

#[test]
fn a_slice_gives_in_pieces(rt: HostRuntime) {
    let mut source = SliceSource::new(b"abcde", 2, Some(2));
    let mut buffer = [0; 4];
    expect_eq(&rt, source.pull(&mut buffer), Ok(2));
    expect_eq(&rt, buffer, *b"ab\0\0");
    expect_eq(&rt, source.pull(&mut buffer), Err(ReadFault));
    expect_eq(&rt, source.pull(&mut buffer[..1]), Ok(1));
    expect_eq(&rt, source.pull(&mut buffer), Ok(2));
    expect_eq(&rt, buffer, *b"de\0\0");
    expect_eq(&rt, source.pull(&mut buffer), Ok(0));
    expect_eq(&rt, source.failures(), 1);
}

#[test]
fn a_slice_takes_in_pieces(rt: HostRuntime) {
    let mut buffer = [0; 4];
    let mut sink = SliceSink::new(&mut buffer, 3, Some(2));
    expect_eq(&rt, sink.push(b"abcd"), Ok(3));
    expect_eq(&rt, sink.flush(), Err(WriteFault));
    expect_eq(&rt, sink.push(b"de"), Ok(1));
    expect_eq(&rt, sink.push(b"e"), Ok(0));
    expect_eq(&rt, sink.flush(), Ok(()));
    expect_eq(&rt, sink.failures(), 2);
    expect_eq(&rt, sink.written(), b"abcd".as_slice());
}
