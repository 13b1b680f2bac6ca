//! The public calls as other crates write them: any source and any sink by its trait, over std's readers and writers and
//! over memory.

use crate::expect::expect_eq;
use rt_device::{
    ReadFault, ReadSource, Sink, SliceSink, SliceSource, Source, WriteFault, WriteSink,
};
use std::process::Abort;

// What a source answers, where the buffer isn't empty and one more failure can be counted.
fn pull<S: Source>(source: &mut S, buffer: &mut [u8]) -> Option<Result<usize, ReadFault>> {
    if buffer.is_empty() || source.failures() == u64::MAX {
        return None;
    }
    Some(source.pull(buffer))
}

// What a sink answers, likewise.
fn push<K: Sink>(sink: &mut K, piece: &[u8]) -> Option<Result<usize, WriteFault>> {
    if piece.is_empty() || sink.failures() == u64::MAX {
        return None;
    }
    Some(sink.push(piece))
}

fn flush<K: Sink>(sink: &mut K) -> Option<Result<(), WriteFault>> {
    if sink.failures() == u64::MAX {
        return None;
    }
    Some(sink.flush())
}

static WHOLE: [&[u8]; 3] = [b"abc", b"", b""];

static BY_TWO: [&[u8]; 4] = [b"ab", b"c", b"", b""];

static BY_ONE: [&[u8]; 4] = [b"a", b"b", b"c", b""];

// The source gives these pieces, one a pull, and no pull fails.
fn expect_pieces<S: Source>(rt: &impl Abort, source: &mut S, pieces: &[&[u8]]) {
    for piece in pieces {
        let mut buffer = [b'.'; 4];
        expect_eq(rt, pull(source, &mut buffer), Some(Ok(piece.len())));
        expect_eq(rt, buffer.get(..piece.len()), Some(*piece));
        expect_eq(rt, source.failures(), 0);
    }
}

#[test]
fn sources_give_their_bytes_in_pieces(rt: HostRuntime) {
    let bytes: [u8; 3] = *b"abc";
    expect_pieces(&rt, &mut ReadSource::new(&bytes[..]), &WHOLE);
    expect_pieces(&rt, &mut SliceSource::new(&bytes, 4097, None), &WHOLE);
    expect_pieces(&rt, &mut SliceSource::new(&bytes, 2, Some(0)), &BY_TWO);
    expect_pieces(&rt, &mut SliceSource::new(&bytes, 1, None), &BY_ONE);
}

#[test]
fn a_pull_that_fails_takes_nothing(rt: HostRuntime) {
    let mut source = SliceSource::new(b"abc", 2, Some(2));
    let mut buffer = [b'.'; 4];
    expect_eq(&rt, source.pull(&mut buffer), Ok(2));
    expect_eq(&rt, source.pull(&mut buffer), Err(ReadFault));
    expect_eq(&rt, source.failures(), 1);
    expect_eq(&rt, source.pull(&mut buffer), Ok(1));
    expect_eq(&rt, buffer[0], b'c');
    expect_eq(&rt, source.failures(), 1);
}

#[test]
fn a_pull_fills_no_more_than_the_buffer(rt: HostRuntime) {
    let mut source = SliceSource::new(b"abc", 3, None);
    let mut buffer = [b'.'; 4];
    expect_eq(&rt, source.pull(&mut buffer[..2]), Ok(2));
    expect_eq(&rt, buffer, *b"ab..");
    expect_eq(&rt, source.pull(&mut buffer[2..]), Ok(1));
    expect_eq(&rt, buffer, *b"abc.");
}

// The sink takes these pieces whole, one a push, and hands them on.
fn expect_taken<K: Sink>(rt: &impl Abort, sink: &mut K, pieces: &[&[u8]]) {
    for piece in pieces {
        expect_eq(rt, push(sink, *piece), Some(Ok(piece.len())));
    }
    expect_eq(rt, flush(sink), Some(Ok(())));
    expect_eq(rt, sink.failures(), 0);
}

static TAKEN: [&[u8]; 2] = [b"ab", b"c"];

#[test]
fn sinks_put_their_bytes_one_after_another(rt: HostRuntime) {
    let mut buffer = [b'.'; 4];
    expect_taken(&rt, &mut WriteSink::new(&mut buffer[..]), &TAKEN);
    expect_eq(&rt, buffer, *b"abc.");
    let mut buffer = [b'.'; 4];
    let mut sink = SliceSink::new(&mut buffer, 2, None);
    expect_taken(&rt, &mut sink, &TAKEN);
    expect_eq(&rt, sink.written(), b"abc".as_slice());
    expect_eq(&rt, buffer, *b"abc.");
}

#[test]
fn pushes_and_flushes_are_counted_together(rt: HostRuntime) {
    let mut buffer = [b'.'; 4];
    let mut sink = SliceSink::new(&mut buffer, 2, Some(3));
    expect_eq(&rt, sink.push(b"abc"), Ok(2));
    expect_eq(&rt, sink.flush(), Ok(()));
    expect_eq(&rt, sink.push(b"c"), Err(WriteFault));
    expect_eq(&rt, sink.written(), b"ab".as_slice());
    expect_eq(&rt, sink.failures(), 1);
    expect_eq(&rt, sink.push(b"c"), Ok(1));
    expect_eq(&rt, sink.written(), b"abc".as_slice());
}

#[test]
fn a_flush_that_fails_takes_nothing(rt: HostRuntime) {
    let mut buffer = [b'.'; 4];
    let mut sink = SliceSink::new(&mut buffer, 2, Some(1));
    expect_eq(&rt, sink.flush(), Err(WriteFault));
    expect_eq(&rt, sink.failures(), 1);
    expect_eq(&rt, sink.written(), b"".as_slice());
}

#[test]
fn a_push_into_a_full_buffer_is_a_failure(rt: HostRuntime) {
    let mut buffer = [b'.'; 1];
    let mut sink = SliceSink::new(&mut buffer, 2, None);
    expect_eq(&rt, sink.push(b"ab"), Ok(1));
    expect_eq(&rt, sink.failures(), 0);
    expect_eq(&rt, sink.push(b"b"), Ok(0));
    expect_eq(&rt, sink.failures(), 1);
    expect_eq(&rt, sink.written(), b"a".as_slice());
}
