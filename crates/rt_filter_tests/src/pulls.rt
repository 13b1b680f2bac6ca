//! How much each pull of a run may give, and how many pulls there are.

use crate::expect::expect_eq;
use crate::given::{BOXES, Given, LONGEST_LINE, LONGEST_PIECE, PLAIN};
use rt_filter::{ReadFault, RunFault, Settings, SliceSink, Source, run};
use std::process::Abort;
use std::test::Fail;

/// Gives at most one piece a pull, and records the length of each pull's buffer.
#[derive(Drop)]
struct Metered<'a> {
    bytes: &'a [u8],
    piece: usize,
    lengths: [usize; 16],
    pulls: usize,
}

impl<'a> Source for Metered<'a> {
    ghost use Rattle.std.specs.Prelude.{None};

    ghost coming = { λ _. None };

    ghost failed = { λ _. 0 };

    fn pull(&mut self, buffer: &mut [u8]) -> Result<usize, ReadFault> {
        if let Some(place) = self.lengths.get_mut(self.pulls) {
            *place = buffer.len();
        }
        self.pulls = self.pulls.saturating_add(1);
        let n = buffer.len().min(self.piece.min(self.bytes.len()));
        buffer[..n].copy_from_slice(&self.bytes[..n]);
        self.bytes = &self.bytes[n..];
        Ok(n)
    }

    fn failures(&self) -> u64 {
        0
    }
}

// Compares the lengths of the buffers of a run's pulls over these queries, and what is written.
fn lengths_are<R: Abort + AllocGlobal>(
    rt: &R,
    queries: &[u8],
    piece: usize,
    lengths: &[usize],
    written: &[u8],
) {
    let settings = Settings::new(false, 16, 5).expect(rt, "they are in range");
    let mut source = Metered {
        bytes: queries,
        piece,
        lengths: [0; 16],
        pulls: 0,
    };
    let mut buffer = [0u8; 256];
    let mut sink = SliceSink::new(&mut buffer, 256, None);
    let outcome = run(
        rt.alloc(),
        &settings,
        BOXES,
        &mut source,
        &mut sink,
        u64::MAX,
    );
    expect_eq(rt, source.lengths.get(..source.pulls), Some(lengths));
    expect_eq(rt, sink.written(), written);
    expect_eq(rt, outcome.fault, None);
}

#[test]
fn a_pull_gives_what_is_left_of_the_buffer(rt: HostRuntime) -> Result<(), Fail> {
    let counted: &[u8] = b"ok 1 5\nok 2 5\n";
    let lines: &[u8] = b"count all\ncount all";
    lengths_are(&rt, lines, 4096, &[4097, 4088], counted);
    lengths_are(&rt, lines, 14, &[4097, 4093, 4088], counted);
    lengths_are(&rt, lines, 10, &[4097, 4097, 4088], counted);
    lengths_are(&rt, b"", 10, &[4097], b"");
    // A line of the greatest length, with its line feed and without it, a byte more, and one that is far too long.
    let mut line = Vec::from_slice(rt.alloc(), b"count all")?;
    line.resize(LONGEST_LINE, b' ')?;
    lengths_are(&rt, line.as_slice(), 4097, &[4097, 1], b"ok 1 5\n");
    line.push(b'\n')?;
    lengths_are(&rt, line.as_slice(), 4097, &[4097, 4097], b"ok 1 5\n");
    lengths_are(&rt, line.as_slice(), 4096, &[4097, 1, 4097], b"ok 1 5\n");
    line.truncate(LONGEST_LINE);
    line.push(b' ')?;
    let long: &[u8] = b"error 1 Q1 line too long\n";
    lengths_are(&rt, line.as_slice(), 4097, &[4097, 4097], long);
    line.resize(10_000, b' ')?;
    lengths_are(&rt, line.as_slice(), 4097, &[4097, 4097, 4097, 4097], long);
    line.extend_from_slice(b"\ncount all")?;
    let then: &[u8] = b"error 1 Q1 line too long\nok 2 5\n";
    lengths_are(&rt, line.as_slice(), 4097, &[4097, 4097, 4097, 4088], then);
    Ok(())
}

#[test]
fn lines_that_are_begun_take_turns(rt: HostRuntime) -> Result<(), Fail> {
    // Of the first pull 97 bytes begin a line, so that the second gives 4,000 bytes, and the third the last 97.
    let mut comments = Vec::new(rt.alloc());
    for place in 0..8194 {
        comments.push(if place % 1000 == 999 { b'\n' } else { b'#' })?;
    }
    let given = Given {
        piece: 10_000,
        ..PLAIN
    };
    Given { turns: 4, ..given }.expect(&rt, BOXES, &comments, b"", 0, None);
    let read = Some(RunFault::Read);
    Given { turns: 3, ..given }.expect(&rt, BOXES, &comments, b"", 4, read);
    lengths_are(&rt, &comments, 10_000, &[4097, 4000, 4000, 3903], b"");
    Ok(())
}

#[test]
fn a_carriage_return_is_of_the_line(rt: HostRuntime) -> Result<(), Fail> {
    let mut line = Vec::from_slice(rt.alloc(), b"count all")?;
    line.resize(LONGEST_LINE - 1, b' ')?;
    line.extend_from_slice(b"\r\n")?;
    let mut longer = Vec::from_slice(rt.alloc(), b"count all ")?;
    longer.resize(LONGEST_LINE, b' ')?;
    longer.extend_from_slice(b"\r\n")?;
    for piece in [1, LONGEST_LINE - 1, LONGEST_LINE, LONGEST_PIECE] {
        let given = Given { piece, ..PLAIN };
        given.expect(&rt, BOXES, &line, b"ok 1 5\n", 0, None);
        given.expect(&rt, BOXES, &longer, b"error 1 Q1 line too long\n", 1, None);
    }
    Ok(())
}

#[test]
fn a_failed_pull_ends_a_line_that_is_too_long(rt: HostRuntime) -> Result<(), Fail> {
    let mut queries = Vec::from_slice(rt.alloc(), b"count all\n")?;
    queries.resize(100_000, b'a')?;
    queries.extend_from_slice(b"\ncount all\n")?;
    let counted: &[u8] = b"ok 1 5\n";
    for fails in [2, 3, 10, 24] {
        let given = Given {
            pull_fails: Some(fails),
            ..PLAIN
        };
        given.expect(&rt, BOXES, &queries, counted, 4, Some(RunFault::Read));
    }
    let all: &[u8] = b"ok 1 5\nerror 2 Q1 line too long\nok 3 5\n";
    for piece in [1, LONGEST_LINE - 1, LONGEST_LINE, LONGEST_PIECE] {
        Given { piece, ..PLAIN }.expect(&rt, BOXES, &queries, all, 1, None);
    }
    Ok(())
}
