//! When a run pulls, pushes and flushes.

ghost use Rattle.std.specs.Prelude.{◌≡◌};

use crate::expect::expect_eq;
use crate::given::{BOXES, FIND, FOUND, Given, LONGEST_PIECE, PLAIN};
use rt_filter::{ReadFault, RunFault, Settings, Sink, Source, WriteFault, run};
use std::cell::Cell;
use std::process::Abort;
use std::test::Fail;

#[test]
fn counts_pulls_and_not_bytes(rt: HostRuntime) {
    let read = Some(RunFault::Read);
    let count: &[u8] = b"count all\n";
    let counted: &[u8] = b"ok 1 5\n";
    let cases: [(u64, &[u8], u8, Option<RunFault>); 4] = [
        (0, b"", 4, read),
        (9, b"", 4, read),
        (10, counted, 4, read),
        (11, counted, 0, None),
    ];
    for (turns, written, status, fault) in cases {
        let given = Given {
            piece: 1,
            turns,
            ..PLAIN
        };
        given.expect(&rt, BOXES, count, written, status, fault);
    }
    Given { turns: 1, ..PLAIN }.expect(&rt, BOXES, count, counted, 4, read);
    Given { turns: 2, ..PLAIN }.expect(&rt, BOXES, count, counted, 0, None)
}

#[test]
fn pulls_at_most_a_longest_line(rt: HostRuntime) -> Result<(), Fail> {
    let whole = Given {
        piece: 2 * LONGEST_PIECE,
        turns: 2,
        ..PLAIN
    };
    let mut queries = Vec::from_slice(rt.alloc(), FIND)?;
    queries.resize(LONGEST_PIECE, b'\n')?;
    whole.expect(&rt, BOXES, queries.as_slice(), FOUND, 0, None);
    queries.push(b'\n')?;
    whole.expect(
        &rt,
        BOXES,
        queries.as_slice(),
        FOUND,
        4,
        Some(RunFault::Read),
    );
    Given { turns: 3, ..whole }.expect(&rt, BOXES, queries.as_slice(), FOUND, 0, None);
    Ok(())
}

/// The calls of a run's devices, in order.
#[derive(Drop)]
struct Calls {
    letters: Cell<[u8; 32]>,
    len: Cell<usize>,
}

impl Calls {
    fn add(&self, letter: u8) {
        let mut letters = self.letters.get();
        if let Some(place) = letters.get_mut(self.len.get()) {
            *place = letter;
        }
        self.letters.set(letters);
        self.len.set(self.len.get().saturating_add(1));
    }
}

/// Gives one piece a pull, and tells each of its calls.
#[derive(Drop)]
struct Pieces<'a> {
    pieces: &'a [&'a [u8]],
    at: usize,
    calls: &'a Calls,
}

impl<'a> Source for Pieces<'a> {
    ghost use Rattle.std.specs.Prelude.{None};

    ghost coming = { λ _. None };

    ghost failed = { λ _. 0 };

    fn pull(&mut self, buffer: &mut [u8]) -> Result<usize, ReadFault> {
        self.calls.add(b'p');
        let Some(piece) = self.pieces.get(self.at) else {
            return Ok(0);
        };
        self.at = self.at.saturating_add(1);
        let n = buffer.len().min(piece.len());
        buffer[..n].copy_from_slice(&piece[..n]);
        Ok(n)
    }

    fn failures(&self) -> u64 {
        0
    }
}

/// Takes each piece whole and tells each of its calls. One of them may fail, counted from 1.
#[derive(Drop)]
struct Taker<'a> {
    calls: &'a Calls,
    fails_in: u64,
    failures: u64,
}

impl<'a> Taker<'a> {
    // Tells a call, and whether it is the one that fails.
    fn fails(&mut self, letter: u8) -> bool
        ensures { self.new.failures ≡ self.old.failures }
    {
        self.calls.add(letter);
        let last = self.fails_in == 1;
        self.fails_in = self.fails_in.saturating_sub(1);
        last
    }
}

impl<'a> Sink for Taker<'a> {
    ghost use Rattle.std.specs.Prelude.{None};

    ghost written = { λ _. None };

    ghost failed = { λ taker. taker.failures };

    fn push(&mut self, piece: &[u8]) -> Result<usize, WriteFault> {
        if self.fails(b'w') {
            self.failures += 1;
            return Err(WriteFault);
        }
        Ok(piece.len())
    }

    fn flush(&mut self) -> Result<(), WriteFault> {
        if self.fails(b'f') {
            self.failures += 1;
            return Err(WriteFault);
        }
        Ok(())
    }

    fn failures(&self) -> u64 {
        self.failures
    }
}

// Compares the calls of a run over these pieces, whose sink fails at a call of its own.
fn calls_are<R: Abort + AllocGlobal>(
    rt: &R,
    pieces: &[&[u8]],
    fails_in: u64,
    expected: &[u8],
    fault: Option<RunFault>,
) {
    let settings = Settings::new(false, 16, 5).expect(rt, "they are in range");
    let calls = Calls {
        letters: Cell::new([0; 32]),
        len: Cell::new(0),
    };
    let mut source = Pieces {
        pieces,
        at: 0,
        calls: &calls,
    };
    let mut sink = Taker {
        calls: &calls,
        fails_in,
        failures: 0,
    };
    let outcome = run(
        rt.alloc(),
        &settings,
        BOXES,
        &mut source,
        &mut sink,
        u64::MAX,
    );
    let letters = calls.letters.get();
    expect_eq(rt, letters.get(..calls.len.get()), Some(expected));
    expect_eq(rt, outcome.fault, fault);
}

#[test]
fn flushes_each_reply_before_the_next_pull(rt: HostRuntime) {
    // Three lines are answered with three pushes, a line cut in two is answered when it ends, and nothing is flushed
    // where nothing was pushed.
    calls_are(
        &rt,
        &[FIND, b"count", b" all\n", b"# c\n", b"levels"],
        0,
        b"pwwwfppwfpppwwwf",
        None,
    );
    // Two lines in one piece, and the end right behind them.
    calls_are(&rt, &[b"count all\nfrob\n"], 0, b"pwwfp", None);
    calls_are(&rt, &[], 0, b"p", None)
}

#[test]
fn asks_nothing_of_a_sink_that_failed(rt: HostRuntime) {
    let write = Some(RunFault::Write);
    let ways: [(u64, &[u8]); 5] = [
        (1, b"pw"),
        (2, b"pww"),
        (3, b"pwww"),
        (4, b"pwwwf"),
        (5, b"pwwwfppw"),
    ];
    for (fails_in, expected) in ways {
        calls_are(&rt, &[FIND, b"count all"], fails_in, expected, write);
    }
    calls_are(&rt, &[FIND, b"count all"], 6, b"pwwwfppwf", write)
}

#[test]
fn pulls_no_more_after_the_end(rt: HostRuntime) {
    calls_are(&rt, &[FIND], 0, b"pwwwfp", None)
}

#[test]
fn a_frontier_serves_each_query(rt: HostRuntime) {
    let queries: &[u8] =
        b"find window 0 10 0 10\nnearest 1 12 12\ncount all\nfind window 0 10 0 10";
    let written: &[u8] = b"1 0\n2 0\nok 1 2\n2 0\nok 2 1\nok 3 5\n1 0\n2 0\nok 4 2\n";
    for fanout in [2, 3, 16] {
        let given = Given { fanout, ..PLAIN };
        given.expect(&rt, BOXES, queries, written, 0, None);
    }
}
