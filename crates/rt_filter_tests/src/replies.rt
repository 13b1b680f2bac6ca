//! Query lines that are served, all in one session and each by itself. The expected bytes were worked out by hand.

use crate::expect::expect_eq;
use crate::given::pack;
use rt_filter::{ServeFault, Served, Sink, SliceSink, SliceSource, Source, serve};
use rt_search::Frontier;
use rt_tree::Tree;
use std::alloc::{AllocError, Global};
use std::process::Abort;

/// The most bytes that a sink of these tests can take.
const CAPACITY: usize = 1024;

/// The lines of a session with their replies, each under its number: each region in each order, then the other forms.
static REPLIES: [(&str, &str); 33] = [
    ("find all", "1 0\n2 0\n3 0\n4 0\n5 0\nok 1 5\n"),
    (
        "find all near 12 12",
        "2 0\n5 0\n1 8\n3 68\n4 338\nok 2 5\n",
    ),
    (
        "find all smallest",
        "5 0\n4 16\n1 100\n2 100\n3 100\nok 3 5\n",
    ),
    ("find window 0 10 0 10", "1 0\n2 0\nok 4 2\n"),
    ("find window 0 10 0 10 near 12 12", "2 0\n1 8\nok 5 2\n"),
    ("find window 0 10 0 10 smallest", "1 100\n2 100\nok 6 2\n"),
    ("find inside 0 15 0 15", "1 0\n2 0\n5 0\nok 7 3\n"),
    (
        "find inside 0 15 0 15 near 12 12",
        "2 0\n5 0\n1 8\nok 8 3\n",
    ),
    (
        "find inside 0 15 0 15 smallest",
        "5 0\n1 100\n2 100\nok 9 3\n",
    ),
    ("find covers 5 5 5 5", "1 0\n2 0\nok 10 2\n"),
    ("find covers 5 5 5 5 near 12 12", "2 0\n1 8\nok 11 2\n"),
    ("find covers 5 5 5 5 smallest", "1 100\n2 100\nok 12 2\n"),
    ("find circle 0 0 2", "1 0\n4 2\nok 13 2\n"),
    ("find circle 0 0 2 near 12 12", "1 8\n4 338\nok 14 2\n"),
    ("find circle 0 0 2 smallest", "4 16\n1 100\nok 15 2\n"),
    (
        "find polygon 3 0 0 30 0 0 30",
        "1 0\n2 0\n3 0\n5 0\nok 16 4\n",
    ),
    (
        "find polygon 3 0 0 30 0 0 30 near 12 12",
        "2 0\n5 0\n1 8\n3 68\nok 17 4\n",
    ),
    (
        "find polygon 3 0 0 30 0 0 30 smallest",
        "5 0\n1 100\n2 100\n3 100\nok 18 4\n",
    ),
    ("find all first 0", "ok 19 0\n"),
    ("find all first 2", "1 0\n2 0\nok 20 2\n"),
    ("find all smallest first 3", "5 0\n4 16\n1 100\nok 21 3\n"),
    ("nearest 2 12 12", "2 0\n5 0\nok 22 2\n"),
    ("find window 40 50 40 50", "ok 23 0\n"),
    ("count all", "ok 24 5\n"),
    ("count window 0 10 0 10", "ok 25 2\n"),
    ("count inside 0 15 0 15", "ok 26 3\n"),
    ("count covers 12 12 12 12", "ok 27 2\n"),
    ("count circle 0 0 2", "ok 28 2\n"),
    ("count polygon 3 0 0 30 0 0 30", "ok 29 4\n"),
    ("levels", "3 1\n2 2\n1 3\n0 5\nok 30 4\n"),
    ("", ""),
    ("# find all", ""),
    ("find all first", "error 33 Q4 missing word\n"),
];

// A function of its own, as a table's proof takes seconds wherever its name stands.
fn replies() -> &'static [(&'static str, &'static str)] {
    &REPLIES
}

/// How many bytes are pulled and pushed at once, how many bytes the sink can take, and which call of it fails.
#[derive(Clone, Copy)]
struct Devices {
    piece: usize,
    capacity: usize,
    fails_at: Option<u64>,
}

const PLAIN: Devices = Devices {
    piece: CAPACITY,
    capacity: CAPACITY,
    fails_at: None,
};

impl Devices {
    // Serves the lines, and compares what was pushed and how it ended.
    fn expect<R: Abort + AllocGlobal>(
        self,
        rt: &R,
        tree: &Tree,
        queries: &[u8],
        written: &[u8],
        served: Served,
    ) {
        assert!(rt; self.piece > 0 && self.capacity <= CAPACITY);
        let frontier = Frontier::new(rt.alloc(), tree.len()).expect(rt, "there is memory");
        let mut source = SliceSource::new(queries, self.piece, None);
        let mut buffer = [0u8; CAPACITY];
        let mut sink = SliceSink::new(&mut buffer[..self.capacity], self.piece, self.fails_at);
        let ended = serve(tree, frontier, &mut source, &mut sink, u64::MAX);
        expect_eq(rt, sink.written(), written);
        expect_eq(rt, ended, served);
        let failures = u64::from(served.fault.is_some());
        expect_eq(rt, (source.failures(), sink.failures()), (0, failures));
    }
}

#[test]
fn replies_in_every_form(rt: HostRuntime) {
    let tree = pack(&rt, rt.alloc());
    let queries = all_lines(rt.alloc()).expect(&rt, "there is memory");
    let replies = all_replies(rt.alloc()).expect(&rt, "there is memory");
    // One frontier serves all lines, one after the other. The last is faulty.
    let served = Served {
        bad: true,
        fault: None,
    };
    for piece in [1, 3, CAPACITY] {
        let devices = Devices { piece, ..PLAIN };
        devices.expect(&rt, &tree, &queries, &replies, served);
    }
}

fn all_lines(alloc: Global) -> Result<Vec<u8>, AllocError> {
    let mut lines = Vec::new(alloc);
    for (line, _) in replies() {
        lines.extend_from_slice(line.as_bytes())?;
        lines.push(b'\n')?;
    }
    Ok(lines)
}

fn all_replies(alloc: Global) -> Result<Vec<u8>, AllocError> {
    let mut all = Vec::new(alloc);
    for (_, reply) in replies() {
        all.extend_from_slice(reply.as_bytes())?;
    }
    Ok(all)
}

// A line under its number: so many empty lines stand before it.
fn numbered(alloc: Global, before: usize, line: &str) -> Result<Vec<u8>, AllocError> {
    let mut queries = Vec::new(alloc);
    queries.resize(before, b'\n')?;
    queries.extend_from_slice(line.as_bytes())?;
    queries.push(b'\n')?;
    Ok(queries)
}

// How a session ends that has this reply, and a sink that fails or doesn't.
fn ending(reply: &[u8], failed: bool) -> Served {
    Served {
        bad: reply.starts_with(b"error"),
        fault: if failed {
            Some(ServeFault::Write)
        } else {
            None
        },
    }
}

/// Lines, the most bytes that a push takes, and how many bytes are out before each push and, last, before the flush.
static PUSHES: [(&str, usize, &[usize]); 7] = [
    ("find window 0 10 0 10", 3, &[0, 3, 4, 7, 8, 11, 14, 15]),
    ("find window 0 10 0 10", CAPACITY, &[0, 4, 8, 15]),
    ("count all", 3, &[0, 3, 6, 8]),
    ("levels", 3, &[0, 3, 4, 7, 8, 11, 12, 15, 16, 19, 22, 24]),
    ("levels", CAPACITY, &[0, 4, 8, 12, 16, 24]),
    ("find all first", 24, &[0, 24, 25]),
    ("", CAPACITY, &[0]),
];

fn pushes() -> &'static [(&'static str, usize, &'static [usize])] {
    &PUSHES
}

// How many lines stand before a line of the session, and its reply.
fn place_of(rt: &impl Abort, text: &str) -> (usize, &'static [u8]) {
    let mut found = None;
    for (before, (line, reply)) in replies().iter().enumerate() {
        if *line == text {
            found = Some((before, reply.as_bytes()));
        }
    }
    found.expect(rt, "the line is of the session")
}

#[test]
fn a_failed_push_ends_the_reply(rt: HostRuntime) {
    let tree = pack(&rt, rt.alloc());
    for (text, piece, outs) in pushes() {
        expect_pushes(&rt, &tree, text, *piece, outs);
    }
}

fn expect_pushes<R: Abort + AllocGlobal>(
    rt: &R,
    tree: &Tree,
    text: &str,
    piece: usize,
    outs: &[usize],
) {
    let (before, whole) = place_of(rt, text);
    let queries = numbered(rt.alloc(), before, text).expect(rt, "there is memory");
    expect_outs(rt, tree, &queries, piece, outs, whole);
    expect_eq(rt, outs.last(), Some(&whole.len()));
    // No call is made after the flush.
    let devices = Devices {
        piece,
        fails_at: Some(outs.len() as u64 + 1),
        ..PLAIN
    };
    devices.expect(rt, tree, &queries, whole, ending(whole, false));
}

// Each push fails once, when so many bytes of the whole reply are out.
fn expect_outs<R: Abort + AllocGlobal>(
    rt: &R,
    tree: &Tree,
    queries: &[u8],
    piece: usize,
    outs: &[usize],
    whole: &[u8],
) {
    // Where nothing is pushed, nothing is flushed.
    let failed = ending(whole, !whole.is_empty());
    for (k, out) in outs.iter().enumerate() {
        // The next push would be taken again.
        let devices = Devices {
            piece,
            fails_at: Some(k as u64 + 1),
            ..PLAIN
        };
        let written = &whole[..(*out).min(whole.len())];
        devices.expect(rt, tree, queries, written, failed);
    }
}

#[test]
fn a_full_sink_ends_the_reply(rt: HostRuntime) {
    let tree = pack(&rt, rt.alloc());
    for (before, (text, reply)) in replies().iter().enumerate() {
        let queries = numbered(rt.alloc(), before, text).expect(&rt, "there is memory");
        expect_full_sinks(&rt, &tree, &queries, reply.as_bytes());
    }
}

fn expect_full_sinks<R: Abort + AllocGlobal>(rt: &R, tree: &Tree, queries: &[u8], reply: &[u8]) {
    for capacity in 0..reply.len() {
        let devices = Devices {
            capacity,
            piece: 3,
            ..PLAIN
        };
        devices.expect(rt, tree, queries, &reply[..capacity], ending(reply, true));
    }
}
