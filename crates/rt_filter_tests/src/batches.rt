//! Texts that are answered whole: each beside the same text served in pieces, and with bytes that were worked out by hand.

use crate::expect::expect_eq;
use crate::given::{FIND, FOUND, LONGEST_LINE, pack};
use rt_filter::{
    Served, Settings, Sink, SliceSink, SliceSource, WriteFault, answer_batch, load, serve,
};
use rt_search::Frontier;
use rt_tree::Tree;
use std::alloc::Global;
use std::process::Abort;
use std::test::Fail;

/// The most bytes that a sink of these tests can take.
const CAPACITY: usize = 1024;

// Answers a text. Returns the frontier.
fn expect<R: Abort + AllocGlobal>(
    rt: &R,
    tree: &Tree,
    frontier: Frontier,
    text: &[u8],
    written: &[u8],
    bad: bool,
) -> Frontier {
    assert!(rt; tree.len() <= frontier.capacity());
    let mut buffer = [0u8; CAPACITY];
    let mut sink = SliceSink::new(&mut buffer, CAPACITY, None);
    let answered = answer_batch(tree, frontier, text, &mut sink);
    let (is_bad, left) = answered.expect(rt, "the sink takes all");
    expect_eq(rt, sink.written(), written);
    expect_eq(rt, (is_bad, sink.failures()), (bad, 0));
    left
}

// Answers a text as it is served, which is pulled in pieces of so many bytes.
fn expect_as_served<R: Abort + AllocGlobal>(rt: &R, tree: &Tree, text: &[u8], piece: usize) {
    assert!(rt; piece > 0);
    let frontier = Frontier::new(rt.alloc(), tree.len()).expect(rt, "there is memory");
    let mut source = SliceSource::new(text, piece, None);
    let mut buffer = [0u8; CAPACITY];
    let mut sink = SliceSink::new(&mut buffer, CAPACITY, None);
    let Served { bad, fault } = serve(tree, frontier, &mut source, &mut sink, u64::MAX);
    expect_eq(rt, fault, None);
    let frontier = Frontier::new(rt.alloc(), tree.len()).expect(rt, "there is memory");
    expect(rt, tree, frontier, text, sink.written(), bad);
}

#[test]
fn lines_are_numbered_from_1_in_each_text(rt: HostRuntime) {
    let tree = pack(&rt, rt.alloc());
    let frontier = Frontier::new(rt.alloc(), tree.len()).expect(&rt, "there is memory");
    let frontier = expect(&rt, &tree, frontier, FIND, FOUND, false);
    let two: &[u8] = b"1 0\n2 0\nok 1 2\nok 3 5\n";
    let text: &[u8] = b"find window 0 10 0 10\n\ncount all\n";
    let frontier = expect(&rt, &tree, frontier, text, two, false);
    let bad: &[u8] = b"error 1 Q2 unknown verb\nok 2 5\n";
    let frontier = expect(&rt, &tree, frontier, b"x\ncount all\n", bad, true);
    expect(&rt, &tree, frontier, FIND, FOUND, false);
}

#[test]
fn the_last_line_needs_no_line_feed(rt: HostRuntime) {
    let tree = pack(&rt, rt.alloc());
    let texts: [&[u8]; 12] = [
        b"",
        b"\n",
        b"\n\n",
        b"count all",
        b"count all\n",
        b"count all\r",
        b"count all\r\n\r",
        b"\ncount all",
        b"# count all",
        b"x",
        b"count all\nx",
        b"find all first 2\ncount all\n\nlevels",
    ];
    for text in texts {
        expect_as_served(&rt, &tree, text, CAPACITY);
        expect_as_served(&rt, &tree, text, 1);
    }
}

// A text of so many letters, and then this end.
fn letters(alloc: Global, many: usize, end: &[u8]) -> Result<Vec<u8>, Fail> {
    let mut text = Vec::new(alloc);
    text.resize(many, b'#')?;
    text.extend_from_slice(end)?;
    Ok(text)
}

#[test]
fn a_line_may_have_4096_bytes(rt: HostRuntime) -> Result<(), Fail> {
    let tree = pack(&rt, rt.alloc());
    for many in [
        LONGEST_LINE - 1,
        LONGEST_LINE,
        LONGEST_LINE + 1,
        3 * LONGEST_LINE,
    ] {
        let ends: [&[u8]; 3] = [b"", b"\n", b"\r\ncount all"];
        for end in ends {
            let text = letters(rt.alloc(), many, end)?;
            expect_as_served(&rt, &tree, &text, CAPACITY);
        }
    }
    let long = letters(rt.alloc(), LONGEST_LINE + 1, b"\ncount all")?;
    let frontier = Frontier::new(rt.alloc(), tree.len()).expect(&rt, "there is memory");
    let replies: &[u8] = b"error 1 Q1 line too long\nok 2 5\n";
    expect(&rt, &tree, frontier, &long, replies, true);
    Ok(())
}

#[test]
fn a_push_that_fails_leaves_a_prefix(rt: HostRuntime) {
    let tree = pack(&rt, rt.alloc());
    for front in 0..FOUND.len() {
        let frontier = Frontier::new(rt.alloc(), tree.len()).expect(&rt, "there is memory");
        let mut buffer = [0u8; CAPACITY];
        let mut sink = SliceSink::new(&mut buffer, 1, Some(front as u64 + 1));
        let answered = answer_batch(&tree, frontier, FIND, &mut sink);
        expect_eq(&rt, answered.err(), Some(WriteFault));
        expect_eq(&rt, sink.written(), &FOUND[..front]);
        expect_eq(&rt, sink.failures(), 1);
    }
}

#[test]
fn what_is_loaded_is_answered(rt: HostRuntime) {
    let settings = Settings::new(false, 2, 5).expect(&rt, "they are in range");
    let table: &[u8] = crate::given::BOXES;
    let (tree, frontier) = load(rt.alloc(), &settings, table).expect(&rt, "the table is sound");
    expect(&rt, &tree, frontier, FIND, FOUND, false);
}
