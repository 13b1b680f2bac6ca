//! Texts of query lines, each compared with a run over the table and the text.

use crate::expect::expect_eq;
use crate::given::{BOXES, open, settings};
use rt_embed::Session;
use rt_filter::{Outcome, RunFault, Sink, SliceSink, SliceSource, run};
use rt_text::{Axis, TableFault};
use std::process::Abort;

/// The most bytes that a run of these tests writes.
const CAPACITY: usize = 4096;

// Asks, and compares the reply and whether a line is faulty with what a run writes and its status.
fn expect_as_run<R: Abort + AllocGlobal>(rt: &R, session: &mut Session, fanout: u8, text: &[u8]) {
    let mut source = SliceSource::new(text, CAPACITY, None);
    let mut buffer = [0u8; CAPACITY];
    let mut sink = SliceSink::new(&mut buffer, CAPACITY, None);
    let settings = settings(rt, fanout);
    let outcome = run(
        rt.alloc(),
        &settings,
        BOXES,
        &mut source,
        &mut sink,
        u64::MAX,
    );
    let bad = session.ask(rt.alloc(), text).expect(rt, "there is memory");
    let status = u8::from(bad);
    let fault = None;
    expect_eq(rt, outcome, Outcome { status, fault });
    expect_eq(rt, session.reply(), sink.written());
}

#[test]
fn the_reply_is_that_of_a_run(rt: HostRuntime) {
    let texts: [&[u8]; 12] = [
        b"",
        b"find all",
        b"find window 0 10 0 10\ncount all\n",
        b"find inside 0 15 0 15 near 12 12 first 2\n",
        b"find covers 5 5 5 5 on 0,3 smallest\n",
        b"find circle 0 0 2 near 0 0\ncost find circle 0 0 2\n",
        b"find polygon 3 0 0 30 0 0 30 smallest\n",
        b"nearest 3 12 12 on 63\n\n# nothing\nlevels",
        b"count all on 3\ncost count all on 3\n",
        b"x",
        b"count all\nx\ncount all",
        b"find all first\r\n",
    ];
    for fanout in [2, 16] {
        let mut session = open(&rt, fanout, BOXES);
        for text in texts {
            expect_as_run(&rt, &mut session, fanout, text);
        }
        // The text before leaves nothing behind.
        expect_as_run(&rt, &mut session, fanout, b"");
        expect_eq(&rt, session.reply().len(), 0);
    }
}

#[test]
fn sessions_of_one_tree_have_replies_of_their_own(rt: HostRuntime) {
    let mut first = open(&rt, 2, BOXES);
    let mut second = first.share(rt.alloc()).expect(&rt, "there is memory");
    expect_eq(&rt, second.reply().len(), 0);
    expect_as_run(&rt, &mut first, 2, b"find all\n");
    expect_as_run(&rt, &mut second, 2, b"count all\nfind window 0 10 0 10\nx");
    let all: &[u8] = b"1 0\n2 0\n3 0\n4 0\n5 0\nok 1 5\n";
    expect_eq(&rt, first.reply(), all);
    expect_eq(&rt, first.tree().len(), second.tree().len());
    // One ends, and the other goes on.
    drop(first);
    expect_as_run(&rt, &mut second, 2, b"find all smallest first 3\n");
    let third = second.share(rt.alloc()).expect(&rt, "there is memory");
    expect_eq(&rt, third.reply().len(), 0);
    expect_eq(&rt, third.tree().len(), 5);
}

#[test]
fn a_reply_is_forgotten(rt: HostRuntime) {
    let mut session = open(&rt, 2, BOXES);
    expect_as_run(&rt, &mut session, 2, b"find all\n");
    session.forget_reply(rt.alloc());
    expect_eq(&rt, session.reply().len(), 0);
    expect_as_run(&rt, &mut session, 2, b"find all\n");
}

#[test]
fn a_faulty_table_is_refused(rt: HostRuntime) {
    let settings = settings(&rt, 2);
    let rows: [(&[u8], TableFault); 4] = [
        (
            b"1,0,1,0",
            TableFault::FieldCount {
                number: 1,
                found: 4,
            },
        ),
        (
            b"1,0,1,0,1\n2,0,1,0,y\n",
            TableFault::NotNumber {
                number: 2,
                field: 5,
            },
        ),
        (
            b"1,2,1,0,1\n",
            TableFault::MinAboveMax {
                number: 1,
                axis: Axis::X,
            },
        ),
        (
            b"1,0,1,0,1\n2,0,1,0,1\n1,0,1,0,1\n",
            TableFault::Repeated { number: 3 },
        ),
    ];
    for (table, fault) in rows {
        let opened = Session::open(rt.alloc(), &settings, table);
        expect_eq(&rt, opened.err(), Some(RunFault::Table(fault)));
    }
    let empty = open(&rt, 2, b"");
    expect_eq(&rt, empty.tree().len(), 0);
}

// Bytes in memory are read without a failure: each part of a table has a session, or a fault of its own.
#[test]
fn no_failed_read_is_reported(rt: HostRuntime) {
    let settings = settings(&rt, 2);
    let table = b"1,0,10,0,10\n\"2\",5,15,5,15,3\r\n\n\"3,20,30,0,10\n4,-5,-1,-5,x,63\n";
    for end in 0..=table.len() {
        let fault = Session::open(rt.alloc(), &settings, &table[..end]).err();
        let is_failure = match fault {
            None => false,
            Some(RunFault::Table(cause)) => cause == TableFault::Read
                || cause == TableFault::Memory,
            Some(_) => true,
        };
        expect_eq(&rt, (end, is_failure), (end, false));
    }
}
