//! Runs whose devices fail, at each place.

use crate::given::{BOXES, FIND, FOUND, Given, LONGEST_PIECE, PLAIN, WITH_HEADER};
use rt_filter::RunFault;
use rt_text::{Axis, TableFault};
use std::io::{self, Read};
use std::process::Abort;
use std::test::Fail;

#[test]
fn tells_failed_pulls(rt: HostRuntime) {
    let read = Some(RunFault::Read);
    for fails in 1..24 {
        let given = Given {
            piece: 1,
            pull_fails: Some(fails),
            ..PLAIN
        };
        let written: &[u8] = if fails > 22 { FOUND } else { b"" };
        given.expect(&rt, BOXES, FIND, written, 4, read);
    }
    let second = Given {
        pull_fails: Some(2),
        ..PLAIN
    };
    let all: &[u8] = b"1 0\n2 0\n3 0\n4 0\n5 0\nok 1 5\n";
    second.expect(&rt, BOXES, b"find all\nfind a", all, 4, read);
    let ended: &[u8] = b"1 0\n2 0\n3 0\n4 0\n5 0\nok 1 5\nerror 2 Q3 unknown region\n";
    PLAIN.expect(&rt, BOXES, b"find all\nfind a", ended, 1, None);
    // A failed pull stands before a faulty line.
    second.expect(&rt, BOXES, b"x\n", b"error 1 Q2 unknown verb\n", 4, read)
}

#[test]
fn drops_a_long_line_that_never_ends(rt: HostRuntime) -> Result<(), Fail> {
    let mut letters = Vec::new(rt.alloc());
    letters.resize(100_000, b'a')?;
    for fails in [1, 2, 24, 25, 26] {
        let given = Given {
            pull_fails: Some(fails),
            ..PLAIN
        };
        given.expect(&rt, BOXES, &letters, b"", 4, Some(RunFault::Read));
    }
    Ok(())
}

#[test]
fn reports_a_full_sink(rt: HostRuntime) {
    let write = Some(RunFault::Write);
    let front: &[u8] = b"\x31\x20\x30\x0a\x32";
    for piece in [1, 2, LONGEST_PIECE] {
        for (header, table) in [(false, BOXES), (true, WITH_HEADER)] {
            let small = Given {
                header,
                piece,
                capacity: 5,
                ..PLAIN
            };
            small.expect(&rt, table, FIND, front, 5, write);
        }
    }
    // A write fault stands before a faulty line.
    let faulty = Given {
        capacity: 10,
        ..PLAIN
    };
    faulty.expect(&rt, BOXES, b"x\n", b"error 1 Q2", 5, write);
    faulty.expect(&rt, BOXES, b"x\nfind all", b"error 1 Q2", 5, write)
}

#[test]
fn tells_failed_pushes(rt: HostRuntime) {
    for front in 0..16 {
        expect_front(&rt, 1, front as u64 + 1, front);
    }
    Given {
        piece: 1,
        push_fails: Some(17),
        ..PLAIN
    }
    .expect(&rt, BOXES, FIND, FOUND, 0, None);
    // Each line is pushed by itself, and after the third comes the flush.
    for (fails, end) in [(1, 0), (2, 4), (3, 8), (4, 15)] {
        expect_front(&rt, PLAIN.piece, fails, end);
    }
}

// So many bytes of the replies are out when a push fails.
fn expect_front<R: Abort + AllocGlobal>(rt: &R, piece: usize, fails: u64, front: usize) {
    let given = Given {
        piece,
        push_fails: Some(fails),
        ..PLAIN
    };
    assert!(rt; front <= FOUND.len());
    given.expect(rt, BOXES, FIND, &FOUND[..front], 5, Some(RunFault::Write));
}

#[test]
fn loads_no_truncated_table_as_a_whole(rt: HostRuntime) {
    let found: &[u8] = b"1 0\nok 1 1\n";
    expect_table_fault(&rt, &BOXES[..5], field_count(3));
    expect_table_fault(&rt, &BOXES[..8], field_count(4));
    let no_number = TableFault::NotNumber {
        number: 1,
        field: 5,
    };
    expect_table_fault(&rt, &BOXES[..9], no_number);
    for end in [10, 11, 12] {
        PLAIN.expect(&rt, &BOXES[..end], b"find all", found, 0, None);
    }
    expect_table_fault(&rt, b"\"1,0,10,0,10\n", field_count(1));
}

fn field_count(found: u64) -> TableFault {
    TableFault::FieldCount { number: 1, found }
}

fn expect_table_fault<R: Abort + AllocGlobal>(rt: &R, table: &[u8], fault: TableFault) {
    let fault = Some(RunFault::Table(fault));
    PLAIN.expect(rt, table, b"find all", b"", 3, fault);
}

/// Gives bytes one at a time, and fails at one of its reads.
#[derive(Drop)]
struct Broken<'a> {
    bytes: &'a [u8],
    at: usize,
}

impl<'a> Read for Broken<'a> {
    fn read(&mut self, buf: &mut [u8]) -> io::Result<usize> {
        match (self.bytes.get(self.at), buf.first_mut()) {
            (Some(byte), Some(place)) => {
                *place = *byte;
                self.at = self.at.saturating_add(1);
                Ok(1)
            }
            _ => Err(io::Error::from(io::ErrorKind::BrokenPipe)),
        }
    }
}

// A run over so many bytes of a table and then a failed read ends with this fault. Nothing is read or written beside it.
fn expect_fault_after<R: Abort + AllocGlobal>(
    rt: &R,
    table: &[u8],
    reads: usize,
    fault: TableFault,
) {
    let broken = Broken {
        bytes: &table[..reads.min(table.len())],
        at: 0,
    };
    let closed = Given {
        pull_fails: Some(1),
        push_fails: Some(1),
        ..PLAIN
    };
    closed.expect_of(rt, broken, FIND, b"", 3, Some(RunFault::Table(fault)));
}

#[test]
fn tells_each_failed_read_of_the_table(rt: HostRuntime) {
    for reads in 0..=BOXES.len() {
        expect_fault_after(&rt, BOXES, reads, TableFault::Read);
    }
    let turned: &[u8] = b"1,5,4,0,0\n";
    for reads in 0..10 {
        expect_fault_after(&rt, turned, reads, TableFault::Read);
    }
    let own = TableFault::MinAboveMax {
        number: 1,
        axis: Axis::X,
    };
    expect_fault_after(&rt, turned, 10, own);
}
