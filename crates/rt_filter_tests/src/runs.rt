//! Runs over bytes in memory, compared byte for byte. The expected bytes were worked out by hand.

use crate::expect::expect_eq;
use crate::given::{BOXES, FIND, FOUND, Given, LONGEST_LINE, LONGEST_PIECE, PLAIN, WITH_HEADER};
use itoa::Buffer;
use rt_filter::{Outcome, RunFault, Settings, Sink, Source, run_fault_line, run_std};
use rt_text::{Axis, TableFault};
use std::alloc::{AllocError, Global};
use std::io::BufWriter;
use std::process::Abort;
use std::test::Fail;

#[test]
fn finds_windows(rt: HostRuntime) {
    let touching: &[u8] = b"find window 10 20 10 20\n";
    let corners: &[u8] = b"1 0\n2 0\n3 0\n5 0\nok 1 4\n";
    for piece in [1, 2, 7, LONGEST_PIECE] {
        for (header, table) in [(false, BOXES), (true, WITH_HEADER)] {
            let given = Given {
                header,
                piece,
                ..PLAIN
            };
            given.expect(&rt, table, FIND, FOUND, 0, None);
            given.expect(&rt, table, touching, corners, 0, None);
        }
    }
}

// Tables and queries, with what a run over both writes.
static RUNS: [(&[u8], &[u8], &[u8]); 10] = [
    (BOXES, b"find window -5 -5 -5 -5", b"4 0\nok 1 1\n"),
    (BOXES, b"levels", b"1 1\n0 5\nok 1 2\n"),
    (BOXES, b"cost find all", b"ok 1 1\n"),
    (b"", b"cost find all", b"ok 1 0\n"),
    (b"", b"cost count all", b"ok 1 0\n"),
    (b"", b"find window 0 0 0 0\n", b"ok 1 0\n"),
    (
        b"",
        b"find all\ncount all\nlevels",
        b"ok 1 0\nok 2 0\n0 0\nok 3 1\n",
    ),
    (
        b"1,2147483647,2147483647,2147483647,2147483647",
        b"nearest 1 -2147483648 -2147483648",
        b"1 36893488130239234050\nok 1 1\n",
    ),
    // A tie goes by id, whatever the order of the records.
    (
        b"7,0,0,0,0\n-7,0,0,0,0\n3,0,0,0,0",
        b"find all first 2",
        b"-7 0\n3 0\nok 1 2\n",
    ),
    // The corner of the bounding box that the triangle leaves out.
    (
        b"1,25,30,25,30",
        b"find polygon 3 0 0 30 0 0 30",
        b"ok 1 0\n",
    ),
];

#[test]
fn runs_over_tables(rt: HostRuntime) {
    for (table, queries, written) in &RUNS {
        PLAIN.expect(&rt, table, queries, written, 0, None);
    }
}

// Lines over two boxes, of which the first has layer 3, with what each is answered.
static ON_LAYERS: [(&str, &str); 10] = [
    ("find all on 3", "1 0\nok 1 1\n"),
    ("find all on 0,3", "1 0\n2 0\nok 1 2\n"),
    ("find window 0 4 0 4 on 0", "ok 1 0\n"),
    ("find circle 0 0 2 on 3 near 0 0 first 1", "1 0\nok 1 1\n"),
    ("find all on 63", "ok 1 0\n"),
    ("find all on 64", "error 1 Q6 out of range\n"),
    ("find all", "1 0\n2 0\nok 1 2\n"),
    ("count all on 0,0", "ok 1 1\n"),
    ("count window 0 20 0 20 on 3,0", "ok 1 2\n"),
    ("count all", "ok 1 2\n"),
];

#[test]
fn queries_on_layers_are_answered(rt: HostRuntime) {
    let table: &[u8] = b"1,0,10,0,10,3\n2,5,15,5,15\n";
    PLAIN.expect_replies(&rt, table, &ON_LAYERS);
}

// Lines that ask for a cost, over the five boxes with at most two children for each node, with what each is answered.
static COSTS: [(&str, &str); 16] = [
    ("cost nearest 2 12 12", "ok 1 3\n"),
    ("cost nearest 3 12 12", "ok 1 5\n"),
    ("cost nearest 0 12 12", "ok 1 0\n"),
    ("cost nearest 5 12 12", "ok 1 6\n"),
    ("cost find all first 6", "ok 1 6\n"),
    ("cost find all", "ok 1 6\n"),
    ("cost find window 20 30 0 4", "ok 1 3\n"),
    ("cost find all on 1", "ok 1 1\n"),
    ("cost count all", "ok 1 1\n"),
    ("cost count all on 1", "ok 1 1\n"),
    ("cost count window 0 10 0 10", "ok 1 5\n"),
    ("cost", "error 1 Q4 missing word\n"),
    ("cost levels", "error 1 Q2 unknown verb\n"),
    ("cost cost find all", "error 1 Q2 unknown verb\n"),
    ("cost find all all", "error 1 Q10 stray word\n"),
    ("cost nearest -1 12 12", "error 1 Q6 out of range\n"),
];

#[test]
fn costs_are_reported(rt: HostRuntime) {
    let two = Given { fanout: 2, ..PLAIN };
    two.expect_replies(&rt, BOXES, &COSTS);
}

#[test]
fn serves_empty_tables_and_queries(rt: HostRuntime) {
    let nothing: &[u8] = b"find window 0 0 0 0\n";
    let header = Given {
        header: true,
        ..PLAIN
    };
    header.expect(&rt, b"", nothing, b"ok 1 0\n", 0, None);
    // Where nothing is written, nothing is pushed or flushed.
    let closed = Given {
        push_fails: Some(1),
        ..PLAIN
    };
    closed.expect(&rt, BOXES, b"", b"", 0, None);
    closed.expect(
        &rt,
        BOXES,
        b"\n# find window 0 10 0 10\n \t\r\n",
        b"",
        0,
        None,
    )
}

// Queries over the five boxes, some of them faulty, and what is written.
static NUMBERED: [(&[u8], &[u8]); 3] = [
    (
        b"\n# c\nfind window 10 0 0 10\nfind all first 0\nfind\nfind all x\nnearest 1 99999999999 0\n",
        b"error 3 Q7 minimum above maximum\nok 4 0\nerror 5 Q4 missing word\nerror 6 Q10 stray word\nerror 7 Q6 out of range\n",
    ),
    (
        b"find  window 0 10 0 10 \r\nfrob\n\tfind all first 1",
        b"1 0\n2 0\nok 1 2\nerror 2 Q2 unknown verb\n1 0\nok 3 1\n",
    ),
    (
        b"\xff\nfind all\r\r\n\r\n",
        b"error 1 Q2 unknown verb\nerror 2 Q3 unknown region\n",
    ),
];

#[test]
fn numbers_every_line(rt: HostRuntime) {
    for piece in [1, LONGEST_PIECE] {
        let given = Given { piece, ..PLAIN };
        for (queries, written) in &NUMBERED {
            given.expect(&rt, BOXES, queries, written, 1, None);
        }
        given.expect(&rt, BOXES, b"\r\n", b"", 0, None);
    }
}

/// Queries over the five boxes, at most two children for each node, and their replies.
static REPLIES: [(&str, &str); 19] = [
    ("find circle 0 0 2", "1 0\n4 2\nok 1 2\n"),
    ("find circle 0 0 1", "1 0\nok 1 1\n"),
    ("nearest 3 12 12", "2 0\n5 0\n1 8\nok 1 3\n"),
    ("nearest 2 10 -5", "1 25\n2 100\nok 1 2\n"),
    ("find all near 10 -5 first 2", "1 25\n2 100\nok 1 2\n"),
    ("find inside 0 15 0 15", "1 0\n2 0\n5 0\nok 1 3\n"),
    ("find covers 5 5 5 5 smallest first 1", "1 100\nok 1 1\n"),
    ("find covers 5 5 5 5 smallest", "1 100\n2 100\nok 1 2\n"),
    ("find window -5 -5 -5 -5", "4 0\nok 1 1\n"),
    ("find all first 0", "ok 1 0\n"),
    (
        "find all first 18446744073709551615",
        "1 0\n2 0\n3 0\n4 0\n5 0\nok 1 5\n",
    ),
    (
        "find all smallest",
        "5 0\n4 16\n1 100\n2 100\n3 100\nok 1 5\n",
    ),
    (
        "find polygon 3 0 0 30 0 0 30",
        "1 0\n2 0\n3 0\n5 0\nok 1 4\n",
    ),
    (
        "find polygon 3 0 0 0 30 30 0",
        "1 0\n2 0\n3 0\n5 0\nok 1 4\n",
    ),
    (
        "find polygon 3 -2147483648 -2147483648 2147483647 -2147483648 2147483647 2147483647",
        "1 0\n2 0\n3 0\n4 0\n5 0\nok 1 5\n",
    ),
    ("count all", "ok 1 5\n"),
    ("count inside 0 15 0 15", "ok 1 3\n"),
    ("count polygon 3 0 0 30 0 0 30", "ok 1 4\n"),
    ("levels", "3 1\n2 2\n1 3\n0 5\nok 1 4\n"),
];

#[test]
fn replies_to_queries(rt: HostRuntime) {
    let two = Given { fanout: 2, ..PLAIN };
    two.expect_replies(&rt, BOXES, &REPLIES);
}

#[test]
fn levels_of_a_wide_tree(rt: HostRuntime) -> Result<(), Fail> {
    let mut table = Vec::new(rt.alloc());
    for id in 1..66u8 {
        table.extend_from_slice(Buffer::new().format(id).as_bytes())?;
        table.extend_from_slice(b",0,0,0,0\n")?;
    }
    let widest = Given {
        fanout: 64,
        ..PLAIN
    };
    widest.expect(&rt, &table, b"levels", b"2 1\n1 2\n0 65\nok 1 3\n", 0, None);
    Ok(())
}

// A line with so many spaces after it, then the same with one more, and then it alone.
fn padded(alloc: Global, line: &[u8], spaces: u16) -> Result<Vec<u8>, AllocError> {
    let mut queries = Vec::new(alloc);
    push_padded(&mut queries, line, spaces)?;
    push_padded(&mut queries, line, spaces.wrapping_add(1))?;
    queries.extend_from_slice(line)?;
    Ok(queries)
}

fn push_padded(queries: &mut Vec<u8>, line: &[u8], spaces: u16) -> Result<(), AllocError> {
    queries.extend_from_slice(line)?;
    for _ in 0..spaces {
        queries.push(b' ')?;
    }
    queries.push(b'\n')?;
    Ok(())
}

#[test]
fn refuses_long_lines(rt: HostRuntime) -> Result<(), Fail> {
    let counts = padded(rt.alloc(), b"count all", 4087)?;
    let counted: &[u8] = b"ok 1 5\nerror 2 Q1 line too long\nok 3 5\n";
    expect_in_pieces(&rt, &counts, counted);
    let finds = padded(rt.alloc(), b"find all first 0", 4080)?;
    let found: &[u8] = b"ok 1 0\nerror 2 Q1 line too long\nok 3 0\n";
    expect_in_pieces(&rt, &finds, found);
    Ok(())
}

#[test]
fn refuses_a_long_comment(rt: HostRuntime) -> Result<(), Fail> {
    let mut comment = Vec::from_slice(rt.alloc(), b"#")?;
    comment.resize(LONGEST_LINE + 1, b'a')?;
    expect_in_pieces(&rt, &comment, b"error 1 Q1 line too long\n");
    Ok(())
}

// Some of the lines are faulty.
fn expect_in_pieces<R: Abort + AllocGlobal>(rt: &R, queries: &[u8], written: &[u8]) {
    for piece in [1, LONGEST_LINE - 1, LONGEST_LINE, LONGEST_PIECE] {
        Given { piece, ..PLAIN }.expect(rt, BOXES, queries, written, 1, None);
    }
}

#[test]
fn refuses_a_line_of_many_letters(rt: HostRuntime) -> Result<(), Fail> {
    // With an end and without.
    let mut letters = Vec::new(rt.alloc());
    letters.resize(100_000, b'a')?;
    let long: &[u8] = b"error 1 Q1 line too long\n";
    PLAIN.expect(&rt, BOXES, &letters, long, 1, None);
    letters.extend_from_slice(b"\ncount all")?;
    let then: &[u8] = b"error 1 Q1 line too long\nok 2 5\n";
    PLAIN.expect(&rt, BOXES, &letters, then, 1, None);
    Ok(())
}

const REPEATED: &[u8] =
    b"1,0,10,0,10\n2,5,15,5,15\n3,20,30,0,10\n4,-5,-1,-5,-1\n5,12,12,12,12\n1,0,0,0,0\n";

static FAULTY_TABLES: [(&[u8], TableFault); 8] = [
    (REPEATED, TableFault::Repeated { number: 6 }),
    (
        WITH_HEADER,
        TableFault::NotNumber {
            number: 1,
            field: 1,
        },
    ),
    (
        b"1,5,4,0,0",
        TableFault::MinAboveMax {
            number: 1,
            axis: Axis::X,
        },
    ),
    (
        b"1,0,0,5,4",
        TableFault::MinAboveMax {
            number: 1,
            axis: Axis::Y,
        },
    ),
    (
        b"1,0,1,0",
        TableFault::FieldCount {
            number: 1,
            found: 4,
        },
    ),
    (
        b"1,0,2147483648,0,0",
        TableFault::OutOfRange {
            number: 1,
            field: 3,
        },
    ),
    (
        b"1,a,0,0,0",
        TableFault::NotNumber {
            number: 1,
            field: 2,
        },
    ),
    (
        b"7,0,0,0,0\n1,2",
        TableFault::FieldCount {
            number: 2,
            found: 2,
        },
    ),
];

#[test]
fn refuses_faulty_tables(rt: HostRuntime) {
    expect_faults(&rt, &FAULTY_TABLES);
    let one = Given {
        max_entries: 1,
        ..PLAIN
    };
    expect_too_many(&rt, one, b"7,0,0,0,0\n1,2", 2);
    for (header, table, number) in [(false, BOXES, 5), (true, WITH_HEADER, 6)] {
        let four = Given {
            header,
            max_entries: 4,
            ..PLAIN
        };
        expect_too_many(&rt, four, table, number);
        let five = Given {
            max_entries: 5,
            ..four
        };
        five.expect(&rt, table, FIND, FOUND, 0, None);
    }
}

fn expect_faults<R: Abort + AllocGlobal>(rt: &R, rows: &[(&[u8], TableFault)]) {
    for (table, fault) in rows {
        PLAIN.expect(rt, table, FIND, b"", 3, Some(RunFault::Table(*fault)));
    }
}

fn expect_too_many<R: Abort + AllocGlobal>(rt: &R, given: Given, table: &[u8], number: u32) {
    let fault = RunFault::Table(TableFault::TooMany { number });
    given.expect(rt, table, FIND, b"", 3, Some(fault));
}

#[test]
fn reads_quoted_tables(rt: HostRuntime) {
    let quoted: &[u8] = b"id,minX,maxX,minY,maxY\r\n\"1\",0,10,0,10\r\n";
    let header = Given {
        header: true,
        ..PLAIN
    };
    header.expect(&rt, quoted, FIND, b"1 0\nok 1 1\n", 0, None);
    let no_number = RunFault::Table(TableFault::NotNumber {
        number: 1,
        field: 1,
    });
    PLAIN.expect(&rt, quoted, FIND, b"", 3, Some(no_number));
    // A byte order mark, carriage returns alone, empty lines, and no end of the last record.
    let marked: &[u8] = b"\xef\xbb\xbf1,0,10,0,10\r\r\n\r2,\"5\",15,\"5\",15";
    PLAIN.expect(&rt, marked, FIND, FOUND, 0, None)
}

static FAULT_LINES: [(RunFault, &[u8]); 10] = [
    (
        RunFault::Table(TableFault::TooMany { number: 4294967295 }),
        b"rtfilter: table record 4294967295: too many entries\n",
    ),
    (
        RunFault::Table(TableFault::FieldCount {
            number: 1,
            found: 18446744073709551615,
        }),
        b"rtfilter: table record 1: wrong number of fields (18446744073709551615)\n",
    ),
    (
        RunFault::Table(TableFault::NotNumber {
            number: 2,
            field: 1,
        }),
        b"rtfilter: table record 2: field 1 is not a number\n",
    ),
    (
        RunFault::Table(TableFault::OutOfRange {
            number: 3,
            field: 5,
        }),
        b"rtfilter: table record 3: field 5 is out of range\n",
    ),
    (
        RunFault::Table(TableFault::MinAboveMax {
            number: 4,
            axis: Axis::X,
        }),
        b"rtfilter: table record 4: minimum above maximum in x\n",
    ),
    (
        RunFault::Table(TableFault::MinAboveMax {
            number: 4,
            axis: Axis::Y,
        }),
        b"rtfilter: table record 4: minimum above maximum in y\n",
    ),
    (
        RunFault::Table(TableFault::Repeated { number: 5 }),
        b"rtfilter: table record 5: repeated id\n",
    ),
    (
        RunFault::Table(TableFault::Read),
        b"rtfilter: cannot read table\n",
    ),
    (RunFault::Read, b"rtfilter: cannot read queries\n"),
    (RunFault::Write, b"rtfilter: cannot write answers\n"),
];

#[test]
fn tells_faults_in_lines(rt: HostRuntime) {
    for (fault, text) in &FAULT_LINES {
        expect_eq(&rt, run_fault_line(fault).bytes(), *text);
    }
    expect_eq(
        &rt,
        run_fault_line(&RunFault::Memory).bytes(),
        b"rtfilter: out of memory\n".as_slice(),
    );
}

#[test]
fn runs_over_std(rt: HostRuntime) -> Result<(), Fail> {
    let settings = Settings::new(false, 16, 5).expect(&rt, "they are in range");
    let mut out = Vec::new(rt.alloc());
    let buffered = BufWriter::with_capacity(rt.alloc(), 64, &mut out)?;
    let (outcome, queries, answers) = run_std(rt.alloc(), &settings, BOXES, FIND, buffered);
    let well = Outcome {
        status: 0,
        fault: None,
    };
    expect_eq(&rt, outcome, well);
    expect_eq(&rt, (queries.failures(), answers.failures()), (0, 0));
    drop(answers);
    expect_eq(&rt, out.as_slice(), FOUND);
    Ok(())
}

#[test]
fn faults_are_errors_of_std(rt: HostRuntime) -> Result<(), Fail> {
    let texts = [
        (
            RunFault::Table(TableFault::Read),
            "faulty or unreadable table",
        ),
        (RunFault::Read, "cannot read queries"),
        (RunFault::Write, "cannot write answers"),
        (RunFault::Memory, "out of memory"),
    ];
    for (fault, text) in texts {
        expect_eq(&rt, format!(in rt.alloc(); "{fault}")?.as_str(), text);
    }
    Ok(())
}
