//! Queries in numbers, beside the text that the program writes for the same questions.

use crate::expect::expect_eq;
use crate::given::{BOXES, open};
use crate::plain::{ALL, VERTICES, measured, plain_of};
use rt_embed::{Found, InvalidQuery, Measure, PlainQuery, Score, Session, Stop, Vertex};
use rt_text::{answer_line, ok_line};
use std::process::Abort;
use std::test::Fail;

/// Lines for boxes of every region and order, on layers and with limits.
const LINES: [&[u8]; 16] = [
    b"find all",
    b"find all on 3",
    b"find all on 1,2",
    b"find all smallest first 3",
    b"find all near 12 12",
    b"nearest 3 12 12",
    b"nearest 0 12 12",
    b"find window 0 10 0 10",
    b"find window 0 10 0 10 on 0,3 near 9 9 first 1",
    b"find inside 0 15 0 15 smallest",
    b"find covers 12 12 12 12",
    b"find circle 0 0 2",
    b"find circle 0 0 200 first 2",
    b"find circle 0 0 2 on 63 near 5 5",
    b"find polygon 3 0 0 30 0 0 30",
    b"find polygon 3 0 0 30 0 0 30 on 0 near 14 14 first 2",
];

/// A session of the boxes, which has replied to a line.
fn replied<R: Abort + AllocGlobal>(rt: &R, fanout: u8, line: &[u8]) -> Result<Session, Fail> {
    let mut session = open(rt, fanout, BOXES);
    session.ask(rt.alloc(), line)?;
    Ok(session)
}

// The text of the first answers, so many of them.
fn text_of<R: AllocGlobal>(
    rt: &R,
    many: usize,
    ids: &[i64],
    scores: &[Score],
) -> Result<Vec<u8>, Fail> {
    let mut text = Vec::new(rt.alloc());
    let mut count: u64 = 0;
    for (id, score) in ids.iter().zip(scores).take(many) {
        let score = u128::from(score.high) << 64 | u128::from(score.low);
        text.extend_from_slice(answer_line(*id, score).bytes())?;
        count = count.saturating_add(1);
    }
    text.extend_from_slice(ok_line(1, count).bytes())?;
    Ok(text)
}

// Finds what a line asks, and compares that with its reply.
fn expect_as_text<R: Abort + AllocGlobal>(rt: &R, fanout: u8, line: &[u8]) -> Result<(), Fail> {
    let mut session = replied(rt, fanout, line)?;
    let (mut ends, mut ids, mut scores) = ([9], [0; 6], [Score { low: 0, high: 0 }; 6]);
    let queries = [plain_of(rt, line)];
    let found = session.find(
        rt.alloc(),
        &queries,
        &VERTICES,
        0,
        &mut ends,
        &mut ids,
        &mut scores,
    )?;
    expect_eq(rt, (found.done, found.stop), (1, Stop::Complete));
    expect_eq(rt, ends[0], found.found);
    let text = text_of(rt, found.found, &ids, &scores)?;
    expect_eq(rt, session.reply(), text.as_slice());
    Ok(())
}

#[test]
fn answers_are_those_in_text(rt: HostRuntime) -> Result<(), Fail> {
    for fanout in [2, 16] {
        for line in LINES {
            expect_as_text(&rt, fanout, line)?;
        }
    }
    Ok(())
}

#[test]
fn measures_are_those_in_text(rt: HostRuntime) -> Result<(), Fail> {
    let rows: [(Measure, &[u8]); 12] = [
        (Measure::Count, b"count all"),
        (Measure::Count, b"count all on 3"),
        (Measure::Count, b"count window 0 10 0 10"),
        (Measure::Count, b"count inside 0 15 0 15"),
        (Measure::Count, b"count covers 12 12 12 12 on 0"),
        (Measure::Count, b"count circle 0 0 2"),
        (Measure::Count, b"count polygon 3 0 0 30 0 0 30"),
        (Measure::CostOfCount, b"cost count window 0 10 0 10"),
        (Measure::CostOfCount, b"cost count all"),
        (Measure::CostOfFind, b"cost find window 0 10 0 10"),
        (Measure::CostOfFind, b"cost find all near 12 12 first 1"),
        (
            Measure::CostOfFind,
            b"cost find circle 0 0 2 on 63 near 0 0",
        ),
    ];
    for fanout in [2, 16] {
        for (measure, line) in rows {
            let mut session = replied(&rt, fanout, line)?;
            let n = measured(&rt, &mut session, measure, plain_of(&rt, line))?;
            expect_eq(&rt, session.reply(), ok_line(1, n).bytes());
        }
    }
    Ok(())
}

/// Three queries, the second of which finds nothing.
fn three(rt: &impl Abort) -> [PlainQuery; 3] {
    [
        plain_of(rt, b"nearest 3 12 12"),
        plain_of(rt, b"find window 100 110 0 1"),
        plain_of(rt, b"find all"),
    ]
}

/// What they find, one list behind the other.
const THEIRS: [i64; 8] = [2, 5, 1, 1, 2, 3, 4, 5];

// The first ids are the expected ones, as far as there are both.
fn expect_begins(rt: &impl Abort, ids: &[i64], want: &[i64]) {
    for (id, expected) in ids.iter().zip(want) {
        expect_eq(rt, *id, *expected);
    }
}

#[test]
fn lists_stand_one_behind_the_other(rt: HostRuntime) -> Result<(), Fail> {
    let mut session = open(&rt, 2, BOXES);
    let (mut ends, mut ids, mut scores) = ([0; 3], [0; 9], [Score { low: 7, high: 7 }; 3]);
    let found = session.find(
        rt.alloc(),
        &three(&rt),
        &[],
        0,
        &mut ends,
        &mut ids,
        &mut scores,
    )?;
    let stop = Stop::Complete;
    expect_eq(
        &rt,
        found,
        Found {
            done: 3,
            found: 8,
            stop,
        },
    );
    expect_eq(&rt, ends, [3, 3, 8]);
    expect_begins(&rt, &ids, &THEIRS);
    // (there are places for three scores alone)
    let score = |low| Score { low, high: 0 };
    expect_eq(&rt, scores, [score(0), score(0), score(8)]);
    Ok(())
}

#[test]
fn what_is_full_is_gone_on_with(rt: HostRuntime) -> Result<(), Fail> {
    let mut session = open(&rt, 2, BOXES);
    for skip in 0..9 {
        let mut ids = [0; 2];
        let found = session.find(
            rt.alloc(),
            &three(&rt),
            &[],
            skip,
            &mut [],
            &mut ids,
            &mut [],
        )?;
        let left = 8 - skip;
        expect_eq(&rt, found.found, left.min(2));
        expect_begins(&rt, &ids, &THEIRS[skip..]);
        expect_eq(&rt, found.stop == Stop::Full, left > 2);
    }
    Ok(())
}

// A polygon of some vertices of a list.
fn polygon(first_vertex: u32, vertices: u32) -> PlainQuery {
    PlainQuery {
        region: 5,
        first_vertex,
        vertices,
        ..ALL
    }
}

// Queries that are invalid, each with the reason.
fn invalid() -> [(PlainQuery, InvalidQuery); 11] {
    let sides = PlainQuery {
        region: 1,
        min_x: 1,
        ..ALL
    };
    // (the region is judged first, and what is reserved last)
    let all = PlainQuery {
        region: 6,
        order: 3,
        layers: 0,
        reserved: 1,
        ..ALL
    };
    let reserved = PlainQuery { reserved: 1, ..ALL };
    [
        (sides, InvalidQuery::Sides),
        (PlainQuery { region: 6, ..ALL }, InvalidQuery::Region),
        (PlainQuery { order: 3, ..ALL }, InvalidQuery::Order),
        (PlainQuery { layers: 0, ..ALL }, InvalidQuery::NoLayer),
        (reserved, InvalidQuery::Reserved),
        (all, InvalidQuery::Region),
        (polygon(0, 4), InvalidQuery::MissingVertices),
        (polygon(u32::MAX, u32::MAX), InvalidQuery::MissingVertices),
        (polygon(0, 2), InvalidQuery::VertexCount),
        (polygon(0, 0), InvalidQuery::VertexCount),
        (
            PlainQuery {
                order: 3,
                layers: 0,
                ..reserved
            },
            InvalidQuery::Order,
        ),
    ]
}

#[test]
fn an_invalid_query_has_its_reason(rt: HostRuntime) {
    for (query, reason) in invalid() {
        expect_eq(&rt, query.question(&VERTICES), Err(reason));
    }
    let flat = [0, 1, 2].map(|x| Vertex { x, y: 0 });
    expect_eq(
        &rt,
        polygon(0, 3).question(&flat),
        Err(InvalidQuery::NotConvex),
    );
    let many = [Vertex { x: 0, y: 0 }; 17];
    expect_eq(
        &rt,
        polygon(0, 17).question(&many),
        Err(InvalidQuery::VertexCount),
    );
    expect_eq(&rt, polygon(0, 3).question(&VERTICES).is_ok(), true);
}

#[test]
fn a_query_that_asks_no_question_ends_the_call(rt: HostRuntime) -> Result<(), Fail> {
    let mut session = open(&rt, 2, BOXES);
    for (query, _reason) in invalid() {
        let (mut ends, mut ids, mut counts) = ([0; 2], [0; 9], [7; 2]);
        let queries = [ALL, query];
        let found = session.find(
            rt.alloc(),
            &queries,
            &VERTICES,
            0,
            &mut ends,
            &mut ids,
            &mut [],
        )?;
        expect_eq(&rt, (found.done, found.found), (1, 5));
        expect_eq(&rt, found.stop, Stop::BadQuery);
        let count = Measure::Count;
        let done = session.measure(rt.alloc(), count, &queries, &VERTICES, &mut counts)?;
        expect_eq(&rt, (done, counts), (1, [5, 7]));
    }
    Ok(())
}

#[test]
fn as_many_are_measured_as_have_places(rt: HostRuntime) -> Result<(), Fail> {
    let mut session = open(&rt, 2, BOXES);
    let mut counts = [7; 4];
    let queries = three(&rt);
    let count = Measure::Count;
    let done = session.measure(rt.alloc(), count, &queries, &[], &mut counts[..2])?;
    // A count has no limit.
    expect_eq(&rt, (done, counts), (2, [5, 0, 7, 7]));
    let done = session.measure(rt.alloc(), count, &queries, &[], &mut counts)?;
    expect_eq(&rt, (done, counts), (3, [5, 0, 5, 7]));
    Ok(())
}
