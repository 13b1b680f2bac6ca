//! The bytes of the lines that query lines are answered with.

use crate::expect::expect_eq;
use rt_text::{QueryFault, answer_line, error_line, level_line, ok_line};

static FAULT_LINES: [(QueryFault, &[u8]); 10] = [
    (QueryFault::LineTooLong, b"error 7 Q1 line too long\n"),
    (QueryFault::UnknownVerb, b"error 7 Q2 unknown verb\n"),
    (QueryFault::UnknownRegion, b"error 7 Q3 unknown region\n"),
    (QueryFault::MissingWord, b"error 7 Q4 missing word\n"),
    (QueryFault::NotNumber, b"error 7 Q5 not a number\n"),
    (QueryFault::OutOfRange, b"error 7 Q6 out of range\n"),
    (
        QueryFault::MinAboveMax,
        b"error 7 Q7 minimum above maximum\n",
    ),
    (QueryFault::VertexCount, b"error 7 Q8 vertex count\n"),
    (
        QueryFault::NotConvex,
        b"error 7 Q9 polygon not strictly convex\n",
    ),
    (QueryFault::StrayWord, b"error 7 Q10 stray word\n"),
];

#[test]
fn lines_of_faults(rt: HostRuntime) {
    for (fault, text) in &FAULT_LINES {
        expect_eq(&rt, error_line(7, *fault).bytes(), *text);
    }
}

// Ids and scores, and the lines of these answers. Where 0 is the id, the scores are on both sides of where the way of
// writing changes, with zeros among the digits.
static ANSWER_LINES: [(i64, u128, &[u8]); 10] = [
    (-7, 36893488130239234050, b"-7 36893488130239234050\n"),
    (
        i64::MIN,
        u128::MAX,
        b"-9223372036854775808 340282366920938463463374607431768211455\n",
    ),
    (0, 99_999_999, b"0 99999999\n"),
    (0, 100_000_000, b"0 100000000\n"),
    (0, 1_234_567_890, b"0 1234567890\n"),
    (0, 102_030_405_060_708, b"0 102030405060708\n"),
    (0, 9_876_543_210_123_456, b"0 9876543210123456\n"),
    (0, 9_999_999_999_999_999, b"0 9999999999999999\n"),
    (0, 10_000_000_000_000_000, b"0 10000000000000000\n"),
    (0, 18_446_744_073_709_551_615, b"0 18446744073709551615\n"),
];

#[test]
fn lines_of_answers(rt: HostRuntime) {
    for (id, score, text) in &ANSWER_LINES {
        expect_eq(&rt, answer_line(*id, *score).bytes(), *text);
    }
}

#[test]
fn greatest_numbers(rt: HostRuntime) {
    expect_eq(
        &rt,
        ok_line(u128::MAX, u64::MAX).bytes(),
        b"ok 340282366920938463463374607431768211455 18446744073709551615\n".as_slice(),
    );
    expect_eq(
        &rt,
        level_line(255, u32::MAX).bytes(),
        b"255 4294967295\n".as_slice(),
    );
}
