//! Numbers, and the texts that write them.

use crate::expect::expect_eq;
use rt_text::{NumberFault, number};
use std::process::Abort;

type Row = (&'static str, Result<i128, NumberFault>);

fn expect_numbers(rt: &impl Abort, rows: &[Row], least: i128, most: i128) {
    for (text, expected) in rows {
        expect_eq(rt, number(text.as_bytes(), least, most), *expected);
    }
}

// From 0 to 10.
static SMALL: [Row; 12] = [
    ("+007", Ok(7)),
    ("-0", Ok(0)),
    ("10", Ok(10)),
    ("", Err(NumberFault::NotNumber)),
    ("-", Err(NumberFault::NotNumber)),
    ("+-1", Err(NumberFault::NotNumber)),
    ("1 ", Err(NumberFault::NotNumber)),
    ("0x1", Err(NumberFault::NotNumber)),
    ("1e0", Err(NumberFault::NotNumber)),
    ("11", Err(NumberFault::OutOfRange)),
    ("-1", Err(NumberFault::OutOfRange)),
    (
        "999999999999999999999999999999999999999999999999999999999999",
        Err(NumberFault::OutOfRange),
    ),
];

// From the least to the greatest `i128`.
static ENDS: [Row; 4] = [
    ("170141183460469231731687303715884105727", Ok(i128::MAX)),
    ("-170141183460469231731687303715884105728", Ok(i128::MIN)),
    (
        "170141183460469231731687303715884105728",
        Err(NumberFault::OutOfRange),
    ),
    (
        "-170141183460469231731687303715884105729",
        Err(NumberFault::OutOfRange),
    ),
];

// The same, of 19 and of 20 digits.
static LONG: [Row; 4] = [
    ("9999999999999999999", Ok(9_999_999_999_999_999_999)),
    ("10000000000000000000", Ok(10_000_000_000_000_000_000)),
    ("-9223372036854775808", Ok(-9_223_372_036_854_775_808)),
    ("18446744073709551615", Ok(18_446_744_073_709_551_615)),
];

#[test]
fn numbers_of_texts(rt: HostRuntime) {
    expect_numbers(&rt, &SMALL, 0, 10);
    expect_numbers(&rt, &ENDS, i128::MIN, i128::MAX);
    expect_numbers(&rt, &LONG, i128::MIN, i128::MAX);
}

#[test]
fn zeros_before_a_number(rt: HostRuntime) {
    let mut text = [b'0'; 5001];
    text[5000] = b'7';
    expect_eq(&rt, number(&text, 0, 10), Ok(7));
}
