//! Reads decimal numbers.

ghost use Rattle.std.specs.{Char.{is_ascii_digit}, List.{list_all}, Prelude.{◌≡◌, ◌≤ℤ◌, ◌<◌, ◌≤◌, ◌^◌, IfOk, IfSome}};
ghost use Rattle.std.specs.Prelude.{Some, length, min, option_map, ok_or, take, IsTrue};
ghost use Rattle.std.specs.Str.Parse.{digits_value, without_leading_sign};
ghost use Rattle.rt_text.specs.Numbers.{digits_number, number_in, number_text};

use crate::digits::number_of;
use std::simd::prelude::*;

/// The most digits that always fit an `i64`, with either sign.
const SHORT: usize = 18;

/// The number of digits that are tested at once, in one vector.
const GROUP: usize = 8;

/// Why a text is no number in a range.
#[derive(Clone, Copy, Debug, PartialEq, Eq)]
pub enum NumberFault {
    /// It isn't an optional sign and one or more ASCII digits.
    NotNumber,
    /// Its number lies outside the range.
    OutOfRange,
}

/// A number at the start of a text, and how many bytes it takes.
#[derive(Clone, Copy)]
pub(crate) struct Leading<T> {
    pub(crate) number: T,
    pub(crate) len: usize,
}

/// The number that a text writes, if it is within a range: an optional `+` or `-`, then one or more ASCII digits, any
/// number of them.
pub fn number(text: &[u8], low: i128, high: i128) -> Result<i128, NumberFault>
    ensures value { result ≡ number_in low high text.now }
    ensures within { IfOk result (λ n. (low ≤ℤ n) × (n ≤ℤ high)) }
{
    let number = signed(text)?;
    if number < low || high < number {
        return Err(NumberFault::OutOfRange);
    }
    Ok(number)
}

/// The same for a range within that of `i64`.
pub(crate) fn number_64(text: &[u8], low: i64, high: i64) -> Result<i64, NumberFault>
    ensures value { result ≡ number_in low high text.now }
    ensures within { IfOk result (λ n. (low ≤ℤ n) × (n ≤ℤ high)) }
{
    match leading_number(text) {
        Some(found) if found.len == text.len() => {
            if found.number < low || high < found.number {
                return Err(NumberFault::OutOfRange);
            }
            Ok(found.number)
        }
        _ => Ok(number(text, i128::from(low), i128::from(high))? as i64),
    }
}

/// The number at the start of a text, whatever follows: its sign, if any, and up to 18 digits.
#[inline(always)]
pub(crate) fn leading_number(text: &[u8]) -> Option<Leading<i64>>
    ensures within { IfSome result (λ found. found.len ≤ length text.now) }
    ensures value { IfSome result
        (λ found. number_text (take found.len text.now) ≡ Some found.number) }
{
    if text.is_empty() {
        return None;
    }
    let behind = without_sign(text);
    let digits = leading_digits(behind);
    if digits.len == 0 {
        return None;
    }
    let value = digits.number as i64;
    let number = if text[0] == b'-' { -value } else { value };
    let len = text.len() - behind.len() + digits.len;
    Some(Leading { number, len })
}

// The digits at the start of a text, up to the 18th.
#[inline(always)]
fn leading_digits(text: &[u8]) -> Leading<u64>
    ensures within { result.len ≤ length text.now }
    ensures digits { IsTrue (list_all is_ascii_digit (take result.len text.now)) }
    ensures number { result.number ≡ digits_value 10 (take result.len text.now) }
    ensures small { result.number < 10 ^ SHORT }
{
    let most = text.len().min(SHORT);
    let first = leading_group(text);
    let mut number = first.number;
    for at in first.len..most {
        if !text[at].is_ascii_digit() {
            return Leading { number, len: at };
        }
        number = number * 10 + u64::from(text[at] - b'0');
    }
    Leading { number, len: most }
}

// The first bytes of a text if all of them are digits, otherwise none.
#[inline(always)]
fn leading_group(text: &[u8]) -> Leading<u64>
    ensures within { result.len ≤ min (length text.now) GROUP }
    ensures digits { IsTrue (list_all is_ascii_digit (take result.len text.now)) }
    ensures number { result.number ≡ digits_value 10 (take result.len text.now) }
    ensures small { result.number < 10 ^ result.len }
{
    if GROUP <= text.len() && all_digits(&text[..GROUP]) {
        Leading {
            number: written(&text[..GROUP]),
            len: GROUP,
        }
    } else {
        Leading { number: 0, len: 0 }
    }
}

// Whether all bytes are digits. All are tested, so that the compiler may use vectors.
#[inline(always)]
fn all_digits(text: &[u8]) -> bool
    ensures { result ≡ list_all is_ascii_digit text.now }
{
    let mut all = true;
    for byte in text {
        all &= byte.is_ascii_digit();
    }
    all
}

// The number that a group of digits writes, computed in one vector.
#[inline(always)]
fn written(digits: &[u8]) -> u64
    requires long { length digits.now ≡ GROUP }
    requires digits { IsTrue (list_all is_ascii_digit digits.now) }
    ensures value { result ≡ digits_value 10 digits.now }
    ensures small { result < 10 ^ GROUP }
{
    number_of(u8x8::from_slice(digits) - u8x8::splat(b'0'))
}

// The text without its sign, if it has one. Branchless: a processor would mispredict whether there is one.
fn without_sign(text: &[u8]) -> &[u8]
    requires { 0 < length text.now }
    ensures { result.now ≡ without_leading_sign text.now }
{
    let signed = (text[0] == b'-') | (text[0] == b'+');
    &text[signed as usize..]
}

// The number that a text writes, if an `i128` can hold it.
fn signed(text: &[u8]) -> Result<i128, NumberFault>
    ensures { result ≡ number_in i128.MIN i128.MAX text.now }
{
    if text.is_empty() {
        return Err(NumberFault::NotNumber);
    }
    let magnitude = magnitude(without_sign(text))?;
    let number = if text[0] == b'-' {
        0i128.checked_sub_unsigned(magnitude)
    } else {
        0i128.checked_add_unsigned(magnitude)
    };
    number.ok_or(NumberFault::OutOfRange)
}

// The number that digits write, or the greatest `u128` if it is above that.
fn magnitude(digits: &[u8]) -> Result<u128, NumberFault>
    ensures { result ≡ ok_or
        (option_map (λ n. min n u128.MAX) (digits_number digits.now)) NumberFault.NotNumber }
{
    if digits.is_empty() {
        return Err(NumberFault::NotNumber);
    }
    let mut magnitude: u128 = 0;
    for digit in digits {
        if !digit.is_ascii_digit() {
            return Err(NumberFault::NotNumber);
        }
        magnitude = magnitude
            .saturating_mul(10)
            .saturating_add(u128::from(*digit - b'0'));
    }
    Ok(magnitude)
}
