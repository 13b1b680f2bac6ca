//! Formats and reads decimal digits with vector instructions, several digits at once.

ghost use Rattle.std.specs.{Int.Digits.{number_from_digits, AllBelowBase}, List.{prefix_len}};
ghost use Rattle.std.specs.Prelude.{◌≡◌, ◌+◌, ◌*◌, ◌/◌, ◌%◌, ◌^◌, ◌<◌, ◌==◌, [], ◌∷◌, length, slice_index};

use std::simd::prelude::*;

/// The digits of a number below 10 ^ 16, the highest first, with leading zeros.
#[inline(always)]
pub(crate) fn sixteen_digits(number: u64) -> u8x16
    requires { number < 10 ^ 16 }
    ensures digits { (length result ≡ 16) × AllBelowBase 10 result }
    ensures value { number_from_digits 10 result ≡ number }
{
    let pairs = pairs(number);
    let tens = pairs / u16x8::splat(10);
    let ones = pairs - tens * u16x8::splat(10);
    // The lower byte of a lane is the first of its two digits.
    (tens + (ones << 8)).to_le_bytes()
}

// Two digits in each lane.
#[inline(always)]
fn pairs(number: u64) -> u16x8
    requires { number < 10 ^ 16 }
    ensures { result
        ≡ number / 10 ^ 14 ∷ number / 10 ^ 12 % 100 ∷ number / 10 ^ 10 % 100
        ∷ number / 10 ^ 8 % 100 ∷ number / 10 ^ 6 % 100 ∷ number / 10 ^ 4 % 100
        ∷ number / 100 % 100 ∷ number % 100 ∷ [] }
{
    let fours = fours(number);
    let upper = fours / u16x8::splat(100);
    let lower = fours - upper * u16x8::splat(100);
    upper.shuffle(lower, [0, 8, 1, 9, 2, 10, 3, 11])
}

// Four digits in each of the first four lanes.
#[inline(always)]
fn fours(number: u64) -> u16x8
    requires { number < 10 ^ 16 }
    ensures { result
        ≡ number / 10 ^ 12 ∷ number / 10 ^ 8 % 10 ^ 4 ∷ number / 10 ^ 4 % 10 ^ 4
        ∷ number % 10 ^ 4 ∷ 0 ∷ 0 ∷ 0 ∷ 0 ∷ [] }
{
    let upper = number / 100_000_000;
    let lower = number % 100_000_000;
    u16x8::from_array([
        (upper / 10_000) as u16,
        (upper % 10_000) as u16,
        (lower / 10_000) as u16,
        (lower % 10_000) as u16,
        0,
        0,
        0,
        0,
    ])
}

/// The number of leading zeros of digits that are not all zeros.
#[inline(always)]
pub(crate) fn zeros_in_front(digits: u8x16) -> usize
    requires long { length digits ≡ 16 }
    requires some { 0 < number_from_digits 10 digits }
    ensures { result ≡ prefix_len (λ digit. digit == 0) digits }
{
    digits
        .simd_ne(u8x16::splat(0))
        .to_bitmask()
        .trailing_zeros() as usize
}

/// The number that eight digits write, the highest first.
#[inline(always)]
pub(crate) fn number_of(digits: u8x8) -> u64
    requires long { length digits ≡ 8 }
    requires small { AllBelowBase 10 digits }
    ensures { result ≡ number_from_digits 10 digits }
{
    let fours = number_of_fours(digits);
    u64::from(fours[0]) * 10_000 + u64::from(fours[4])
}

// The numbers that two groups of four digits write: the first group's in the first lane, the second's in the fifth.
#[inline(always)]
fn number_of_fours(digits: u8x8) -> [u16; 8]
    requires long { length digits ≡ 8 }
    requires small { AllBelowBase 10 digits }
    ensures length { length result ≡ 8 }
    ensures value { slice_index result 0 * 10 ^ 4 + slice_index result 4
        ≡ number_from_digits 10 digits }
{
    let worth = digits.cast::<u16>() * u16x8::from_array([1000, 100, 10, 1, 1000, 100, 10, 1]);
    let pairs = worth + worth.swizzle([2, 3, 0, 1, 6, 7, 4, 5]);
    (pairs + pairs.swizzle([1, 0, 3, 2, 5, 4, 7, 6])).to_array()
}
