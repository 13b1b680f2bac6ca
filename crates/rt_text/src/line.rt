//! A short line of text in a fixed buffer, built from its end.

ghost use Rattle.std.specs.{Fmt.{signed_decimal}, Int.Digits.{AllBelowBase}};
ghost use Rattle.std.specs.Prelude.{◌≡◌, ◌+◌, ◌++◌, ◌<◌, ◌≤◌, ◌∷◌, [], decimal, drop, length, map};

use crate::digits::{sixteen_digits, zeros_in_front};
use itoa::{Buffer, write_digits};
use std::marker::Model;
use std::simd::prelude::*;

/// The most bytes of a line, its line feed included.
const MOST_BYTES: usize = 128;

/// Below this a number's digits are written two at a time.
const SHORT: u64 = 100_000_000;

/// Below this a number's digits fit into one vector.
const LONG: u64 = 10_000_000_000_000_000;

/// A line of text of at most 128 bytes, its line feed included. It allocates nothing.
///
/// It is built from its end, since the last digit of a number is known first.
#[derive(Debug, Drop)]
pub struct Line {
    // the line's bytes are at the end of the buffer
    buffer: [u8; MOST_BYTES],
    // the index of the first of them
    start: usize,
}

impl Model for Line {
    ghost use Rattle.std.specs.Prelude.{List, ℕ, ◌≤◌, drop};

    ghost Value = { List ℕ };

    ghost view = { λ line. drop line.start line.buffer };

    ghost invariant = { λ line. line.start ≤ 128 };
}

impl Line {
    /// An empty line: its line feed alone.
    #[inline(always)]
    pub fn empty() -> Line
        ensures { result ≡ 10 ∷ [] }
    {
        let mut line = Line {
            buffer: [0; MOST_BYTES],
            start: MOST_BYTES,
        };
        line.prepend_byte(b'\n');
        line
    }

    /// The line of these bytes.
    pub(crate) fn new(text: &[u8]) -> Line
        requires { length text.now ≤ MOST_BYTES }
        ensures { result ≡ text.now }
    {
        let mut line = Line {
            buffer: [0; MOST_BYTES],
            start: MOST_BYTES,
        };
        line.prepend(text);
        line
    }

    /// Makes the line empty, to build another one in it.
    pub(crate) fn clear(&mut self)
        ensures { self.new ≡ [] }
    {
        self.start = MOST_BYTES;
    }

    /// Prepends bytes.
    pub(crate) fn prepend(&mut self, text: &[u8])
        requires { length self.old + length text.now ≤ MOST_BYTES }
        ensures { self.new ≡ text.now ++ self.old }
    {
        let end = self.start;
        self.start -= text.len();
        self.buffer[self.start..end].copy_from_slice(text);
    }

    /// Prepends a byte.
    pub(crate) fn prepend_byte(&mut self, byte: u8)
        requires { length self.old + 1 ≤ MOST_BYTES }
        ensures { self.new ≡ byte ∷ self.old }
    {
        self.start -= 1;
        self.buffer[self.start] = byte;
    }

    /// Prepends a number.
    pub(crate) fn prepend_number(&mut self, number: u64)
        requires { length self.old + 20 ≤ MOST_BYTES }
        ensures value { self.new ≡ decimal number ++ self.old }
        ensures few { length self.new ≤ length self.old + 20 }
    {
        if number < SHORT {
            self.prepend_short(number);
        } else {
            self.prepend_long(number);
        }
    }

    // The same for a number of few digits.
    fn prepend_short(&mut self, number: u64)
        requires { length self.old + length (decimal number) ≤ MOST_BYTES }
        ensures { self.new ≡ decimal number ++ self.old }
    {
        self.start = write_digits(number, &mut self.buffer, self.start);
    }

    // The same for a number of nine digits or more, sixteen of them in one vector. Branchless: a processor would mispredict
    // the number of digits.
    #[inline(never)]
    fn prepend_long(&mut self, number: u64)
        requires capacity { length self.old + 20 ≤ MOST_BYTES }
        requires long { SHORT ≤ number }
        ensures value { self.new ≡ decimal number ++ self.old }
        ensures few { length self.new ≤ length self.old + 20 }
    {
        if number < LONG {
            let digits = sixteen_digits(number);
            self.prepend_digits(digits);
            self.drop_first(zeros_in_front(digits));
        } else {
            self.prepend_digits(sixteen_digits(number % LONG));
            self.prepend_short(number / LONG);
        }
    }

    // Prepends sixteen digits.
    fn prepend_digits(&mut self, digits: u8x16)
        requires capacity { length self.old + 16 ≤ MOST_BYTES }
        requires digits { (length digits ≡ 16) × AllBelowBase 10 digits }
        ensures { self.new ≡ map (λ digit. 48 + digit) digits ++ self.old }
    {
        self.prepend(&(digits + u8x16::splat(b'0')).to_array());
    }

    // Removes the first `count` bytes.
    fn drop_first(&mut self, count: usize)
        requires { count ≤ length self.old }
        ensures { self.new ≡ drop count self.old }
    {
        self.start += count;
    }

    /// Prepends a number of up to 128 bits. A single digit is written fastest, and a number that fits 64 bits faster than a
    /// longer one.
    #[inline(always)]
    pub(crate) fn prepend_wide(&mut self, number: u128)
        requires { length self.old + 40 ≤ MOST_BYTES }
        ensures value { self.new ≡ decimal number ++ self.old }
        ensures few { length self.new ≤ length self.old + 40 }
    {
        if number < 10 {
            self.prepend_byte(b'0' + number as u8);
            return;
        }
        match u64::try_from(number) {
            Ok(short) => self.prepend_number(short),
            Err(_) => self.prepend_widest(number),
        }
    }

    // The same for a number of any size.
    #[inline(never)]
    fn prepend_widest(&mut self, number: u128)
        requires { length self.old + 40 ≤ MOST_BYTES }
        ensures value { self.new ≡ decimal number ++ self.old }
        ensures few { length self.new ≤ length self.old + 40 }
    {
        self.prepend(Buffer::new().format(number).as_bytes());
    }

    /// Prepends a number with its sign.
    pub(crate) fn prepend_signed(&mut self, number: i64)
        requires { length self.old + 21 ≤ MOST_BYTES }
        ensures value { self.new ≡ signed_decimal number ++ self.old }
    {
        self.prepend_number(number.unsigned_abs());
        if number < 0 {
            self.prepend_byte(b'-');
        }
    }

    /// The bytes of the line.
    pub fn bytes(&self) -> &[u8]
        ensures value { result.now ≡ self.now }
        ensures short { length result.now ≤ MOST_BYTES }
    {
        &self.buffer[self.start..]
    }
}
