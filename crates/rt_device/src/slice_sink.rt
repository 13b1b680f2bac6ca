//! In-memory sink with injectable failures.

ghost use Rattle.std.specs.{Io.KnownBytes.{Keeps}, Prelude.{◌≡◌, ◌+◌, ◌-◌, ◌<◌, ◌≤◌, ◌^◌, ◌↔◌, ◌||◌, [], Some, IfOk}};
ghost use Rattle.std.specs.Prelude.{IsErr, nat_lt, OnOk, OnErr, length, min, unwrap_or, if◌then◌else◌, IsTrue, false};
ghost use Rattle.std.specs.Result.{result_unwrap_or};
ghost use Rattle.rt_device.specs.Devices.{Pushes};

use crate::sink::{Sink, WriteFault};
use std::marker::Model;

/// A buffer in memory as a sink. It takes at most `piece` bytes a push, and one call, counted from 1, may fail.
#[derive(Drop)]
pub struct SliceSink<'a> {
    buffer: &'a mut [u8],
    len: usize,
    piece: usize,
    // which of the calls to come fails, from 1; 0 is none
    fails_in: u64,
    failures: u64,
    // whether bytes were taken since the last flush
    waits: bool,
}

impl<'a> Model for SliceSink<'a> {
    ghost use Rattle.std.specs.Prelude.{◌<◌, ◌≤◌, ◌-◌, length, take};
    ghost use Rattle.rt_device.specs.Devices.{Buffer};

    ghost Value = { Buffer };

    ghost view = { λ s. record {
      bytes = take s.len s.buffer.now;
      left = length s.buffer.now - s.len;
      piece = s.piece;
      fails_in = s.fails_in;
      failures = s.failures;
      waits = s.waits;
    } };

    ghost invariant = { λ s. (s.len ≤ length s.buffer.now) × (0 < s.piece) };
}

impl<'a> SliceSink<'a> {
    /// A sink over the buffer, filled from its front, with at most `piece` bytes a push, which is at least 1. Call number
    /// `fail_at` fails; pushes and flushes are counted together, from 1. With 0 or `None` no call fails. A push takes 0 bytes
    /// if the buffer is full.
    pub fn new(buffer: &'a mut [u8], piece: usize, fail_at: Option<u64>) -> SliceSink<'a>
        requires { 0 < piece }
        ensures { result ≡ record {
          bytes = [];
          left = length buffer.entry.now;
          piece = piece;
          fails_in = unwrap_or fail_at 0;
          failures = 0;
          waits = false;
        } }
    {
        SliceSink {
            buffer,
            len: 0,
            piece,
            fails_in: fail_at.unwrap_or(0),
            failures: 0,
            waits: false,
        }
    }

    /// The bytes taken.
    pub fn written(&self) -> &[u8]
        ensures { result.now ≡ self.now.bytes }
    {
        &self.buffer[..self.len]
    }

    // Counts a call, and returns whether it is the one that fails.
    fn fails(&mut self) -> bool
        requires { self.old.failures < 2 ^ 64 - 1 }
        ensures which { IsTrue result ↔ (self.old.fails_in ≡ 1) }
        ensures counted { self.new ≡ record self.old {
          fails_in = self.old.fails_in - 1;
          failures = self.old.failures + (if result then 1 else 0);
        } }
    {
        let fails = self.fails_in == 1;
        self.fails_in = self.fails_in.saturating_sub(1);
        self.failures += u64::from(fails);
        fails
    }
}

impl Sink for SliceSink<'_> {
    ghost written = { λ s. Some s.bytes };

    ghost failed = { λ s. s.failures };

    ghost waits = { λ s. s.waits };

    // As the trait says; also exactly which push fails, how many bytes each other push takes, and that these wait for a
    // flush.
    fn push(&mut self, piece: &[u8]) -> Result<usize, WriteFault>
        requires piece { 0 < length piece.now }
        requires count { self.old.failures < 2 ^ 64 - 1 }
        ensures bound { IfOk result (λ n. n ≤ length piece.now) }
        ensures bytes { Pushes (Some self.old.bytes) (Some self.new.bytes) result piece.now }
        ensures went { IfOk result (λ n. 0 < n → self.new.failures ≡ self.old.failures) }
        ensures took_none { IfOk result (λ n. n ≡ 0 → self.new.failures ≡ self.old.failures + 1) }
        ensures fails { OnErr result (self.new.failures ≡ self.old.failures + 1) }
        ensures which { IsErr result ↔ (self.old.fails_in ≡ 1) }
        ensures many { IfOk result
            (λ n. n ≡ min self.old.piece (min self.old.left (length piece.now))) }
        ensures left { IfOk result (λ n. self.new.left ≡ self.old.left - n) }
        ensures lost { OnErr result (self.new.left ≡ self.old.left) }
        ensures waits { self.new.waits ≡ (nat_lt 0 (result_unwrap_or result 0) || self.old.waits) }
        ensures later { (self.new.fails_in ≡ self.old.fails_in - 1)
            × (self.new.piece ≡ self.old.piece) }
    {
        if self.fails() {
            return Err(WriteFault);
        }
        let at = self.len;
        let n = self.piece.min((self.buffer.len() - at).min(piece.len()));
        if n == 0 {
            self.failures += 1;
            return Ok(0);
        }
        self.buffer[at..at + n].copy_from_slice(&piece[..n]);
        self.len = at + n;
        self.waits = true;
        Ok(n)
    }

    // As the trait says; also exactly which flush fails. Bytes wait after a failed flush.
    fn flush(&mut self) -> Result<(), WriteFault>
        requires { self.old.failures < 2 ^ 64 - 1 }
        ensures bytes { Keeps (Some self.old.bytes) (Some self.new.bytes) }
        ensures went { OnOk result (self.new.failures ≡ self.old.failures) }
        ensures fails { OnErr result (self.new.failures ≡ self.old.failures + 1) }
        ensures which { IsErr result ↔ (self.old.fails_in ≡ 1) }
        ensures later { (self.new.fails_in ≡ self.old.fails_in - 1)
            × (self.new.piece ≡ self.old.piece) }
        ensures left { self.new.left ≡ self.old.left }
        ensures handed_on { OnOk result (self.new.waits ≡ false) }
        ensures waits { OnErr result (self.new.waits ≡ self.old.waits) }
    {
        if self.fails() {
            return Err(WriteFault);
        }
        self.waits = false;
        Ok(())
    }

    fn failures(&self) -> u64 {
        self.failures
    }
}
