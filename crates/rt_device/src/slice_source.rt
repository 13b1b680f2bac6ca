//! In-memory source with injectable failures.

ghost use Rattle.std.specs.Prelude.{◌≡◌, ◌+◌, ◌-◌, ◌<◌, ◌≤◌, ◌^◌, ◌↔◌, Some, IfOk, IsErr, OnOk, OnErr, length, min};
ghost use Rattle.std.specs.Prelude.{unwrap_or};
ghost use Rattle.rt_device.specs.Devices.{PulledTimes, Pulls};

use crate::source::{ReadFault, Source};
use std::marker::Model;

/// Bytes in memory as a source. It returns at most `piece` of them a pull, and one pull, counted from 1, may fail.
#[derive(Drop)]
pub struct SliceSource<'a> {
    bytes: &'a [u8],
    piece: usize,
    // which of the pulls to come fails, from 1; 0 is none
    fails_in: u64,
    failures: u64,
    // the number of pulls made; `None` once it exceeds its type
    pulls: Option<u64>,
}

impl<'a> Model for SliceSource<'a> {
    ghost use Rattle.std.specs.Prelude.{◌<◌};
    ghost use Rattle.rt_device.specs.Devices.{Slice};

    ghost Value = { Slice };

    ghost view = { λ s. record {
      bytes = s.bytes.now;
      piece = s.piece;
      fails_in = s.fails_in;
      failures = s.failures;
      pulls = s.pulls;
    } };

    ghost invariant = { λ s. 0 < s.piece };
}

impl<'a> SliceSource<'a> {
    /// A source of these bytes, at most `piece` a pull, which is at least 1. Pull number `fail_at` fails, counted from 1.
    /// With 0 or `None` no pull fails.
    pub fn new(bytes: &'a [u8], piece: usize, fail_at: Option<u64>) -> SliceSource<'a>
        requires { 0 < piece }
        ensures { result ≡ record {
          bytes = bytes.now;
          piece = piece;
          fails_in = unwrap_or fail_at 0;
          failures = 0;
          pulls = Some 0;
        } }
    {
        SliceSource {
            bytes,
            piece,
            fails_in: fail_at.unwrap_or(0),
            failures: 0,
            pulls: Some(0),
        }
    }
}

impl Source for SliceSource<'_> {
    ghost coming = { λ s. Some s.bytes };

    ghost failed = { λ s. s.failures };

    ghost pulled = { λ s. s.pulls };

    // As the trait says; also exactly which pull fails, and how many bytes each other pull returns.
    fn pull(&mut self, buffer: &mut [u8]) -> Result<usize, ReadFault>
        requires buffer { 0 < length buffer.old }
        requires count { self.old.failures < 2 ^ 64 - 1 }
        ensures bound { IfOk result (λ n. n ≤ length buffer.new) }
        ensures bytes { Pulls (Some self.old.bytes) (Some self.new.bytes) result buffer.new }
        ensures went { OnOk result (self.new.failures ≡ self.old.failures) }
        ensures fails { OnErr result (self.new.failures ≡ self.old.failures + 1) }
        ensures counted { PulledTimes 1 self.old.pulls self.new.pulls }
        ensures which { IsErr result ↔ (self.old.fails_in ≡ 1) }
        ensures many { IfOk result
            (λ n. n ≡ min self.old.piece (min (length buffer.new) (length self.old.bytes))) }
        ensures later { (self.new.fails_in ≡ self.old.fails_in - 1)
            × (self.new.piece ≡ self.old.piece) }
    {
        let fails = self.fails_in == 1;
        self.fails_in = self.fails_in.saturating_sub(1);
        self.pulls = match self.pulls {
            Some(pulls) => pulls.checked_add(1),
            None => None,
        };
        if fails {
            self.failures += 1;
            return Err(ReadFault);
        }
        let all: &[u8] = self.bytes;
        let n = self.piece.min(buffer.len().min(all.len()));
        buffer[..n].copy_from_slice(&all[..n]);
        self.bytes = &all[n..];
        Ok(n)
    }

    fn failures(&self) -> u64 {
        self.failures
    }
}
