//! Adapts a writer of std to a sink.

ghost use Rattle.std.specs.{Io.KnownBytes.{Keeps}, Result.{result_unwrap_or}};
ghost use Rattle.std.specs.Prelude.{◌≡◌, ◌+◌, ◌-◌, ◌<◌, ◌≤◌, ◌^◌, ◌||◌, IfOk, nat_lt, OnOk, OnErr, false, length};
ghost use Rattle.rt_device.specs.Devices.{Pushes};

use crate::sink::{Sink, WriteFault};
use std::io::Write;
use std::marker::Model;

/// A writer of std as a sink. Each error of its `write` and `flush` is one failure, and so is each write that takes no
/// byte.
#[derive(Drop)]
pub struct WriteSink<W: Write> {
    writer: W,
    failures: u64,
    // whether bytes were taken since the last flush
    waits: bool,
}

impl<W: Write> Model for WriteSink<W> {
    ghost use Rattle.rt_device.specs.Devices.{Writer};

    ghost Value = { Writer W };

    ghost view = { λ s. record { device = s.writer; failures = s.failures; waits = s.waits } };
}

impl<W: Write> WriteSink<W> {
    /// A sink over the writer, without calls so far.
    pub fn new(writer: W) -> WriteSink<W>
        ensures writer { result.device ≡ writer }
        ensures count { result.failures ≡ 0 }
        ensures waits { result.waits ≡ false }
    {
        WriteSink {
            writer,
            failures: 0,
            waits: false,
        }
    }
}

impl<W: Write> Sink for WriteSink<W> {
    ghost written = { λ s. W.contents s.device };

    ghost failed = { λ s. s.failures };

    ghost waits = { λ s. s.waits };

    // As the trait says; also that the bytes taken wait for a flush.
    fn push(&mut self, piece: &[u8]) -> Result<usize, WriteFault>
        requires piece { 0 < length piece.now }
        requires count { self.old.failures < 2 ^ 64 - 1 }
        ensures bound { IfOk result (λ n. n ≤ length piece.now) }
        ensures bytes { Pushes (W.contents self.old.device) (W.contents self.new.device)
            result piece.now }
        ensures went { IfOk result (λ n. 0 < n → self.new.failures ≡ self.old.failures) }
        ensures took_none { IfOk result (λ n. n ≡ 0 → self.new.failures ≡ self.old.failures + 1) }
        ensures fails { OnErr result (self.new.failures ≡ self.old.failures + 1) }
        ensures waits { self.new.waits ≡ (nat_lt 0 (result_unwrap_or result 0) || self.old.waits) }
    {
        match self.writer.write(piece) {
            Ok(0) => {
                self.failures += 1;
                Ok(0)
            }
            Ok(n) => {
                self.waits = true;
                Ok(n)
            }
            Err(_) => {
                self.failures += 1;
                Err(WriteFault)
            }
        }
    }

    // As the trait says; also that bytes wait after a failed flush.
    fn flush(&mut self) -> Result<(), WriteFault>
        requires { self.old.failures < 2 ^ 64 - 1 }
        ensures bytes { Keeps (W.contents self.old.device) (W.contents self.new.device) }
        ensures went { OnOk result (self.new.failures ≡ self.old.failures) }
        ensures fails { OnErr result (self.new.failures ≡ self.old.failures + 1) }
        ensures handed_on { OnOk result (self.new.waits ≡ false) }
        ensures waits { OnErr result (self.new.waits ≡ self.old.waits) }
    {
        match self.writer.flush() {
            Ok(()) => {
                self.waits = false;
                Ok(())
            }
            Err(_) => {
                self.failures += 1;
                Err(WriteFault)
            }
        }
    }

    fn failures(&self) -> u64 {
        self.failures
    }
}
