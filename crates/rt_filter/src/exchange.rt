//! Read-side contract: everything read so far is answered, and the replies are flushed, before the next read.

ghost use Rattle.std.specs.Prelude.{◌≡◌, ◌+◌, ◌-◌, ◌<◌, ◌≤◌, ◌^◌, ℕ, List, Option, IfOk, OnOk, OnErr, false, length};
ghost use Rattle.rt_device.specs.Devices.{PulledTimes, Pulls};
ghost use Rattle.rt_filter.specs.Exchanges.{AtStart, IsAnswered, nothing};

use rt_device::{ReadFault, Sink, Source};
use std::marker::Brand;

/// What is known at the start of serving.
pub(crate) trait Start {
    ghost at_start: { AtStart };
}

impl Start for Brand {
    ghost at_start = { nothing };
}

/// A source of queries whose replies go to a sink. It may be pulled from only after all that was pulled before is answered.
pub(crate) trait Exchange<B: Start, K: Sink> {
    // As for a source: the bytes to come, how many pulls failed, and how many were made.
    ghost coming: { Self → Option (List ℕ) };

    ghost failed: { Self → ℕ };

    ghost pulled: { Self → Option ℕ };

    /// Puts the next bytes at the front of the buffer, and returns their number: 0 only at the end.
    fn pull_next(&mut self, sink: &K, buffer: &mut [u8]) -> Result<usize, ReadFault>
        // The replies to all complete lines are written, and nothing else.
        requires answered { IsAnswered B.at_start (coming self.old) (K.written sink.now) }
        // They are flushed too, if nothing waited for a flush at the start of serving.
        requires flushed { B.at_start.devices.waits ≡ false → K.waits sink.now ≡ false }
        requires buffer { 0 < length buffer.old }
        requires count { failed self.old < 2 ^ 64 - 1 }
        ensures bound { IfOk result (λ n. n ≤ length buffer.new) }
        ensures bytes { Pulls (coming self.old) (coming self.new) result buffer.new }
        ensures went { OnOk result (failed self.new ≡ failed self.old) }
        ensures fails { OnErr result (failed self.new ≡ failed self.old + 1) }
        ensures counted { PulledTimes 1 (pulled self.old) (pulled self.new) };
}

impl<B: Start, S: Source, K: Sink> Exchange<B, K> for S {
    ghost coming = { S.coming };

    ghost failed = { S.failed };

    ghost pulled = { S.pulled };

    fn pull_next(&mut self, _sink: &K, buffer: &mut [u8]) -> Result<usize, ReadFault> {
        self.pull(buffer)
    }
}
