//! The trait of byte sources.

ghost use Rattle.std.specs.Prelude.{◌≡◌, ◌+◌, ◌-◌, ◌<◌, ◌≤◌, ◌^◌, ℕ, List, Option, None, IfOk, OnOk, OnErr, length};
ghost use Rattle.rt_device.specs.Devices.{PulledTimes, Pulls};

/// A pull that failed.
#[derive(Clone, Copy, Debug, PartialEq, Eq)]
pub struct ReadFault;

/// A source of bytes, which come in pieces. It may fail.
pub trait Source {
    // The bytes to come, if known.
    ghost coming: { Self → Option (List ℕ) };

    // How many pulls failed.
    ghost failed: { Self → ℕ };

    // How many pulls were made, if known. A source that doesn't count them leaves this out.
    ghost pulled: { Self → Option ℕ } = { λ _. None };

    /// Puts the next bytes at the front of the buffer, and returns their number: 0 only at the end.
    fn pull(&mut self, buffer: &mut [u8]) -> Result<usize, ReadFault>
        requires buffer { 0 < length buffer.old }
        requires count { failed self.old < 2 ^ 64 - 1 }
        ensures bound { IfOk result (λ n. n ≤ length buffer.new) }
        ensures bytes { Pulls (coming self.old) (coming self.new) result buffer.new }
        ensures went { OnOk result (failed self.new ≡ failed self.old) }
        ensures fails { OnErr result (failed self.new ≡ failed self.old + 1) }
        ensures counted { PulledTimes 1 (pulled self.old) (pulled self.new) };

    /// How many pulls failed so far.
    fn failures(&self) -> u64
        ensures { result ≡ failed self.now };
}
