//! The trait of byte sinks.

ghost use Rattle.std.specs.{Io.KnownBytes.{Keeps}, Prelude.{◌≡◌, ◌+◌, ◌-◌, ◌<◌, ◌≤◌, ◌^◌, ℕ, Bool, List, Option, IfOk}};
ghost use Rattle.std.specs.Prelude.{OnOk, OnErr, false, length};
ghost use Rattle.rt_device.specs.Devices.{Pushes};

/// A push or a flush that failed.
#[derive(Clone, Copy, Debug, PartialEq, Eq)]
pub struct WriteFault;

/// A destination that takes bytes in pieces, and may fail.
pub trait Sink {
    // The bytes written, if known.
    ghost written: { Self → Option (List ℕ) };

    // How many calls failed; a push that took no byte counts as failed.
    ghost failed: { Self → ℕ };

    // Whether bytes that were taken wait for a flush. A sink that forwards each byte at once leaves this out.
    ghost waits: { Self → Bool } = { λ _. false };

    /// Takes bytes from the front of the piece, and returns their number: 0 only after a failure.
    fn push(&mut self, piece: &[u8]) -> Result<usize, WriteFault>
        requires piece { 0 < length piece.now }
        requires count { failed self.old < 2 ^ 64 - 1 }
        ensures bound { IfOk result (λ n. n ≤ length piece.now) }
        ensures bytes { Pushes (written self.old) (written self.new) result piece.now }
        ensures went { IfOk result (λ n. 0 < n → failed self.new ≡ failed self.old) }
        ensures took_none { IfOk result (λ n. n ≡ 0 → failed self.new ≡ failed self.old + 1) }
        ensures fails { OnErr result (failed self.new ≡ failed self.old + 1) };

    /// Forwards the bytes that were taken. It takes none itself, and loses none if it fails.
    fn flush(&mut self) -> Result<(), WriteFault>
        requires { failed self.old < 2 ^ 64 - 1 }
        ensures bytes { Keeps (written self.old) (written self.new) }
        ensures handed_on { OnOk result (waits self.new ≡ false) }
        ensures went { OnOk result (failed self.new ≡ failed self.old) }
        ensures fails { OnErr result (failed self.new ≡ failed self.old + 1) };

    /// How many calls failed so far.
    fn failures(&self) -> u64
        ensures { result ≡ failed self.now };
}
