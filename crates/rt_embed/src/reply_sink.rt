//! A vector as a sink.

ghost use Rattle.std.specs.Prelude.{◌≡◌, [], Some};

use rt_filter::{Sink, WriteFault};
use std::marker::Model;

/// A sink that appends to a vector. A push fails only if it runs out of memory.
#[derive(Drop)]
pub(crate) struct ReplySink {
    bytes: Vec<u8>,
    failures: u64,
}

impl Model for ReplySink {
    ghost use Rattle.rt_embed.specs.Sessions.{Replying};

    ghost Value = { Replying };

    ghost view = { λ s. record { bytes = s.bytes.items; failures = s.failures } };
}

impl ReplySink {
    /// An empty sink in the memory of a vector.
    pub(crate) fn new(buffer: Vec<u8>) -> ReplySink
        ensures { result ≡ record { bytes = []; failures = 0 } }
    {
        let mut bytes = buffer;
        bytes.clear();
        ReplySink { bytes, failures: 0 }
    }

    /// The bytes.
    pub(crate) fn into_bytes(self) -> Vec<u8>
        ensures { result.items ≡ self.bytes }
    {
        let ReplySink { bytes, .. } = self;
        bytes
    }
}

impl Sink for ReplySink {
    ghost written = { λ s. Some s.bytes };

    ghost failed = { λ s. s.failures };

    fn push(&mut self, piece: &[u8]) -> Result<usize, WriteFault> {
        match self.bytes.extend_from_slice(piece) {
            Ok(()) => Ok(piece.len()),
            Err(_) => {
                self.failures += 1;
                Err(WriteFault)
            }
        }
    }

    fn flush(&mut self) -> Result<(), WriteFault> {
        Ok(())
    }

    fn failures(&self) -> u64 {
        self.failures
    }
}
