//! Adapts a reader of std to a source.

ghost use Rattle.std.specs.Prelude.{◌≡◌};

use crate::source::{ReadFault, Source};
use std::io::Read;
use std::marker::Model;

/// A reader of std as a source. Each error of its `read` is one failure.
#[derive(Drop)]
pub struct ReadSource<R: Read> {
    reader: R,
    failures: u64,
}

impl<R: Read> Model for ReadSource<R> {
    ghost use Rattle.rt_device.specs.Devices.{Counting};

    ghost Value = { Counting R };

    ghost view = { λ s. record { device = s.reader; failures = s.failures } };
}

impl<R: Read> ReadSource<R> {
    /// A source over the reader, without failures so far.
    pub fn new(reader: R) -> ReadSource<R>
        ensures reader { result.device ≡ reader }
        ensures count { result.failures ≡ 0 }
    {
        ReadSource {
            reader,
            failures: 0,
        }
    }
}

impl<R: Read> Source for ReadSource<R> {
    ghost coming = { λ s. R.remaining s.device };

    ghost failed = { λ s. s.failures };

    fn pull(&mut self, buffer: &mut [u8]) -> Result<usize, ReadFault> {
        match self.reader.read(buffer) {
            Ok(n) => Ok(n),
            Err(_) => {
                self.failures += 1;
                Err(ReadFault)
            }
        }
    }

    fn failures(&self) -> u64 {
        self.failures
    }
}
