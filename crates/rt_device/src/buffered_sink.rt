//! A buffered writer of std as a sink.

ghost use Rattle.std.specs.{Io.Buffered.{writer_buffer, writer_contents}, Prelude.{◌≡◌, nat_lt, length}};

use crate::sink::{Sink, WriteFault};
use std::io::{BufWriter, Write};
use std::marker::Model;

/// A buffered writer of std as a sink. Each error of its `write` and `flush` is one failure, and so is each write that
/// takes no byte. Bytes wait for a flush while its buffer holds them.
///
/// On drop it writes what its buffer holds, as std's does, but only if no call has failed. Bytes that a failed write left
/// in the buffer are dropped, so that no write follows a failed one.
pub struct BufferedSink<W: Write + Drop> {
    writer: BufWriter<W>,
    failures: u64,
}

impl<W: Write + Drop> Model for BufferedSink<W> {
    ghost use Rattle.std.specs.declared.io.buffered.BufWriter.{BufWriter};
    ghost use Rattle.std.specs.Global.{Global};
    ghost use Rattle.rt_device.specs.Devices.{Counting};

    ghost Value = { Counting (BufWriter W Global) };

    ghost view = { λ s. record { device = s.writer; failures = s.failures } };
}

impl<W: Write + Drop> BufferedSink<W> {
    /// A sink over the writer, without failures so far.
    pub fn new(writer: BufWriter<W>) -> BufferedSink<W>
        ensures writer { result.device ≡ writer }
        ensures count { result.failures ≡ 0 }
    {
        BufferedSink {
            writer,
            failures: 0,
        }
    }
}

impl<W: Write + Drop> Sink for BufferedSink<W> {
    ghost written = { λ s. writer_contents W.contents s.device };

    ghost failed = { λ s. s.failures };

    ghost waits = { λ s. nat_lt 0 (length (writer_buffer s.device)) };

    fn push(&mut self, piece: &[u8]) -> Result<usize, WriteFault> {
        match self.writer.write(piece) {
            Ok(0) => {
                self.failures += 1;
                Ok(0)
            }
            Ok(n) => Ok(n),
            Err(_) => {
                self.failures += 1;
                Err(WriteFault)
            }
        }
    }

    fn flush(&mut self) -> Result<(), WriteFault> {
        match self.writer.flush() {
            Ok(()) => Ok(()),
            Err(_) => {
                self.failures += 1;
                Err(WriteFault)
            }
        }
    }

    fn failures(&self) -> u64 {
        self.failures
    }
}

impl<W: Write + Drop> Drop for BufferedSink<W> {
    fn drop(self) {
        let BufferedSink { writer, failures } = self;
        if failures > 0 {
            // (taken apart, since the writer as a whole would write on drop)
            let (_writer, _given_up) = writer.into_parts();
        }
    }
}
