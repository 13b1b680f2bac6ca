//! Byte sources and sinks that may fail.
//!
//! A [`Source`] returns bytes in pieces, a [`Sink`] takes them in pieces, and each call may fail. Contracts see the bytes
//! that are to come or that are written, if a device reports them, and how many calls failed (`specs/Devices.antt`).
//! [`ReadSource`] and [`WriteSink`] adapt readers and writers of std, [`BufferedSink`] adapts its buffered writer.
//! [`SliceSource`] and [`SliceSink`] are in memory, and fail at a chosen call.
#![tactic(auto)]

mod buffered_sink;
mod read_source;
mod sink;
mod slice_sink;
mod slice_source;
mod source;
mod write_sink;

pub use buffered_sink::BufferedSink;
pub use read_source::ReadSource;
pub use sink::{Sink, WriteFault};
pub use slice_sink::SliceSink;
pub use slice_source::SliceSource;
pub use source::{ReadFault, Source};
pub use write_sink::WriteSink;
