//! The filter: from the bytes of a table and of queries to the bytes of the answers.
//!
//! The program calls [`run`], by [`run_std`]. The contract of [`run`] is the purpose of this crate: if reader, source and
//! sink report their bytes and nothing fails, then what is written, the fault and the status are `run_of` of the settings
//! and the bytes (`specs/Runs.antt`), however reads and writes are cut. `specs/Endings.antt` says what holds after a
//! failure. [`serve`] is the part after the load: it answers each query line as it comes, by the search of `rt_search`.
//! Bytes come from a [`Source`] and go to a [`Sink`], of `rt_device`; settings come from the command line by
//! [`settings_of`], of `rt_command`.
#![tactic(auto)]

mod batch;
mod ending;
mod exchange;
mod filter;
mod job;
mod measures;
mod program;
mod progress;
mod query_reply;
mod reply;
mod serving;

pub use batch::answer_batch;
pub use ending::Ending;
pub use filter::{Outcome, load, run, run_std};
pub use job::{Job, with_geometry};
pub use measures::{cost_of_count, cost_of_find, count_boxes};
pub use program::open_and_run;
pub use rt_command::{ArgFault, Invocation, Name, Settings, settings_of};
pub use rt_device::{
    BufferedSink, ReadFault, ReadSource, Sink, SliceSink, SliceSource, Source, WriteFault,
    WriteSink,
};
pub use rt_text::{RunFault, run_fault_line};
pub use serving::{ServeFault, Served, serve};
