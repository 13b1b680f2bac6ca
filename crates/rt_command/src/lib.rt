//! The command line: its options, and the files that it names.
//!
//! [`settings_of`] parses the words by clap; their meaning is clap's own definition of a simple command's matches
//! (`specs/Invocations.antt`). [`Settings`] are those of a run, each in its range (`specs/Choices.antt`).
#![tactic(auto)]

mod invocation;
mod name;
mod settings;

pub use invocation::{ArgFault, Invocation, settings_of};
pub use name::Name;
pub use settings::Settings;
