//! Text in and text out: numbers, the table's CSV, query lines, and the lines of replies.
//!
//! - [`number`] reads a number in a range (`specs/Numbers.antt`).
//! - [`read_table`] reads a whole table, or returns its first fault. The meaning of a table's text is `table_of` of
//!   `specs/Tables.antt`, over csv's own definition of the records of a text. [`fault_line`] formats a fault
//!   of the table as one line.
//! - [`parse`] returns the query of a line, or its first fault: `query_of` of `specs/Queries.antt`.
//!   [`parse_into`] writes it to a variable of the caller.
//! - [`answer_line`], [`ok_line`], [`level_line`] and [`error_line`] are the lines of replies
//!   (`specs/ReplyLines.antt`). Each is a [`Line`], a text of at most 128 bytes.
//! - A [`RunFault`] is why a run ended early, with its status and its line (`specs/RunFaults.antt`).
#![tactic(auto)]

mod digits;
mod fault_lines;
mod grammar;
mod line;
mod numbers;
mod query;
mod reply_lines;
mod run_faults;
mod tables;
mod words;

pub use fault_lines::fault_line;
pub use grammar::{parse, parse_into};
pub use line::Line;
pub use numbers::{NumberFault, number};
pub use query::{Parsed, Query, QueryFault};
pub use reply_lines::{answer_line, error_line, level_line, ok_line, set_answer_line, set_ok_line};
pub use run_faults::{RunFault, run_fault_line};
pub use tables::{Axis, TableFault, read_table};
