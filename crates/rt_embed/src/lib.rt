//! The engine in the memory of its caller.
//!
//! A [`Session`] has a loaded tree, which other sessions share, and a frontier and a reply of its own. [`Session::ask`]
//! answers query lines with the text that the program writes for them; [`Session::find`] and [`Session::measure`] answer
//! queries in numbers, many in one call. [`summary_of`] returns the size and the extent of a tree. There are no pointers
//! and no C here.
#![tactic(auto)]

mod boxes;
mod columns;
mod finding;
mod measuring;
mod plain_query;
mod question;
mod reply_sink;
mod rows;
mod score;
mod session;
mod summary;
mod vertex;

pub use boxes::{Boxes, PlainBox};
pub use columns::Columns;
pub use finding::{Found, Stop};
pub use plain_query::{InvalidQuery, PlainQuery};
pub use question::{Measure, Question};
pub use rows::{BoxList, Row, Rows};
pub use score::Score;
pub use session::Session;
pub use summary::{Summary, copy_level_sizes, summary_of};
pub use vertex::Vertex;
