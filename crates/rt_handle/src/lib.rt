//! Sessions behind a pointer, for callers in C.
//!
//! A [`Handle`] is a struct of one pointer, which C can hold, and owns the session to which it points. It is the only raw pointer of
//! the library: [`Handle::put`] and [`Handle::take`] have contracts that name none, so their callers need no proof by hand.
#![tactic(auto)]

mod handle;
mod raw_box;

pub use handle::{Handle, Opaque};
