//! The engine for C: include/rtfilter.h says what its calls do, and calls these exports.
//!
//! An export takes the session out of its handle, makes one call of [`rt_embed::Session`], and puts it back. It may require that a
//! handle holds a session or holds none: the C code in front of it checks this, and that no pointer is null.
#![tactic(auto)]

mod about;
mod codes;
mod fault;
mod invalid;
mod opening;
mod plain_queries;
mod texts;
