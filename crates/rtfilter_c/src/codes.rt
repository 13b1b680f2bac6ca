//! The codes that the exports return, as in include/rtfilter.h.

/// The call succeeded.
pub(crate) const OK: u8 = 0;
/// Some query line is faulty. The reply is complete, and says which.
pub(crate) const FAULTY_LINE: u8 = 1;
/// A setting is out of its range.
pub(crate) const BAD_SETTING: u8 = 2;
/// The table has a fault.
pub(crate) const BAD_TABLE: u8 = 3;
/// The arrays are full, and there are more answers.
pub(crate) const FULL: u8 = 5;
/// Out of memory.
pub(crate) const NO_MEMORY: u8 = 6;
/// A query is invalid.
pub(crate) const BAD_QUERY: u8 = 7;
