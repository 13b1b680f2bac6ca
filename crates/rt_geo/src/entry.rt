//! Entries: boxes with their ids and layers.

use crate::bounds::Bounds;

/// A box with its id and layer: one row of a table.
#[derive(Clone, Copy, Debug, PartialEq, Eq)]
pub struct Entry {
    /// The row's id, which no other row of its table has.
    pub id: i64,
    /// The row's box.
    pub bounds: Bounds,
    /// The box's layer, in a table one of 0 to 63.
    pub layer: u8,
}
