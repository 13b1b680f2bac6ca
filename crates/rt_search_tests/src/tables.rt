//! Boxes, and tables of them.

use rt_geo::{Bounds, Entry};
use rt_tree::Table;
use std::process::Abort;

pub(crate) type Sides = [i32; 4];

pub(crate) fn boxed(rt: &impl Abort, sides: Sides) -> Bounds {
    let [min_x, max_x, min_y, max_y] = sides;
    Bounds::new(min_x, max_x, min_y, max_y).expect(rt, "the minimums are at most the maximums")
}

pub(crate) fn push(rt: &impl Abort, table: &mut Table, id: i64, bounds: Bounds) {
    push_on(rt, table, id, bounds, 0);
}

/// The same on a layer.
pub(crate) fn push_on(rt: &impl Abort, table: &mut Table, id: i64, bounds: Bounds, layer: u8) {
    assert!(rt; layer <= 63, "it is a layer");
    assert!(rt; table.len() < Table::MOST_ENTRIES, "there is capacity");
    table
        .push(Entry { id, bounds, layer })
        .expect(rt, "the id is new, and there is memory");
}
