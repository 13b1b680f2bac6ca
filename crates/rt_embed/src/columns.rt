//! Boxes in columns: an array of ids, four of sides, and one of layers or none.

use crate::boxes::{Boxes, PlainBox};

/// A table in columns of equal length; without layers each box is on layer 0.
#[derive(Clone, Copy)]
pub struct Columns<'a> {
    pub ids: &'a [i64],
    pub min_x: &'a [i32],
    pub max_x: &'a [i32],
    pub min_y: &'a [i32],
    pub max_y: &'a [i32],
    pub layers: &'a [u8],
}

impl<'a> Boxes for Columns<'a> {
    ghost use Rattle.rt_embed.specs.Columns.{AreColumns, in_columns, lists_of};

    ghost given = { λ columns. in_columns (lists_of columns) };

    ghost fit = { λ columns. AreColumns (lists_of columns) };

    fn len(&self) -> usize {
        self.ids.len()
    }

    fn box_at(&self, place: usize) -> PlainBox {
        PlainBox {
            id: self.ids[place],
            min_x: self.min_x[place],
            max_x: self.max_x[place],
            min_y: self.min_y[place],
            max_y: self.max_y[place],
            layer: self.layers.get(place).copied().unwrap_or(0),
        }
    }
}
