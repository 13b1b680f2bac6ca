//! Boxes in rows: an array of whole boxes, or of their sides in the order that other libraries use.

use crate::boxes::{Boxes, PlainBox};

/// An array of whole boxes.
#[derive(Clone, Copy)]
pub struct BoxList<'a> {
    pub boxes: &'a [PlainBox],
}

impl<'a> Boxes for BoxList<'a> {
    ghost use Rattle.std.specs.Prelude.{⊤};
    ghost use Rattle.rt_embed.specs.Columns.{in_list};

    ghost given = { λ list. in_list list.boxes.now };

    ghost fit = { λ list. ⊤ };

    fn len(&self) -> usize {
        self.boxes.len()
    }

    fn box_at(&self, place: usize) -> PlainBox {
        self.boxes[place]
    }
}

/// The sides of a box, the lower left corner first, as other libraries have them.
#[repr(C)]
#[derive(Clone, Copy, Debug, PartialEq, Eq)]
pub struct Row {
    pub min_x: i32,
    pub min_y: i32,
    pub max_x: i32,
    pub max_y: i32,
}

/// Rows, with arrays of as many ids and layers. Without ids a box's id is its index; without layers each box is on layer 0.
#[derive(Clone, Copy)]
pub struct Rows<'a> {
    pub rows: &'a [Row],
    pub ids: &'a [i64],
    pub layers: &'a [u8],
}

impl<'a> Boxes for Rows<'a> {
    ghost use Rattle.rt_embed.specs.Columns.{AreRows, in_rows, parts_of};

    ghost given = { λ rows. in_rows (parts_of rows) };

    ghost fit = { λ rows. AreRows (parts_of rows) };

    fn len(&self) -> usize {
        self.rows.len()
    }

    fn box_at(&self, place: usize) -> PlainBox {
        let row = self.rows[place];
        PlainBox {
            id: self.ids.get(place).copied().unwrap_or(place as i64),
            min_x: row.min_x,
            max_x: row.max_x,
            min_y: row.min_y,
            max_y: row.max_y,
            layer: self.layers.get(place).copied().unwrap_or(0),
        }
    }
}
