//! Boxes as plain numbers from a program in another language, and the table that they make.

ghost use Rattle.std.specs.Prelude.{◌≡◌, ◌<◌, ◌≤◌, ℕ, All, IfErr, IfOk, Ok, length};
ghost use Rattle.rt_geo.specs.Entries.{HasLayer};
ghost use Rattle.rt_tree.specs.Entries.{most_entries};
ghost use Rattle.rt_embed.specs.GivenBoxes.{Given, IsRefusalOf, entries_upto, entry_of, table_of};

use rt_geo::{Bounds, Entry, Layers};
use rt_text::{Axis, TableFault};
use rt_tree::{Entries, EntriesFault, Table};
use std::alloc::Global;

/// A box in plain numbers, with its id and its layer.
#[repr(C)]
#[derive(Clone, Copy, Debug, PartialEq, Eq)]
pub struct PlainBox {
    pub id: i64,
    pub min_x: i32,
    pub max_x: i32,
    pub min_y: i32,
    pub max_y: i32,
    pub layer: u8,
}

/// Arrays of boxes, in any layout.
pub trait Boxes {
    ghost given: { Self → Given };

    /// What has to hold of the arrays: for example, equal lengths.
    ghost fit: { Self → Type 0 };

    /// The number of boxes.
    fn len(&self) -> usize
        ensures { result ≡ (given self.now).len };

    /// The box at an index.
    fn box_at(&self, place: usize) -> PlainBox
        requires fit { fit self.now }
        requires inside { place < (given self.now).len }
        ensures { result ≡ (given self.now).box_at place };
}

/// The table of at most `max` boxes.
pub(crate) fn table_of<B: Boxes>(alloc: Global, max: u32, boxes: &B) -> Result<Table, TableFault>
    requires fit { B.fit boxes.now }
    requires most { max ≤ most_entries }
    ensures table { IfOk result (λ table. table_of max (B.given boxes.now) ≡ Ok table) }
    ensures fault { IfErr result (λ cause. IsRefusalOf cause (table_of max (B.given boxes.now))) }
{
    let len = boxes.len();
    if len > max as usize {
        return Err(TableFault::TooMany { number: max + 1 });
    }
    let entries = entries_of(alloc, boxes)?;
    match Table::of_entries(alloc, entries) {
        Ok(table) => Ok(table),
        Err(EntriesFault::Repeated { place }) => Err(TableFault::Repeated { number: place + 1 }),
        Err(EntriesFault::Memory) => Err(TableFault::Memory),
    }
}

// The entries of boxes, without comparing ids.
fn entries_of<B: Boxes>(alloc: Global, boxes: &B) -> Result<Entries, TableFault>
    requires fit { B.fit boxes.now }
    requires few { (B.given boxes.now).len ≤ most_entries }
    ensures entries { let given = B.given boxes.now in
        IfOk result (λ entries. entries_upto given given.len ≡ Ok entries) }
    ensures len { IfOk result (λ entries. length entries ≡ (B.given boxes.now).len) }
    ensures layers { IfOk result (λ entries. All HasLayer entries) }
    ensures fault { let given = B.given boxes.now in
        IfErr result (λ cause. IsRefusalOf cause (entries_upto given given.len)) }
{
    let mut entries = Entries::empty(alloc);
    for place in 0..boxes.len() {
        let entry = entry_of(place as u32 + 1, &boxes.box_at(place))?;
        entries.push(entry).or(Err(TableFault::Memory))?;
    }
    Ok(entries)
}

// The entry of the box that is record `number`.
fn entry_of(number: u32, plain: &PlainBox) -> Result<Entry, TableFault>
    ensures value { result ≡ entry_of number plain.now }
    ensures layer { IfOk result HasLayer }
{
    if plain.layer > Layers::MOST {
        return Err(TableFault::OutOfRange { number, field: 6 });
    }
    let Some(bounds) = Bounds::new(plain.min_x, plain.max_x, plain.min_y, plain.max_y) else {
        let axis = if plain.min_x > plain.max_x {
            Axis::X
        } else {
            Axis::Y
        };
        return Err(TableFault::MinAboveMax { number, axis });
    };
    Ok(Entry {
        id: plain.id,
        bounds,
        layer: plain.layer,
    })
}
