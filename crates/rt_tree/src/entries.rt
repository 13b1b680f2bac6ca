//! A list of entries, with the layers in an array of their own.
//!
//! So a search that needs no layers reads none, and an entry takes no more memory than its id, its box and one byte.

ghost use Rattle.std.specs.Prelude.{◌≡◌, ◌==◌, ◌-◌, ◌<◌, ◌++◌, ◌∷◌, [], OnErr, OnOk, Some, length, map};
ghost use Rattle.std.specs.Prelude.{List, slice_get, slice_index, take};
ghost use Rattle.rt_geo.specs.declared.entry.Entry.{Entry};
ghost use Rattle.rt_tree.specs.Leaves.{entries_of, without_layer};

use rt_geo::{Bounds, Entry};
use std::alloc::{AllocError, Global};
use std::marker::Model;

/// An entry without its layer: the element type of the array that a search reads under a node of level 1.
#[derive(Clone, Copy, Debug, PartialEq, Eq)]
pub struct LeafEntry {
    /// The entry's id.
    pub id: i64,
    /// The entry's box.
    pub bounds: Bounds,
}

/// Entries in order: those for a table, and those of a tree.
#[derive(Drop)]
pub struct Entries {
    entries: Vec<LeafEntry>,
    layers: Vec<u8>,
}

impl Model for Entries {
    ghost Value = { List Entry };

    ghost view = { λ l. entries_of l.entries.items l.layers.items };

    ghost invariant = { λ l. length l.entries.items ≡ length l.layers.items };
}

impl Entries {
    /// No entries. It allocates nothing.
    pub fn empty(alloc: Global) -> Entries
        ensures { result ≡ [] }
    {
        Entries {
            entries: Vec::new(alloc),
            layers: Vec::new(alloc),
        }
    }

    /// Reserves capacity for `more` entries.
    pub(crate) fn reserve(&mut self, more: usize) -> Result<(), AllocError>
        ensures { self.new ≡ self.old }
    {
        self.entries.reserve(more)?;
        self.layers.reserve(more)
    }

    /// The number of entries.
    pub fn len(&self) -> usize
        ensures { result ≡ length self.now }
    {
        self.entries.len()
    }

    /// Whether there are none.
    pub(crate) fn is_empty(&self) -> bool
        ensures { result ≡ (length self.now == 0) }
    {
        self.len() == 0
    }

    /// Adds an entry at the end. The error is out of memory; the entries are then unchanged.
    pub fn push(&mut self, entry: Entry) -> Result<(), AllocError>
        ensures ok { OnOk result (self.new ≡ self.old ++ entry ∷ []) }
        ensures err { OnErr result (self.new ≡ self.old) }
    {
        self.entries.reserve(1)?;
        self.layers.push(entry.layer)?;
        self.entries.push_reserved(LeafEntry {
            id: entry.id,
            bounds: entry.bounds,
        });
        Ok(())
    }

    /// Removes the last entry, if there is one.
    pub(crate) fn pop(&mut self)
        ensures { self.new ≡ take (length self.old - 1) self.old }
    {
        let len = self.entries.len().saturating_sub(1);
        self.entries.truncate(len);
        self.layers.truncate(len);
    }

    /// The entry at an index.
    pub(crate) fn get(&self, place: usize) -> Entry
        requires { place < length self.now }
        ensures { slice_get self.now place ≡ Some result }
    {
        let entry = self.entries[place];
        Entry {
            id: entry.id,
            bounds: entry.bounds,
            layer: self.layer(place),
        }
    }

    /// The layer of the entry at an index, or 0. If the result isn't used, the array isn't read.
    pub(crate) fn layer(&self, place: usize) -> u8
        ensures { result ≡ slice_index (map (λ entry. entry.layer) self.now) place }
    {
        match self.layers.get(place) {
            Some(layer) => *layer,
            None => 0,
        }
    }

    /// The entries without their layers.
    pub(crate) fn leaves(&self) -> &[LeafEntry]
        ensures { result.now ≡ map without_layer self.now }
    {
        self.entries.as_slice()
    }

    /// Their layers.
    pub(crate) fn layers(&self) -> &[u8]
        ensures { result.now ≡ map (λ entry. entry.layer) self.now }
    {
        self.layers.as_slice()
    }
}
