//! Tables: lists of entries with distinct ids.

ghost use Rattle.std.specs.Prelude.{◌≡◌, ◌==◌, ◌<◌, ◌≤◌, ◌++◌, ◌∷◌, ◌↔◌, [], length, slice_get, IsTrue, false, Ok, Err};
ghost use Rattle.std.specs.Prelude.{Some, None, IfOk, IfErr, OnOk, OnErr, All};
ghost use Rattle.rt_geo.specs.Entries.{HasBox, HasLayer};
ghost use Rattle.rt_tree.specs.{Entries.{IsTable, first_repeat, has_id, most_entries}, Repeats.{ExplainsNoTable}};

use crate::entries::Entries;
use crate::ids::Ids;
use rt_geo::Entry;
use std::alloc::Global;
use std::marker::Model;

/// Why an entry wasn't added.
#[derive(Clone, Copy, Debug, PartialEq, Eq)]
pub enum PushFault {
    /// The table has an entry with that id.
    Repeated,
    /// Out of memory.
    Memory,
}

/// Why entries make no table.
#[derive(Clone, Copy, Debug, PartialEq, Eq)]
pub enum EntriesFault {
    /// The entry at this index is the first whose id an earlier one has.
    Repeated { place: u32 },
    /// Out of memory.
    Memory,
}

/// Entries with distinct ids, in the order pushed: at most 16,777,216 of them.
#[derive(Drop)]
pub struct Table {
    entries: Entries,
    // the ids of the entries
    ids: Ids,
}

impl Model for Table {
    ghost use Rattle.std.specs.Prelude.{List};
    ghost use Rattle.rt_geo.specs.declared.entry.Entry.{Entry};
    ghost use Rattle.rt_tree.specs.Indexes.{IsIndexed};

    ghost Value = { List Entry };

    ghost view = { λ t. t.entries };

    ghost invariant = { λ t. IsIndexed t.ids.loaded.items t.ids.pushed t.entries };
}

impl Table {
    /// The most entries of a table.
    pub const MOST_ENTRIES: u32 = 16_777_216;

    /// No entries. It allocates nothing.
    pub fn empty(alloc: Global) -> Table
        ensures { result ≡ [] }
    {
        Table {
            entries: Entries::empty(alloc),
            ids: Ids::none(alloc),
        }
    }

    /// The table of these entries, in their order; each layer is at most 63. It takes O(n log n) for any entries.
    /// `Repeated` has the first entry whose id an earlier one has; `Memory` is out of memory.
    pub fn of_entries(alloc: Global, entries: Entries) -> Result<Table, EntriesFault>
        requires most { length entries ≤ most_entries }
        requires layers { All HasLayer entries }
        ensures table { IfOk result (λ t. t ≡ entries) }
        ensures once { IfOk result (λ _. first_repeat entries ≡ None) }
        ensures fault { IfErr result (λ f. ExplainsNoTable f entries) }
    {
        let ids = Ids::of(alloc, &entries)?;
        Ok(Table { entries, ids })
    }

    /// The number of entries.
    pub fn len(&self) -> u32
        ensures value { result ≡ length self.now }
        ensures table { IsTable self.now }
    {
        self.entries.len() as u32
    }

    /// Whether there are no entries.
    pub fn is_empty(&self) -> bool
        ensures { result ≡ (length self.now == 0) }
    {
        self.entries.is_empty()
    }

    /// The entry at an index, in the order pushed.
    pub fn get(&self, place: u32) -> Entry
        requires { place < length self.now }
        ensures value { slice_get self.now place ≡ Some result }
        ensures has_box { HasBox result }
        ensures has_layer { HasLayer result }
    {
        self.entries.get(place as usize)
    }

    /// The entries, in the order pushed.
    pub(crate) fn entries(&self) -> &Entries
        ensures value { result.now ≡ self.now }
        ensures table { IsTable self.now }
    {
        &self.entries
    }

    // The entries; the set of their ids is dropped.
    pub(crate) fn into_entries(self) -> Entries
        ensures value { result ≡ self }
        ensures table { IsTable self }
    {
        let Table { entries, ids } = self;
        drop(ids);
        entries
    }

    /// Adds an entry at the end; its layer is at most 63. `Repeated` if and only if the table has its id, and then nothing
    /// is allocated; `Memory` is out of memory. After either the table is unchanged.
    pub fn push(&mut self, entry: Entry) -> Result<(), PushFault>
        requires most { length self.old < most_entries }
        requires layer { HasLayer entry }
        ensures ok { OnOk result (self.new ≡ self.old ++ entry ∷ []) }
        ensures new { OnOk result (has_id self.old entry.id ≡ false) }
        ensures repeated { (result ≡ Err PushFault.Repeated) ↔ IsTrue (has_id self.old entry.id) }
        ensures err { OnErr result (self.new ≡ self.old) }
    {
        // (the call makes it known to the proof that the sides are those of a box)
        let _least = entry.bounds.min_x();
        if self.ids.has(entry.id) {
            return Err(PushFault::Repeated);
        }
        match self.entries.push(entry) {
            Ok(()) => {}
            Err(_) => return Err(PushFault::Memory),
        }
        match self.ids.add(entry.id) {
            Ok(()) => Ok(()),
            Err(_) => {
                self.entries.pop();
                Err(PushFault::Memory)
            }
        }
    }
}
