//! Set of a table's ids: a sorted array of those that are loaded, a B-tree of those pushed later. A lookup takes O(log n),
//! whatever the ids are.

ghost use Rattle.std.specs.{List.{list_any}, List.Sorted.{IsStrictlySortedBy}, Ordering.{int_cmp, int_eq}};
ghost use Rattle.std.specs.Prelude.{◌≡◌, ◌≤◌, ◌||◌, ◌↔◌, ℤ, None, IfOk, IfErr, OnOk, OnErr, length, IsTrue, false, All};
ghost use Rattle.std.specs.Prelude.{IsSorted};
ghost use Rattle.rt_geo.specs.Entries.{HasBox};
ghost use Rattle.rt_tree.specs.{Entries.{first_repeat, ids_of, most_entries}, Indexes.{AreIdsOf, keeps}};
ghost use Rattle.rt_tree.specs.Repeats.{ExplainsNoTable};

use crate::entries::Entries;
use crate::table::EntriesFault;
use std::alloc::{AllocError, Global};
use std::collections::BTreeSet;

/// The ids of a table's entries.
#[derive(Drop)]
pub(crate) struct Ids {
    // the ids of the entries from which the table was made, in order
    loaded: Vec<i64>,
    // the ids of the entries pushed since
    pushed: BTreeSet<i64>,
    ghost in_order: { IsSorted int_cmp loaded.items },
}

impl Ids {
    /// No ids. It allocates nothing.
    pub(crate) fn none(alloc: Global) -> Ids
        ensures { (id : ℤ) → keeps result.loaded.items result.pushed id ≡ false }
    {
        Ids {
            loaded: Vec::new(alloc),
            pushed: BTreeSet::new(alloc),
        }
    }

    /// The ids of entries, or the first entry whose id comes a second time.
    pub(crate) fn of(alloc: Global, entries: &Entries) -> Result<Ids, EntriesFault>
        requires { length entries.now ≤ most_entries }
        ensures ids { IfOk result (λ ids. AreIdsOf ids.loaded.items ids.pushed entries.now) }
        ensures once { IfOk result (λ _. first_repeat entries.now ≡ None) }
        ensures boxes { IfOk result (λ _. All HasBox entries.now) }
        ensures fault { IfErr result (λ f. ExplainsNoTable f entries.now) }
    {
        let mut loaded = match ids_of(alloc, entries) {
            Ok(ids) => ids,
            Err(_) => return Err(EntriesFault::Memory),
        };
        loaded.sort_unstable();
        if !rises(&loaded) {
            drop(loaded);
            return Ids::one_by_one(alloc, entries);
        }
        Ok(Ids {
            loaded,
            pushed: BTreeSet::new(alloc),
        })
    }

    // The same, one id after the other, so that the first repeated id is found.
    fn one_by_one(alloc: Global, entries: &Entries) -> Result<Ids, EntriesFault>
        requires { length entries.now ≤ most_entries }
        ensures ids { IfOk result (λ ids. AreIdsOf ids.loaded.items ids.pushed entries.now) }
        ensures once { IfOk result (λ _. first_repeat entries.now ≡ None) }
        ensures fault { IfErr result (λ f. ExplainsNoTable f entries.now) }
    {
        let mut ids = Ids::none(alloc);
        for place in 0..entries.len() {
            let id = entries.get(place).id;
            if ids.has(id) {
                return Err(EntriesFault::Repeated {
                    place: place as u32,
                });
            }
            match ids.add(id) {
                Ok(()) => {}
                Err(_) => return Err(EntriesFault::Memory),
            }
        }
        Ok(ids)
    }

    /// Whether an id is in the set.
    pub(crate) fn has(&self, id: i64) -> bool
        ensures { result ≡ keeps self.now.loaded.items self.now.pushed id }
    {
        is_among(&self.loaded, id) || self.pushed.contains(&id)
    }

    /// Adds an id. The error is out of memory; the set is then unchanged.
    pub(crate) fn add(&mut self, id: i64) -> Result<(), AllocError>
        ensures added { OnOk result ((other : ℤ) → keeps self.new.loaded.items self.new.pushed other
            ≡ (keeps self.old.loaded.items self.old.pushed other || int_eq other id)) }
        ensures err { OnErr result ((other : ℤ) → keeps self.new.loaded.items self.new.pushed other
            ≡ keeps self.old.loaded.items self.old.pushed other) }
    {
        match self.pushed.insert(id) {
            Ok(_) => Ok(()),
            Err(_) => Err(AllocError),
        }
    }
}

// The ids of entries, in their order.
fn ids_of(alloc: Global, entries: &Entries) -> Result<Vec<i64>, AllocError>
    ensures ids { IfOk result (λ ids. ids.items ≡ ids_of entries.now) }
    ensures boxes { IfOk result (λ _. All HasBox entries.now) }
{
    let mut ids = Vec::with_capacity(alloc, entries.len())?;
    for place in 0..entries.len() {
        let entry = entries.get(place);
        // (the call makes it known to the proof that the sides are those of a box)
        let _least = entry.bounds.min_x();
        ids.push(entry.id)?;
    }
    Ok(ids)
}

// Whether each id is above the one before it.
fn rises(ids: &[i64]) -> bool
    ensures { IsTrue result ↔ IsStrictlySortedBy int_cmp ids.now }
{
    ids.is_sorted_by(|one, next| one < next)
}

// Whether an id is in a sorted slice.
fn is_among(ids: &[i64], id: i64) -> bool
    requires { IsSorted int_cmp ids.now }
    ensures { result ≡ list_any (int_eq id) ids.now }
{
    ids.binary_search(&id).is_ok()
}
