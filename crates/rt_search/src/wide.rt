//! Heap of the items whose score needs more than 64 bits.

ghost use Rattle.std.specs.{BinaryHeap.{heap_items}, Prelude.{◌≡◌, ◌<◌, ◌≤◌, [], IfOk, length}};
ghost use Rattle.rt_search.specs.{Items.{Waiting, item_cmp}, Kept.{IsKept, IsRising, IsTakenOut, in_order, wide_item}};
ghost use Rattle.rt_tree.specs.Sorting.{put};

use crate::item::Item;
use std::alloc::{AllocError, Global};
use std::cmp::Reverse;
use std::collections::BinaryHeap;
use std::marker::Model;

/// The lowest score that needs more than 64 bits.
pub const WIDE: u128 = 1 << 64;

/// A heap of items with wide scores. Squared distances need at most 65 bits, so such items are rare.
///
/// Contracts see the items in order, and the capacity.
#[derive(Drop)]
pub struct Wide {
    heap: BinaryHeap<Reverse<Item>>,
    capacity: u32,
}

impl Model for Wide {
    ghost Value = { Waiting };

    ghost view = { λ w.
        record { items = in_order wide_item (heap_items w.heap); capacity = w.capacity } };

    ghost invariant = { λ w. IsKept ⟦<Reverse<Item> as Ord>⟧.cmp w.heap w.capacity };
}

impl Wide {
    pub fn new(alloc: Global, capacity: u32) -> Result<Wide, AllocError>
        ensures items { IfOk result (λ w. w.items ≡ []) }
        ensures capacity { IfOk result (λ w. w.capacity ≡ capacity) }
    {
        let heap = BinaryHeap::with_capacity(alloc, capacity as usize)?;
        Ok(Wide { heap, capacity })
    }

    pub fn len(&self) -> usize
        ensures value { result ≡ length self.now.items }
        ensures capacity { length self.now.items ≤ self.now.capacity }
        ensures rising { IsRising self.now.items }
    {
        self.heap.len()
    }

    pub fn clear(&mut self)
        ensures items { self.new.items ≡ [] }
        ensures capacity { self.new.capacity ≡ self.old.capacity }
    {
        self.heap.clear();
    }

    // (this and the next are out of line, as wide items are rare)
    #[cold]
    #[inline(never)]
    pub fn put(&mut self, item: Item)
        requires { length self.old.items < self.old.capacity }
        ensures items { self.new.items ≡ put item_cmp item self.old.items }
        ensures capacity { self.new.capacity ≡ self.old.capacity }
    {
        // (there is capacity, so nothing is allocated)
        let _pushed = self.heap.push(Reverse(item));
    }

    #[cold]
    #[inline(never)]
    pub fn take(&mut self) -> Option<Item>
        ensures taken { IsTakenOut result self.old.items self.new.items }
        ensures capacity { self.new.capacity ≡ self.old.capacity }
    {
        let top = self.heap.pop()?;
        Some(top.0)
    }
}
