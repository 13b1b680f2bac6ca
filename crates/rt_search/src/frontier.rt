//! Reusable working memory of a search.

ghost use Rattle.std.specs.Prelude.{◌≡◌, ◌≤◌, [], length, IfOk};
ghost use Rattle.rt_search.specs.Searching.{Workspace};

use crate::hits::Hits;
use crate::queue::Queue;
use std::alloc::{AllocError, Global};
use std::marker::Model;

/// The working memory of searches, used by one after the other; a count only clears its queue. It is allocated once and
/// never grows.
///
/// Contracts see the items that wait, in the order in which they are taken out, the capacity, and the number of nodes
/// opened by all searches and counts that used it. It is one pointer, since each query passes it on by value.
#[derive(Drop)]
pub struct Frontier {
    pub(crate) buffers: Box<Buffers>,
}

/// The queue of a best-first search, and the hits of a search without a queue.
#[derive(Drop)]
pub(crate) struct Buffers {
    pub queue: Queue,
    pub hits: Hits,
    // the nodes opened by all finished searches and counts, in 64 bits: only contracts refer to it
    pub opened: u64,
}

impl Model for Frontier {
    ghost Value = { Workspace };

    ghost view = { λ f. let buffers = f.buffers.value in record {
      items = buffers.queue.items;
      capacity = buffers.queue.capacity;
      opened = buffers.opened;
    } };

    ghost invariant = { λ f. f.buffers.value.hits.capacity ≡ f.buffers.value.queue.capacity };
}

impl Frontier {
    /// An empty frontier for `capacity` items. The number of entries of a tree is enough for each search and count over it.
    /// The error is out of memory.
    pub fn new(alloc: Global, capacity: u32) -> Result<Frontier, AllocError>
        ensures items { IfOk result (λ f. f.items ≡ []) }
        ensures capacity { IfOk result (λ f. f.capacity ≡ capacity) }
        ensures opened { IfOk result (λ f. f.opened ≡ 0) }
    {
        let queue = Queue::new(alloc, capacity)?;
        let hits = Hits::new(alloc, capacity)?;
        let buffers = Buffers {
            queue,
            hits,
            opened: 0,
        };
        let buffers = Box::new(alloc, buffers)?;
        Ok(Frontier { buffers })
    }

    /// The number of items that it can hold.
    pub fn capacity(&self) -> u32
        ensures { result ≡ self.now.capacity }
    {
        self.buffers.hits.capacity()
    }

    /// The number of items that wait in it.
    pub fn len(&self) -> u32
        ensures value { result ≡ length self.now.items }
        ensures capacity { length self.now.items ≤ self.now.capacity }
    {
        self.buffers.queue.len()
    }
}
