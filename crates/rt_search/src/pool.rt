//! Two-tier priority queue: a heap of the near keys and an unsorted list of the far ones.

ghost use Rattle.std.specs.{BinaryHeap.{heap_capacity, heap_items}, Prelude.{◌≡◌, ◌<◌, ◌≤◌, ◌++◌, [], ◌∷◌, IfNone}};
ghost use Rattle.std.specs.Prelude.{IfOk, IfSome, MatchOption, length, vec_capacity, IsPermutation};
ghost use Rattle.rt_search.specs.Pooling.{HasLeastScore, IsFar, IsLowest, IsNear, IsPool, Pooled, keys_in};

use crate::keys::{lesser, score_of};
use std::alloc::{AllocError, Global};
use std::cmp::Reverse;
use std::collections::BinaryHeap;
use std::marker::Model;

// The edge moves to this multiple of the lowest score; for squared distances that is twice the distance.
const FARTHER: u64 = 4;

/// Keys, of which the least is taken out first. Keys with a score up to the edge are near and kept in a heap; the others
/// are far and unsorted. Most keys that a search finds are far and never needed, so they cost one write each. When no near
/// key is left, the edge moves out, and the keys up to it move into the heap.
///
/// Contracts see the keys, the near ones first, and the capacity of either tier.
#[derive(Drop)]
pub struct Pool {
    near: BinaryHeap<Reverse<u128>>,
    far: Vec<Reverse<u128>>,
    edge: u64,
    // the lowest score of a far key
    least: Option<u64>,
    capacity: u32,
}

impl Model for Pool {
    ghost Value = { Pooled };

    ghost view = { λ p.
        record { near = heap_items p.near; far = p.far.items; capacity = p.capacity } };

    ghost invariant = { λ p. IsPool p.near p.far p.edge p.least p.capacity };
}

impl Pool {
    pub fn new(alloc: Global, capacity: u32) -> Result<Pool, AllocError>
        ensures keys { IfOk result (λ p. keys_in p ≡ []) }
        ensures capacity { IfOk result (λ p. p.capacity ≡ capacity) }
    {
        Ok(Pool {
            near: BinaryHeap::with_capacity(alloc, capacity as usize)?,
            far: Vec::with_capacity(alloc, capacity as usize)?,
            edge: 0,
            least: None,
            capacity,
        })
    }

    pub fn len(&self) -> usize
        ensures value { result ≡ length (keys_in self.now) }
        ensures capacity { length (keys_in self.now) ≤ self.now.capacity }
    {
        self.near.len() + self.far.len()
    }

    pub fn clear(&mut self)
        ensures keys { keys_in self.new ≡ [] }
        ensures capacity { self.new.capacity ≡ self.old.capacity }
    {
        self.near.clear();
        self.far.clear();
        self.edge = 0;
        self.least = None;
    }

    #[inline(always)]
    pub fn put(&mut self, key: u128)
        requires { length (keys_in self.old) < self.old.capacity }
        ensures keys { IsPermutation (record { 0 = key } ∷ keys_in self.old) (keys_in self.new) }
        ensures capacity { self.new.capacity ≡ self.old.capacity }
    {
        let score = score_of(key);
        if score <= self.edge {
            // (there is capacity, so nothing is allocated)
            let _pushed = self.near.push(Reverse(key));
            return;
        }
        self.least = Some(lesser(self.least, score));
        self.far.push_reserved(Reverse(key));
    }

    /// The lowest score.
    #[inline(always)]
    pub fn first_score(&self) -> Option<u64>
        ensures { MatchOption result (keys_in self.now ≡ [])
            (λ s. HasLeastScore s (keys_in self.now)) }
    {
        let Some(top) = self.near.peek() else {
            return self.least;
        };
        Some(score_of(top.0))
    }

    #[inline(always)]
    pub fn take(&mut self) -> Option<u128>
        ensures keys { MatchOption result (keys_in self.old ≡ [])
            (λ k. IsPermutation (keys_in self.old) (record { 0 = k } ∷ keys_in self.new)) }
        ensures none { IfNone result (keys_in self.new ≡ []) }
        ensures least { IfSome result (λ k. IsLowest k (keys_in self.new)) }
        ensures capacity { self.new.capacity ≡ self.old.capacity }
    {
        self.fill();
        let top = self.near.pop()?;
        Some(top.0)
    }

    // Moves the edge out, if no key is near.
    #[inline(always)]
    fn fill(&mut self)
        ensures same { IsPermutation (keys_in self.old) (keys_in self.new) }
        ensures filled { self.new.near ≡ [] → self.new.far ≡ [] }
        ensures capacity { self.new.capacity ≡ self.old.capacity }
    {
        if !self.near.is_empty() {
            return;
        }
        let Some(least) = self.least else {
            return;
        };
        self.edge = least.saturating_mul(FARTHER);
        self.least = move_near(&mut self.near, &mut self.far, self.edge);
    }
}

// Moves the keys with a score up to the edge to the near ones, and returns the lowest score of the others. Out of line, as
// it is rare.
#[inline(never)]
fn move_near(
    near: &mut BinaryHeap<Reverse<u128>>,
    far: &mut Vec<Reverse<u128>>,
    edge: u64,
) -> Option<u64>
    requires near { IsNear near.old edge }
    requires space { length (heap_items near.old ++ far.old.items) ≤ heap_capacity near.old }
    ensures near { IsNear near.new edge }
    ensures far { IsFar far.new.items edge result }
    ensures same { IsPermutation (heap_items near.old ++ far.old.items)
        (heap_items near.new ++ far.new.items) }
    ensures near_capacity { heap_capacity near.old ≤ heap_capacity near.new }
    ensures far_capacity { vec_capacity far.new ≡ vec_capacity far.old }
{
    let mut least = None;
    let mut at = 0;
    while at < far.len() {
        let score = score_of(far[at].0);
        if score <= edge {
            let key = far.swap_remove(at);
            // (there is capacity, so nothing is allocated)
            let _pushed = near.push(key);
        } else {
            least = Some(lesser(least, score));
            at += 1;
        }
    }
    least
}
