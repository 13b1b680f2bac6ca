//! Partial selection: drops elements above a sampled bound, and keeps at least the k smallest.

ghost use Rattle.std.specs.Prelude.{◌≡◌, ◌<◌, ◌≤◌, filter, length, nat_le, vec_capacity};
ghost use Rattle.rt_search.specs.Kept.{IsCut, is_upto};

use std::cmp::Reverse;

/// The size of the sample that gives the bound.
const SAMPLE: usize = 256;

/// Drops elements that are not among the `count` smallest, if `count` is at most half of all. The others keep their order.
pub fn keep_least<T: Ord + Copy + Drop>(items: &mut Vec<Reverse<T>>, count: usize)
    ensures cut { IsCut T.cmp count items.old.items items.new.items }
    ensures capacity { vec_capacity items.new ≡ vec_capacity items.old }
{
    if let Some(bound) = bound_behind(items, count) {
        if has_upto(items, count, bound) {
            items.retain(|item| item.0.cmp(&bound).is_le());
        }
    }
}

// An element that, by a sample, comes somewhat after the `count` smallest. `None` if there are too few elements for a
// sample, or if `count` is more than half of them.
fn bound_behind<T: Ord + Copy + Drop>(items: &[Reverse<T>], count: usize) -> Option<T> {
    let step = items.len() / SAMPLE;
    if step < 2 || items.len() / 2 < count {
        return None;
    }
    let at = count / step;
    of_sample(items, step, at + at / 4 + 4)
}

// The element at an index of a sorted sample. Out of line, since each call fills the memory of the sample.
#[inline(never)]
fn of_sample<T: Ord + Copy + Drop>(items: &[Reverse<T>], step: usize, place: usize) -> Option<T>
    requires enough { SAMPLE ≤ length items.now }
    requires step { 0 < step }
{
    let mut sample = [items[0].0; SAMPLE];
    for (copied, item) in sample.iter_mut().zip(items.iter().step_by(step)) {
        *copied = item.0;
    }
    sample.sort_unstable();
    sample.get(place).copied()
}

// Whether at least `count` elements are at most the bound. Stops as soon as that is certain.
fn has_upto<T: Ord + Copy + Drop>(items: &[Reverse<T>], count: usize, bound: T) -> bool
    ensures { result ≡ nat_le count (length (filter (is_upto T.cmp bound) items.now)) }
{
    let mut found = 0;
    for item in items {
        if count <= found {
            return true;
        }
        found += usize::from(item.0.cmp(&bound).is_le());
    }
    count <= found
}
