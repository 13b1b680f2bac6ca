//! Bit sets of the children of a node that were checked and wait to be opened.

ghost use Rattle.std.specs.Prelude.{◌≡◌, ◌<◌, ℕ, MatchOption, false};
ghost use Rattle.rt_search.specs.Pending.{HasKept, HasPut, HasTakenOut, is_among};

use rt_geo::{Verdict, Within};
use std::marker::Model;

/// The most children of a node.
const MOST: usize = 64;

/// The children that wait, by their index among those of their node, with the verdicts on them. Sets of indexes are words:
/// a list would have to be cleared for each node that is opened.
///
/// Contracts see which children wait, which of them are FULLY, and the scores. Whether nodes have scores is an argument of
/// the calls and not a field, so that the compiler leaves out the memory for scores that nodes don't have.
#[derive(Drop)]
pub struct Pending {
    places: u64,
    full: u64,
    scores: [u128; MOST],
}

impl Model for Pending {
    ghost use Rattle.std.specs.Prelude.{◌≡◌, length};
    ghost use Rattle.rt_search.specs.{Pending.{Waiting}, declared.pending.TheConstants.{MOST}};

    ghost Value = { Waiting };

    ghost view = { λ p. record {
      places = p.places;
      full = p.full;
      scores = p.scores;
    } };

    ghost invariant = { λ p. length p.scores ≡ MOST };
}

impl Pending {
    #[inline(always)]
    pub fn new() -> Pending
        ensures places { result.places ≡ 0 }
        ensures full { result.full ≡ 0 }
    {
        Pending {
            places: 0,
            full: 0,
            scores: [0; MOST],
        }
    }

    /// Keeps the verdict on the child at an index.
    #[inline(always)]
    pub fn keep(&mut self, place: usize, verdict: Verdict, has_scores: bool)
        requires place { place < MOST }
        requires clear { is_among self.old.full place ≡ false }
        requires scores { has_scores ≡ false → verdict.score ≡ 0 }
        ensures { HasKept has_scores place verdict self.old self.new }
    {
        let is_full = verdict.within == Within::Fully;
        // (branchless, so that nothing is left of it if no child reads the state of its parent)
        self.full |= u64::from(is_full) << place;
        if has_scores {
            self.scores[place] = verdict.score;
        }
    }

    /// Puts the child at an index in.
    #[inline(always)]
    pub fn put(&mut self, place: usize)
        requires { place < MOST }
        ensures { HasPut place self.old self.new }
    {
        self.places |= 1 << place;
    }

    /// Takes the first waiting child out: its index, and the verdict on it.
    #[inline(always)]
    pub fn take(&mut self, has_scores: bool) -> Option<(usize, Verdict)>
        ensures taken { MatchOption result ((i : ℕ) → is_among self.old.places i ≡ false)
            (λ r. HasTakenOut has_scores r.0 r.1 self.old self.new) }
        ensures fewer { MatchOption result (self.new ≡ self.old)
            (λ _. self.new.places < self.old.places) }
    {
        if self.places == 0 {
            return None;
        }
        let place = self.places.trailing_zeros();
        self.places &= !(1u64 << place);
        let within = if self.full >> place & 1 == 1 {
            Within::Fully
        } else {
            Within::Partly
        };
        let place = place as usize;
        let score = if has_scores { self.scores[place] } else { 0 };
        Some((place, Verdict { within, score }))
    }
}
