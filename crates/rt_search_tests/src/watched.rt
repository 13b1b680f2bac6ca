//! A geometry that keeps what it is shown.

use rt_geo::{Geometry, Info, Verdict};
use std::cell::Cell;

/// Answers as another geometry, and keeps the greatest x and the level of the first ten boxes that it is shown.
#[derive(Drop)]
pub struct Watched<G: Geometry> {
    geometry: G,
    shown: Cell<[i32; 10]>,
    levels: Cell<[u8; 10]>,
    checks: Cell<usize>,
}

impl<G: Geometry> Watched<G> {
    pub fn new(geometry: G) -> Watched<G> {
        Watched {
            geometry,
            shown: Cell::new([0; 10]),
            levels: Cell::new([0; 10]),
            checks: Cell::new(0),
        }
    }

    /// What it was shown, and 0 for each box that it wasn't.
    pub fn shown(&self) -> [i32; 10] {
        self.shown.get()
    }

    /// The level and the greatest x of the box that it was shown at a place, counted from 0.
    pub fn at(&self, place: usize) -> Option<(u8, i32)> {
        if place >= self.checks.get() {
            return None;
        }
        let max_x = self.shown.get().get(place).copied()?;
        let level = self.levels.get().get(place).copied()?;
        Some((level, max_x))
    }

    /// Which of the boxes it was shown is the first one of a level with a greatest x.
    pub fn place_of(&self, level: u8, max_x: i32) -> Option<usize> {
        let shown = self.shown.get();
        let levels = self.levels.get();
        (0..self.checks.get().min(10)).find(|place| shown[*place] == max_x
            && levels[*place] == level)
    }
}

impl<G: Geometry> Geometry for Watched<G> {
    ghost meaning = { λ w. G.meaning w.geometry };

    fn scores_nodes() -> bool {
        G::scores_nodes()
    }

    fn check(&self, info: &Info) -> Verdict {
        let place = self.checks.get();
        let mut shown = self.shown.get();
        if place < shown.len() {
            shown[place] = info.bounds.max_x();
            self.shown.set(shown);
            let mut levels = self.levels.get();
            levels[place] = info.level;
            self.levels.set(levels);
            self.checks.set(place + 1);
        }
        self.geometry.check(info)
    }

    ghost lawful = { λ w. G.lawful w.geometry };
}
