//! A geometry that counts its own checks, whoever makes them.

use rt_geo::{Geometry, Info, Verdict};
use std::cell::Cell;

/// Answers as another geometry, and keeps the number of its checks and the level of the last.
#[derive(Drop)]
pub struct Watched<G: Geometry> {
    geometry: G,
    checks: Cell<u64>,
    last_level: Cell<u8>,
}

impl<G: Geometry> Watched<G> {
    pub fn new(geometry: G) -> Watched<G> {
        Watched {
            geometry,
            checks: Cell::new(0),
            last_level: Cell::new(0),
        }
    }

    pub fn checks(&self) -> u64 {
        self.checks.get()
    }

    /// The level of its last check.
    pub fn last_level(&self) -> u8 {
        self.last_level.get()
    }
}

impl<G: Geometry> Geometry for Watched<G> {
    ghost meaning = { λ w. G.meaning w.geometry };

    fn scores_nodes() -> bool {
        G::scores_nodes()
    }

    fn check(&self, info: &Info) -> Verdict {
        self.checks.set(self.checks.get().wrapping_add(1));
        self.last_level.set(info.level);
        self.geometry.check(info)
    }

    ghost lawful = { λ w. G.lawful w.geometry };
}
