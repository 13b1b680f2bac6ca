//! A geometry that counts its checks.

ghost use Rattle.std.specs.Prelude.{◌≡◌, ◌+◌, ◌-◌, ◌^◌, ◌<◌};
ghost use Rattle.rt_geo.specs.Laws.{IsHonest, ShowsLayers};

use crate::geometry::{Geometry, Info, Verdict};
use std::marker::Model;

/// A borrowed geometry and the number of its checks. A search checks a geometry through it alone.
///
/// It can't be cloned, no call returns the geometry, and a value that was moved out of can't check any more. So the number
/// counts all checks that were made through it.
pub struct Counted<'a, G: Geometry> {
    geometry: &'a G,
    asked: u64,
}

impl<'a, G: Geometry> Model for Counted<'a, G> {
    ghost use Rattle.rt_geo.specs.Counted.{Tally};

    ghost Value = { Tally G };

    ghost view = { λ c. record { geometry = c.geometry.now; asked = c.asked } };
}

impl<'a, G: Geometry> Drop for Counted<'a, G> {
    fn drop(self) {
        let Counted {
            geometry: _,
            asked: _,
        } = self;
    }
}

impl<'a, G: Geometry> Counted<'a, G> {
    /// The geometry, with no check made yet.
    pub fn new(geometry: &'a G) -> Counted<'a, G>
        ensures geometry { result.geometry ≡ geometry.now }
        ensures asked { result.asked ≡ 0 }
    {
        Counted { geometry, asked: 0 }
    }

    /// The geometry's verdict. Raises the number of checks by one; it has to be below [`u64::MAX`] before.
    pub fn check(&mut self, info: &Info) -> Verdict
        requires honest { IsHonest (G.meaning self.old.geometry).accepts info.now }
        requires layers { ShowsLayers info.now }
        requires count { self.old.asked < 2 ^ 64 - 1 }
        ensures verdict { result ≡ (G.meaning self.old.geometry).verdict info.now }
        ensures geometry { self.new.geometry ≡ self.old.geometry }
        ensures asked { self.new.asked ≡ self.old.asked + 1 }
    {
        self.asked += 1;
        self.geometry.check(info)
    }

    /// Moves it out. What is left can't check until it is assigned again.
    pub fn take(&mut self) -> Counted<'a, G>
        ensures geometry { result.geometry ≡ self.old.geometry }
        ensures asked { result.asked ≡ self.old.asked }
        ensures left { self.new.geometry ≡ self.old.geometry }
        ensures full { self.new.asked ≡ 2 ^ 64 - 1 }
    {
        let asked = self.asked;
        self.asked = u64::MAX;
        let geometry = self.geometry;
        Counted { geometry, asked }
    }

    /// The number of checks made.
    pub fn asked(&self) -> u64
        ensures { result ≡ self.now.asked }
    {
        self.asked
    }
}
