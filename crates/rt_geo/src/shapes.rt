//! The shapes that a query knows: which boxes it accepts.
//!
//! `specs/Regions.antt` has the tables of what they accept and of their states. No state depends on the parent's.

ghost use Rattle.std.specs.Prelude.{◌≡◌};
ghost use Rattle.rt_geo.specs.{Lemmas.Regions.{region-faithful}, Regions.{region_accepts, region_state}};
ghost use Rattle.rt_geo.specs.declared.region.Region.TheVariants as region;

use crate::bounds::{Bounds, inside, overlaps};
use crate::distance::{Point, far2, near2};
use crate::geometry::{Info, Shape, Within};

/// Accepts every box.
#[derive(Clone, Copy, Debug, PartialEq, Eq)]
pub struct All;

/// Accepts the boxes that overlap a window. Touching counts.
#[derive(Clone, Copy, Debug, PartialEq, Eq)]
pub struct Window(pub Bounds);

/// Accepts the boxes that lie inside a window. Sides may be equal.
#[derive(Clone, Copy, Debug, PartialEq, Eq)]
pub struct Inside(pub Bounds);

/// Accepts the boxes that contain a window. Sides may be equal.
#[derive(Clone, Copy, Debug, PartialEq, Eq)]
pub struct Covers(pub Bounds);

/// Accepts the boxes that share a point with a disc, its boundary included.
#[derive(Clone, Copy, Debug, PartialEq, Eq)]
pub struct Circle {
    /// The centre of the disc.
    pub centre: Point,
    /// The radius of the disc.
    pub radius: u32,
}

/// A borrowed shape returns what the shape returns.
impl<S: Shape> Shape for &S {
    ghost accepts = { λ s. S.accepts s.now };

    ghost state = { λ s. S.state s.now };

    fn within(&self, info: &Info) -> Within {
        (**self).within(info)
    }

    ghost faithful = { λ s. S.faithful s.now };
}

impl Shape for All {
    ghost accepts = { λ s. region_accepts (region.All s) };

    ghost state = { λ s. region_state (region.All s) };

    fn within(&self, _info: &Info) -> Within {
        Within::Fully
    }

    ghost faithful = { λ s. region-faithful (region.All s) };
}

impl Shape for Window {
    ghost accepts = { λ s. region_accepts (region.Window s) };

    ghost state = { λ s. region_state (region.Window s) };

    fn within(&self, info: &Info) -> Within {
        if !overlaps(info.bounds, self.0) {
            Within::Not
        } else if inside(info.bounds, self.0) {
            Within::Fully
        } else {
            Within::Partly
        }
    }

    ghost faithful = { λ s. region-faithful (region.Window s) };
}

impl Shape for Inside {
    ghost accepts = { λ s. region_accepts (region.Inside s) };

    ghost state = { λ s. region_state (region.Inside s) };

    fn within(&self, info: &Info) -> Within {
        // A node that only overlaps the window may hold boxes that lie inside it.
        let is_kept = if info.level > 0 {
            overlaps(info.bounds, self.0)
        } else {
            inside(info.bounds, self.0)
        };
        if !is_kept {
            Within::Not
        } else if inside(info.bounds, self.0) {
            Within::Fully
        } else {
            Within::Partly
        }
    }

    ghost faithful = { λ s. region-faithful (region.Inside s) };
}

impl Shape for Covers {
    ghost accepts = { λ s. region_accepts (region.Covers s) };

    ghost state = { λ s. region_state (region.Covers s) };

    fn within(&self, info: &Info) -> Within {
        // A node that contains the window may hold boxes that don't.
        if inside(self.0, info.bounds) {
            Within::Partly
        } else {
            Within::Not
        }
    }

    ghost faithful = { λ s. region-faithful (region.Covers s) };
}

impl Shape for Circle {
    ghost accepts = { λ s. region_accepts (region.Circle s) };

    ghost state = { λ s. region_state (region.Circle s) };

    fn within(&self, info: &Info) -> Within {
        let radius = self.radius as u128;
        if near2(self.centre, info.bounds) > radius * radius {
            Within::Not
        } else if far2(self.centre, info.bounds) <= radius * radius {
            Within::Fully
        } else {
            Within::Partly
        }
    }

    ghost faithful = { λ s. region-faithful (region.Circle s) };
}
