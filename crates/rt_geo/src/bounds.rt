//! Boxes of 32-bit coordinates.

ghost use Rattle.std.specs.{Option.{SomeIff}, Prelude.{◌≡◌, ◌∷◌, [], IsTrue}};
ghost use Rattle.rt_geo.specs.Boxes.{IsLeastAround, IsRect, rect_of, plane, area, complement, hull, inside, overlaps};
ghost use Rattle.rt_geo.specs.Distances.{rect_at};

use crate::distance::Point;
use std::marker::Model;
use std::simd::prelude::*;

// A mask of all bits in the last two lanes, those of the maximums.
const MAXIMUM_LANES: [i32; 4] = [0, 0, -1, -1];

/// A closed box: a minimum and a maximum on each axis, each minimum at most its maximum.
///
/// The sides are those of SQLite's `rtree_i32` tables. The minimums are adjacent in memory, and so are the maximums, so
/// that one vector operation handles both axes.
#[derive(Clone, Copy, Debug, PartialEq, Eq)]
pub struct Bounds {
    min_x: i32,
    min_y: i32,
    max_x: i32,
    max_y: i32,
}

impl Model for Bounds {
    ghost use Rattle.std.specs.Prelude.{◌≡◌, IsTrue};
    ghost use Rattle.rt_geo.specs.Boxes.{IsRect, Rect, inside, plane, rect_of};

    ghost Value = { Rect };

    ghost view = { λ b. rect_of b.min_x b.max_x b.min_y b.max_y };

    ghost invariant = { λ b. record {
      box : IsRect (rect_of b.min_x b.max_x b.min_y b.max_y);
      coordinates : IsTrue (inside (rect_of b.min_x b.max_x b.min_y b.max_y) plane);
    } };

    ghost inverse = { λ r.
        record { min_x = r.min_x; max_x = r.max_x; min_y = r.min_y; max_y = r.max_y } };
}

impl Bounds {
    /// The box with these sides. `None` if and only if a minimum is above its maximum.
    pub fn new(min_x: i32, max_x: i32, min_y: i32, max_y: i32) -> Option<Bounds>
        ensures { SomeIff result (IsRect (rect_of min_x max_x min_y max_y))
            (rect_of min_x max_x min_y max_y) }
    {
        if min_x <= max_x && min_y <= max_y {
            Some(Bounds {
                min_x,
                max_x,
                min_y,
                max_y,
            })
        } else {
            None
        }
    }

    /// The box that is a single point.
    pub(crate) fn of_point(point: Point) -> Bounds
        ensures { result ≡ rect_at point }
    {
        Bounds {
            min_x: point.x,
            max_x: point.x,
            min_y: point.y,
            max_y: point.y,
        }
    }

    /// The lowest x of its points.
    pub fn min_x(&self) -> i32
        ensures value { result ≡ self.now.min_x }
        ensures valid { IsRect self.now }
        ensures coordinates { IsTrue (inside self.now plane) }
    {
        self.min_x
    }

    /// The highest x of its points.
    pub fn max_x(&self) -> i32
        ensures value { result ≡ self.now.max_x }
        ensures valid { IsRect self.now }
        ensures coordinates { IsTrue (inside self.now plane) }
    {
        self.max_x
    }

    /// The lowest y of its points.
    pub fn min_y(&self) -> i32
        ensures value { result ≡ self.now.min_y }
        ensures valid { IsRect self.now }
        ensures coordinates { IsTrue (inside self.now plane) }
    {
        self.min_y
    }

    /// The highest y of its points.
    pub fn max_y(&self) -> i32
        ensures value { result ≡ self.now.max_y }
        ensures valid { IsRect self.now }
        ensures coordinates { IsTrue (inside self.now plane) }
    {
        self.max_y
    }
}

/// Whether two boxes share a point. Boxes that touch share one.
pub fn overlaps(a: Bounds, b: Bounds) -> bool
    ensures value { result ≡ overlaps a b }
    ensures valid { IsRect a × IsRect b }
{
    !ends(a).simd_gt(facing_ends(b)).any()
}

/// Whether the box `a` lies in `b`. Sides may be equal.
pub fn inside(a: Bounds, b: Bounds) -> bool
    ensures { result ≡ inside a b }
{
    !ends(b).simd_gt(ends(a)).any()
}

// The sides as four numbers that are lower the farther the box extends to the left, down, to the right and up: the maximums
// have all bits flipped. So one vector comparison compares two boxes.
#[inline(always)]
fn ends(bounds: Bounds) -> i32x4
    ensures value { result
        ≡ bounds.min_x ∷ bounds.min_y ∷ complement bounds.max_x ∷ complement bounds.max_y ∷ [] }
    ensures valid { IsRect bounds }
    ensures coordinates { IsTrue (inside bounds plane) }
{
    sides(bounds) ^ i32x4::from_array(MAXIMUM_LANES)
}

// The sides, in the same form, that another box needs at most to touch this one.
#[inline(always)]
fn facing_ends(bounds: Bounds) -> i32x4
    ensures value { result
        ≡ bounds.max_x ∷ bounds.max_y ∷ complement bounds.min_x ∷ complement bounds.min_y ∷ [] }
    ensures valid { IsRect bounds }
    ensures coordinates { IsTrue (inside bounds plane) }
{
    sides(bounds).swizzle([2, 3, 0, 1]) ^ i32x4::from_array(MAXIMUM_LANES)
}

#[inline(always)]
fn sides(bounds: Bounds) -> i32x4
    ensures value { result ≡ bounds.min_x ∷ bounds.min_y ∷ bounds.max_x ∷ bounds.max_y ∷ [] }
    ensures valid { IsRect bounds }
    ensures coordinates { IsTrue (inside bounds plane) }
{
    i32x4::from_array([bounds.min_x, bounds.min_y, bounds.max_x, bounds.max_y])
}

/// The lower left corner.
#[inline(always)]
pub(crate) fn mins(bounds: Bounds) -> i32x2
    ensures value { result ≡ bounds.min_x ∷ bounds.min_y ∷ [] }
    ensures valid { IsRect bounds }
    ensures coordinates { IsTrue (inside bounds plane) }
{
    sides(bounds).swizzle([0, 1])
}

/// The upper right corner.
#[inline(always)]
pub(crate) fn maxs(bounds: Bounds) -> i32x2
    ensures value { result ≡ bounds.max_x ∷ bounds.max_y ∷ [] }
{
    sides(bounds).swizzle([2, 3])
}

/// The smallest box that contains both boxes.
pub fn hull(a: Bounds, b: Bounds) -> Bounds
    ensures value { result ≡ hull a b }
    ensures least { IsLeastAround a b result }
    ensures valid { IsRect result }
    ensures coordinates { IsTrue (inside result plane) }
{
    Bounds {
        min_x: a.min_x.min(b.min_x),
        max_x: a.max_x.max(b.max_x),
        min_y: a.min_y.min(b.min_y),
        max_y: a.max_y.max(b.max_y),
    }
}

/// The area of a box.
pub(crate) fn area(bounds: Bounds) -> u128
    ensures { result ≡ area bounds }
{
    let width = bounds.max_x.abs_diff(bounds.min_x) as u128;
    let height = bounds.max_y.abs_diff(bounds.min_y) as u128;
    width * height
}
