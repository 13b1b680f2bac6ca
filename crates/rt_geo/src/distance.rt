//! Distances from a point to a box.
//!
//! They are squares of Euclidean distances, exact integers. The greatest,
//! 2 * 4294967295 * 4294967295 = 36893488130239234050, needs 65 bits.

ghost use Rattle.std.specs.Int.{w32, int_max, int_min};
ghost use Rattle.std.specs.Prelude.{◌≡◌, ◌<◌, ◌^◌, ◌-ℤ◌, ◌∷◌, [], ℤ, FitsSigned, unsigned_abs};
ghost use Rattle.rt_geo.specs.Boxes.{IsRect};
ghost use Rattle.rt_geo.specs.Distances.{IsGreatestDistance, IsLeastDistance, far2, gap, near2, reach};

use crate::bounds::{Bounds, maxs, mins};
use std::simd::prelude::*;

/// A point of the plane, in the coordinates of [`Bounds`].
#[derive(Clone, Copy, Debug, PartialEq, Eq, Default)]
pub struct Point {
    pub x: i32,
    pub y: i32,
}

/// The square of the distance from a point to the nearest point of a box; 0 if the box contains the point.
pub fn near2(point: Point, bounds: Bounds) -> u128
    ensures value { result ≡ near2 point bounds }
    ensures nearest { IsLeastDistance point bounds result }
{
    let [gap_x, gap_y] = gaps(point, bounds);
    u128::from(gap_x * gap_x) + u128::from(gap_y * gap_y)
}

/// The square of the distance from a point to the farthest point of a box.
pub fn far2(point: Point, bounds: Bounds) -> u128
    ensures value { result ≡ far2 point bounds }
    ensures farthest { IsGreatestDistance point bounds result }
{
    let reach_x = reach(point.x, bounds.min_x(), bounds.max_x()) as u128;
    let reach_y = reach(point.y, bounds.min_y(), bounds.max_y()) as u128;
    reach_x * reach_x + reach_y * reach_y
}

/// The distances on the x and the y axis from a point to its nearest point in a box.
#[inline(always)]
fn gaps(point: Point, bounds: Bounds) -> [u64; 2]
    ensures value { result
        ≡ gap point.x bounds.min_x bounds.max_x ∷ gap point.y bounds.min_y bounds.max_y ∷ [] }
    ensures valid { IsRect bounds }
    ensures small { (gap point.x bounds.min_x bounds.max_x < 2 ^ 32)
        × (gap point.y bounds.min_y bounds.max_y < 2 ^ 32) }
{
    let point = lanes(point);
    let nearest = lesser_of(greater_of(point, mins(bounds)), maxs(bounds));
    let [from_x, from_y] = differences(point, nearest).to_array();
    [from_x.unsigned_abs(), from_y.unsigned_abs()]
}

#[inline(always)]
fn lanes(point: Point) -> i32x2
    ensures value { result ≡ point.x ∷ point.y ∷ [] }
    ensures x { FitsSigned w32 point.x }
    ensures y { FitsSigned w32 point.y }
{
    i32x2::from_array([point.x, point.y])
}

#[inline(always)]
fn greater_of(a: i32x2, b: i32x2) -> i32x2
    ensures { (x y z w : ℤ) → a ≡ x ∷ y ∷ [] → b ≡ z ∷ w ∷ []
        → result ≡ int_max x z ∷ int_max y w ∷ [] }
{
    a.simd_max(b)
}

#[inline(always)]
fn lesser_of(a: i32x2, b: i32x2) -> i32x2
    ensures { (x y z w : ℤ) → a ≡ x ∷ y ∷ [] → b ≡ z ∷ w ∷ []
        → result ≡ int_min x z ∷ int_min y w ∷ [] }
{
    a.simd_min(b)
}

#[inline(always)]
fn differences(a: i32x2, b: i32x2) -> i64x2
    ensures { (x y z w : ℤ) → a ≡ x ∷ y ∷ [] → b ≡ z ∷ w ∷ []
        → FitsSigned w32 x → FitsSigned w32 y → FitsSigned w32 z → FitsSigned w32 w
        → result ≡ (x -ℤ z) ∷ (y -ℤ w) ∷ [] }
{
    a.cast::<i64>() - b.cast::<i64>()
}

/// The distance from a number to the farther end of a range.
fn reach(value: i32, low: i32, high: i32) -> u32
    ensures { result ≡ reach value low high }
{
    value.abs_diff(low).max(value.abs_diff(high))
}
