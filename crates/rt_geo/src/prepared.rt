//! Convex polygons with short edges, prepared for checks of many boxes.
//!
//! What is the same for all boxes is computed once: the vector of each edge, the distance of its line from the origin, and
//! which corner of a box lies farthest to its left. Products of short edges and coordinates fit in 63 bits.

ghost use Rattle.std.specs.{List.{list_all}, Prelude.{◌≡◌, ◌≢◌, ◌<◌, ◌≤◌, ◌^◌, ◌*ℤ◌, ◌-ℤ◌, IsTrue, not, ◌&&◌, length}};
ghost use Rattle.std.specs.Prelude.{unsigned_abs, is_some, IfSome, count_by};
ghost use Rattle.rt_geo.specs.{Boxes.{IsRect}, HalfPlanes.{half_plane_of, half_planes_of, is_coordinate, is_small}};
ghost use Rattle.rt_geo.specs.HalfPlanes.{is_strictly_left, reaches, sides_of, turned_sides_of};
ghost use Rattle.rt_geo.specs.{Lemmas.Regions.{region-faithful}, Polygons.{HoldsEachPoint, SharesNoPoint, SharesPoint}};
ghost use Rattle.rt_geo.specs.{Polygons.{is_left, path_from}, Regions.{region_accepts, region_state, state_by}};
ghost use Rattle.rt_geo.specs.{ShortEdges.{has_short_edges, is_short}, declared.geometry.Within.TheVariants.{Not, Fully}};
ghost use Rattle.rt_geo.specs.declared.region.Region.TheVariants as region;

use crate::bounds::{Bounds, inside, overlaps};
use crate::distance::Point;
use crate::geometry::{Info, Shape, Within};
use crate::polygon::{Edge, MOST_VERTICES, Polygon, difference, last_vertex, list_of};
use arrayvec::ArrayVec;
use std::marker::Model;

/// An edge is short if it spans less than this on each axis.
const LONG_EDGE_STEPS: u32 = 1 << 31;

/// The half-plane to the left of a short edge: the points (x, y) for which `along_x * y - along_y * x` is at least the
/// offset.
#[derive(Clone, Copy, Debug, Default)]
pub(crate) struct HalfPlane {
    along_x: i32,
    along_y: i32,
    offset: i64,
    /// The indexes of the two sides of a box whose corner lies farthest to the left.
    side_x: u32,
    side_y: u32,
}

/// A [`Polygon`] with short edges: each spans less than 2^31 on each axis. It is checked faster.
#[derive(Debug, Drop)]
pub struct PreparedPolygon {
    vertices: ArrayVec<Point, MOST_VERTICES>,
    bounds: Bounds,
    half_planes: ArrayVec<HalfPlane, MOST_VERTICES>,
}

impl Model for PreparedPolygon {
    ghost use Rattle.std.specs.{List.{list_all}, Prelude.{◌≡◌, IsTrue, List, map}};
    ghost use Rattle.rt_geo.specs.HalfPlanes.{edges_from_last, half_plane_of};
    ghost use Rattle.rt_geo.specs.Polygons.{bounding_box, has_polygon_count, is_strictly_convex};
    ghost use Rattle.rt_geo.specs.{ShortEdges.{has_short_edges}, declared.distance.Point.{Point}};

    ghost Value = { List Point };

    ghost view = { λ p. p.vertices.items };

    ghost invariant = { λ p. record {
      count : IsTrue (has_polygon_count p.vertices.items);
      convex : IsTrue (is_strictly_convex p.vertices.items);
      short : IsTrue (has_short_edges p.vertices.items);
      bounds : p.bounds ≡ bounding_box p.vertices.items;
      half_planes : p.half_planes.items ≡ map half_plane_of (edges_from_last p.vertices.items);
    } };
}

impl Shape for PreparedPolygon {
    ghost accepts = { λ s. region_accepts (region.Polygon s) };

    ghost state = { λ s. region_state (region.Polygon s) };

    fn within(&self, info: &Info) -> Within
        ensures state { result ≡ region_state (region.Polygon self.now) info.now }
        ensures apart { result ≡ Not → SharesNoPoint self.now info.now.bounds }
        ensures whole { result ≡ Fully → HoldsEachPoint self.now info.now.bounds }
        ensures shared { result ≢ Not → SharesPoint self.now info.now.bounds }
    {
        let overlapping = overlaps(info.bounds, self.bounds);
        let lies_inside = inside(info.bounds, self.bounds);
        state_by_half_planes(&self.half_planes, info.bounds, overlapping, lies_inside)
    }

    ghost faithful = { λ s. region-faithful (region.Polygon s) };
}

/// The state of a box, by the half-planes, given whether it overlaps the bounding box and whether it lies inside it.
#[inline(always)]
fn state_by_half_planes(
    half_planes: &[HalfPlane],
    bounds: Bounds,
    overlapping: bool,
    lies_inside: bool,
) -> Within
    requires { IsTrue (list_all is_small half_planes.now) }
    ensures value { result
        ≡ state_by (not (overlapping && list_all (reaches (sides_of bounds)) half_planes.now))
        (lies_inside && list_all (reaches (turned_sides_of bounds)) half_planes.now) }
    ensures valid { IsRect bounds }
{
    // (`&`, so that it is branchless)
    let meets = overlapping & (!overlapping || all_reach(half_planes, &sides(bounds)));
    let holds = lies_inside && all_reach(half_planes, &turned_sides(bounds));
    if !meets {
        Within::Not
    } else if holds {
        Within::Fully
    } else {
        Within::Partly
    }
}

/// Whether for each half-plane the corner that it selects lies in it. All are checked, without a branch: a processor would
/// mispredict which one separates them.
#[inline(always)]
fn all_reach(half_planes: &[HalfPlane], sides: &[i64; 4]) -> bool
    requires small { IsTrue (list_all is_small half_planes.now) }
    requires sides { IsTrue (list_all is_coordinate sides.now) }
    ensures { result ≡ list_all (reaches sides.now) half_planes.now }
{
    let mut all = true;
    for half_plane in half_planes {
        all &= reaches(half_plane, sides);
    }
    all
}

/// Whether the corner that the half-plane selects from these sides lies in it.
fn reaches(half_plane: &HalfPlane, sides: &[i64; 4]) -> bool
    requires small { IsTrue (is_small half_plane.now) }
    requires sides { IsTrue (list_all is_coordinate sides.now) }
    ensures { result ≡ reaches sides.now half_plane.now }
{
    let x = sides[half_plane.side_x as usize];
    let y = sides[half_plane.side_y as usize];
    to_the_left(half_plane.along_x, half_plane.along_y, x, y) >= half_plane.offset
}

/// The sides of a box.
fn sides(bounds: Bounds) -> [i64; 4]
    ensures value { result ≡ sides_of bounds }
    ensures coordinates { IsTrue (list_all is_coordinate result) }
    ensures valid { IsRect bounds }
{
    [
        to_i64(bounds.min_x()),
        to_i64(bounds.max_x()),
        to_i64(bounds.min_y()),
        to_i64(bounds.max_y()),
    ]
}

/// The sides with minimum and maximum exchanged on each axis, so that the opposite corner is selected.
fn turned_sides(bounds: Bounds) -> [i64; 4]
    ensures value { result ≡ turned_sides_of bounds }
    ensures coordinates { IsTrue (list_all is_coordinate result) }
{
    [
        to_i64(bounds.max_x()),
        to_i64(bounds.min_x()),
        to_i64(bounds.max_y()),
        to_i64(bounds.min_y()),
    ]
}

/// The polygon with the half-planes of its edges. `None` if an edge isn't short.
#[inline(always)]
pub(crate) fn prepare(polygon: &Polygon) -> Option<PreparedPolygon>
    ensures when { is_some result ≡ has_short_edges polygon.now }
    ensures value { IfSome result (λ prepared. prepared ≡ polygon.now) }
{
    let vertices = polygon.vertices();
    match half_planes(last_vertex(vertices), vertices) {
        Some(half_planes) => Some(PreparedPolygon {
            vertices: list_of(vertices),
            bounds: polygon.bounds(),
            half_planes,
        }),
        None => None,
    }
}

/// The half-planes of the edges from the first point through the others in their order. `None` if one isn't short.
#[inline(always)]
fn half_planes(first: Point, others: &[Point]) -> Option<ArrayVec<HalfPlane, MOST_VERTICES>>
    requires { length others.now ≤ MOST_VERTICES }
    ensures { result ≡ half_planes_of (path_from first others.now) }
{
    let mut half_planes = ArrayVec::new();
    let mut from = first;
    for to in others {
        let edge = Edge { from, to: *to };
        if !is_short(edge) {
            return None;
        }
        half_planes.push(half_plane(edge));
        from = *to;
    }
    Some(half_planes)
}

/// The number of points strictly to the left of a short edge. Branchless: a processor would mispredict on which side a
/// point lies.
#[inline(always)]
pub(crate) fn left_of_short(edge: Edge, points: &[Point]) -> usize
    requires { IsTrue (is_short edge) }
    ensures { result ≡ count_by (is_left edge) points.now }
{
    let half_plane = half_plane(edge);
    let mut count = 0;
    for point in points {
        count += usize::from(is_strictly_left(&half_plane, *point));
    }
    count
}

/// Whether the point lies in the half-plane, and not on its line.
#[inline(always)]
fn is_strictly_left(half_plane: &HalfPlane, point: Point) -> bool
    requires { IsTrue (is_small half_plane.now) }
    ensures { result ≡ is_strictly_left half_plane.now point }
{
    let x = to_i64(point.x);
    let y = to_i64(point.y);
    to_the_left(half_plane.along_x, half_plane.along_y, x, y) > half_plane.offset
}

/// Whether the edge spans less than 2^31 on each axis.
pub(crate) fn is_short(edge: Edge) -> bool
    ensures { result ≡ is_short edge }
{
    edge.to.x.abs_diff(edge.from.x) < LONG_EDGE_STEPS
        && edge.to.y.abs_diff(edge.from.y) < LONG_EDGE_STEPS
}

/// The half-plane to the left of a short edge.
#[inline(always)]
fn half_plane(edge: Edge) -> HalfPlane
    requires { IsTrue (is_short edge) }
    ensures { result ≡ half_plane_of edge }
{
    let along_x = short_difference(edge.to.x, edge.from.x);
    let along_y = short_difference(edge.to.y, edge.from.y);
    HalfPlane {
        along_x,
        along_y,
        offset: to_the_left(along_x, along_y, to_i64(edge.from.x), to_i64(edge.from.y)),
        side_x: u32::from(along_y < 0),
        side_y: 3 - u32::from(along_x < 0),
    }
}

/// The difference of two coordinates that are less than 2^31 apart.
fn short_difference(left: i32, right: i32) -> i32
    requires { unsigned_abs (left -ℤ right) < 2 ^ 31 }
    ensures { result ≡ left -ℤ right }
{
    difference(left, right) as i32
}

/// A number in 64 bits.
fn to_i64(number: i32) -> i64
    ensures value { result ≡ number }
    ensures size { unsigned_abs result ≤ 2 ^ 31 }
{
    number as i64
}

/// How far (x, y) lies to the left of the line from the origin along an edge, times the length of the edge.
fn to_the_left(along_x: i32, along_y: i32, x: i64, y: i64) -> i64
    requires along_x { unsigned_abs along_x < 2 ^ 31 }
    requires along_y { unsigned_abs along_y < 2 ^ 31 }
    requires x { unsigned_abs x ≤ 2 ^ 31 }
    requires y { unsigned_abs y ≤ 2 ^ 31 }
    ensures { result ≡ along_x *ℤ y -ℤ along_y *ℤ x }
{
    short_product(to_i64(along_x), y) - short_product(to_i64(along_y), x)
}

/// The product of a short difference and a coordinate, of up to 63 bits.
fn short_product(along: i64, coordinate: i64) -> i64
    requires along { unsigned_abs along < 2 ^ 31 }
    requires coordinate { unsigned_abs coordinate ≤ 2 ^ 31 }
    ensures value { result ≡ along *ℤ coordinate }
    ensures size { unsigned_abs result < 2 ^ 62 }
{
    along * coordinate
}
