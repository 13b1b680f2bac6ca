//! Convex polygons, by the separating axis test.
//!
//! A box is accepted if no axis separates it from the polygon (`specs/Polygons.antt`). By the definition that is a test of
//! the four corners of the box for each edge. One corner is enough: the one farthest to the left of the edge decides
//! whether the box overlaps the half-plane of the edge, and the opposite one whether it lies in it.

ghost use Rattle.std.specs.{List.{list_all}, Prelude.{◌≡◌, ◌≢◌, ◌<◌, ◌≤◌, ◌^◌, ◌-◌, IsTrue, not, ◌&&◌, IfSome, is_some}};
ghost use Rattle.std.specs.Prelude.{◌-ℤ◌, ◌*ℤ◌, unsigned_abs, ◌∷◌, length, slice_index_or, count_by};
ghost use Rattle.rt_geo.specs.{Boxes.{IsRect}, Lemmas.HalfPlanes.{corner, leftmost_corner, rightmost_corner}};
ghost use Rattle.rt_geo.specs.{Lemmas.Regions.{region-faithful}, Polygons.{HoldsEachPoint, IsPolygonOf, IsStrictlyConvex}};
ghost use Rattle.rt_geo.specs.Polygons.{SharesNoPoint, SharesPoint, bounding_box, cross, edges, has_polygon_count};
ghost use Rattle.rt_geo.specs.Polygons.{is_left, is_strictly_convex, lies_in_half_plane, meets_half_plane, polygon_of};
ghost use Rattle.rt_geo.specs.{Regions.{region_accepts, region_state, state_by}, ShortEdges.{has_short_edges}};
ghost use Rattle.rt_geo.specs.declared.geometry.Within.TheVariants.{Not, Fully};
ghost use Rattle.rt_geo.specs.declared.region.Region.TheVariants as region;

use crate::bounds::{Bounds, hull, inside, overlaps};
use crate::distance::Point;
use crate::geometry::{Info, Shape, Within};
use crate::prepared::{PreparedPolygon, is_short, left_of_short, prepare};
use arrayvec::ArrayVec;
use std::marker::Model;

/// The fewest vertices of a polygon.
pub const FEWEST_VERTICES: usize = 3;

/// The most vertices of a polygon.
pub const MOST_VERTICES: usize = 16;

/// Why a list of vertices is rejected.
#[derive(Clone, Copy, Debug, PartialEq, Eq)]
pub enum PolygonFault {
    /// There are not 3 to 16 vertices.
    Count,
    /// The vertices, in their order, aren't those of a strictly convex polygon, neither counterclockwise nor clockwise.
    NotConvex,
}

/// Accepts the boxes that overlap a strictly convex polygon of 3 to 16 vertices, its edges included.
///
/// These are the boxes that no axis separates from it. A box that is dropped shares no point with the polygon, not even one
/// with fractional coordinates, and each other box shares one: these are clauses of `within`.
#[derive(Debug, Drop)]
pub struct Polygon {
    vertices: ArrayVec<Point, MOST_VERTICES>,
    bounds: Bounds,
}

impl Model for Polygon {
    ghost use Rattle.std.specs.Prelude.{◌≡◌, IsTrue, List};
    ghost use Rattle.rt_geo.specs.Polygons.{bounding_box, has_polygon_count, is_strictly_convex};
    ghost use Rattle.rt_geo.specs.declared.distance.Point.{Point};

    ghost Value = { List Point };

    ghost view = { λ p. p.vertices.items };

    ghost invariant = { λ p. record {
      count : IsTrue (has_polygon_count p.vertices.items);
      convex : IsTrue (is_strictly_convex p.vertices.items);
      bounds : p.bounds ≡ bounding_box p.vertices.items;
    } };
}

/// Polygons are equal if their lists of vertices are, each from its first vertex on.
impl PartialEq for Polygon {
    ghost use Rattle.std.specs.{Cmp.Lexicographic.{pointwise}, Cmp.Rules.{comparing}};
    ghost use Rattle.std.specs.Ordering.{eq_of_both, int_eq, on};
    ghost use Rattle.std.proofs.Common.{rules};

    ghost eq = { pointwise (eq_of_both (on (λ p. p.x) int_eq) (on (λ p. p.y) int_eq)) };

    ghost laws = { Prim.search (comparing, rules) };

    fn eq(&self, other: &Polygon) -> bool {
        self.vertices == other.vertices
    }
}

impl Eq for Polygon {
    ghost use Rattle.std.specs.Cmp.Rules.{comparing};
    ghost use Rattle.std.proofs.Common.{rules};

    ghost laws = { Prim.search (comparing, rules) };
}

impl Polygon {
    /// The polygon with these vertices, counterclockwise or clockwise.
    ///
    /// [`PolygonFault::Count`] if there are not 3 to 16 of them, [`PolygonFault::NotConvex`] if there are and they aren't
    /// strictly convex either way round, for example if three are in line.
    #[inline(always)]
    pub fn new(points: &[Point]) -> Result<Polygon, PolygonFault>
        ensures value { result ≡ polygon_of points.now }
        ensures polygon { IsPolygonOf points.now result }
    {
        if points.len() < FEWEST_VERTICES || points.len() > MOST_VERTICES {
            return Err(PolygonFault::Count);
        }
        if is_strictly_convex(points) {
            return Ok(of_convex(points));
        }
        // (a slice of an array, so that the compiler knows its greatest length)
        let mut buffer = [points[0]; MOST_VERTICES];
        let reversed = &mut buffer[..points.len()];
        reversed.copy_from_slice(points);
        reversed.reverse();
        if is_strictly_convex(reversed) {
            return Ok(of_convex(reversed));
        }
        Err(PolygonFault::NotConvex)
    }

    /// The same polygon, prepared for checks of many boxes, if each edge spans less than 2^31 on each axis; otherwise
    /// `None`.
    #[inline(always)]
    pub fn prepare(&self) -> Option<PreparedPolygon>
        ensures when { is_some result ≡ has_short_edges self.now }
        ensures value { IfSome result (λ prepared. prepared ≡ self.now) }
    {
        prepare(self)
    }

    /// The vertices, counterclockwise.
    pub(crate) fn vertices(&self) -> &[Point]
        ensures value { result.now ≡ self.now }
        ensures count { IsTrue (has_polygon_count result.now) }
        ensures convex { IsTrue (is_strictly_convex result.now) }
    {
        &self.vertices
    }

    /// The bounding box of the vertices.
    pub(crate) fn bounds(&self) -> Bounds
        ensures { result ≡ bounding_box self.now }
    {
        self.bounds
    }
}

impl Shape for Polygon {
    ghost accepts = { λ s. region_accepts (region.Polygon s) };

    ghost state = { λ s. region_state (region.Polygon s) };

    // Out of line: inlined into the match over regions, which runs for each box, it made all other regions slower.
    #[inline(never)]
    fn within(&self, info: &Info) -> Within
        ensures state { result ≡ region_state (region.Polygon self.now) info.now }
        ensures apart { result ≡ Not → SharesNoPoint self.now info.now.bounds }
        ensures whole { result ≡ Fully → HoldsEachPoint self.now info.now.bounds }
        ensures shared { result ≢ Not → SharesPoint self.now info.now.bounds }
    {
        if !overlaps(info.bounds, self.bounds) {
            return Within::Not;
        }
        let lies_inside = inside(info.bounds, self.bounds);
        state_by_edges(&self.vertices, info.bounds, lies_inside)
    }

    ghost faithful = { λ s. region-faithful (region.Polygon s) };
}

/// The line from one vertex to the next.
#[derive(Clone, Copy)]
pub(crate) struct Edge {
    pub(crate) from: Point,
    pub(crate) to: Point,
}

/// The state of a box that overlaps the bounding box, by the edges, given whether it lies inside the bounding box.
fn state_by_edges(vertices: &[Point], bounds: Bounds, lies_inside: bool) -> Within
    requires { 1 ≤ length vertices.now }
    ensures { result ≡ state_by (not (list_all (meets_half_plane bounds) (edges vertices.now)))
        (lies_inside && list_all (lies_in_half_plane bounds) (edges vertices.now)) }
{
    let mut holds = lies_inside;
    let mut from = last_vertex(vertices);
    for to in vertices {
        let edge = Edge { from, to: *to };
        if !meets_half_plane(edge, bounds) {
            return Within::Not;
        }
        holds = holds && lies_in_half_plane(edge, bounds);
        from = *to;
    }
    if holds { Within::Fully } else { Within::Partly }
}

/// The last vertex, at which the edge to the first one begins.
pub(crate) fn last_vertex(vertices: &[Point]) -> Point
    requires { 1 ≤ length vertices.now }
    ensures { result ≡ slice_index_or vertices.now (length vertices.now - 1) result }
{
    vertices[vertices.len() - 1]
}

/// Whether the box overlaps the half-plane to the left of the edge.
fn meets_half_plane(edge: Edge, bounds: Bounds) -> bool
    ensures { result ≡ meets_half_plane bounds edge }
{
    cross(edge, leftmost_corner(edge, bounds)) >= 0
}

/// Whether the box lies in the half-plane to the left of the edge.
fn lies_in_half_plane(edge: Edge, bounds: Bounds) -> bool
    ensures { result ≡ lies_in_half_plane bounds edge }
{
    cross(edge, rightmost_corner(edge, bounds)) >= 0
}

/// The corner of the box that lies farthest to the left of the edge.
fn leftmost_corner(edge: Edge, bounds: Bounds) -> Point
    ensures value { result ≡ leftmost_corner edge bounds }
    ensures valid { IsRect bounds }
{
    corner(bounds, edge.to.y < edge.from.y, edge.to.x < edge.from.x)
}

/// The corner of the box that lies farthest to the right of the edge: the opposite one.
fn rightmost_corner(edge: Edge, bounds: Bounds) -> Point
    ensures value { result ≡ rightmost_corner edge bounds }
    ensures valid { IsRect bounds }
{
    corner(bounds, edge.to.y >= edge.from.y, edge.to.x >= edge.from.x)
}

/// A corner of the box: right or left, low or high.
fn corner(bounds: Bounds, right: bool, low: bool) -> Point
    ensures value { result ≡ corner right low bounds }
    ensures valid { IsRect bounds }
{
    let x = if right {
        bounds.max_x()
    } else {
        bounds.min_x()
    };
    let y = if low { bounds.min_y() } else { bounds.max_y() };
    Point { x, y }
}

/// How far a point lies to the left of the edge, times the length of the edge: a number of up to 66 bits.
fn cross(edge: Edge, p: Point) -> i128
    ensures { result ≡ cross edge p }
{
    let along_x = difference(edge.to.x, edge.from.x);
    let along_y = difference(edge.to.y, edge.from.y);
    let to_x = difference(p.x, edge.from.x);
    let to_y = difference(p.y, edge.from.y);
    product(along_x, to_y) - product(along_y, to_x)
}

/// The difference of two coordinates, of up to 33 bits.
pub(crate) fn difference(left: i32, right: i32) -> i64
    ensures value { result ≡ left -ℤ right }
    ensures size { unsigned_abs result < 2 ^ 32 }
{
    left as i64 - right as i64
}

/// The product of two differences, of up to 65 bits.
fn product(left: i64, right: i64) -> i128
    requires left_size { unsigned_abs left < 2 ^ 32 }
    requires right_size { unsigned_abs right < 2 ^ 32 }
    ensures value { result ≡ left *ℤ right }
    ensures size { unsigned_abs result ≤ 2 ^ 64 }
{
    left as i128 * right as i128
}

/// Whether for each edge all other vertices lie strictly to its left.
fn is_strictly_convex(vertices: &[Point]) -> bool
    requires { 1 ≤ length vertices.now }
    ensures { result ≡ is_strictly_convex vertices.now }
{
    let mut from = last_vertex(vertices);
    for to in vertices {
        let edge = Edge { from, to: *to };
        if left_of(edge, vertices) + 2 != vertices.len() {
            return false;
        }
        from = *to;
    }
    true
}

/// The number of points strictly to the left of the edge.
fn left_of(edge: Edge, points: &[Point]) -> usize
    ensures { result ≡ count_by (is_left edge) points.now }
{
    if is_short(edge) {
        return left_of_short(edge, points);
    }
    points
        .iter()
        .filter(|point| cross(edge, **point) > 0)
        .count()
}

/// The polygon with these vertices.
#[inline(always)]
fn of_convex(points: &[Point]) -> Polygon
    requires count { IsTrue (has_polygon_count points.now) }
    requires convex { IsTrue (is_strictly_convex points.now) }
    ensures value { result ≡ points.now }
    ensures convex { IsStrictlyConvex result }
{
    Polygon {
        vertices: list_of(points),
        bounds: bounding_box(points),
    }
}

/// A list of these points.
#[inline(always)]
pub(crate) fn list_of(points: &[Point]) -> ArrayVec<Point, MOST_VERTICES>
    requires { length points.now ≤ MOST_VERTICES }
    ensures { result.items ≡ points.now }
{
    let mut list = ArrayVec::new();
    let _fits = list.try_extend_from_slice(points);
    list
}

/// The bounding box of the points.
fn bounding_box(points: &[Point]) -> Bounds
    requires { 1 ≤ length points.now }
    ensures { result ≡ bounding_box points.now }
{
    hull_around(points[0], &points[1..])
}

/// The bounding box of the first point and the others.
fn hull_around(first: Point, others: &[Point]) -> Bounds
    ensures { result ≡ bounding_box (first ∷ others.now) }
{
    let mut whole = Bounds::of_point(first);
    for point in others {
        whole = hull(whole, Bounds::of_point(*point));
    }
    whole
}
