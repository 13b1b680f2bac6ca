//! Polygons that were worked out by hand.

use crate::checks::{Sides, expect_state, expect_states};
use crate::expect::expect_eq;
use rt_geo::{Point, Polygon, PolygonFault, PreparedPolygon, Region, Within};
use std::process::Abort;

fn at(x: i32, y: i32) -> Point {
    Point { x, y }
}

fn polygon(rt: &impl Abort, points: &[Point]) -> Polygon {
    Polygon::new(points).expect(rt, "the points are those of a convex polygon")
}

/// Why the points are those of no polygon, if they are none.
fn fault_of(points: &[Point]) -> Option<PolygonFault> {
    Polygon::new(points).err()
}

fn triangle() -> [Point; 3] {
    [at(0, 0), at(30, 0), at(0, 30)]
}

/// Points of a parabola, which are in convex position.
fn parabola() -> [Point; 17] {
    [
        at(0, 0),
        at(1, 1),
        at(2, 4),
        at(3, 9),
        at(4, 16),
        at(5, 25),
        at(6, 36),
        at(7, 49),
        at(8, 64),
        at(9, 81),
        at(10, 100),
        at(11, 121),
        at(12, 144),
        at(13, 169),
        at(14, 196),
        at(15, 225),
        at(16, 256),
    ]
}

fn prepared_polygon(rt: &impl Abort, polygon: &Polygon) -> PreparedPolygon {
    polygon.prepare().expect(rt, "the edges are short")
}

#[test]
fn a_polygon_has_3_to_16_vertices(rt: HostRuntime) {
    expect_eq(&rt, fault_of(&parabola()), Some(PolygonFault::Count));
    expect_eq(
        &rt,
        fault_of(&[at(0, 0), at(1, 1)]),
        Some(PolygonFault::Count),
    );
    expect_eq(&rt, fault_of(&[]), Some(PolygonFault::Count));
    expect_eq(&rt, fault_of(&triangle()), None);
}

#[test]
fn a_polygon_of_16_vertices_answers(rt: HostRuntime) {
    let points = parabola();
    let widest = polygon(&rt, &points[..16]);
    expect_state(&rt, &widest, [15, 15, 225, 225], 0, Within::Fully);
    expect_state(&rt, &widest, [0, 0, 1, 1], 0, Within::Not);
}

#[test]
fn a_polygon_is_strictly_convex(rt: HostRuntime) {
    let in_line = [at(0, 0), at(5, 5), at(10, 10)];
    expect_eq(&rt, fault_of(&in_line), Some(PolygonFault::NotConvex));

    let flat_corner = [at(0, 0), at(5, 0), at(10, 0), at(0, 10)];
    expect_eq(&rt, fault_of(&flat_corner), Some(PolygonFault::NotConvex));

    let star = [at(0, 3), at(2, -3), at(-3, 1), at(3, 1), at(-2, -3)];
    expect_eq(&rt, fault_of(&star), Some(PolygonFault::NotConvex));

    let twice = [
        at(0, 0),
        at(30, 0),
        at(0, 30),
        at(0, 0),
        at(30, 0),
        at(0, 30),
    ];
    expect_eq(&rt, fault_of(&twice), Some(PolygonFault::NotConvex));
}

#[test]
fn a_clockwise_list_is_taken_reversed(rt: HostRuntime) {
    let square = [at(0, 0), at(10, 0), at(10, 10), at(0, 10)];
    let reverse = [at(0, 10), at(10, 10), at(10, 0), at(0, 0)];
    assert!(rt; Polygon::new(&square).is_ok());
    expect_eq(&rt, Polygon::new(&reverse), Polygon::new(&square));
}

// Boxes of entries, and the state that the triangle answers for each.
static ENTRIES: [(Sides, Within); 5] = [
    ([0, 10, 0, 10], Within::Fully),
    ([5, 15, 5, 15], Within::Fully),
    ([20, 30, 0, 10], Within::Partly),
    ([-5, -1, -5, -1], Within::Not),
    ([12, 12, 12, 12], Within::Fully),
];

#[test]
fn a_triangle_tells_five_boxes(rt: HostRuntime) {
    let clockwise = [at(0, 0), at(0, 30), at(30, 0)];
    expect_states(&rt, &polygon(&rt, &triangle()), 0, &ENTRIES);
    expect_states(&rt, &polygon(&rt, &clockwise), 0, &ENTRIES);
}

// The same of nodes, for which an edge decides.
static NODES: [(Sides, Within); 5] = [
    ([25, 30, 25, 30], Within::Not),
    ([15, 30, 15, 30], Within::Partly),
    ([0, 10, 0, 20], Within::Fully),
    ([0, 10, 0, 21], Within::Partly),
    ([-1, 10, 0, 20], Within::Partly),
];

#[test]
fn an_edge_decides_where_the_bounding_box_does_not(rt: HostRuntime) {
    expect_states(&rt, &polygon(&rt, &triangle()), 1, &NODES);
}

const LOW: i32 = i32::MIN;

const HIGH: i32 = i32::MAX;

// The same of half of the plane.
static OF_HALF: [(Sides, Within); 6] = [
    ([20, 30, 0, 10], Within::Fully),
    ([-5, -1, -5, -1], Within::Partly),
    ([LOW, HIGH, LOW, HIGH], Within::Partly),
    ([LOW, LOW, LOW, LOW], Within::Fully),
    ([LOW, LOW, HIGH, HIGH], Within::Not),
    ([LOW, HIGH - 1, HIGH, HIGH], Within::Not),
];

#[test]
fn a_polygon_reaches_the_ends_of_the_plane(rt: HostRuntime) {
    let half = [at(LOW, LOW), at(HIGH, LOW), at(HIGH, HIGH)];
    expect_states(&rt, &polygon(&rt, &half), 0, &OF_HALF);
}

#[test]
fn a_region_may_be_a_polygon(rt: HostRuntime) {
    let region = Region::Polygon(polygon(&rt, &triangle()));
    expect_state(&rt, &region, [5, 15, 5, 15], 0, Within::Fully);
    expect_state(&rt, &region, [25, 25, 30, 30], 0, Within::Not);
}

#[test]
fn a_prepared_polygon_tells_what_the_polygon_tells(rt: HostRuntime) {
    let triangle = polygon(&rt, &triangle());
    let prepared = prepared_polygon(&rt, &triangle);
    expect_states(&rt, &prepared, 1, &ENTRIES);
    expect_states(&rt, &prepared, 1, &NODES);
}

// The same of the corner of the plane that has its least coordinates.
static OF_CORNER: [(Sides, Within); 6] = [
    ([-30, -20, -50, -40], Within::Fully),
    ([LOW, HIGH, LOW, HIGH], Within::Partly),
    ([LOW, LOW, LOW, LOW], Within::Fully),
    ([LOW, LOW, -1, HIGH], Within::Not),
    ([LOW, -2, -1, HIGH], Within::Not),
    ([LOW, -1, -1, HIGH], Within::Partly),
];

#[test]
fn a_prepared_polygon_reaches_the_end_of_the_plane(rt: HostRuntime) {
    let corner = [at(LOW, LOW), at(-1, LOW), at(-1, -1)];
    let corner = polygon(&rt, &corner);
    expect_states(&rt, &prepared_polygon(&rt, &corner), 1, &OF_CORNER);
}

#[test]
fn a_polygon_with_a_long_edge_cannot_be_prepared(rt: HostRuntime) {
    let longest = [at(0, 0), at(i32::MAX, 0), at(0, 1)];
    assert!(rt; polygon(&rt, &longest).prepare().is_some());

    let too_long = [at(-1, 0), at(i32::MAX, 0), at(0, 1)];
    assert!(rt; polygon(&rt, &too_long).prepare().is_none());
}
