//! The public calls as other crates write them: shapes own what they are made of, and each region and each order is one value.

use crate::checks::{boxed, expect_state, question};
use crate::expect::expect_eq;
use rt_geo::{
    All, Bounds, ById, Circle, Counted, Covers, Geometry, Guided, Inside, Layers, Near, OnLayers,
    Order, Point, Polygon, PolygonFault, Rank, Region, Shape, Smallest, Verdict, Window, Within,
};
use std::process::Abort;

const CORNERS: [Point; 3] = [
    Point { x: 0, y: 0 },
    Point { x: 0, y: 30 },
    Point { x: 30, y: 0 },
];

/// A triangle whose points are gone when it is returned.
fn triangle() -> Result<Polygon, PolygonFault> {
    let points = CORNERS;
    Polygon::new(&points)
}

#[test]
fn a_polygon_leaves_its_points_as_they_are(rt: HostRuntime) {
    let points = CORNERS;
    let polygon = Polygon::new(&points);
    expect_eq(&rt, points, CORNERS);
    expect_eq(&rt, polygon, Polygon::new(&points));
    expect_eq(&rt, Polygon::new(&points[1..]), Err(PolygonFault::Count));
}

#[test]
fn a_polygon_owns_its_vertices(rt: HostRuntime) {
    let mut points = CORNERS;
    let polygon = Polygon::new(&points).expect(&rt, "a triangle");
    points[0] = Point { x: 29, y: 29 };
    expect_state(&rt, &polygon, [0, 10, 0, 10], 0, Within::Fully);
    expect_eq(&rt, Ok(polygon), triangle());
    expect_eq(&rt, points[0].x, 29);
}

#[test]
fn a_prepared_polygon_is_kept_longer_than_the_polygon(rt: HostRuntime) {
    let prepared = triangle().expect(&rt, "a triangle").prepare();
    let prepared = prepared.expect(&rt, "the edges are short");
    expect_state(&rt, &prepared, [25, 30, 25, 30], 1, Within::Not);
}

/// A region of each kind accepts the square from (0, 0) to (10, 10), owned, borrowed, and on its layer.
fn expect_accepted(rt: &impl Abort, region: Region) {
    let square = [0, 10, 0, 10];
    expect_eq(rt, accepts_square(rt, &region), true);
    let borrowed = OnLayers {
        shape: &region,
        layers: Layers::of(0),
    };
    expect_state(
        rt,
        &borrowed,
        square,
        1,
        region.within(&question(boxed(rt, square), 1)),
    );
    let elsewhere = OnLayers {
        shape: region,
        layers: Layers::of(1),
    };
    expect_state(rt, &elsewhere, square, 1, Within::Not);
}

fn accepts_square<S: Shape>(rt: &impl Abort, shape: &S) -> bool {
    shape.within(&question(boxed(rt, [0, 10, 0, 10]), 0)) != Within::Not
}

#[test]
fn a_region_is_one_of_six_shapes(rt: HostRuntime) {
    let bounds = boxed(&rt, [0, 10, 0, 10]);
    let centre = Point { x: 12, y: 12 };
    expect_accepted(&rt, Region::All(All));
    expect_accepted(&rt, Region::Window(Window(bounds)));
    expect_accepted(&rt, Region::Inside(Inside(bounds)));
    expect_accepted(&rt, Region::Covers(Covers(bounds)));
    expect_accepted(&rt, Region::Circle(Circle { centre, radius: 3 }));
    expect_accepted(&rt, Region::Polygon(triangle().expect(&rt, "a triangle")));
}

#[test]
fn an_order_is_one_of_three_ranks(rt: HostRuntime) {
    let square = question(boxed(&rt, [0, 10, 0, 10]), 0);
    let near = Near(Point { x: 12, y: 12 });
    expect_eq(&rt, Order::ById(ById).score(&square), 0);
    expect_eq(&rt, Order::Near(near).score(&square), 8);
    expect_eq(&rt, Order::Smallest(Smallest).score(&square), 100);
}

#[test]
fn a_region_and_an_order_are_a_geometry(rt: HostRuntime) {
    let geometry = Guided {
        shape: Region::Polygon(triangle().expect(&rt, "a triangle")),
        rank: Order::Smallest(Smallest),
    };
    let want = Verdict {
        within: Within::Fully,
        score: 100,
    };
    let square = question(boxed(&rt, [0, 10, 0, 10]), 0);
    expect_eq(&rt, geometry.check(&square), want);
    let mut counted = Counted::new(&geometry);
    expect_eq(&rt, counted.check(&square), want);
    expect_eq(&rt, counted.asked(), 1);
}

#[test]
fn bounds_are_none_where_a_minimum_is_above_its_maximum(rt: HostRuntime) {
    expect_eq(&rt, Bounds::new(0, -1, 0, 0), None);
    expect_eq(&rt, Bounds::new(0, 0, 0, -1), None);
}
