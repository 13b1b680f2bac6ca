//! Boxes, shapes, ranks and geometries, and their answers.

ghost use Rattle.std.specs.Prelude.{◌≡◌, ◌+◌, ◌-◌, ◌<◌, ◌^◌};

use crate::checks::{
    Sides, boxed, expect_score, expect_state, expect_states, question, verdict_of,
};
use crate::expect::expect_eq;
use crate::watched::Watched;
use rt_geo::{
    All, Bounds, ById, Circle, Counted, Covers, Disc, Entry, Geometry, Guided, Info, Inside,
    Layers, Near, Order, Point, Region, Smallest, Verdict, Window, Within, far2, hull, inside,
    near2, overlaps,
};
use std::process::Abort;

const LOW: i32 = i32::MIN;

const HIGH: i32 = i32::MAX;

const SQUARE: Sides = [0, 10, 0, 10];

const LEFT: Sides = [-5, -1, -5, -1];

const PLANE: Sides = [LOW, HIGH, LOW, HIGH];

#[test]
fn bounds_tell_their_sides(rt: HostRuntime) {
    let bounds = boxed(&rt, [-5, 30, -6, 10]);
    expect_eq(&rt, bounds.min_x(), -5);
    expect_eq(&rt, bounds.max_x(), 30);
    expect_eq(&rt, bounds.min_y(), -6);
    expect_eq(&rt, bounds.max_y(), 10);
}

// Four numbers, and whether they are the sides of a box.
static SIDES: [(Sides, bool); 3] = [
    ([1, 0, 0, 0], false),
    ([0, 0, 1, 0], false),
    ([LOW, LOW, HIGH, HIGH], true),
];

#[test]
fn bounds_have_no_minimum_above_its_maximum(rt: HostRuntime) {
    for ([min_x, max_x, min_y, max_y], want) in &SIDES {
        let bounds = Bounds::new(*min_x, *max_x, *min_y, *max_y);
        expect_eq(&rt, bounds.is_some(), *want);
    }
}

// Two boxes, whether they overlap, and whether the first lies inside the second.
static PAIRS: [(Sides, Sides, bool, bool); 8] = [
    (SQUARE, [10, 20, 10, 20], true, false),
    (SQUARE, [11, 20, 0, 10], false, false),
    ([0, 5, 5, 10], SQUARE, true, true),
    (SQUARE, SQUARE, true, true),
    (SQUARE, [0, 5, 5, 10], true, false),
    (PLANE, [LOW, LOW, LOW, LOW], true, false),
    ([HIGH, HIGH, HIGH, HIGH], PLANE, true, true),
    ([LOW, LOW, LOW, LOW], [HIGH, HIGH, HIGH, HIGH], false, false),
];

#[test]
fn boxes_overlap_and_lie_inside(rt: HostRuntime) {
    for (one, other, is_overlap, is_inside) in &PAIRS {
        let one = boxed(&rt, *one);
        let other = boxed(&rt, *other);
        expect_eq(&rt, overlaps(one, other), *is_overlap);
        expect_eq(&rt, inside(one, other), *is_inside);
    }
}

#[test]
fn a_hull_has_both_boxes(rt: HostRuntime) {
    let joined = hull(boxed(&rt, [0, 5, 5, 10]), boxed(&rt, [11, 20, 0, 10]));
    expect_eq(&rt, joined, boxed(&rt, [0, 20, 0, 10]));
}

// A point and a box, and the squares of the distances of its nearest and its farthest point.
static DISTANCES: [(Point, Sides, u128, u128); 3] = [
    (
        Point { x: LOW, y: LOW },
        [HIGH, HIGH, HIGH, HIGH],
        36893488130239234050,
        36893488130239234050,
    ),
    (Point { x: LOW, y: LOW }, PLANE, 0, 36893488130239234050),
    (Point { x: 10, y: -5 }, SQUARE, 25, 325),
];

#[test]
fn distances_reach_from_corner_to_corner(rt: HostRuntime) {
    for (point, sides, near, far) in &DISTANCES {
        let bounds = boxed(&rt, *sides);
        expect_eq(&rt, near2(*point, bounds), *near);
        expect_eq(&rt, far2(*point, bounds), *far);
    }
}

// A circle, and its state of a box on a level.
static CIRCLES: [(Point, u32, Sides, u8, Within); 4] = [
    (Point { x: 0, y: 0 }, 2, LEFT, 0, Within::Partly),
    (Point { x: 0, y: 0 }, 2, [0, 1, 0, 1], 1, Within::Fully),
    (Point { x: 0, y: 0 }, 1, LEFT, 0, Within::Not),
    (
        Point { x: LOW, y: LOW },
        u32::MAX,
        [HIGH, HIGH, HIGH, HIGH],
        0,
        Within::Not,
    ),
];

#[test]
fn circles_answer_their_states(rt: HostRuntime) {
    for (centre, radius, sides, level, want) in &CIRCLES {
        let circle = Circle {
            centre: *centre,
            radius: *radius,
        };
        expect_state(&rt, &circle, *sides, *level, *want);
    }
}

#[test]
fn windows_answer_their_states(rt: HostRuntime) {
    let window = Window(boxed(&rt, [10, 20, 10, 20]));
    expect_state(&rt, &window, SQUARE, 0, Within::Partly);
    expect_state(&rt, &window, LEFT, 1, Within::Not);
    expect_state(&rt, &window, [12, 12, 12, 12], 1, Within::Fully);

    expect_state(&rt, &All, LEFT, 3, Within::Fully);
}

#[test]
fn what_is_inside_or_covers_answers_its_states(rt: HostRuntime) {
    let inside = Inside(boxed(&rt, [0, 15, 0, 15]));
    expect_state(&rt, &inside, [-5, 30, -5, 15], 2, Within::Partly);
    expect_state(&rt, &inside, [-5, 30, -5, 15], 0, Within::Not);
    expect_state(&rt, &inside, SQUARE, 0, Within::Fully);

    let covers = Covers(boxed(&rt, [5, 5, 5, 5]));
    expect_state(&rt, &covers, SQUARE, 1, Within::Partly);
    expect_state(&rt, &covers, LEFT, 0, Within::Not);
}

// Circles, each checked against each of the boxes, as an entry's and as a node's.
static DISCS: [(Point, u32); 5] = [
    (Point { x: 0, y: 0 }, 0),
    (Point { x: 12, y: 14 }, 4),
    (Point { x: 0, y: 0 }, 5),
    (Point { x: HIGH, y: LOW }, u32::MAX),
    (Point { x: HIGH, y: LOW }, 3),
];

static BOXES: [Sides; 4] = [
    SQUARE,
    [5, 5, 5, 5],
    [-9, -3, -4, -4],
    [LOW, LOW, HIGH, HIGH],
];

#[test]
fn a_disc_answers_as_its_circle_and_the_distance(rt: HostRuntime) {
    for (centre, radius) in &DISCS {
        let circle = Circle {
            centre: *centre,
            radius: *radius,
        };
        for sides in &BOXES {
            expect_disc(&rt, circle, *sides, 0);
            expect_disc(&rt, circle, *sides, 2);
        }
    }
}

fn expect_disc(rt: &impl Abort, circle: Circle, sides: Sides, level: u8) {
    let bounds = boxed(rt, sides);
    let guided = Guided {
        shape: circle,
        rank: Near(circle.centre),
    };
    let want = verdict_of(&guided, bounds, level);
    let disc = disc_of(rt, circle);
    expect_eq(rt, verdict_of(&disc, bounds, level), want);
}

fn disc_of(rt: &impl Abort, circle: Circle) -> Disc {
    let order = Order::Near(Near(circle.centre));
    Disc::from_parts(&circle, &order).expect(rt, "the order is from its centre")
}

// Orders, and whether a disc is made of the circle round (3, -4) and each.
static ORDERS: [(Order, bool); 3] = [
    (Order::Near(Near(Point { x: 3, y: -4 })), true),
    (Order::Near(Near(Point { x: 3, y: 4 })), false),
    (Order::ById(ById), false),
];

#[test]
fn a_disc_is_made_where_the_order_is_from_its_middle(rt: HostRuntime) {
    let circle = Circle {
        centre: Point { x: 3, y: -4 },
        radius: 5,
    };
    for (order, is_made) in &ORDERS {
        let disc = Disc::from_parts(&circle, order);
        expect_eq(&rt, disc.is_some(), *is_made);
    }
}

#[test]
fn ranks_answer_their_scores(rt: HostRuntime) {
    let near = Near(Point { x: 12, y: 12 });
    expect_score(&rt, &near, [-5, 30, -5, 10], 2, 4);
    expect_score(&rt, &near, SQUARE, 0, 8);
    expect_score(&rt, &Smallest, SQUARE, 0, 100);
    expect_score(&rt, &Smallest, SQUARE, 1, 0);
    expect_score(&rt, &ById, SQUARE, 0, 0);
}

#[test]
fn regions_answer_as_their_parts(rt: HostRuntime) {
    let point = boxed(&rt, [5, 5, 5, 5]);
    let circle = Circle {
        centre: Point { x: 0, y: 0 },
        radius: 15,
    };
    expect_state(&rt, &Region::All(All), SQUARE, 0, Within::Fully);
    expect_state(
        &rt,
        &Region::Window(Window(point)),
        SQUARE,
        0,
        Within::Partly,
    );
    expect_state(&rt, &Region::Inside(Inside(point)), SQUARE, 0, Within::Not);
    expect_state(
        &rt,
        &Region::Covers(Covers(point)),
        SQUARE,
        0,
        Within::Partly,
    );
    expect_state(&rt, &Region::Circle(circle), SQUARE, 0, Within::Fully);
}

// Orders, and the score of the square by each.
static SCORES: [(Order, u128); 3] = [
    (Order::ById(ById), 0),
    (Order::Near(Near(Point { x: 12, y: 12 })), 8),
    (Order::Smallest(Smallest), 100),
];

#[test]
fn orders_answer_as_their_parts(rt: HostRuntime) {
    for (order, want) in &SCORES {
        expect_score(&rt, order, SQUARE, 0, *want);
    }
}

// A geometry whose verdict on the square is PARTLY, with a score of 100.
fn guided(rt: &impl Abort) -> Guided<Region, Order> {
    Guided {
        shape: Region::Window(Window(boxed(rt, [10, 20, 10, 20]))),
        rank: Order::Smallest(Smallest),
    }
}

const VERDICT: Verdict = Verdict {
    within: Within::Partly,
    score: 100,
};

#[test]
fn a_geometry_answers_by_its_shape_and_its_rank(rt: HostRuntime) {
    let square = boxed(&rt, SQUARE);
    expect_eq(&rt, verdict_of(&guided(&rt), square, 0), VERDICT);
}

#[test]
fn a_counted_geometry_tells_its_checks(rt: HostRuntime) {
    let guided = guided(&rt);
    let mut counted = Counted::new(&guided);
    expect_eq(&rt, counted.asked(), 0);
    expect_check(&rt, &mut counted, 1);

    let mut own = counted.take();
    expect_eq(&rt, counted.asked(), u64::MAX);
    expect_check(&rt, &mut own, 2);
    counted = own;
    expect_eq(&rt, counted.asked(), 2);
}

// A check of the square, after which so many were made.
fn expect_check<G: Geometry>(rt: &impl Abort, counted: &mut Counted<'_, G>, asked: u64)
    requires { counted.old.asked < 2 ^ 64 - 1 }
    ensures { counted.new.asked ≡ counted.old.asked + 1 }
{
    expect_eq(rt, counted.check(&question(boxed(rt, SQUARE), 0)), VERDICT);
    expect_eq(rt, counted.asked(), asked);
}

#[test]
fn a_counted_geometry_asks_once_for_each_check(rt: HostRuntime) {
    let square = boxed(&rt, SQUARE);
    let watched = Watched::new(Guided {
        shape: All,
        rank: ById,
    });
    let mut counted = Counted::new(&watched);
    expect_eq(&rt, watched.checks(), 0);

    let _node = counted.check(&question(square, 3));
    expect_eq(&rt, watched.checks(), 1);
    expect_eq(&rt, watched.last_level(), 3);

    let _entry = counted.check(&question(square, 0));
    expect_eq(&rt, watched.checks(), counted.asked());
    expect_eq(&rt, watched.last_level(), 0);
}
