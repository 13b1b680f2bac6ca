//! Questions in numbers, beside a plain scan of the boxes that is written here.

use crate::expect::expect_eq;
use crate::given::open;
use crate::plain::{measured, plain};
use rt_embed::{Measure, Question, Session};
use rt_geo::{All, Bounds, ById, Circle, Covers, Inside, Layers, Order, Point, Region, Window};
use std::process::Abort;
use std::test::Fail;

/// How many boxes there are.
const MANY: u8 = 48;

/// A box with its id and its layer.
#[derive(Clone, Copy)]
struct Row {
    id: i64,
    min_x: i32,
    max_x: i32,
    min_y: i32,
    max_y: i32,
    layer: u8,
}

// The box of a number below `MANY`: wide and narrow ones, which lie over one another, on four layers.
fn row_at(n: u8) -> Row {
    let at = i32::from(n);
    let min_x = at % 8 * 10 - 30;
    let min_y = at / 8 * 10 - 20;
    Row {
        // (ids go down, so that places and ids differ)
        id: 100 - i64::from(n),
        min_x,
        max_x: min_x + at % 5 * 4,
        min_y,
        max_y: min_y + at % 3 * 7,
        layer: n % 4,
    }
}

// The table of all boxes.
fn session<R: Abort + AllocGlobal>(rt: &R, fanout: u8) -> Result<Session, Fail> {
    let mut table = Vec::new(rt.alloc());
    for n in 0..MANY {
        let it = row_at(n);
        table.extend_from_slice(itoa::Buffer::new().format(it.id).as_bytes())?;
        for number in [it.min_x, it.max_x, it.min_y, it.max_y, i32::from(it.layer)] {
            table.push(b',')?;
            table.extend_from_slice(itoa::Buffer::new().format(number).as_bytes())?;
        }
        table.push(b'\n')?;
    }
    Ok(open(rt, fanout, &table))
}

// How far a number lies outside of a range.
fn gap(at: i32, low: i32, high: i32) -> u32 {
    if at < low {
        at.abs_diff(low)
    } else if at > high {
        at.abs_diff(high)
    } else {
        0
    }
}

// The square of the distance of a point to a box.
fn distance(it: Row, x: i32, y: i32) -> u128 {
    let across = u128::from(gap(x, it.min_x, it.max_x));
    let along = u128::from(gap(y, it.min_y, it.max_y));
    across * across + along * along
}

// Whether a region accepts a box.
fn accepts(region: &Region, it: Row) -> bool {
    match region {
        Region::All(_) => true,
        Region::Window(Window(b)) => {
            it.min_x <= b.max_x()
                && b.min_x() <= it.max_x
                && it.min_y <= b.max_y()
                && b.min_y() <= it.max_y
        }
        Region::Inside(Inside(b)) => {
            b.min_x() <= it.min_x
                && it.max_x <= b.max_x()
                && b.min_y() <= it.min_y
                && it.max_y <= b.max_y()
        }
        Region::Covers(Covers(b)) => {
            it.min_x <= b.min_x()
                && b.max_x() <= it.max_x
                && it.min_y <= b.min_y()
                && b.max_y() <= it.max_y
        }
        Region::Circle(circle) => {
            let radius = u128::from(circle.radius);
            distance(it, circle.centre.x, circle.centre.y) <= radius * radius
        }
        Region::Polygon(_) => false,
    }
}

// How many boxes a question asks for.
fn count(question: &Question) -> u64 {
    let mut count: u64 = 0;
    for n in 0..MANY {
        let it = row_at(n);
        if accepts(&question.region, it)
            && it.layer <= Layers::MOST
            && question.layers.has(it.layer)
        {
            count = count.saturating_add(1);
        }
    }
    count
}

// A region of each kind whose sides go with a number.
fn region(rt: &impl Abort, kind: u8, n: u8) -> Region {
    let at = i32::from(n);
    let bounds = Bounds::new(at * 7 - 40, at * 9 - 20, at * 5 - 30, at * 6 - 10);
    let bounds = bounds.expect(rt, "no minimum is above its maximum");
    match kind {
        0 => Region::All(All),
        1 => Region::Window(Window(bounds)),
        2 => Region::Inside(Inside(bounds)),
        3 => {
            let inner = Bounds::new(at * 7 - 30, at * 7 - 29, at * 5 - 20, at * 5 - 19);
            Region::Covers(Covers(inner.expect(rt, "no minimum is above its maximum")))
        }
        _ => Region::Circle(Circle {
            centre: Point {
                x: at * 5,
                y: at * 4,
            },
            radius: u32::from(n) * 3,
        }),
    }
}

// Counts the boxes of regions of one kind.
fn expect_all<R: Abort + AllocGlobal>(rt: &R, kind: u8, fanout: u8) -> Result<(), Fail> {
    let mut session = session(rt, fanout)?;
    for n in 0..6 {
        for layers in [Layers::all(), Layers::of(1), Layers::new(12)] {
            let question = Question {
                region: region(rt, kind, n),
                layers,
                order: Order::ById(ById),
                limit: None,
            };
            let counted = measured(rt, &mut session, Measure::Count, plain(&question))?;
            expect_eq(rt, counted, count(&question));
        }
    }
    Ok(())
}

#[test]
fn counts_are_those_of_a_scan(rt: HostRuntime) -> Result<(), Fail> {
    for kind in 0..5 {
        expect_all(&rt, kind, 2)?;
        expect_all(&rt, kind, 16)?;
    }
    Ok(())
}
