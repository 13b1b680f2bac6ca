//! Queries in plain numbers that ask what query lines ask.

use rt_embed::{Measure, PlainQuery, Question, Session, Vertex};
use rt_geo::{Bounds, ById, Covers, Inside, Order, Region, Window};
use rt_text::{Parsed, Query, parse};
use std::process::Abort;
use std::test::Fail;

/// The vertices of the polygons that lines of these tests ask for.
pub(crate) const VERTICES: [Vertex; 3] = [
    Vertex { x: 0, y: 0 },
    Vertex { x: 30, y: 0 },
    Vertex { x: 0, y: 30 },
];

/// All boxes by id, on all layers.
pub(crate) const ALL: PlainQuery = PlainQuery {
    region: 0,
    order: 0,
    min_x: 0,
    max_x: 0,
    min_y: 0,
    max_y: 0,
    x: 0,
    y: 0,
    radius: 0,
    near_x: 0,
    near_y: 0,
    first_vertex: 0,
    vertices: 0,
    reserved: 0,
    layers: u64::MAX,
    limit: u64::MAX,
};

// What a line for boxes asks.
fn question_of(rt: &impl Abort, line: &[u8]) -> Question {
    match parse(line) {
        Parsed::Query(
            Query::Find {
                region,
                order,
                limit,
                layers,
            },
        )
        | Parsed::Query(
            Query::CostFind {
                region,
                order,
                limit,
                layers,
            },
        ) => Question {
            region,
            layers,
            order,
            limit,
        },
        Parsed::Query(Query::Count { region, layers })
        | Parsed::Query(Query::CostCount { region, layers }) => Question {
            region,
            layers,
            order: Order::ById(ById),
            limit: None,
        },
        _ => panic!(rt; "the line asks for no boxes"),
    }
}

/// A question in plain numbers, a polygon being that of [`VERTICES`].
pub(crate) fn plain(question: &Question) -> PlainQuery {
    let query = PlainQuery {
        layers: question.layers.bits(),
        limit: question.limit.unwrap_or(u64::MAX),
        ..in_region(&question.region)
    };
    match &question.order {
        Order::ById(_) => query,
        Order::Near(near) => PlainQuery {
            order: 1,
            near_x: near.0.x,
            near_y: near.0.y,
            ..query
        },
        Order::Smallest(_) => PlainQuery { order: 2, ..query },
    }
}

// All boxes of a region.
fn in_region(region: &Region) -> PlainQuery {
    match region {
        Region::All(_) => ALL,
        Region::Window(Window(bounds)) => in_box(1, bounds),
        Region::Inside(Inside(bounds)) => in_box(2, bounds),
        Region::Covers(Covers(bounds)) => in_box(3, bounds),
        Region::Circle(circle) => PlainQuery {
            region: 4,
            x: circle.centre.x,
            y: circle.centre.y,
            radius: circle.radius,
            ..ALL
        },
        Region::Polygon(_) => PlainQuery {
            region: 5,
            vertices: 3,
            ..ALL
        },
    }
}

// A region that has a box.
fn in_box(region: u32, bounds: &Bounds) -> PlainQuery {
    PlainQuery {
        region,
        min_x: bounds.min_x(),
        max_x: bounds.max_x(),
        min_y: bounds.min_y(),
        max_y: bounds.max_y(),
        ..ALL
    }
}

/// What a line for boxes asks, in plain numbers.
pub(crate) fn plain_of(rt: &impl Abort, line: &[u8]) -> PlainQuery {
    plain(&question_of(rt, line))
}

/// Measures one query.
pub(crate) fn measured<R: Abort + AllocGlobal>(
    rt: &R,
    session: &mut Session,
    measure: Measure,
    query: PlainQuery,
) -> Result<u64, Fail> {
    let mut measured = [77];
    let done = session.measure(rt.alloc(), measure, &[query], &VERTICES, &mut measured)?;
    assert_eq!(rt; done, 1);
    Ok(measured[0])
}
