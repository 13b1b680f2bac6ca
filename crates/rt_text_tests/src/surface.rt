//! `parse` as other crates call it: over lines of any length, with queries that own what they have.

use crate::expect::expect_eq;
use rt_geo::{All, ById, Circle, Layers, Near, Order, Point, Polygon, Region, Smallest, Window};
use rt_text::{Parsed, Query, QueryFault, parse, parse_into};
use std::process::Abort;

/// The query of a line that is gone when it is returned.
fn query(rt: &impl Abort, text: &str) -> Query {
    let mut line = [b' '; 5000];
    line[..text.len().min(5000)].copy_from_slice(&text.as_bytes()[..text.len().min(5000)]);
    match parse(&line) {
        Parsed::Query(query) => query,
        other => panic!(rt; "{text}: {other:?}"),
    }
}

#[test]
fn a_line_of_5000_bytes_is_parsed(rt: HostRuntime) {
    let mut line = [b' '; 5000];
    expect_eq(&rt, parse(&line), Parsed::Skip);
    line[4999] = b'\r';
    expect_eq(&rt, parse(&line), Parsed::Skip);
    line[4999] = b'#';
    expect_eq(&rt, parse(&line), Parsed::Skip);
    line[4999] = b'x';
    expect_eq(&rt, parse(&line), Parsed::Fault(QueryFault::UnknownVerb));
    line[4994..].copy_from_slice(b"levels");
    expect_eq(&rt, parse(&line), Parsed::Query(Query::Levels));
    line[0] = b'#';
    expect_eq(&rt, parse(&line), Parsed::Skip);
}

#[test]
fn a_find_has_a_region_an_order_a_limit_and_layers(rt: HostRuntime) {
    let Query::Find {
        region,
        order,
        limit,
        layers,
    } = query(&rt, "find polygon 3 0 0 0 30 30 0 on 3 smallest first 7")
    else {
        panic!(&rt; "it is no find")
    };
    let corners = [
        Point { x: 30, y: 0 },
        Point { x: 0, y: 30 },
        Point { x: 0, y: 0 },
    ];
    let triangle = Polygon::new(&corners).expect(&rt, "it is convex");
    expect_eq(&rt, region, Region::Polygon(triangle));
    expect_eq(&rt, order, Order::Smallest(Smallest));
    expect_eq(&rt, limit, Some(7));
    expect_eq(&rt, layers, Layers::of(3));
}

#[test]
fn nearest_is_a_find(rt: HostRuntime) {
    let want = Query::Find {
        region: Region::All(All),
        order: Order::Near(Near(Point { x: 12, y: -5 })),
        limit: Some(3),
        layers: Layers::all(),
    };
    expect_eq(&rt, query(&rt, "nearest 3 12 -5"), want);
}

#[test]
fn a_count_has_a_region_and_layers(rt: HostRuntime) {
    let Query::Count { region, layers } = query(&rt, "count circle 1 2 3 on 0,3") else {
        panic!(&rt; "it is no count")
    };
    let centre = Point { x: 1, y: 2 };
    expect_eq(&rt, region, Region::Circle(Circle { centre, radius: 3 }));
    expect_eq(&rt, layers, Layers::new(9));
}

#[test]
fn a_cost_of_a_find_has_what_the_find_has(rt: HostRuntime) {
    let Query::CostFind {
        region,
        order,
        limit,
        layers,
    } = query(&rt, "cost find window 0 10 0 10")
    else {
        panic!(&rt; "it is no cost of a find")
    };
    let bounds = rt_geo::Bounds::new(0, 10, 0, 10).expect(&rt, "a box");
    expect_eq(&rt, region, Region::Window(Window(bounds)));
    expect_eq(&rt, order, Order::ById(ById));
    expect_eq(&rt, limit, None);
    expect_eq(&rt, layers, Layers::all());
}

#[test]
fn a_cost_of_a_count_has_what_the_count_has(rt: HostRuntime) {
    let Query::CostCount { region, layers } = query(&rt, "cost count all on 1") else {
        panic!(&rt; "it is no cost of a count")
    };
    expect_eq(&rt, region, Region::All(All));
    expect_eq(&rt, layers, Layers::of(1));
}

#[test]
fn lines_are_parsed_into_one_place(rt: HostRuntime) {
    let mut parsed = Parsed::Skip;
    for line in [
        "find polygon 3 0 0 0 30 30 0 on 3 smallest first 7",
        "levels",
        "# find all",
        "find all x",
        "",
        "cost count circle 1 2 3 on 0,3",
        "cost levels",
        "nearest 3 12 -5",
    ] {
        parse_into(line.as_bytes(), &mut parsed);
        assert!(rt; parsed == parse(line.as_bytes()));
    }
}
