//! Query lines, and the query or the fault of each. The expectations were worked out by hand.

use crate::expect::expect_eq;
use rt_geo::{
    All, Bounds, ById, Circle, Covers, Inside, Layers, Near, Order, Point, Polygon, Region,
    Smallest, Window,
};
use rt_text::QueryFault::{
    MinAboveMax, MissingWord, NotConvex, NotNumber, OutOfRange, StrayWord, UnknownRegion,
    UnknownVerb, VertexCount,
};
use rt_text::{Parsed, Query, QueryFault, parse};
use std::process::Abort;

/// Lines that are faulty, each under its first fault from left to right.
static FAULTS: [(&str, QueryFault); 45] = [
    ("Find all", UnknownVerb),
    ("FIND all", UnknownVerb),
    ("finds all", UnknownVerb),
    ("all", UnknownVerb),
    ("\u{feff}find all", UnknownVerb),
    ("find alls", UnknownRegion),
    ("find all\r\r", UnknownRegion),
    ("count near", UnknownRegion),
    ("find", MissingWord),
    ("count", MissingWord),
    ("nearest", MissingWord),
    ("nearest 3 1", MissingWord),
    ("find window 1", MissingWord),
    ("find circle 1 2", MissingWord),
    ("find all near 1", MissingWord),
    ("find all first", MissingWord),
    ("find polygon", MissingWord),
    ("find polygon 3 0 0 5 5 10", MissingWord),
    ("find window 0 10 x 1", NotNumber),
    ("find window 10 0 x 1", NotNumber),
    ("find window 10 0 0 x", NotNumber),
    ("find polygon x", NotNumber),
    ("find polygon 3 0 0 5 y", NotNumber),
    ("nearest first 1 1", NotNumber),
    ("nearest 1 99999999999 0", OutOfRange),
    ("nearest -1 x 0", OutOfRange),
    ("find circle 0 0 -1", OutOfRange),
    ("find circle 0 0 4294967296", OutOfRange),
    ("find all first 18446744073709551616", OutOfRange),
    ("find window 0 2147483648 1 0", OutOfRange),
    ("find window 10 0 0 10", MinAboveMax),
    ("find inside 0 10 10 0", MinAboveMax),
    ("find covers 10 0 0 10 x", MinAboveMax),
    ("find polygon 2 0 0", VertexCount),
    ("find polygon 17", VertexCount),
    ("find polygon -9999999999999999999999", VertexCount),
    ("find polygon 3 0 0 5 5 10 10", NotConvex),
    ("find polygon 3 0 0 5 5 10 10 x", NotConvex),
    ("find polygon 3 0 0 0 0 1 1", NotConvex),
    ("find all x", StrayWord),
    ("find all first 3 near 1 1", StrayWord),
    ("find all smallest near 1 1", StrayWord),
    ("nearest 1 0 0 first 1", StrayWord),
    ("count all first 1", StrayWord),
    ("levels x", StrayWord),
];

/// The same of lines with `on`.
static LAYER_FAULTS: [(&str, QueryFault); 37] = [
    ("find all on", MissingWord),
    ("count all on", MissingWord),
    ("find all on \t", MissingWord),
    ("find all on 3,", NotNumber),
    ("find all on ,", NotNumber),
    ("find all on ,3", NotNumber),
    ("find all on 0,,3", NotNumber),
    ("find all on near 1 1", NotNumber),
    ("find all on first 1", NotNumber),
    ("find all on on", NotNumber),
    ("find all on x,64", NotNumber),
    ("find all on 0;3", NotNumber),
    ("find all on 0, 3", NotNumber),
    ("find all on 3+", NotNumber),
    ("find all on 64", OutOfRange),
    ("find all on 65", OutOfRange),
    ("find all on -1", OutOfRange),
    ("find all on 64,x", OutOfRange),
    ("find all on 63,64,", OutOfRange),
    (
        "find all on 340282366920938463463374607431768211456",
        OutOfRange,
    ),
    ("count all on 0,256", OutOfRange),
    ("find window 10 0 0 10 on x", MinAboveMax),
    ("find polygon 3 0 0 5 5 10 10 on 64", NotConvex),
    ("find all on 0 ,3", StrayWord),
    ("find all on 0 3", StrayWord),
    ("find all on 0 on 3", StrayWord),
    ("find all near 1 1 on 0", StrayWord),
    ("find all smallest on 0", StrayWord),
    ("find all first 1 on 3", StrayWord),
    ("find all On 3", StrayWord),
    ("find all ones 3", StrayWord),
    ("nearest 1 0 0 on 0", StrayWord),
    ("levels on 0", StrayWord),
    ("count all on 0 near 1 1", StrayWord),
    ("count all on 0 first 1", StrayWord),
    ("count all on 0 on 0", StrayWord),
    ("find on 3 all", UnknownRegion),
];

/// The same of lines with `cost`.
static COST_FAULTS: [(&str, QueryFault); 38] = [
    ("cost", MissingWord),
    ("cost \t\r", MissingWord),
    ("cost find", MissingWord),
    ("cost nearest", MissingWord),
    ("cost nearest 2", MissingWord),
    ("cost nearest 2 12", MissingWord),
    ("cost count", MissingWord),
    ("cost find window 1", MissingWord),
    ("cost find all on", MissingWord),
    ("cost find all near 1", MissingWord),
    ("cost find all first", MissingWord),
    ("cost levels", UnknownVerb),
    ("cost levels x", UnknownVerb),
    ("cost cost", UnknownVerb),
    ("cost cost find all", UnknownVerb),
    ("cost cost levels", UnknownVerb),
    ("cost all", UnknownVerb),
    ("cost on 1", UnknownVerb),
    ("cost 1", UnknownVerb),
    ("cost # find all", UnknownVerb),
    ("Cost find all", UnknownVerb),
    ("COST find all", UnknownVerb),
    ("cost Find all", UnknownVerb),
    ("cost counts all", UnknownVerb),
    ("costs find all", UnknownVerb),
    ("cos find all", UnknownVerb),
    ("cost\rfind all", UnknownVerb),
    ("cost find alls", UnknownRegion),
    ("cost find cost", UnknownRegion),
    ("cost count all on 0,,3", NotNumber),
    ("cost find circle 0 0 -1", OutOfRange),
    ("cost find window 10 0 0 10 x", MinAboveMax),
    ("cost find polygon 2 0 0", VertexCount),
    ("cost find polygon 3 0 0 5 5 10 10", NotConvex),
    ("cost find all first 1 on 3", StrayWord),
    ("cost nearest 1 0 0 on 0", StrayWord),
    ("cost count all first 1", StrayWord),
    ("find all cost", StrayWord),
];

/// What a line holds.
fn expect_parsed(rt: &impl Abort, line: &[u8], want: Parsed) {
    expect_eq(rt, parse(line), want);
}

fn expect_faults(rt: &impl Abort, rows: &[(&str, QueryFault)]) {
    for (line, fault) in rows {
        expect_parsed(rt, line.as_bytes(), Parsed::Fault(*fault));
    }
}

#[test]
fn faults(rt: HostRuntime) {
    expect_faults(&rt, &FAULTS);
    expect_faults(&rt, &LAYER_FAULTS);
    expect_faults(&rt, &COST_FAULTS);
    expect_parsed(&rt, b"\xff", Parsed::Fault(UnknownVerb));
}

static SKIPPED: [&str; 7] = [
    "",
    "\r",
    " \t ",
    "#",
    "  # find all",
    "#find\r",
    "#cost find all",
];

#[test]
fn skipped_lines(rt: HostRuntime) {
    for line in &SKIPPED {
        expect_parsed(&rt, line.as_bytes(), Parsed::Skip);
    }
}

/// A region as rows have it. Of a box they have the sides: the least and the greatest x, the least and the greatest y.
#[derive(Clone, Copy)]
enum Place {
    All,
    Window([i32; 4]),
    Inside([i32; 4]),
    Covers([i32; 4]),
    Circle(Circle),
}

/// A line, and what it finds: the region, the order, the limit, and the bits of the set of layers.
type Row = (&'static str, Place, Order, Option<u64>, u64);

/// A line, and what it counts: the region, and the bits of the set of layers.
type CountRow = (&'static str, Place, u64);

fn boxed(rt: &impl Abort, sides: [i32; 4]) -> Bounds {
    let [min_x, max_x, min_y, max_y] = sides;
    Bounds::new(min_x, max_x, min_y, max_y).expect(rt, "the minimums are at most the maximums")
}

fn region_of(rt: &impl Abort, place: Place) -> Region {
    match place {
        Place::All => Region::All(All),
        Place::Window(sides) => Region::Window(Window(boxed(rt, sides))),
        Place::Inside(sides) => Region::Inside(Inside(boxed(rt, sides))),
        Place::Covers(sides) => Region::Covers(Covers(boxed(rt, sides))),
        Place::Circle(circle) => Region::Circle(circle),
    }
}

fn expect_finds(rt: &impl Abort, rows: &[Row]) {
    for (line, place, order, limit, bits) in rows {
        let query = Query::Find {
            region: region_of(rt, *place),
            order: *order,
            limit: *limit,
            layers: Layers::new(*bits),
        };
        expect_parsed(rt, line.as_bytes(), Parsed::Query(query));
    }
}

fn expect_counts(rt: &impl Abort, rows: &[CountRow]) {
    for (line, place, bits) in rows {
        let query = Query::Count {
            region: region_of(rt, *place),
            layers: Layers::new(*bits),
        };
        expect_parsed(rt, line.as_bytes(), Parsed::Query(query));
    }
}

const SIDES: [i32; 4] = [-1, 2, -3, 4];

const WIDEST: [i32; 4] = [i32::MIN, i32::MAX, i32::MIN, i32::MAX];

const CENTRE: Point = Point { x: 1, y: 2 };

const CIRCLE: Circle = Circle {
    centre: CENTRE,
    radius: 3,
};

const BY_ID: Order = Order::ById(ById);

const SMALLEST: Order = Order::Smallest(Smallest);

const NEAR: Order = Order::Near(Near(Point { x: 5, y: -6 }));

const NEAR_CENTRE: Order = Order::Near(Near(CENTRE));

/// All answers.
const EACH: Option<u64> = None;

/// The bits of the set of all layers.
const EVERY: u64 = u64::MAX;

static REGIONS: [Row; 6] = [
    ("find all", Place::All, BY_ID, EACH, EVERY),
    (
        "\tfind  window -1 +2 -03 4 \r",
        Place::Window(SIDES),
        BY_ID,
        EACH,
        EVERY,
    ),
    (
        "find window -2147483648 2147483647 -2147483648 2147483647",
        Place::Window(WIDEST),
        BY_ID,
        EACH,
        EVERY,
    ),
    (
        "find inside -1 2 -3 4",
        Place::Inside(SIDES),
        BY_ID,
        EACH,
        EVERY,
    ),
    (
        "find covers -1 2 -3 4",
        Place::Covers(SIDES),
        BY_ID,
        EACH,
        EVERY,
    ),
    (
        "find circle -1 2 4294967295",
        Place::Circle(Circle {
            centre: Point { x: -1, y: 2 },
            radius: u32::MAX,
        }),
        Order::Near(Near(Point { x: -1, y: 2 })),
        EACH,
        EVERY,
    ),
];

#[test]
fn a_polygon(rt: HostRuntime) {
    let triangle = Polygon::new(&[
        Point { x: 0, y: 0 },
        Point { x: 30, y: 0 },
        Point { x: 0, y: 30 },
    ]);
    let query = Query::Find {
        region: Region::Polygon(triangle.expect(&rt, "it is convex")),
        order: BY_ID,
        limit: None,
        layers: Layers::all(),
    };
    expect_parsed(&rt, b"find polygon 3 0 0 30 0 0 30", Parsed::Query(query));
}

static ORDERS_AND_LIMITS: [Row; 6] = [
    ("find all near 5 -6", Place::All, NEAR, EACH, EVERY),
    ("find all smallest", Place::All, SMALLEST, EACH, EVERY),
    ("find all first 0", Place::All, BY_ID, Some(0), EVERY),
    (
        "find all smallest first 18446744073709551615",
        Place::All,
        SMALLEST,
        Some(u64::MAX),
        EVERY,
    ),
    ("nearest 7 5 -6", Place::All, NEAR, Some(7), EVERY),
    (
        "find circle 1 2 3 near 5 -6 first 2",
        Place::Circle(CIRCLE),
        NEAR,
        Some(2),
        EVERY,
    ),
];

static COUNTS: [CountRow; 13] = [
    ("count all", Place::All, EVERY),
    ("count all on 0", Place::All, 1),
    ("count all on 3", Place::All, 8),
    ("count all on 0,3", Place::All, 9),
    ("count all on 3,0", Place::All, 9),
    ("count all on 0,0", Place::All, 1),
    ("count all on 63", Place::All, 1 << 63),
    ("count all on 63,62,61,0", Place::All, 0xe000_0000_0000_0001),
    ("count all on +3", Place::All, 8),
    ("count all on -0", Place::All, 1),
    (
        "count all on 0063,+001,1",
        Place::All,
        0x8000_0000_0000_0002,
    ),
    (
        "count all on 00000000000000000000000000000000000000000000000000000000000007",
        Place::All,
        128,
    ),
    (
        "count all on 0,1,2,3,4,5,6,7,8,9,10,11,12,13,14,15,16,17,18,19,20,21,22,23,24,25,26,27,28,29,30,31,32,33,34,35,36,37,38,39,40,41,42,43,44,45,46,47,48,49,50,51,52,53,54,55,56,57,58,59,60,61,62,63",
        Place::All,
        EVERY,
    ),
];

#[test]
fn counts_and_levels(rt: HostRuntime) {
    expect_counts(&rt, &COUNTS);
    expect_parsed(&rt, b"levels\r", Parsed::Query(Query::Levels));
}

// A circle is ordered near its centre on layers too, where no other order stands.
static LAYERS: [Row; 5] = [
    ("find all on 3", Place::All, BY_ID, EACH, 1 << 3),
    (
        "find all \ton  3 first 2\r",
        Place::All,
        BY_ID,
        Some(2),
        1 << 3,
    ),
    (
        "find all on 3 smallest first 2",
        Place::All,
        SMALLEST,
        Some(2),
        1 << 3,
    ),
    (
        "find circle 1 2 3 on 0,3",
        Place::Circle(CIRCLE),
        NEAR_CENTRE,
        EACH,
        9,
    ),
    (
        "find circle 1 2 3 on 3 near 5 -6 first 1",
        Place::Circle(CIRCLE),
        NEAR,
        Some(1),
        1 << 3,
    ),
];

#[test]
fn finds(rt: HostRuntime) {
    expect_finds(&rt, &REGIONS);
    expect_finds(&rt, &ORDERS_AND_LIMITS);
    expect_finds(&rt, &LAYERS);
}

// The order of `cost nearest`.
const FAR: Order = Order::Near(Near(Point { x: 12, y: -12 }));

static COSTS: [Row; 9] = [
    ("cost find all", Place::All, BY_ID, EACH, EVERY),
    (" cost\t find  all \r", Place::All, BY_ID, EACH, EVERY),
    ("cost find all first 6", Place::All, BY_ID, Some(6), EVERY),
    (
        "cost find all on 1 first 3",
        Place::All,
        BY_ID,
        Some(3),
        1 << 1,
    ),
    (
        "cost find window 20 30 0 4",
        Place::Window([20, 30, 0, 4]),
        BY_ID,
        EACH,
        EVERY,
    ),
    (
        "cost find inside -1 2 -3 4 smallest",
        Place::Inside(SIDES),
        SMALLEST,
        EACH,
        EVERY,
    ),
    (
        "cost find circle 1 2 3 on 0,3",
        Place::Circle(CIRCLE),
        NEAR_CENTRE,
        EACH,
        9,
    ),
    ("cost nearest 2 12 -12", Place::All, FAR, Some(2), EVERY),
    ("cost nearest 0 12 -12", Place::All, FAR, Some(0), EVERY),
];

static COSTS_OF_COUNTS: [CountRow; 3] = [
    ("cost count all", Place::All, EVERY),
    ("cost \tcount all on 1\r", Place::All, 1 << 1),
    (
        "cost count window 0 10 0 10",
        Place::Window([0, 10, 0, 10]),
        EVERY,
    ),
];

#[test]
fn costs(rt: HostRuntime) {
    for (line, place, order, limit, bits) in &COSTS {
        let query = Query::CostFind {
            region: region_of(&rt, *place),
            order: *order,
            limit: *limit,
            layers: Layers::new(*bits),
        };
        expect_parsed(&rt, line.as_bytes(), Parsed::Query(query));
    }
    for (line, place, bits) in &COSTS_OF_COUNTS {
        let query = Query::CostCount {
            region: region_of(&rt, *place),
            layers: Layers::new(*bits),
        };
        expect_parsed(&rt, line.as_bytes(), Parsed::Query(query));
    }
}
