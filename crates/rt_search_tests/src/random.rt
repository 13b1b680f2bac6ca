//! Searches and counts over random tables. `tests/search.py` makes the same tables, packs and searches them in its own
//! way, and looks for its own numbers here.

ghost use Rattle.std.specs.Prelude.{◌≤◌};
ghost use Rattle.rt_geo.specs.Layers.{most_layer};

use crate::expect::expect_eq;
use crate::tables::push_on;
use rt_geo::{
    All, Bounds, ById, Circle, Counted, Geometry, Guided, Layers, Near, OnLayers, Point, Rank,
    Shape, Smallest, Window,
};
use rt_search::{Frontier, Search, cost, count};
use rt_tree::{Table, Tree};
use std::alloc::Global;
use std::process::Abort;

// How the boxes of a table lie.
#[derive(Clone, Copy)]
enum Lie {
    // At most so far from 0, and at most so wide.
    Spread(u32, u32),
    // From one of `ENDS` to another.
    Ends,
}

// What layers the boxes of a table have.
#[derive(Clone, Copy)]
enum Kinds {
    // Any of so many.
    AnyOf(u32),
    // Those that go with the place.
    ByPlace,
}

#[derive(Clone, Copy)]
struct Case {
    seed: u64,
    lie: Lie,
    entries: u32,
    fanout: u8,
    kinds: Kinds,
    digest: u64,
}

static ENDS: [i32; 5] = [i32::MIN, -1, 0, 1, i32::MAX];

// Queries for each table, and the most answers that are requested where there is a limit.
const QUERIES: u32 = 3;

const MOST_ANSWERS: u64 = 12;

// The tables, each with the number of all that the searches and counts over it tell.
static CASES: [Case; 8] = [
    Case {
        seed: 1,
        lie: Lie::Spread(1_000, 50),
        entries: 120,
        fanout: 4,
        kinds: Kinds::AnyOf(64),
        digest: 2_175_116_353_363_919_717,
    },
    Case {
        seed: 2,
        lie: Lie::Spread(3, 2),
        entries: 90,
        fanout: 3,
        kinds: Kinds::AnyOf(3),
        digest: 1_630_893_816_778_446_787,
    },
    Case {
        seed: 3,
        lie: Lie::Spread(1_000_000_000, 100_000_000),
        entries: 200,
        fanout: 16,
        kinds: Kinds::ByPlace,
        digest: 2_513_138_314_226_199_934,
    },
    Case {
        seed: 4,
        lie: Lie::Ends,
        entries: 60,
        fanout: 2,
        kinds: Kinds::ByPlace,
        digest: 1_990_914_365_463_987_160,
    },
    Case {
        seed: 5,
        lie: Lie::Spread(0, 0),
        entries: 33,
        fanout: 2,
        kinds: Kinds::AnyOf(2),
        digest: 7_119_055_544_920_242_175,
    },
    Case {
        seed: 6,
        lie: Lie::Spread(20, 40),
        entries: 65,
        fanout: 64,
        kinds: Kinds::AnyOf(64),
        digest: 484_666_924_712_425_547,
    },
    Case {
        seed: 7,
        lie: Lie::Spread(100, 1),
        entries: 1,
        fanout: 2,
        kinds: Kinds::AnyOf(1),
        digest: 6_352_310_215_311_238_981,
    },
    Case {
        seed: 8,
        lie: Lie::Spread(100, 1),
        entries: 0,
        fanout: 2,
        kinds: Kinds::AnyOf(64),
        digest: 11_093_117_819_520_246_301,
    },
];

// A row of numbers below 2^31, always the same.
#[derive(Clone, Copy)]
struct Row {
    state: u64,
}

impl Row {
    fn next(&mut self) -> u32 {
        self.state = self
            .state
            .wrapping_mul(6_364_136_223_846_793_005)
            .wrapping_add(1_442_695_040_888_963_407);
        u32::try_from(self.state >> 33).unwrap_or(0)
    }

    fn up_to(&mut self, most: u32) -> i32 {
        i32::try_from(self.next() % most.wrapping_add(1).max(1)).unwrap_or(0)
    }

    // The low and the high side of a box on an axis.
    fn sides(&mut self, lie: Lie) -> (i32, i32) {
        match lie {
            Lie::Spread(reach, width) => {
                let low = self.middle(reach);
                (low, low.wrapping_add(self.up_to(width)))
            }
            Lie::Ends => {
                let one = self.end();
                let other = self.end();
                (one.min(other), one.max(other))
            }
        }
    }

    fn middle(&mut self, reach: u32) -> i32 {
        let from = self.up_to(reach.wrapping_mul(2));
        from.wrapping_sub(i32::try_from(reach).unwrap_or(0))
    }

    fn end(&mut self) -> i32 {
        match ENDS.get(self.next() as usize % ENDS.len()) {
            Some(end) => *end,
            None => 0,
        }
    }

    fn boxed(&mut self, rt: &impl Abort, lie: Lie) -> Bounds {
        let (min_x, max_x) = self.sides(lie);
        let (min_y, max_y) = self.sides(lie);
        Bounds::new(min_x, max_x, min_y, max_y).expect(rt, "the low side is the first")
    }

    // One of so many layers.
    fn layer_of(&mut self, layers: u32) -> u8
        ensures { result ≤ most_layer }
    {
        u8::try_from(self.next() % layers.max(1))
            .unwrap_or(0)
            .min(63)
    }

    // The layer of a box.
    fn layer(&mut self, kinds: Kinds, bounds: Bounds) -> u8
        ensures { result ≤ most_layer }
    {
        match kinds {
            Kinds::AnyOf(layers) => self.layer_of(layers),
            Kinds::ByPlace => u8::try_from(bounds.min_x().abs_diff(i32::MIN) / 67_108_864)
                .unwrap_or(0)
                .min(63),
        }
    }

    // Two layers, which may be one.
    fn selected(&mut self, kinds: Kinds) -> Layers {
        let layers = match kinds {
            Kinds::AnyOf(layers) => layers,
            Kinds::ByPlace => 64,
        };
        let one = Layers::of(self.layer_of(layers));
        one.union(Layers::of(self.layer_of(layers)))
    }
}

// One number for a row of numbers.
#[derive(Clone, Copy)]
struct Digest {
    value: u64,
}

impl Digest {
    fn add(&mut self, number: u64) {
        self.value = (self.value ^ number).wrapping_mul(1_099_511_628_211);
    }

    fn add_answer(&mut self, answer: Option<(i64, u128)>) {
        if let Some((id, score)) = answer {
            self.add(id.wrapping_add(32_768).unsigned_abs());
            self.add((score >> 64) as u64);
            self.add((score & 0xffff_ffff_ffff_ffff) as u64);
        }
    }
}

fn table_of(rt: &impl Abort, alloc: Global, row: &mut Row, case: &Case) -> Table {
    let mut table = Table::empty(alloc);
    for place in 0..case.entries {
        let id = (i64::from(place).wrapping_mul(7_919) % 65_537).wrapping_sub(32_768);
        let bounds = row.boxed(rt, case.lie);
        let layer = row.layer(case.kinds, bounds);
        push_on(rt, &mut table, id, bounds, layer);
    }
    table
}

// Adds each answer with the nodes opened up to it, and the checks made in the end. The cost is how many were opened.
fn add_search<G: Geometry>(
    rt: &impl Abort,
    tree: &Tree,
    frontier: Frontier,
    geometry: &G,
    limit: Option<u64>,
    digest: &mut Digest,
) -> Frontier {
    assert!(rt; tree.len() <= frontier.capacity(), "there is capacity");
    let mut search = Search::start(tree, frontier, Counted::new(geometry), limit);
    add_answers(&mut search, limit.unwrap_or(u64::MAX), digest);
    let reported = search.opened();
    let (frontier, counted) = search.finish();
    digest.add(counted.asked());
    assert!(rt; tree.len() <= frontier.capacity(), "there is capacity");
    let (opened, frontier) = cost(tree, frontier, Counted::new(geometry), limit);
    expect_eq(rt, opened, reported);
    frontier
}

fn add_answers<G: Geometry>(search: &mut Search<'_, G>, most: u64, digest: &mut Digest) {
    for _ in 0..most {
        let answer = search.next();
        digest.add_answer(answer);
        digest.add(search.opened());
        if answer.is_none() {
            break;
        }
    }
}

// Adds a search for all answers, those for one and more up to so many, and a count.
fn add_geometry<G: Geometry>(
    rt: &impl Abort,
    tree: &Tree,
    frontier: Frontier,
    geometry: &G,
    digest: &mut Digest,
) -> Frontier {
    let mut frontier = add_search(rt, tree, frontier, geometry, None, digest);
    for limit in 0..MOST_ANSWERS {
        let limit = limit.wrapping_add(1);
        frontier = add_search(rt, tree, frontier, geometry, Some(limit), digest);
    }
    assert!(rt; tree.len() <= frontier.capacity(), "there is capacity");
    let mut counted = Counted::new(geometry);
    let result = count(tree, &mut frontier, &mut counted);
    digest.add(result.accepted);
    digest.add(result.opened);
    digest.add(counted.asked());
    frontier
}

// Adds a shape with each rank, on all layers and then on some.
fn add_shape<S: Shape + Copy>(
    rt: &impl Abort,
    tree: &Tree,
    frontier: Frontier,
    shape: S,
    layers: Layers,
    point: Point,
    digest: &mut Digest,
) -> Frontier {
    let frontier = add_guided(rt, tree, frontier, shape, ById, digest);
    let frontier = add_guided(rt, tree, frontier, shape, Near(point), digest);
    let frontier = add_guided(rt, tree, frontier, shape, Smallest, digest);
    let frontier = add_on_layers(rt, tree, frontier, shape, layers, ById, digest);
    let frontier = add_on_layers(rt, tree, frontier, shape, layers, Near(point), digest);
    add_on_layers(rt, tree, frontier, shape, layers, Smallest, digest)
}

fn add_guided<S: Shape + Copy, R: Rank + Copy>(
    rt: &impl Abort,
    tree: &Tree,
    frontier: Frontier,
    shape: S,
    rank: R,
    digest: &mut Digest,
) -> Frontier {
    let geometry = Guided { shape, rank };
    add_geometry(rt, tree, frontier, &geometry, digest)
}

fn add_on_layers<S: Shape + Copy, R: Rank + Copy>(
    rt: &impl Abort,
    tree: &Tree,
    frontier: Frontier,
    shape: S,
    layers: Layers,
    rank: R,
    digest: &mut Digest,
) -> Frontier {
    let shape = OnLayers { shape, layers };
    let geometry = Guided { shape, rank };
    add_geometry(rt, tree, frontier, &geometry, digest)
}

fn digest_of(rt: &impl Abort, alloc: Global, case: &Case) -> u64 {
    let mut row = Row { state: case.seed };
    let table = table_of(rt, alloc, &mut row, case);
    assert!(rt; 2 <= case.fanout && case.fanout <= 64, "it is a fanout");
    let tree = Tree::pack(alloc, table, case.fanout).expect(rt, "there is memory");
    let mut frontier = Frontier::new(alloc, tree.len()).expect(rt, "there is memory");
    let mut digest = Digest {
        value: 14_695_981_039_346_656_037,
    };
    for _ in 0..QUERIES {
        frontier = add_shapes(rt, &tree, frontier, &mut row, case, &mut digest);
    }
    digest.value
}

// Adds a window, a circle and all boxes.
fn add_shapes(
    rt: &impl Abort,
    tree: &Tree,
    frontier: Frontier,
    row: &mut Row,
    case: &Case,
    digest: &mut Digest,
) -> Frontier {
    let area = row.boxed(rt, case.lie);
    let around = row.boxed(rt, case.lie);
    let point = Point {
        x: around.min_x(),
        y: around.min_y(),
    };
    let circle = Circle {
        centre: point,
        radius: around.max_x().abs_diff(area.max_x()),
    };
    let layers = row.selected(case.kinds);
    let frontier = add_shape(rt, tree, frontier, Window(area), layers, point, digest);
    let frontier = add_shape(rt, tree, frontier, circle, layers, point, digest);
    add_shape(rt, tree, frontier, All, layers, point, digest)
}

#[test]
fn random_tables_are_searched_as_by_another_search(rt: HostRuntime) {
    for case in &CASES {
        let digest = digest_of(&rt, rt.alloc(), case);
        expect_eq(&rt, (case.seed, digest), (case.seed, case.digest));
    }
}
