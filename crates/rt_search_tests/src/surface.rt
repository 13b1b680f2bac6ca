//! The public calls as other crates write them: over the five boxes of the examples, two children a node, with the nodes
//! that are opened before each answer.

use crate::expect::expect_eq;
use crate::tables::{Sides, boxed, push};
use rt_geo::{All, ById, Counted, Geometry, Guided, Near, Point, Smallest, Window};
use rt_search::{Count, Frontier, Search, cost, count};
use rt_tree::{Table, Tree};
use std::alloc::AllocGlobal;
use std::process::Abort;

static BOXES: [Sides; 5] = [
    [0, 10, 0, 10],
    [5, 15, 5, 15],
    [20, 30, 0, 10],
    [-5, -1, -5, -1],
    [12, 12, 12, 12],
];

fn five(rt: &(impl Abort + AllocGlobal)) -> Tree {
    let mut table = Table::empty(rt.alloc());
    let mut id = 0i64;
    for sides in &BOXES {
        id = id.wrapping_add(1);
        push(rt, &mut table, id, boxed(rt, *sides));
    }
    Tree::pack(rt.alloc(), table, 2).expect(rt, "there is memory")
}

fn near() -> Guided<All, Near> {
    Guided {
        shape: All,
        rank: Near(Point { x: 12, y: 12 }),
    }
}

#[test]
fn a_frontier_has_its_capacity(rt: HostRuntime) {
    let frontier = Frontier::new(rt.alloc(), 5).expect(&rt, "there is memory");
    expect_eq(&rt, (frontier.capacity(), frontier.len()), (5, 0));
}

#[test]
fn a_count_has_what_is_accepted_and_what_was_opened(rt: HostRuntime) {
    let tree = five(&rt);
    let mut frontier = Frontier::new(rt.alloc(), tree.len()).expect(&rt, "there is memory");
    let window = Guided {
        shape: Window(boxed(&rt, [0, 10, 0, 10])),
        rank: ById,
    };
    let mut counted = Counted::new(&window);
    let Count { accepted, opened } = count(&tree, &mut frontier, &mut counted);
    expect_eq(&rt, (accepted, opened, counted.asked()), (2, 5, 9));
    expect_eq(&rt, frontier.capacity(), 5);
}

#[test]
fn a_search_gives_ids_and_scores(rt: HostRuntime) {
    let tree = five(&rt);
    let frontier = Frontier::new(rt.alloc(), tree.len()).expect(&rt, "there is memory");
    let geometry = near();
    let mut search = Search::start(&tree, frontier, Counted::new(&geometry), Some(3));
    expect_eq(&rt, search.next(), Some((2, 0)));
    expect_eq(&rt, search.next(), Some((5, 0)));
    expect_eq(&rt, search.next(), Some((1, 8)));
    expect_eq(&rt, (search.next(), search.next()), (None, None));
    expect_eq(&rt, search.opened(), 5);
    let (frontier, counted) = search.finish();
    expect_eq(&rt, (frontier.capacity(), counted.asked()), (5, 9));
}

// A limit, and how many nodes are opened after each answer, for an order without scores of nodes.
static AT_ONCE: [(Option<u64>, &[u64]); 5] = [
    (None, &[6, 6, 6, 6, 6]),
    (Some(0), &[]),
    (Some(1), &[6]),
    (Some(64), &[6, 6, 6, 6, 6]),
    (Some(65), &[6, 6, 6, 6, 6]),
];

// The same by distance.
static BY_DISTANCE: [(Option<u64>, &[u64]); 5] = [
    (None, &[3, 3, 5, 6, 6]),
    (Some(0), &[]),
    (Some(1), &[3]),
    (Some(3), &[3, 3, 5]),
    (Some(65), &[3, 3, 5, 6, 6]),
];

#[test]
fn what_was_opened_is_reported_after_each_answer(rt: HostRuntime) {
    let (by_id, by_area) = (
        Guided {
            shape: All,
            rank: ById,
        },
        Guided {
            shape: All,
            rank: Smallest,
        },
    );
    for (limit, opened) in &AT_ONCE {
        expect_opened(&rt, &by_id, *limit, opened);
        expect_opened(&rt, &by_area, *limit, opened);
    }
    for (limit, opened) in &BY_DISTANCE {
        expect_opened(&rt, &near(), *limit, opened);
    }
}

fn expect_opened<G: Geometry>(
    rt: &(impl Abort + AllocGlobal),
    geometry: &G,
    limit: Option<u64>,
    opened: &[u64],
) {
    let tree = five(rt);
    let frontier = Frontier::new(rt.alloc(), tree.len()).expect(rt, "there is memory");
    let mut search = Search::start(&tree, frontier, Counted::new(geometry), limit);
    expect_eq(rt, search.opened(), 0);
    for want in opened {
        assert!(rt; search.next().is_some());
        expect_eq(rt, search.opened(), *want);
    }
    expect_eq(rt, search.next(), None);
    let last = opened.last().copied().unwrap_or(0);
    expect_eq(rt, search.opened(), last);
    expect_cost(rt, geometry, limit, last);
}

fn expect_cost<G: Geometry>(
    rt: &(impl Abort + AllocGlobal),
    geometry: &G,
    limit: Option<u64>,
    opened: u64,
) {
    let tree = five(rt);
    let frontier = Frontier::new(rt.alloc(), tree.len()).expect(rt, "there is memory");
    let (costs, _frontier) = cost(&tree, frontier, Counted::new(geometry), limit);
    expect_eq(rt, costs, opened);
}
