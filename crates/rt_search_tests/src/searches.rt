//! Searches and counts over small trees, with answers and numbers that were worked out by hand.

ghost use Rattle.std.specs.Prelude.{◌≡◌, ◌≤◌, length};

use crate::expect::expect_eq;
use crate::searching::first_answer;
use crate::tables::{Sides, boxed, push};
use crate::uneven::Uneven;
use crate::watched::Watched;
use rt_geo::{
    All, ById, Circle, Counted, Geometry, Guided, Inside, Layers, Near, OnLayers, Order, Point,
    Region, Smallest, Unscored, Window,
};
use rt_search::{Count, Frontier, Search, cost, count};
use rt_tree::{Table, Tree};
use std::alloc::AllocGlobal;
use std::process::Abort;
use std::test::Fail;

// The five boxes of the examples, in the order of their records.
pub(crate) static BOXES: [(i64, Sides); 5] = [
    (1, [0, 10, 0, 10]),
    (2, [5, 15, 5, 15]),
    (3, [20, 30, 0, 10]),
    (4, [-5, -1, -5, -1]),
    (5, [12, 12, 12, 12]),
];

pub(crate) fn pack(rt: &(impl Abort + AllocGlobal), boxes: &[(i64, Sides)]) -> Tree {
    let mut table = Table::empty(rt.alloc());
    for (id, sides) in boxes {
        push(rt, &mut table, *id, boxed(rt, *sides));
    }
    Tree::pack(rt.alloc(), table, 2).expect(rt, "there is memory")
}

// 64 boxes round the origin: all one point, or each wider than the last.
fn nested(grows: bool) -> [(i64, Sides); 64] {
    let mut boxes = [(0, [0; 4]); 64];
    let mut id = 0i32;
    for named in &mut boxes {
        id = id.wrapping_add(1);
        let high = if grows { id } else { 0 };
        let low = high.wrapping_neg();
        *named = (i64::from(id), [low, high, low, high]);
    }
    boxes
}

// What a search has to give and to do: its answers, the nodes opened and the checks made.
#[derive(Clone, Copy)]
struct Want<'a> {
    answers: &'a [(i64, u128)],
    opened: u64,
    asked: u64,
}

static NOTHING: Want<'static> = Want {
    answers: &[],
    opened: 0,
    asked: 0,
};

// The boxes are packed by what searches them, so that a test has no tree of its own to drop.
fn expect_search<G: Geometry>(
    rt: &(impl Abort + AllocGlobal),
    boxes: &[(i64, Sides)],
    geometry: &G,
    limit: Option<u64>,
    want: &Want<'_>,
) {
    let tree = pack(rt, boxes);
    let frontier = Frontier::new(rt.alloc(), tree.len()).expect(rt, "there is memory");
    expect_search_over(rt, &tree, frontier, geometry, limit, want);
}

fn expect_search_over<G: Geometry>(
    rt: &impl Abort,
    tree: &Tree,
    frontier: Frontier,
    geometry: &G,
    limit: Option<u64>,
    want: &Want<'_>,
)
    requires capacity { length tree.now.entries ≤ frontier.capacity }
{
    let search = Search::start(tree, frontier, Counted::new(geometry), limit);
    expect_eq(rt, search.opened(), 0);
    expect_answers(rt, search, tree.len(), want);
}

fn expect_answers<G: Geometry>(
    rt: &impl Abort,
    search: Search<'_, G>,
    capacity: u32,
    want: &Want<'_>,
) {
    let mut search = search;
    for place in 0..want.answers.len() + 2 {
        expect_eq(rt, search.next(), answer_at(want.answers, place));
    }
    expect_eq(rt, search.opened(), want.opened);
    expect_finished(rt, search.finish(), capacity, want.asked);
}

// What a search gives after so many answers: behind the last it gives none, however often it is called.
fn answer_at(answers: &[(i64, u128)], place: usize) -> Option<(i64, u128)> {
    answers.get(place).copied()
}

// The nodes that a search for so many answers opens, without the answers.
fn expect_cost<G: Geometry>(
    rt: &(impl Abort + AllocGlobal),
    boxes: &[(i64, Sides)],
    geometry: &G,
    limit: Option<u64>,
    want: u64,
) {
    let tree = pack(rt, boxes);
    let frontier = Frontier::new(rt.alloc(), tree.len()).expect(rt, "there is memory");
    let (opened, frontier) = cost(&tree, frontier, Counted::new(geometry), limit);
    expect_eq(rt, (opened, frontier.capacity()), (want, tree.len()));
}

// What a search gives without a limit, and the first of that with one. Where nodes have no scores, each limit but 0 opens
// the same nodes, all of them before the first answer.
fn expect_with_limits<G: Geometry>(
    rt: &(impl Abort + AllocGlobal),
    boxes: &[(i64, Sides)],
    geometry: &G,
    want: &Want<'_>,
) {
    expect_search(rt, boxes, geometry, None, want);
    let tree = pack(rt, boxes);
    for count in 0..want.answers.len() + 2 {
        expect_first_answers(rt, &tree, geometry, count, want);
    }
}

pub(crate) fn search<'a, G: Geometry>(
    rt: &(impl Abort + AllocGlobal),
    tree: &'a Tree,
    geometry: &'a G,
    limit: Option<u64>,
) -> Search<'a, G> {
    let frontier = Frontier::new(rt.alloc(), tree.len()).expect(rt, "there is memory");
    Search::start(tree, frontier, Counted::new(geometry), limit)
}

// The frontier of a search that is finished, and the geometry with the number of its checks.
fn expect_finished<G: Geometry>(
    rt: &impl Abort,
    finished: (Frontier, Counted<'_, G>),
    capacity: u32,
    asked: u64,
) {
    let (frontier, counted) = finished;
    expect_eq(
        rt,
        (frontier.capacity(), counted.asked()),
        (capacity, asked),
    );
}

fn expect_first_answers<G: Geometry>(
    rt: &(impl Abort + AllocGlobal),
    tree: &Tree,
    geometry: &G,
    count: usize,
    want: &Want<'_>,
) {
    let mut first = search(rt, tree, geometry, Some(count as u64));
    expect_eq(rt, first.opened(), 0);
    let answers = &want.answers[..count.min(want.answers.len())];
    for place in 0..answers.len() + 2 {
        expect_eq(rt, first.next(), answer_at(answers, place));
        if !G::scores_nodes() {
            expect_eq(rt, first.opened(), if count == 0 { 0 } else { want.opened });
        }
    }
    let (frontier, _counted) = first.finish();
    expect_eq(rt, frontier.capacity(), tree.len());
}

// How many entries a count accepts, and how many nodes it opens.
fn expect_count<G: Geometry>(
    rt: &(impl Abort + AllocGlobal),
    boxes: &[(i64, Sides)],
    geometry: &G,
    accepted: u64,
    opened: u64,
) {
    let want = Count { accepted, opened };
    let tree = pack(rt, boxes);
    let mut frontier = Frontier::new(rt.alloc(), tree.len()).expect(rt, "there is memory");
    let _asked = expect_count_over(rt, &tree, &mut frontier, geometry, want);
}

// A count over a frontier, in which nothing is left. Returns the number of its checks.
fn expect_count_over<G: Geometry>(
    rt: &impl Abort,
    tree: &Tree,
    frontier: &mut Frontier,
    geometry: &G,
    want: Count,
) -> u64
    ensures capacity { frontier.new.capacity ≡ frontier.old.capacity }
{
    let mut counted = Counted::new(geometry);
    expect_eq(rt, count(tree, frontier, &mut counted), want);
    expect_eq(rt, frontier.len(), 0);
    counted.asked()
}

fn all_by_id() -> Guided<All, ById> {
    Guided {
        shape: All,
        rank: ById,
    }
}

fn near(x: i32, y: i32) -> Guided<All, Near> {
    Guided {
        shape: All,
        rank: Near(Point { x, y }),
    }
}

static BY_ID: Guided<All, ById> = Guided {
    shape: All,
    rank: ById,
};

static BY_AREA: Guided<All, Smallest> = Guided {
    shape: All,
    rank: Smallest,
};

fn in_window(rt: &impl Abort, sides: Sides) -> Guided<Window, ById> {
    Guided {
        shape: Window(boxed(rt, sides)),
        rank: ById,
    }
}

// How many of the nearest are requested.
static NEAREST: [(u64, Want<'static>); 3] = [
    (
        3,
        Want {
            answers: &[(2, 0), (5, 0), (1, 8)],
            opened: 5,
            asked: 9,
        },
    ),
    (
        2,
        Want {
            answers: &[(2, 0), (5, 0)],
            opened: 3,
            asked: 5,
        },
    ),
    (
        0,
        Want {
            answers: &[],
            opened: 0,
            asked: 0,
        },
    ),
];

#[test]
fn the_nearest_are_found_with_exact_work(rt: HostRuntime) {
    let geometry = near(12, 12);
    for (limit, want) in &NEAREST {
        expect_search(&rt, &BOXES, &geometry, Some(*limit), want);
        expect_cost(&rt, &BOXES, &geometry, Some(*limit), want.opened);
    }
    expect_cost(&rt, &BOXES, &geometry, None, 6);
}

static ALL_BY_ID: Want<'static> = Want {
    answers: &[(1, 0), (2, 0), (3, 0), (4, 0), (5, 0)],
    opened: 6,
    asked: 10,
};

#[test]
fn nodes_come_before_entries_at_equal_score(rt: HostRuntime) {
    expect_with_limits(&rt, &BOXES, &BY_ID, &ALL_BY_ID);
}

static FIRST_TWO: Want<'static> = Want {
    answers: &[(1, 0), (2, 0)],
    opened: 6,
    asked: 10,
};

static FIRST_IN_WINDOW: Want<'static> = Want {
    answers: &[(1, 0)],
    opened: 5,
    asked: 9,
};

// However few are needed, as no node has a score.
#[test]
fn nodes_without_a_score_are_opened_before_the_first_answer(rt: HostRuntime) {
    expect_search(&rt, &BOXES, &BY_ID, Some(2), &FIRST_TWO);
    let window = in_window(&rt, [0, 10, 0, 10]);
    expect_search(&rt, &BOXES, &window, Some(1), &FIRST_IN_WINDOW);
}

static ALL_BY_AREA: Want<'static> = Want {
    answers: &[(5, 0), (4, 16), (1, 100), (2, 100), (3, 100)],
    opened: 6,
    asked: 10,
};

#[test]
fn areas_are_scores_of_entries_alone(rt: HostRuntime) {
    expect_with_limits(&rt, &BOXES, &BY_AREA, &ALL_BY_AREA);
}

// Neither where none is needed nor where there is none.
#[test]
fn nothing_is_opened_for_no_answer(rt: HostRuntime) {
    expect_search(&rt, &BOXES, &BY_ID, Some(0), &NOTHING);
    expect_search(&rt, &[], &BY_ID, Some(1), &NOTHING);
}

static IN_CIRCLE: Want<'static> = Want {
    answers: &[(1, 0), (4, 0)],
    opened: 3,
    asked: 6,
};

// No query line asks so: one that has a circle and no order asks for the nearest first.
#[test]
fn circles_are_ordered_by_id_too(rt: HostRuntime) {
    let circle = Guided {
        shape: Region::Circle(Circle {
            centre: Point::default(),
            radius: 2,
        }),
        rank: Order::ById(ById),
    };
    expect_with_limits(&rt, &BOXES, &circle, &IN_CIRCLE);
}

static ALL_UNEVEN: Want<'static> = Want {
    answers: &[(1, 10), (2, 10), (3, 10), (4, 10), (5, 10)],
    opened: 6,
    asked: 10,
};

static FIRST_UNEVEN: Want<'static> = Want {
    answers: &[(1, 10)],
    opened: 6,
    asked: 10,
};

#[test]
fn a_node_may_score_above_its_children(rt: HostRuntime) {
    expect_with_limits(&rt, &BOXES, &Uneven, &ALL_UNEVEN);
    expect_search(&rt, &BOXES, &Uneven, Some(1), &FIRST_UNEVEN);
}

#[test]
fn a_search_of_ones_own_gives_the_first_answer(rt: HostRuntime) {
    let tree = pack(&rt, &BOXES);
    let frontier = Frontier::new(rt.alloc(), tree.len()).expect(&rt, "there is memory");
    let (answer, opened, _frontier) = first_answer(&tree, frontier);
    expect_eq(&rt, (answer, opened), (Some((1, 10)), 6));
}

#[test]
fn counts_whole_subtrees(rt: HostRuntime) {
    let window = in_window(&rt, [0, 10, 0, 10]);
    expect_count(&rt, &BOXES, &window, 2, 5);
    expect_count(&rt, &BOXES, &BY_ID, 5, 1);
}

#[test]
fn a_layer_that_no_box_has_counts_nothing(rt: HostRuntime) {
    let on_one = Guided {
        shape: OnLayers {
            shape: All,
            layers: Layers::of(1),
        },
        rank: ById,
    };
    expect_count(&rt, &BOXES, &on_one, 0, 1);
}

#[test]
fn nothing_is_opened_in_an_empty_tree(rt: HostRuntime) {
    expect_with_limits(&rt, &[], &BY_ID, &NOTHING);
    expect_cost(&rt, &[], &BY_ID, None, 0);
    expect_count(&rt, &[], &BY_ID, 0, 0);
}

static NEAREST_OF_EQUAL: Want<'static> = Want {
    answers: &[(1, 0)],
    opened: 63,
    asked: 126,
};

static BESIDE_EQUAL: Want<'static> = Want {
    answers: &[],
    opened: 1,
    asked: 2,
};

#[test]
fn equal_boxes_are_all_opened_for_the_nearest(rt: HostRuntime) {
    let boxes = nested(false);
    expect_search(&rt, &boxes, &near(0, 0), Some(1), &NEAREST_OF_EQUAL);
    let window = in_window(&rt, [1, 1, 1, 1]);
    expect_with_limits(&rt, &boxes, &window, &BESIDE_EQUAL);
    expect_count(&rt, &boxes, &BY_ID, 64, 1);
}

static NEAREST_OF_NESTED: Want<'static> = Want {
    answers: &[(64, 2592)],
    opened: 6,
    asked: 12,
};

#[test]
fn nested_boxes_are_distinguished(rt: HostRuntime) {
    let boxes = nested(true);
    let geometry = near(100, 100);
    expect_search(&rt, &boxes, &geometry, Some(1), &NEAREST_OF_NESTED);
    let inside = Guided {
        shape: Inside(boxed(&rt, [-32, 32, -32, 32])),
        rank: ById,
    };
    expect_count(&rt, &boxes, &inside, 32, 32);
}

static CORNERS: [(i64, Sides); 4] = [
    (1, [i32::MIN, i32::MIN, i32::MIN, i32::MIN]),
    (2, [i32::MAX, i32::MAX, i32::MIN, i32::MIN]),
    (3, [i32::MIN, i32::MIN, i32::MAX, i32::MAX]),
    (4, [i32::MAX, i32::MAX, i32::MAX, i32::MAX]),
];

static FROM_THE_FIRST_CORNER: Want<'static> = Want {
    answers: &[
        (1, 0),
        (2, 18_446_744_065_119_617_025),
        (3, 18_446_744_065_119_617_025),
        (4, 36_893_488_130_239_234_050),
    ],
    opened: 3,
    asked: 6,
};

#[test]
fn the_corners_of_the_plane_have_their_scores(rt: HostRuntime) {
    let first = near(i32::MIN, i32::MIN);
    expect_search(&rt, &CORNERS, &first, Some(4), &FROM_THE_FIRST_CORNER);
}

static AT_THE_ORIGIN: [(i64, Sides); 4] = [
    (0, [0, 0, 0, 0]),
    (i64::MAX, [0, 0, 0, 0]),
    (i64::MIN, [0, 0, 0, 0]),
    (-1, [0, 0, 0, 0]),
];

static EACH_AT_25: Want<'static> = Want {
    answers: &[(i64::MIN, 25), (-1, 25), (0, 25), (i64::MAX, 25)],
    opened: 3,
    asked: 6,
};

#[test]
fn at_equal_scores_the_lowest_id_comes_first(rt: HostRuntime) {
    expect_with_limits(&rt, &AT_THE_ORIGIN, &near(3, 4), &EACH_AT_25);
}

// The greatest x of what is shown, in the order in which nodes are opened and their children stand.
#[test]
fn nodes_are_opened_by_score_and_number_or_in_turn(rt: HostRuntime) {
    // root: d, e; d: a, c; a, c; e: b; b
    let shown = [30, 15, 10, 30, -1, 10, 30, 15, 15, 12];
    expect_shown(&rt, all_by_id(), None, &ALL_BY_ID, shown);
    expect_shown(&rt, all_by_id(), Some(2), &FIRST_TWO, shown);
    // root; e, b; d, a; never c
    let shown = [30, 15, 15, 15, 12, 10, 30, -1, 10, 0];
    expect_shown(&rt, near(12, 12), Some(3), &NEAREST[0].1, shown);
}

fn expect_shown<G: Geometry + Drop>(
    rt: &(impl Abort + AllocGlobal),
    geometry: G,
    limit: Option<u64>,
    want: &Want<'_>,
    shown: [i32; 10],
) {
    let watched = Watched::new(geometry);
    expect_search(rt, &BOXES, &watched, limit, want);
    expect_eq(rt, watched.shown(), shown);
}

// What is shown for the window. root: d, e; d: a, c; a, never c; e: b; b
static SHOWN_FOR_WINDOW: [i32; 10] = [30, 15, 10, 30, -1, 10, 15, 15, 12, 0];

// The same of a count. No box is shown twice.
#[test]
fn a_count_asks_about_each_child_once(rt: HostRuntime) {
    let tree = pack(&rt, &BOXES);
    let mut frontier = Frontier::new(rt.alloc(), tree.len()).expect(&rt, "there is memory");
    let window = Watched::new(in_window(&rt, [0, 10, 0, 10]));
    let _two = count(&tree, &mut frontier, &mut Counted::new(&window));
    expect_eq(&rt, window.shown(), SHOWN_FOR_WINDOW);
}

// Ids, in no order and then in order: those that lie close together are put in order by marks, and others sorted.
static IDS: [([i64; 5], [i64; 5]); 7] = [
    ([5, 3, 4, 1, 2], [1, 2, 3, 4, 5]),
    ([1, 0, -2, 2, -1], [-2, -1, 0, 1, 2]),
    ([9, 7, 5, 8, 10], [5, 7, 8, 9, 10]),
    (
        [
            i64::MAX,
            i64::MAX - 4,
            i64::MAX - 1,
            i64::MAX - 3,
            i64::MAX - 2,
        ],
        [
            i64::MAX - 4,
            i64::MAX - 3,
            i64::MAX - 2,
            i64::MAX - 1,
            i64::MAX,
        ],
    ),
    (
        [
            i64::MIN + 2,
            i64::MIN,
            i64::MIN + 4,
            i64::MIN + 1,
            i64::MIN + 3,
        ],
        [
            i64::MIN,
            i64::MIN + 1,
            i64::MIN + 2,
            i64::MIN + 3,
            i64::MIN + 4,
        ],
    ),
    (
        [i64::MAX, 0, i64::MIN, 1, -1],
        [i64::MIN, -1, 0, 1, i64::MAX],
    ),
    ([1_000_000, 3, 1, 2, 0], [0, 1, 2, 3, 1_000_000]),
];

#[test]
fn all_answers_come_in_order_of_their_ids(rt: HostRuntime) {
    for (ids, in_order) in &IDS {
        let tree = of_ids(&rt, ids);
        expect_ids(&rt, &tree, in_order);
    }
}

fn of_ids(rt: &(impl Abort + AllocGlobal), ids: &[i64]) -> Tree {
    let mut table = Table::empty(rt.alloc());
    for id in ids {
        push(rt, &mut table, *id, boxed(rt, [0, 0, 0, 0]));
    }
    Tree::pack(rt.alloc(), table, 2).expect(rt, "there is memory")
}

fn expect_ids(rt: &(impl Abort + AllocGlobal), tree: &Tree, ids: &[i64]) {
    let mut search = search(rt, tree, &BY_ID, None);
    for id in ids {
        expect_eq(rt, search.next(), Some((*id, 0)));
    }
    expect_eq(rt, search.next(), None);
    let _end = search.finish();
}

// Of many that are found those behind the limit are given up first: by a sample where at most half are needed.
#[test]
fn a_limit_gives_the_first_of_all(rt: HostRuntime) {
    expect_first_of_all(&rt, &BY_ID);
    expect_first_of_all(&rt, &BY_AREA);
    expect_first_of_all(&rt, &near(i32::MAX, i32::MIN));
}

fn many(rt: &(impl Abort + AllocGlobal)) -> Tree {
    let mut table = Table::empty(rt.alloc());
    for i in 0..1_200 {
        let bounds = boxed(rt, [0, i % 40, 0, i % 30]);
        let id = i64::from(i) * 7_919 % 10_007 - 5_000;
        push(rt, &mut table, id, bounds);
    }
    Tree::pack(rt.alloc(), table, 16).expect(rt, "there is memory")
}

static LIMITS: [u64; 15] = [
    0, 1, 2, 63, 64, 65, 128, 129, 300, 599, 600, 601, 1_199, 1_200, 5_000,
];

fn expect_first_of_all<G: Geometry>(rt: &(impl Abort + AllocGlobal), geometry: &G) {
    let tree = many(rt);
    for limit in &LIMITS {
        expect_first_so_many(rt, &tree, geometry, *limit);
    }
}

fn expect_first_so_many<G: Geometry>(
    rt: &(impl Abort + AllocGlobal),
    tree: &Tree,
    geometry: &G,
    limit: u64,
) {
    let mut all = search(rt, tree, geometry, None);
    let mut first = search(rt, tree, geometry, Some(limit));
    for _ in 0..limit {
        expect_eq(rt, first.next(), all.next());
    }
    expect_eq(rt, first.next(), None);
    let _all = all.finish();
    let _first = first.finish();
}

// The same of a search whose nodes have no scores: none is shown before the first answer is requested, and then all.
#[test]
fn nodes_without_scores_are_shown_at_the_first_answer(rt: HostRuntime) {
    for limit in [None, Some(1), Some(64), Some(65)] {
        let window = Watched::new(in_window(&rt, [0, 10, 0, 10]));
        expect_shown_at_the_first(&rt, &pack(&rt, &BOXES), &window, limit);
    }
}

fn expect_shown_at_the_first(
    rt: &(impl Abort + AllocGlobal),
    tree: &Tree,
    window: &Watched<Guided<Window, ById>>,
    limit: Option<u64>,
) {
    let mut search = search(rt, tree, window, limit);
    expect_eq(rt, window.shown(), [0; 10]);
    expect_eq(rt, search.next(), Some((1, 0)));
    expect_eq(rt, window.shown(), SHOWN_FOR_WINDOW);
    let _end = search.finish();
}

// With scores the first answer comes before the last node is opened, whether there is a limit or none.
#[test]
fn the_first_answer_comes_before_the_last_node_is_opened(rt: HostRuntime) {
    let tree = many(&rt);
    for limit in [None, Some(1), Some(100), Some(5_000)] {
        expect_early(&rt, &tree, limit);
    }
}

fn expect_early(rt: &(impl Abort + AllocGlobal), tree: &Tree, limit: Option<u64>) {
    let geometry = near(i32::MAX, i32::MIN);
    let mut search = search(rt, tree, &geometry, limit);
    assert!(rt; search.next().is_some());
    assert!(rt; 0 < search.opened() && search.opened() < u64::from(tree.node_len()) / 2);
    let _end = search.finish();
}

// The same boxes and scores without the scores of nodes: the same answers, and without a limit as many nodes opened.
#[test]
fn without_the_scores_of_nodes_the_answers_are_the_same(rt: HostRuntime) {
    let tree = many(&rt);
    let scored = near(i32::MAX, i32::MIN);
    for limit in [None, Some(64), Some(65), Some(1_200)] {
        expect_same(
            &rt,
            &tree,
            &scored,
            &Unscored(near(i32::MAX, i32::MIN)),
            limit,
        );
    }
}

fn expect_same<G: Geometry, H: Geometry>(
    rt: &(impl Abort + AllocGlobal),
    tree: &Tree,
    scored: &G,
    unscored: &H,
    limit: Option<u64>,
) {
    let mut one = search(rt, tree, scored, limit);
    let mut other = search(rt, tree, unscored, limit);
    for _ in 0..1_201 {
        expect_eq(rt, one.next(), other.next());
    }
    if limit.is_none() {
        expect_eq(rt, one.opened(), other.opened());
    }
    let _one = one.finish();
    let _other = other.finish();
}

static IN_WINDOW: Want<'static> = Want {
    answers: &[(1, 0), (2, 0)],
    opened: 5,
    asked: 9,
};

// A search that is finished early leaves in its frontier what still waited.
#[test]
fn a_count_gives_up_what_a_search_left(rt: HostRuntime) {
    let tree = pack(&rt, &BOXES);
    let mut frontier = left_by_a_search(&rt, &tree);
    let window = in_window(&rt, [0, 10, 0, 10]);
    let want = Count {
        accepted: 2,
        opened: 5,
    };
    let asked = expect_count_over(&rt, &tree, &mut frontier, &window, want);
    expect_eq(&rt, asked, 9);
    expect_search_over(&rt, &tree, frontier, &window, None, &IN_WINDOW);
}

fn left_by_a_search(rt: &(impl Abort + AllocGlobal), tree: &Tree) -> Frontier
    ensures capacity { length tree.now.entries ≤ result.capacity }
{
    let frontier = Frontier::new(rt.alloc(), tree.len()).expect(rt, "there is memory");
    let nearest = near(12, 12);
    let mut search = Search::start(tree, frontier, Counted::new(&nearest), None);
    expect_eq(rt, search.next(), Some((2, 0)));
    let (frontier, _counted) = search.finish();
    assert!(rt; 0 < frontier.len());
    frontier
}

static CAPACITIES: [u32; 4] = [0, 1, 5, 100_000];

// Where an allocator refuses one growth, as tests/refusals.py has it, this reports it, and else it passes.
#[test]
fn a_refused_frontier_is_reported(rt: HostRuntime) -> Result<(), Fail> {
    for capacity in &CAPACITIES {
        let Ok(frontier) = Frontier::new(rt.alloc(), *capacity) else {
            assert!(rt; Frontier::new(rt.alloc(), *capacity).is_ok());
            return Err(Fail::new("reported as refused"));
        };
        expect_eq(&rt, (frontier.capacity(), frontier.len()), (*capacity, 0));
    }
    Ok(())
}
