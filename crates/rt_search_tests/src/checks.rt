//! In which order a geometry is called, over the tree of `opening`: when a node is opened all its children are checked, in
//! the order of their numbers or places, before the next node is opened.

use crate::expect::expect_eq;
use crate::opening::all_on;
use crate::searches::{BOXES, pack, search};
use crate::tables::boxed;
use crate::watched::Watched;
use rt_geo::{All, ById, Counted, Geometry, Guided, Info, Verdict, Window};
use rt_search::{Frontier, count};
use std::alloc::AllocGlobal;
use std::process::Abort;

// A node or an entry, by its level and its greatest x, which together no other has.
type Shown = (u8, i32);

const D: Shown = (2, 30);

const E: Shown = (2, 15);

const A: Shown = (1, 10);

const C: Shown = (1, 30);

const B: Shown = (1, 15);

const BOX_1: Shown = (0, 10);

const BOX_2: Shown = (0, 15);

const BOX_3: Shown = (0, 30);

const BOX_4: Shown = (0, -1);

const BOX_5: Shown = (0, 12);

// All that is under the root.
const ALL: [Shown; 10] = [D, E, A, C, BOX_4, BOX_1, BOX_3, B, BOX_2, BOX_5];

// What may hold a box that shares a point with the window from 0 to 10.
const IN_WINDOW: [Shown; 9] = [D, E, A, C, BOX_4, BOX_1, B, BOX_2, BOX_5];

// Limits below and above those up to which a search keeps its answers in a queue.
const LIMITS: [Option<u64>; 4] = [None, Some(5), Some(64), Some(65)];

/// A geometry of one's own, which answers as another and says nothing of its nodes' scores.
#[derive(Drop)]
struct Own<G: Geometry>(G);

impl<G: Geometry> Geometry for Own<G> {
    ghost meaning = { λ own. G.meaning own.0 };

    fn check(&self, info: &Info) -> Verdict {
        self.0.check(info)
    }

    ghost lawful = { λ own. G.lawful own.0 };
}

fn expect_shown<G: Geometry>(rt: &impl Abort, watched: &Watched<G>, want: &[Shown]) {
    for (place, shown) in want.iter().enumerate() {
        expect_eq(rt, watched.at(place), Some(*shown));
    }
    expect_eq(rt, watched.at(want.len()), None);
}

// What is checked before the first answer.
fn expect_found<G: Geometry + Drop>(
    rt: &(impl Abort + AllocGlobal),
    geometry: G,
    limit: Option<u64>,
    want: &[Shown],
) {
    let watched = Watched::new(geometry);
    let tree = pack(rt, &BOXES);
    let mut search = search(rt, &tree, &watched, limit);
    let _first = search.next();
    let _end = search.finish();
    expect_shown(rt, &watched, want);
}

// What is checked by a count.
fn expect_counted<G: Geometry + Drop>(
    rt: &(impl Abort + AllocGlobal),
    geometry: G,
    want: &[Shown],
) {
    let watched = Watched::new(geometry);
    let tree = pack(rt, &BOXES);
    let mut frontier = Frontier::new(rt.alloc(), tree.len()).expect(rt, "there is memory");
    let _count = count(&tree, &mut frontier, &mut Counted::new(&watched));
    expect_shown(rt, &watched, want);
}

fn all() -> Guided<All, ById> {
    Guided {
        shape: All,
        rank: ById,
    }
}

fn window(rt: &impl Abort) -> Guided<Window, ById> {
    Guided {
        shape: Window(boxed(rt, [0, 10, 0, 10])),
        rank: ById,
    }
}

#[test]
fn all_by_id(rt: HostRuntime) {
    for limit in LIMITS {
        expect_found(&rt, all(), limit, &ALL);
        expect_found(&rt, Own(all()), limit, &ALL);
    }
}

#[test]
fn a_window(rt: HostRuntime) {
    for limit in LIMITS {
        expect_found(&rt, window(&rt), limit, &IN_WINDOW);
        expect_found(&rt, Own(window(&rt)), limit, &IN_WINDOW);
    }
}

#[test]
fn layers(rt: HostRuntime) {
    for limit in LIMITS {
        expect_found(&rt, all_on(0), limit, &ALL);
        expect_found(&rt, Own(all_on(0)), limit, &ALL);
        expect_found(&rt, all_on(3), limit, &[D, E]);
    }
}

#[test]
fn counts(rt: HostRuntime) {
    expect_counted(&rt, all(), &[D, E]);
    expect_counted(&rt, window(&rt), &IN_WINDOW);
    expect_counted(&rt, Own(window(&rt)), &IN_WINDOW);
    expect_counted(&rt, all_on(3), &[D, E]);
}
