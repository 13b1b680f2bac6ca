//! Which nodes of a small tree a search opens, and in which order.
//!
//! ```text
//! level 3              root
//!                  ┌────┴────┐
//! level 2          d         e
//!               ┌──┴──┐      │
//! level 1       a     c      b
//!             ┌─┴─┐   │    ┌─┴─┐
//! entries     4   1   3    2   5
//! ```
//!
//! A node is opened when its first child is shown to the geometry. Nodes of equal score are opened by their numbers, which
//! rise from a, c, b to d, e and the root.

ghost use Rattle.std.specs.Prelude.{◌≤◌};

use crate::expect::expect_eq;
use crate::searches::{BOXES, pack, search};
use crate::tables::boxed;
use crate::watched::Watched;
use rt_geo::{All, ById, Geometry, Guided, Layers, Near, OnLayers, Point, Smallest, Window};
use std::alloc::AllocGlobal;
use std::process::Abort;

// A box that is shown, by its level and its greatest x, which together no other has.
type Shown = (u8, i32);

// The first children of the nodes, by the names of these.
const OF_ROOT: Shown = (2, 30);

const OF_D: Shown = (1, 10);

const OF_E: Shown = (1, 15);

const OF_A: Shown = (0, -1);

const OF_C: Shown = (0, 30);

const OF_B: Shown = (0, 15);

const EACH: [Shown; 6] = [OF_ROOT, OF_D, OF_E, OF_A, OF_C, OF_B];

// Limits below and above those up to which a search keeps its answers in a queue.
const LIMITS: [Option<u64>; 4] = [None, Some(5), Some(64), Some(65)];

// The nodes whose first children these are, and no others, are opened in this order by the first so many answers.
fn expect_opened<G: Geometry + Drop>(
    rt: &(impl Abort + AllocGlobal),
    geometry: G,
    limit: Option<u64>,
    in_order: &[Shown],
) {
    let watched = Watched::new(geometry);
    let tree = pack(rt, &BOXES);
    let mut search = search(rt, &tree, &watched, limit);
    for _ in 0..=BOXES.len() {
        let _answer = search.next();
    }
    expect_eq(rt, search.opened(), in_order.len() as u64);
    let _end = search.finish();
    expect_in_order(rt, &watched, in_order);
}

fn expect_in_order<G: Geometry>(rt: &impl Abort, watched: &Watched<G>, in_order: &[Shown]) {
    let mut before = None;
    for (level, max_x) in in_order {
        let place = watched.place_of(*level, *max_x);
        assert!(rt;
            place.is_some() && before < place,
            "it is shown, and behind the one before"
        );
        before = place;
    }
    let shown = EACH
        .iter()
        .filter(|(level, max_x)| watched.place_of(*level, *max_x).is_some())
        .count();
    expect_eq(rt, shown, in_order.len());
}

#[test]
fn all_by_id_opens_by_number(rt: HostRuntime) {
    for limit in LIMITS {
        let geometry = Guided {
            shape: All,
            rank: ById,
        };
        let in_order = [OF_ROOT, OF_D, OF_A, OF_C, OF_E, OF_B];
        expect_opened(&rt, geometry, limit, &in_order);
    }
}

#[test]
fn a_window_opens_by_number(rt: HostRuntime) {
    for limit in LIMITS {
        let geometry = Guided {
            shape: Window(boxed(&rt, [0, 10, 0, 10])),
            rank: Smallest,
        };
        expect_opened(&rt, geometry, limit, &[OF_ROOT, OF_D, OF_A, OF_E, OF_B]);
        let geometry = Guided {
            shape: Window(boxed(&rt, [20, 30, 0, 4])),
            rank: ById,
        };
        expect_opened(&rt, geometry, limit, &[OF_ROOT, OF_D, OF_C]);
    }
}

#[test]
fn layers_open_by_number(rt: HostRuntime) {
    for limit in LIMITS {
        expect_opened(
            &rt,
            all_on(0),
            limit,
            &[OF_ROOT, OF_D, OF_A, OF_C, OF_E, OF_B],
        );
        expect_opened(&rt, all_on(3), limit, &[OF_ROOT]);
    }
}

// All boxes of one layer.
pub fn all_on(layer: u8) -> Guided<OnLayers<All>, ById>
    requires { layer ≤ 63 }
{
    let layers = Layers::of(layer);
    Guided {
        shape: OnLayers { shape: All, layers },
        rank: ById,
    }
}

#[test]
fn the_nearest_open_by_distance(rt: HostRuntime) {
    let geometry = Guided {
        shape: All,
        rank: Near(Point { x: 12, y: 12 }),
    };
    expect_opened(&rt, geometry, Some(3), &[OF_ROOT, OF_E, OF_B, OF_D, OF_A]);
}
