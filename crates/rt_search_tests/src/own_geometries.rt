//! A shape and a geometry of one's own, checked on single boxes.

ghost use Rattle.rt_geo.specs.declared.geometry.Within.TheVariants.{Partly};

use crate::expect::expect_eq;
use crate::left_of::LeftOf;
use crate::tables::boxed;
use crate::uneven::Uneven;
use rt_geo::{Bounds, Geometry, Guided, Info, Layers, Near, Point, Verdict, Within};
use std::process::Abort;

/// What a geometry answers about an entry (level 0) or a node whose parent was PARTLY.
fn verdict_of<G: Geometry>(geometry: &G, bounds: Bounds, level: u8) -> Verdict {
    geometry.check(&Info {
        bounds,
        layers: Layers::of(0),
        level,
        top: 3,
        parent_within: Within::Partly,
        parent_score: 0,
    })
}

// The level and the score.
static LEVELS: [(u8, u128); 5] = [(0, 10), (1, 1), (2, 2), (10, 10), (11, 10)];

#[test]
fn an_uneven_geometry_scores_by_level(rt: HostRuntime) {
    for (level, want) in &LEVELS {
        expect_score(&rt, *level, *want);
    }
}

fn expect_score(rt: &impl Abort, level: u8, want: u128) {
    let verdict = verdict_of(&Uneven, boxed(rt, [0, 10, 0, 10]), level);
    let within = Within::Fully;
    expect_eq(
        rt,
        (level, verdict),
        (
            level,
            Verdict {
                within,
                score: want,
            },
        ),
    );
}

// The line, the level of the box, and whether this lies to the left of the line.
static LINES: [(i32, u8, Within); 4] = [
    (10, 0, Within::Fully),
    (9, 0, Within::Not),
    (9, 1, Within::Partly),
    (-1, 1, Within::Not),
];

#[test]
fn a_shape_of_the_tests_own_is_guided(rt: HostRuntime) {
    for (x, level, within) in &LINES {
        expect_within(&rt, *x, *level, *within);
    }
}

// A box and the line at `x`.
fn expect_within(rt: &impl Abort, x: i32, level: u8, within: Within) {
    let guided = Guided {
        shape: LeftOf { x },
        rank: Near(Point { x: 12, y: 12 }),
    };
    let verdict = verdict_of(&guided, boxed(rt, [0, 10, 0, 10]), level);
    expect_eq(rt, (x, verdict), (x, Verdict { within, score: 8 }));
}
