//! Boxes, and what shapes, ranks and geometries answer about them.

ghost use Rattle.std.specs.Prelude.{◌≡◌, ◌<◌};
ghost use Rattle.rt_geo.specs.Laws.{ShowsLayers};
ghost use Rattle.rt_geo.specs.declared.geometry.Within.TheVariants.{Partly};

use crate::expect::expect_eq;
use rt_geo::{Bounds, Geometry, Info, Layers, Rank, Shape, Verdict, Within};
use std::process::Abort;

/// The least and the greatest x of a box, and its least and greatest y.
pub(crate) type Sides = [i32; 4];

pub(crate) fn boxed(rt: &impl Abort, sides: Sides) -> Bounds {
    let [min_x, max_x, min_y, max_y] = sides;
    Bounds::new(min_x, max_x, min_y, max_y).expect(rt, "the minimums are at most the maximums")
}

/// A question about an entry (level 0) or a node whose parent was PARTLY.
pub(crate) fn question(bounds: Bounds, level: u8) -> Info
    ensures parent { result.parent_within ≡ Partly }
    ensures layers { ShowsLayers result }
{
    Info {
        bounds,
        layers: Layers::of(0),
        level,
        top: 3,
        parent_within: Within::Partly,
        parent_score: 0,
    }
}

/// A question about a node of level 1 on these layers.
pub(crate) fn question_on(bounds: Bounds, layers: Layers) -> Info
    requires { 0 < layers.bits }
    ensures parent { result.parent_within ≡ Partly }
    ensures layers { ShowsLayers result }
{
    Info {
        bounds,
        layers,
        level: 1,
        top: 3,
        parent_within: Within::Partly,
        parent_score: 0,
    }
}

/// A shape's state of a box, on a level.
pub(crate) fn expect_state<S: Shape>(
    rt: &impl Abort,
    shape: &S,
    sides: Sides,
    level: u8,
    want: Within,
) {
    let state = shape.within(&question(boxed(rt, sides), level));
    assert_eq!(rt; state, want, "{sides:?}, level {level}");
}

/// A shape's state of each of some boxes, on one level.
pub(crate) fn expect_states<S: Shape>(
    rt: &impl Abort,
    shape: &S,
    level: u8,
    rows: &[(Sides, Within)],
) {
    for (sides, want) in rows {
        expect_state(rt, shape, *sides, level, *want);
    }
}

/// A rank's score of a box, on a level.
pub(crate) fn expect_score<R: Rank>(
    rt: &impl Abort,
    rank: &R,
    sides: Sides,
    level: u8,
    want: u128,
) {
    expect_eq(rt, rank.score(&question(boxed(rt, sides), level)), want);
}

pub(crate) fn verdict_of<G: Geometry>(geometry: &G, bounds: Bounds, level: u8) -> Verdict {
    geometry.check(&question(bounds, level))
}
