//! Sets of layers, and shapes on some of them.

ghost use Rattle.std.specs.Prelude.{◌≤◌};

use crate::checks::{Sides, boxed, question_on};
use crate::expect::expect_eq;
use rt_geo::{Covers, Layers, OnLayers, Shape, Window, Within};
use std::process::Abort;

#[test]
fn a_set_of_layers_has_those_whose_bits_are_set(rt: HostRuntime) {
    let some = Layers::new(0x8000_0000_0000_0009);
    expect_eq(&rt, some.bits(), 0x8000_0000_0000_0009);
    for layer in 0..=Layers::MOST {
        if layer <= 63 {
            expect_layer(&rt, some, layer, layer == 0 || layer == 3 || layer == 63);
        }
    }
}

// Whether a layer is in a set.
fn expect_layer(rt: &impl Abort, some: Layers, layer: u8, want: bool)
    requires { layer ≤ 63 }
{
    let one = Layers::of(layer);
    expect_eq(rt, some.has(layer), want);
    expect_eq(rt, Layers::all().has(layer) && one.has(layer), true);
    expect_eq(rt, one.is_subset(some), want);
    expect_eq(rt, one.is_disjoint(some), !want);
}

#[test]
fn sets_of_layers_are_joined_and_compared(rt: HostRuntime) {
    expect_eq(&rt, Layers::of(0).bits(), 1);
    expect_eq(&rt, Layers::of(63).bits(), 0x8000_0000_0000_0000);
    expect_eq(&rt, Layers::all().bits(), u64::MAX);
    let some = Layers::new(0x8000_0000_0000_0009);
    expect_eq(
        &rt,
        Layers::of(0).union(Layers::of(3)).union(Layers::of(63)),
        some,
    );
    expect_eq(&rt, some.union(some), some);
    assert!(rt; some.is_subset(Layers::all()));
    assert!(rt; !Layers::all().is_subset(some));
    assert!(rt; !some.is_disjoint(Layers::all()));
}

// The bits of an info's layers, whether its bounds lie in the window or only overlap it, or neither, and the state for
// layers 0 and 3.
static STATES: [(u64, Sides, Within); 9] = [
    (0b1, [2, 3, 2, 3], Within::Fully),
    (0b1000, [2, 3, 2, 3], Within::Fully),
    (0b1001, [2, 3, 2, 3], Within::Fully),
    (0b1011, [2, 3, 2, 3], Within::Partly),
    (0b10, [2, 3, 2, 3], Within::Not),
    (0b1, [2, 30, 2, 3], Within::Partly),
    (0b11, [2, 30, 2, 3], Within::Partly),
    (0b110, [2, 30, 2, 3], Within::Not),
    (0b1, [11, 30, 2, 3], Within::Not),
];

#[test]
fn a_shape_on_layers_answers_for_both(rt: HostRuntime) {
    let shape = Window(boxed(&rt, [0, 10, 0, 10]));
    let layers = Layers::new(0b1001);
    let on_layers = OnLayers { shape, layers };
    for (bits, sides, want) in &STATES {
        assert!(rt; 0 < *bits);
        let info = question_on(boxed(&rt, *sides), Layers::new(*bits));
        expect_eq(&rt, on_layers.within(&info), *want);
    }
}

#[test]
fn what_covers_a_window_is_never_full_on_layers_either(rt: HostRuntime) {
    let bounds = boxed(&rt, [0, 10, 0, 10]);
    let shape = Covers(boxed(&rt, [5, 5, 5, 5]));
    let on_layers = OnLayers {
        shape,
        layers: Layers::all(),
    };
    expect_eq(
        &rt,
        on_layers.within(&question_on(bounds, Layers::of(7))),
        Within::Partly,
    );
}
