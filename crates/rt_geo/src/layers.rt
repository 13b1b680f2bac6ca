//! Layers: small numbers that classify boxes, and sets of them as 64 bits.

ghost use Rattle.std.specs.Prelude.{◌≡◌, ◌≤◌, ◌==◌, ◌||◌, ◌↔◌, ℕ, IsTrue, false};
ghost use Rattle.rt_geo.specs.Layers.{all_layers, disjoint, has, most_layer, only, subset, union};

/// A set of layers. A layer is a number from 0 to 63.
#[derive(Clone, Copy, Debug, PartialEq, Eq)]
pub struct Layers {
    bits: u64,
}

impl Layers {
    /// The highest layer.
    pub const MOST: u8 = 63;

    /// The set of the layers whose bits are set; layer 0 is the lowest bit.
    pub fn new(bits: u64) -> Layers
        ensures { result.bits ≡ bits }
    {
        Layers { bits }
    }

    /// All layers.
    pub fn all() -> Layers
        ensures { result ≡ all_layers }
    {
        Layers { bits: u64::MAX }
    }

    /// The set of one layer, which is at most 63.
    pub fn of(layer: u8) -> Layers
        requires { layer ≤ most_layer }
        ensures value { result ≡ only layer }
        ensures one { (other : ℕ) → has result other ≡ (other == layer) }
    {
        Layers { bits: 1 << layer }
    }

    /// Whether a layer, at most 63, is in the set.
    pub fn has(self, layer: u8) -> bool
        requires { layer ≤ most_layer }
        ensures { result ≡ has self layer }
    {
        self.bits >> layer & 1 == 1
    }

    /// The layers that are in this set or in the other.
    pub fn union(self, other: Layers) -> Layers
        ensures value { result ≡ union self other }
        ensures both { (layer : ℕ) → has result layer ≡ (has self layer || has other layer) }
    {
        Layers {
            bits: self.bits | other.bits,
        }
    }

    /// Whether no layer is in both sets.
    pub fn is_disjoint(self, other: Layers) -> bool
        ensures value { result ≡ disjoint self other }
        ensures none { IsTrue result
            ↔ ((layer : ℕ) → IsTrue (has self layer) → has other layer ≡ false) }
    {
        self.bits & other.bits == 0
    }

    /// Whether each layer of this set is in the other.
    pub fn is_subset(self, other: Layers) -> bool
        ensures value { result ≡ subset self other }
        ensures each { IsTrue result
            ↔ ((layer : ℕ) → IsTrue (has self layer) → IsTrue (has other layer)) }
    {
        self.bits & other.bits == self.bits
    }

    /// The bits of the layers, as [`Layers::new`] takes them.
    pub fn bits(self) -> u64
        ensures { result ≡ self.bits }
    {
        self.bits
    }
}
