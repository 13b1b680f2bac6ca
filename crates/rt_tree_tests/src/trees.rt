//! Whole trees, each reduced to one number, over tables that a fixed recursion makes. `tests/packing.py` packs the same
//! tables by a reading of its own, and compares its numbers with these.

use crate::layered::layered;
use rt_geo::{Bounds, Entry};
use rt_tree::{Node, NodeNo, Table, Tree};
use std::alloc::Global;

// How the boxes of a table lie, and what ids and layers they have.
#[derive(Clone, Copy, Debug, PartialEq, Eq)]
enum Kind {
    // Small boxes, with ids in no order, on any layer.
    Strewn,
    // All in one place, with ids that fall, on one layer.
    OnePlace,
    // Points on a line, many in one place, with ids at both ends of their range and layers that go with the place.
    OneLine,
    // Boxes as large as the plane, with ids that rise. One has a layer of its own, the others have three.
    WholePlane,
}

// The kind, the fanout, how many entries there are, and the number of the tree.
static TREES: [(Kind, u8, u32, u64); 120] = [
    (Kind::Strewn, 2, 0, 0x5851f42d4c957f2d),
    (Kind::Strewn, 2, 1, 0x95033351d6f76142),
    (Kind::Strewn, 2, 2, 0x378f4cf80bd5b918),
    (Kind::Strewn, 2, 3, 0x20fc031dc3b75640),
    (Kind::Strewn, 2, 4, 0x537db448e75f5b8a),
    (Kind::Strewn, 2, 5, 0xcd57381683f5bb9c),
    (Kind::Strewn, 3, 0, 0x5851f42d4c957f2d),
    (Kind::Strewn, 3, 1, 0x95033351d6f76142),
    (Kind::Strewn, 3, 3, 0x3607e852d927e6fe),
    (Kind::Strewn, 3, 4, 0x52043c1455538347),
    (Kind::Strewn, 3, 9, 0xa3b27ae56620c2cf),
    (Kind::Strewn, 3, 10, 0xc9ab9e6d07d67abb),
    (Kind::Strewn, 4, 0, 0x5851f42d4c957f2d),
    (Kind::Strewn, 4, 1, 0x95033351d6f76142),
    (Kind::Strewn, 4, 4, 0x70986b383a60da57),
    (Kind::Strewn, 4, 5, 0x5651b4933b34e59d),
    (Kind::Strewn, 4, 16, 0x96be4189b61580ac),
    (Kind::Strewn, 4, 17, 0x0876afb22b4f05ad),
    (Kind::Strewn, 16, 0, 0x5851f42d4c957f2d),
    (Kind::Strewn, 16, 1, 0x95033351d6f76142),
    (Kind::Strewn, 16, 16, 0xf5c25b4a06a10651),
    (Kind::Strewn, 16, 17, 0xee4e0298824dc53d),
    (Kind::Strewn, 16, 256, 0x46dd397a87c80baa),
    (Kind::Strewn, 16, 257, 0xb003fb281e6e9a16),
    (Kind::Strewn, 64, 0, 0x5851f42d4c957f2d),
    (Kind::Strewn, 64, 1, 0x95033351d6f76142),
    (Kind::Strewn, 64, 64, 0x67e380bad21353b4),
    (Kind::Strewn, 64, 65, 0x953dd77c8858e8dc),
    (Kind::Strewn, 64, 4096, 0xc903827689eea6ed),
    (Kind::Strewn, 64, 4097, 0x96506d5e40803bab),
    (Kind::OnePlace, 2, 0, 0x5851f42d4c957f2d),
    (Kind::OnePlace, 2, 1, 0xe4be5699d2cadd02),
    (Kind::OnePlace, 2, 2, 0xdbdf7c426841190b),
    (Kind::OnePlace, 2, 3, 0x2a5dac794bd8df9b),
    (Kind::OnePlace, 2, 4, 0x6e769a06c293967b),
    (Kind::OnePlace, 2, 5, 0x91f5bc2b935f6675),
    (Kind::OnePlace, 3, 0, 0x5851f42d4c957f2d),
    (Kind::OnePlace, 3, 1, 0xe4be5699d2cadd02),
    (Kind::OnePlace, 3, 3, 0x799b41f3f629e6b7),
    (Kind::OnePlace, 3, 4, 0xb294010a7f721818),
    (Kind::OnePlace, 3, 9, 0x42eb8673cda8e239),
    (Kind::OnePlace, 3, 10, 0x3935f4ae17fe31e9),
    (Kind::OnePlace, 4, 0, 0x5851f42d4c957f2d),
    (Kind::OnePlace, 4, 1, 0xe4be5699d2cadd02),
    (Kind::OnePlace, 4, 4, 0xec4bf10fb84f2756),
    (Kind::OnePlace, 4, 5, 0xeb5b4cc518096ccc),
    (Kind::OnePlace, 4, 16, 0x3aa8a2116a3b3634),
    (Kind::OnePlace, 4, 17, 0x8e01e81e5e206648),
    (Kind::OnePlace, 16, 0, 0x5851f42d4c957f2d),
    (Kind::OnePlace, 16, 1, 0xe4be5699d2cadd02),
    (Kind::OnePlace, 16, 16, 0x4bc9902e4754c1d4),
    (Kind::OnePlace, 16, 17, 0x6ea7c1497ada75fe),
    (Kind::OnePlace, 16, 256, 0x501ece85a8799e5e),
    (Kind::OnePlace, 16, 257, 0x7d128fcbff495a66),
    (Kind::OnePlace, 64, 0, 0x5851f42d4c957f2d),
    (Kind::OnePlace, 64, 1, 0xe4be5699d2cadd02),
    (Kind::OnePlace, 64, 64, 0x7d02a4dd7cbe2eac),
    (Kind::OnePlace, 64, 65, 0x5bb9f60679549426),
    (Kind::OnePlace, 64, 4096, 0x95024fca121f03e6),
    (Kind::OnePlace, 64, 4097, 0xe9f6d3c8f8d6b57e),
    (Kind::OneLine, 2, 0, 0x5851f42d4c957f2d),
    (Kind::OneLine, 2, 1, 0x883c35df9c38b115),
    (Kind::OneLine, 2, 2, 0xebb28c82eae65a2b),
    (Kind::OneLine, 2, 3, 0xe55cd716a27c6c0b),
    (Kind::OneLine, 2, 4, 0xb7284fa5602870e6),
    (Kind::OneLine, 2, 5, 0x0ca4b415ba036558),
    (Kind::OneLine, 3, 0, 0x5851f42d4c957f2d),
    (Kind::OneLine, 3, 1, 0x883c35df9c38b115),
    (Kind::OneLine, 3, 3, 0x157c3e871b122d16),
    (Kind::OneLine, 3, 4, 0x9d020bd39285bc3d),
    (Kind::OneLine, 3, 9, 0x1145ddbb2e4fc083),
    (Kind::OneLine, 3, 10, 0x6dadb02f4631eb06),
    (Kind::OneLine, 4, 0, 0x5851f42d4c957f2d),
    (Kind::OneLine, 4, 1, 0x883c35df9c38b115),
    (Kind::OneLine, 4, 4, 0x2f0d05b88cecfee2),
    (Kind::OneLine, 4, 5, 0xd72e0448252744c6),
    (Kind::OneLine, 4, 16, 0xa249dae844a8aaed),
    (Kind::OneLine, 4, 17, 0x6d0f94fa49327b1a),
    (Kind::OneLine, 16, 0, 0x5851f42d4c957f2d),
    (Kind::OneLine, 16, 1, 0x883c35df9c38b115),
    (Kind::OneLine, 16, 16, 0x3fe20c49f967e11f),
    (Kind::OneLine, 16, 17, 0xeed58b696d52089c),
    (Kind::OneLine, 16, 256, 0xb2077dac4d770b2f),
    (Kind::OneLine, 16, 257, 0xfbd34b400c433285),
    (Kind::OneLine, 64, 0, 0x5851f42d4c957f2d),
    (Kind::OneLine, 64, 1, 0x883c35df9c38b115),
    (Kind::OneLine, 64, 64, 0xb2edfb9f140f7a69),
    (Kind::OneLine, 64, 65, 0x57b9e1fe18483836),
    (Kind::OneLine, 64, 4096, 0x0b11b5e051a5d326),
    (Kind::OneLine, 64, 4097, 0x3120bed727f474fa),
    (Kind::WholePlane, 2, 0, 0x5851f42d4c957f2d),
    (Kind::WholePlane, 2, 1, 0xae6627d6e3f678ce),
    (Kind::WholePlane, 2, 2, 0x5790ad4e29449334),
    (Kind::WholePlane, 2, 3, 0x038c03d1968acec9),
    (Kind::WholePlane, 2, 4, 0x01c4422ab4bae19d),
    (Kind::WholePlane, 2, 5, 0x9748f21ddf009292),
    (Kind::WholePlane, 3, 0, 0x5851f42d4c957f2d),
    (Kind::WholePlane, 3, 1, 0xae6627d6e3f678ce),
    (Kind::WholePlane, 3, 3, 0x37fd9a70ade8fabb),
    (Kind::WholePlane, 3, 4, 0x0fe41d8e583c1244),
    (Kind::WholePlane, 3, 9, 0xa83d5c86fd6d1a34),
    (Kind::WholePlane, 3, 10, 0xf688a3aa36bc38b2),
    (Kind::WholePlane, 4, 0, 0x5851f42d4c957f2d),
    (Kind::WholePlane, 4, 1, 0xae6627d6e3f678ce),
    (Kind::WholePlane, 4, 4, 0xd302ff6fedc604cb),
    (Kind::WholePlane, 4, 5, 0x886c44f1e1f7add8),
    (Kind::WholePlane, 4, 16, 0x6c4b3ac3d46ad3a4),
    (Kind::WholePlane, 4, 17, 0xa0ee5d0b9ccd2c1b),
    (Kind::WholePlane, 16, 0, 0x5851f42d4c957f2d),
    (Kind::WholePlane, 16, 1, 0xae6627d6e3f678ce),
    (Kind::WholePlane, 16, 16, 0x3910c1977cb1b337),
    (Kind::WholePlane, 16, 17, 0xfa9728a6de845745),
    (Kind::WholePlane, 16, 256, 0x4dcdb2100b1d4f5c),
    (Kind::WholePlane, 16, 257, 0x4d35317b3b04adc8),
    (Kind::WholePlane, 64, 0, 0x5851f42d4c957f2d),
    (Kind::WholePlane, 64, 1, 0xae6627d6e3f678ce),
    (Kind::WholePlane, 64, 64, 0xec4b70c9f947d299),
    (Kind::WholePlane, 64, 65, 0xd8939b945b993ff7),
    (Kind::WholePlane, 64, 4096, 0xb9001f390f72bfe1),
    (Kind::WholePlane, 64, 4097, 0x649787198e521356),
];

// Numbers of 16 bits, each made of the one before.
#[derive(Drop)]
struct Chance {
    state: u32,
}

impl Chance {
    fn below(&mut self, end: u32) -> u32 {
        self.state = self.state.wrapping_mul(1_103_515_245).wrapping_add(12_345);
        (self.state / 65_536).checked_rem(end).unwrap_or(0)
    }

    fn coordinate(&mut self) -> i32 {
        let high = i64::from(self.below(65_536));
        let low = i64::from(self.below(65_536));
        let sum = high.wrapping_mul(65_536).wrapping_add(low);
        i32::try_from(sum.wrapping_sub(2_147_483_648)).unwrap_or(0)
    }

    fn small(&mut self, end: u32) -> i32 {
        i32::try_from(self.below(end)).unwrap_or(0)
    }
}

fn id(kind: Kind, place: u32) -> i64 {
    let place = i64::from(place);
    match kind {
        Kind::Strewn => place.wrapping_mul(7919).wrapping_rem(1_000_003),
        Kind::OnePlace => place.wrapping_neg(),
        Kind::OneLine if place.wrapping_rem(2) == 1 => i64::MAX.wrapping_sub(place),
        Kind::OneLine => i64::MIN.wrapping_add(place),
        Kind::WholePlane => place,
    }
}

// The box at a place, and its layer.
fn boxed(kind: Kind, place: u32, chance: &mut Chance) -> Option<(Bounds, u32)> {
    match kind {
        Kind::Strewn => {
            let x = chance.small(1000);
            let y = chance.small(1000).wrapping_sub(500);
            let right = x.wrapping_add(chance.small(16));
            let top = y.wrapping_add(chance.small(32));
            let bounds = Bounds::new(x, right, y, top)?;
            Some((bounds, chance.below(64)))
        }
        Kind::OnePlace => Some((Bounds::new(7, 9, -7, -7)?, 0)),
        Kind::OneLine => {
            let x = chance.small(50);
            Some((Bounds::new(x, x, 0, 0)?, x.unsigned_abs()))
        }
        Kind::WholePlane => {
            let a = chance.coordinate();
            let b = chance.coordinate();
            let c = chance.coordinate();
            let d = chance.coordinate();
            let bounds = Bounds::new(a.min(b), a.max(b), c.min(d), c.max(d))?;
            Some((bounds, if place == 0 { 63 } else { place % 3 }))
        }
    }
}

fn packed(alloc: Global, kind: Kind, fanout: u8, count: u32) -> Option<Tree> {
    let mut chance = Chance { state: 12_345 };
    let mut entries = Vec::new(alloc);
    for place in 0..count {
        let (bounds, layer) = boxed(kind, place, &mut chance)?;
        let entry = Entry {
            id: id(kind, place),
            bounds,
            layer: u8::try_from(layer).ok()?,
        };
        entries.push(entry).ok()?;
    }
    let entries = layered(alloc, &entries)?;
    if entries.len() > Table::MOST_ENTRIES as usize {
        return None;
    }
    let table = Table::of_entries(alloc, entries).ok()?;
    Tree::pack(alloc, table, fanout.clamp(2, 64)).ok()
}

// One number for those so far and one more.
fn with_number(so_far: u64, number: i64) -> u64 {
    so_far
        .wrapping_mul(6_364_136_223_846_793_005)
        .wrapping_add(number.cast_unsigned())
}

fn with_box(so_far: u64, bounds: &Bounds) -> u64 {
    let sides = [
        bounds.min_x(),
        bounds.max_x(),
        bounds.min_y(),
        bounds.max_y(),
    ];
    sides.iter().fold(so_far, |so_far, side| with_number(so_far, i64::from(*side)))
}

fn with_node(so_far: u64, number: u32, node: &Node) -> u64 {
    let so_far = with_box(with_number(so_far, i64::from(number)), &node.bounds);
    let so_far = with_number(so_far, i64::from(node.level));
    let so_far = with_number(so_far, i64::from(node.first));
    let so_far = with_number(so_far, i64::from(node.count));
    let so_far = with_number(so_far, i64::from(node.size));
    with_number(so_far, node.layers.bits().cast_signed())
}

// The number of a whole tree: its entries, its nodes, and how many there are on each level.
fn number_of(tree: &Tree) -> u64 {
    let mut all = with_number(0, i64::from(tree.len()));
    for place in 0..tree.len() {
        let entry = tree.entry(place);
        all = with_box(with_number(all, entry.id), &entry.bounds);
        all = with_number(all, i64::from(entry.layer));
    }
    all = with_number(all, i64::from(tree.node_len()));
    for number in 0..tree.node_len() {
        all = with_node(all, number, &tree.node(NodeNo::new(number)));
    }
    all = with_number(all, i64::from(tree.top()).wrapping_add(1));
    for level in 0..=tree.top() {
        all = with_number(all, i64::from(tree.level_len(level)));
    }
    all
}

#[test]
fn trees_are_those_of_another_reading(rt: HostRuntime) {
    for (kind, fanout, count, number) in &TREES {
        let tree = packed(rt.alloc(), *kind, *fanout, *count).expect(&rt, "the boxes are a table");
        assert_eq!(rt;
            (*kind, *fanout, *count, number_of(&tree)),
            (*kind, *fanout, *count, *number)
        );
    }
}
