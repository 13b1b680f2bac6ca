//! The public calls as other crates write them: the five boxes of the examples, pushed, packed with two children a node,
//! and walked from the root.

use crate::expect::expect_eq;
use rt_geo::{Bounds, Entry, Layers};
use rt_tree::{Node, NodeNo, PushFault, Table, Tree};
use std::alloc::{AllocError, AllocGlobal, Global};
use std::process::Abort;

type Sides = [i32; 4];

static BOXES: [(i64, Sides); 5] = [
    (1, [0, 10, 0, 10]),
    (2, [5, 15, 5, 15]),
    (3, [20, 30, 0, 10]),
    (4, [-5, -1, -5, -1]),
    (5, [12, 12, 12, 12]),
];

// The ids of the entries, in the order of their places.
static PLACES: [i64; 5] = [4, 1, 2, 5, 3];

// The nodes, in the order of their numbers: the sides, the level, the first child, the children, the entries under it,
// and the layers, each of which is the id of its entry.
static NODES: [(Sides, u8, u32, u8, u32, &[u8]); 6] = [
    ([-5, 10, -5, 10], 1, 0, 2, 2, &[4, 1]),
    ([20, 30, 0, 10], 1, 4, 1, 1, &[3]),
    ([5, 15, 5, 15], 1, 2, 2, 2, &[2, 5]),
    ([-5, 30, -5, 10], 2, 0, 2, 3, &[4, 1, 3]),
    ([5, 15, 5, 15], 2, 2, 1, 2, &[2, 5]),
    ([-5, 30, -5, 15], 3, 3, 2, 5, &[1, 2, 3, 4, 5]),
];

fn boxed(rt: &impl Abort, sides: Sides) -> Bounds {
    let [min_x, max_x, min_y, max_y] = sides;
    Bounds::new(min_x, max_x, min_y, max_y).expect(rt, "no minimum is above its maximum")
}

// What pushing a box answers. Its layer is the last digit of its id.
fn push(rt: &impl Abort, table: &mut Table, id: i64, sides: Sides) -> Result<(), PushFault> {
    if table.len() >= 16_777_216 {
        panic!(rt; "the table is full");
    }
    let bounds = boxed(rt, sides);
    let layer = (id.unsigned_abs() % 10) as u8;
    table.push(Entry { id, bounds, layer })
}

fn five(rt: &impl Abort, alloc: Global) -> Table {
    let mut table = Table::empty(alloc);
    for (id, sides) in &BOXES {
        expect_eq(rt, push(rt, &mut table, *id, *sides), Ok(()));
    }
    table
}

#[test]
fn a_table_has_its_entries_in_the_order_pushed(rt: HostRuntime) {
    let table = five(&rt, rt.alloc());
    expect_eq(&rt, table.len(), 5);
    for place in 0..table.len() {
        let (id, sides) = BOXES[place as usize % BOXES.len()];
        let Entry {
            id: found,
            bounds,
            layer,
        } = table.get(place);
        expect_eq(&rt, (found, bounds), (id, boxed(&rt, sides)));
        expect_eq(&rt, i64::from(layer), id);
    }
}

#[test]
fn a_repeated_id_leaves_the_table_as_it_is(rt: HostRuntime) {
    let mut table = five(&rt, rt.alloc());
    let pushed = push(&rt, &mut table, 5, [0; 4]);
    expect_eq(&rt, pushed, Err(PushFault::Repeated));
    assert!(rt; pushed != Err(PushFault::Memory));
    expect_eq(&rt, table.len(), 5);
    expect_eq(&rt, push(&rt, &mut table, 6, [0; 4]), Ok(()));
    expect_eq(&rt, table.len(), 6);
}

fn packed(rt: &(impl Abort + AllocGlobal), fanout: u8) -> Tree {
    let table = five(rt, rt.alloc());
    let tree: Result<Tree, AllocError> = Tree::pack(rt.alloc(), table, fanout.clamp(2, 64));
    tree.expect(rt, "there is memory")
}

#[test]
fn a_tree_has_levels(rt: HostRuntime) {
    for (fanout, sizes) in [(2, [5, 3, 2, 1].as_slice()), (16, [5, 1].as_slice())] {
        let tree = packed(&rt, fanout);
        expect_eq(&rt, tree.len(), 5);
        expect_eq(&rt, tree.top() as usize + 1, sizes.len());
        for level in 0..=tree.top() {
            let len: u32 = tree.level_len(level);
            expect_eq(&rt, Some(&len), sizes.get(level as usize));
        }
    }
}

#[test]
fn an_empty_tree_has_no_root(rt: HostRuntime) {
    let tree = Tree::pack(rt.alloc(), Table::empty(rt.alloc()), 2).expect(&rt, "there is memory");
    assert!(rt; tree.root().is_none());
    expect_eq(&rt, (tree.len(), tree.top(), tree.node_len()), (0, 0, 0));
    expect_eq(&rt, tree.level_len(0), 0);
}

#[test]
fn entries_stand_at_their_places(rt: HostRuntime) {
    let tree = packed(&rt, 2);
    for place in 0..tree.len() {
        let entry: Entry = tree.entry(place);
        expect_eq(&rt, Some(&entry.id), PLACES.get(place as usize));
        let (id, sides) = BOXES[(entry.id.unsigned_abs() as usize).saturating_sub(1) % BOXES.len()];
        expect_eq(&rt, (entry.id, entry.bounds), (id, boxed(&rt, sides)));
    }
}

// A child, counted from 0, of a node above level 1.
fn child(tree: &Tree, no: NodeNo, index: u8) -> Option<NodeNo> {
    if no.number() >= tree.node_len() {
        return None;
    }
    let Node { level, count, .. } = tree.node(no);
    if level < 2 || index >= count {
        return None;
    }
    Some(tree.child_node(no, index))
}

#[test]
fn a_tree_is_walked_from_its_root(rt: HostRuntime) {
    let tree = packed(&rt, 2);
    expect_eq(&rt, tree.node_len(), 6);
    let root: NodeNo = tree.root().expect(&rt, "it has entries");
    let mut met = [root; 6];
    for parent in [5, 4, 3] {
        for index in 0..3 {
            if let Some(child) = child(&tree, met[parent], index) {
                met[child.number() as usize % 6] = child;
            }
        }
    }
    for (number, no) in met.iter().enumerate() {
        expect_eq(&rt, no.number() as usize, number);
        expect_node(&rt, &tree, *no);
    }
}

fn expect_node(rt: &impl Abort, tree: &Tree, no: NodeNo) {
    if no.number() >= tree.node_len() {
        panic!(rt; "there is no such node");
    }
    let Node {
        bounds,
        level,
        first,
        count,
        size,
        layers,
    } = tree.node(no);
    let (sides, want_level, want_first, want_count, want_size, ids) = NODES[no.number() as usize
        % NODES.len()];
    expect_eq(rt, bounds, boxed(rt, sides));
    expect_eq(
        rt,
        (level, first, count, size),
        (want_level, want_first, want_count, want_size),
    );
    let mut bits = 0u64;
    for id in ids {
        bits |= 1 << (*id % 64);
    }
    expect_eq(rt, layers, Layers::new(bits));
}
