//! Packed trees, node by node.

use crate::expect::expect_eq;
use rt_geo::{Bounds, Entry, Layers, hull};
use rt_tree::{Node, NodeNo, Table, Tree};
use std::alloc::{AllocError, Global};
use std::process::Abort;
use std::test::Fail;

type Sides = [i32; 4];

// The five boxes of the examples, in the order of their records.
static BOXES: [(i64, Sides); 5] = [
    (1, [0, 10, 0, 10]),
    (2, [5, 15, 5, 15]),
    (3, [20, 30, 0, 10]),
    (4, [-5, -1, -5, -1]),
    (5, [12, 12, 12, 12]),
];

// Their nodes, two children for each: the sides, the level, the first child, the children and the entries.
static NODES: [(Sides, u8, u32, u8, u32); 6] = [
    ([-5, 10, -5, 10], 1, 0, 2, 2),
    ([20, 30, 0, 10], 1, 4, 1, 1),
    ([5, 15, 5, 15], 1, 2, 2, 2),
    ([-5, 30, -5, 10], 2, 0, 2, 3),
    ([5, 15, 5, 15], 2, 2, 1, 2),
    ([-5, 30, -5, 15], 3, 3, 2, 5),
];

fn bounds(sides: Sides) -> Option<Bounds> {
    let [min_x, max_x, min_y, max_y] = sides;
    Bounds::new(min_x, max_x, min_y, max_y)
}

// Pushes a box, where it is one and the table isn't full.
fn push(table: &mut Table, id: i64, sides: Sides) -> Option<()> {
    if table.len() >= Table::MOST_ENTRIES {
        return None;
    }
    table
        .push(Entry {
            id,
            bounds: bounds(sides)?,
            layer: (id.unsigned_abs() % 7) as u8,
        })
        .ok()
}

fn table(alloc: Global, boxes: &[(i64, Sides)]) -> Option<Table> {
    let mut table = Table::empty(alloc);
    for (id, sides) in boxes {
        push(&mut table, *id, *sides)?;
    }
    Some(table)
}

// So many boxes, strewn over the plane, with ids in no order.
fn strewn(alloc: Global, count: u32) -> Option<Table> {
    let mut table = Table::empty(alloc);
    let mut state: u32 = 12_345;
    for place in 0..count {
        state = state.wrapping_mul(1_103_515_245).wrapping_add(12_345);
        let x = state / 65_536 % 1000;
        let y = state / 256 % 1000;
        let right = x + state % 16;
        let top = y + state % 32;
        let id = (place as i64 * 7919).wrapping_rem(1_000_003);
        push(
            &mut table,
            id,
            [x as i32, right as i32, y as i32 - 500, top as i32 - 500],
        )?;
    }
    Some(table)
}

fn packed(alloc: Global, table: Table, fanout: u8) -> Result<Tree, AllocError> {
    Tree::pack(alloc, table, fanout.clamp(2, 64))
}

// The boxes packed, two children for each node.
fn tree_of(rt: &impl Abort, alloc: Global, boxes: &[(i64, Sides)]) -> Tree {
    let table = table(alloc, boxes).expect(rt, "the boxes are a table");
    packed(alloc, table, 2).expect(rt, "there is memory")
}

// What some children are together: their box, their layers, and how many entries they stand for.
type Whole = (Bounds, Layers, u32);

// One more child beside others.
fn with(others: Option<Whole>, bounds: Bounds, layers: Layers, size: u32) -> Option<Whole> {
    match others {
        None => Some((bounds, layers, size)),
        Some((box_of_all, all, sum)) => Some((
            hull(box_of_all, bounds),
            all.union(layers),
            sum.wrapping_add(size),
        )),
    }
}

fn over_entries(tree: &Tree, node: &Node) -> Option<Whole> {
    let mut all = None;
    for place in node.first..node.first.saturating_add(u32::from(node.count)) {
        if place >= tree.len() {
            return None;
        }
        let entry = tree.entry(place);
        all = with(all, entry.bounds, tree.layers_at(place), 1);
    }
    all
}

fn over_nodes(tree: &Tree, node: &Node) -> Option<Whole> {
    let end = node.first.checked_add(u32::from(node.count))?;
    if end > tree.node_len() {
        return None;
    }
    let mut all = None;
    for (number, child) in (node.first..end).zip(tree.child_nodes(*node)) {
        let layers = node_at(tree, number)?.layers;
        all = with(all, child.bounds, layers, child.size);
    }
    all
}

// What the children of a node are together.
fn over_children(tree: &Tree, node: &Node) -> Option<Whole> {
    if node.level == 1 {
        over_entries(tree, node)
    } else {
        over_nodes(tree, node)
    }
}

// The node with a number, where there is one.
fn node_at(tree: &Tree, number: u32) -> Option<Node> {
    if number >= tree.node_len() {
        return None;
    }
    Some(tree.node(NodeNo::new(number)))
}

// How many nodes are on a level.
fn count_of(tree: &Tree, level: u8) -> u32 {
    let mut count: u32 = 0;
    for number in 0..tree.node_len() {
        if tree.node(NodeNo::new(number)).level == level {
            count = count.wrapping_add(1);
        }
    }
    count
}

#[test]
fn packs_the_five_boxes_node_by_node(rt: HostRuntime) {
    let tree = tree_of(&rt, rt.alloc(), &BOXES);
    expect_eq(&rt, tree.len(), 5);
    assert!(rt; !tree.is_empty());
    expect_eq(&rt, tree.top(), 3);
    expect_eq(&rt, tree.node_len(), 6);
    expect_ids(&rt, &tree, &[4, 1, 2, 5, 3]);
    for (number, (sides, level, first, count, size)) in NODES.iter().enumerate() {
        let node = expect_children(&rt, &tree, number as u32, *first, *count);
        expect_eq(&rt, Some(node.bounds), bounds(*sides));
        expect_eq(&rt, node.level, *level);
        expect_eq(&rt, node.size, *size);
    }
}

// The node has so many children from the first of them on.
fn expect_children(rt: &impl Abort, tree: &Tree, number: u32, first: u32, count: u8) -> Node {
    let node = node_at(tree, number).expect(rt, "there are as many nodes");
    expect_eq(rt, node.first, first);
    expect_eq(rt, node.count, count);
    node
}

// The ids of the entries, in the order in which they stand in the tree.
fn expect_ids(rt: &impl Abort, tree: &Tree, ids: &[i64]) {
    for place in 0..tree.len() {
        expect_eq(rt, Some(&tree.entry(place).id), ids.get(place as usize));
    }
}

#[test]
fn goes_down_from_the_root_of_the_five_boxes(rt: HostRuntime) {
    let tree = tree_of(&rt, rt.alloc(), &BOXES);
    let root = tree.root().expect(&rt, "there are entries");
    expect_eq(&rt, root.number(), 5);
    let node = tree.node(root);
    assert_eq!(rt; (node.level, node.count), (3, 2));
    let child = tree.child_node(root, 1);
    expect_eq(&rt, child.number(), 4);
    expect_eq(&rt, tree.node(child).size, 2);
}

// Boxes of one point.
static EQUAL: [(i64, Sides); 5] = [
    (5, [0; 4]),
    (4, [0; 4]),
    (3, [0; 4]),
    (2, [0; 4]),
    (1, [0; 4]),
];

// The first child and the children of each node.
static FIRSTS: [(u32, u8); 6] = [(0, 2), (2, 2), (4, 1), (0, 2), (2, 1), (3, 2)];

#[test]
fn equal_boxes_stand_by_id(rt: HostRuntime) {
    let tree = tree_of(&rt, rt.alloc(), &EQUAL);
    expect_ids(&rt, &tree, &[1, 2, 3, 4, 5]);
    for (number, (first, count)) in FIRSTS.iter().enumerate() {
        let _node = expect_children(&rt, &tree, number as u32, *first, *count);
    }
}

#[test]
fn one_entry_too_many_for_a_node(rt: HostRuntime) {
    let table = strewn(rt.alloc(), 65).expect(&rt, "the boxes are a table");
    let tree = packed(rt.alloc(), table, 64).expect(&rt, "there is memory");
    assert_eq!(rt; tree.top(), 2);
    expect_eq(&rt, tree.level_len(0), 65);
    expect_eq(&rt, tree.level_len(1), 2);
    expect_eq(&rt, tree.level_len(2), 1);
}

#[test]
fn no_entries_have_no_root(rt: HostRuntime) {
    let tree = packed(rt.alloc(), Table::empty(rt.alloc()), 16).expect(&rt, "there is memory");
    expect_eq(&rt, tree.len(), 0);
    assert!(rt; tree.is_empty());
    expect_eq(&rt, tree.node_len(), 0);
    expect_eq(&rt, tree.root(), None);
    expect_eq(&rt, tree.top(), 0);
    expect_eq(&rt, tree.level_len(0), 0);
}

#[test]
fn each_node_is_true_of_its_children(rt: HostRuntime) {
    for fanout in [2, 3, 16, 64] {
        let few = u32::from(fanout);
        let full = few.wrapping_mul(few);
        for count in [1, few, few.wrapping_add(1), full, full.wrapping_add(1)] {
            expect_true_tree(&rt, rt.alloc(), fanout, count);
        }
    }
}

fn expect_true_tree(rt: &impl Abort, alloc: Global, fanout: u8, count: u32) {
    let table = strewn(alloc, count).expect(rt, "the boxes are a table");
    let tree = packed(alloc, table, fanout).expect(rt, "there is memory");
    expect_eq(rt, tree.len(), count);
    expect_true_nodes(rt, &tree, fanout);
    let root = tree.root().expect(rt, "there are entries");
    expect_eq(rt, tree.node(root).size, count);
    for level in 1..=tree.top() {
        expect_eq(rt, tree.level_len(level), count_of(&tree, level));
    }
}

fn expect_true_nodes(rt: &impl Abort, tree: &Tree, fanout: u8) {
    for number in 0..tree.node_len() {
        let node = tree.node(NodeNo::new(number));
        let whole = Some((node.bounds, node.layers, node.size));
        assert!(rt; over_children(tree, &node) == whole);
        assert!(rt; node.count <= fanout);
    }
}

// Where an allocator refuses one growth, as tests/refusals.py has it, this reports it, and else it passes.
#[test]
fn a_refused_packing_is_reported(rt: HostRuntime) -> Result<(), Fail> {
    for fanout in [2, 16] {
        let Some(table) = strewn(rt.alloc(), 100) else {
            return Err(Fail::new("refused beforehand"));
        };
        let Ok(tree) = packed(rt.alloc(), table, fanout) else {
            let table = strewn(rt.alloc(), 100).expect(&rt, "there is memory again");
            assert!(rt; packed(rt.alloc(), table, fanout).is_ok());
            return Err(Fail::new("reported as refused"));
        };
        expect_eq(&rt, tree.len(), 100);
    }
    Ok(())
}
