//! Opens a node of a best-first search: checks each child, and puts it into the queue if it may hold answers.

ghost use Rattle.std.specs.Prelude.{◌≡◌, ◌+◌, ◌-◌, ◌<◌, ◌≤◌, ◌^◌, List, [], length};
ghost use Rattle.rt_tree.specs.Packed.{IsSound, node_at};
ghost use Rattle.rt_search.specs.{Answers.{Answer}, Items.{item_at}, Joining.{root_items}, Limits.{KeepsEnough}};
ghost use Rattle.rt_search.specs.{Progress.{IsOut, IsUnderWay, join_children}, Remaining.{IsOpenable, verdict_on}};
ghost use Rattle.rt_search.specs.declared.item.Place.TheVariants as place;

use crate::item::{ScoredNode, WaitingNode};
use crate::queue::Queue;
use crate::walk::{Collector, info_under, walk_under};
use rt_geo::{Counted, Geometry, Verdict, Within};
use rt_tree::{NodeNo, Tree};

/// Puts the root, if the tree has one, into an empty queue. It isn't checked.
pub(crate) fn put_root(tree: &Tree, queue: &mut Queue)
    requires empty { queue.old.items ≡ [] }
    requires capacity { length tree.now.entries ≤ queue.old.capacity }
    ensures sound { IsSound tree.now }
    ensures root { KeepsEnough (root_items tree.now) queue.old queue.new }
{
    let Some(number) = tree.root() else {
        return;
    };
    let within = Within::Partly;
    let root = Verdict { within, score: 0 };
    queue.put_node(root, number);
}

/// Opens a node that was taken out of the queue. If nodes have no scores, every node under it that may hold answers has to
/// be opened before the next answer, so all of them are opened now.
#[inline(always)]
pub(crate) fn open<G: Geometry>(
    tree: &Tree,
    queue: &mut Queue,
    counted: &mut Counted<'_, G>,
    opened: &mut u64,
    taken: ScoredNode,
)
    requires capacity { length tree.now.entries ≤ queue.old.capacity }
    requires state { let meaning = G.meaning counted.old.geometry in (to_come : List Answer) ×
        IsOut meaning tree.now opened.old counted.old.asked queue.old.needed to_come
        (item_at taken.score (place.Node taken.node)) queue.old.items }
    ensures state { let meaning = G.meaning counted.old.geometry in (to_come : List Answer) →
        IsOut meaning tree.now opened.old counted.old.asked queue.old.needed to_come
        (item_at taken.score (place.Node taken.node)) queue.old.items →
        IsUnderWay meaning tree.now opened.new counted.new.asked queue.new.needed to_come
        queue.new.items }
    ensures more { opened.old < opened.new }
    ensures needed { queue.new.needed ≡ queue.old.needed }
    ensures capacity { queue.new.capacity ≡ queue.old.capacity }
    ensures geometry { counted.new.geometry ≡ counted.old.geometry }
{
    if G::scores_nodes() {
        *opened += 1;
        open_node(tree, queue, counted, taken);
        return;
    }
    let parent = verdict_on(taken.score, taken.node);
    walk_under(tree, queue, counted, opened, taken.node.number, parent);
}

// Opens one node that was taken out of the queue.
fn open_node<G: Geometry>(
    tree: &Tree,
    queue: &mut Queue,
    counted: &mut Counted<'_, G>,
    taken: ScoredNode,
)
    requires sound { IsSound tree.now }
    requires node { IsOpenable tree.now (G.meaning counted.old.geometry) taken.node.number.number
        (verdict_on taken.score taken.node) }
    requires space { length queue.old.items + (node_at tree.now taken.node.number.number).count
        ≤ queue.old.capacity }
    requires asked { counted.old.asked
        + (node_at tree.now taken.node.number.number).count ≤ 2 ^ 32 }
    ensures children { let meaning = G.meaning counted.old.geometry in
        KeepsEnough (join_children meaning tree.now taken.score taken.node queue.old.items)
        queue.old queue.new }
    ensures asked { counted.new.asked
        ≡ counted.old.asked + (node_at tree.now taken.node.number.number).count }
    ensures geometry { counted.new.geometry ≡ counted.old.geometry }
{
    let node = tree.node(taken.node.number);
    let parent = verdict_on(taken.score, taken.node);
    if node.level == 1 {
        queue.visit_entries(tree, counted, node, parent);
        return;
    }
    let first = node.first;
    // (the level of each child is computed and not read, so that the compiler sees that no child is an entry)
    let level = node.level - 1;
    let children = tree.child_nodes(node);
    for (i, child) in children.iter().enumerate() {
        let number = NodeNo::new(first + i as u32);
        let whole = tree.node(number);
        let info = info_under(tree, parent, child.bounds, whole.layers, level);
        queue.put_node(counted.check(&info), number);
    }
}

// The verdict on a node that waited with a score.
fn verdict_on(score: u128, node: WaitingNode) -> Verdict
    ensures { result ≡ verdict_on score node }
{
    let within = if node.is_full {
        Within::Fully
    } else {
        Within::Partly
    };
    Verdict { within, score }
}
