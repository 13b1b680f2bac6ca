//! Depth-first traversal with pruning, shared by counts and by searches without a queue.
//!
//! A traversal goes from the root downwards. Its [`Visitor`] decides which nodes are opened, and takes the accepted
//! entries. A best-first search opens one node at a time, in an order of its own, and needs a [`Collector`] alone.

ghost use Rattle.std.specs.Prelude.{◌≡◌, ◌+◌, ◌-◌, ◌<◌, ◌≤◌, ◌^◌, ℕ, Bool, List, [], if◌then◌else◌, length};
ghost use Rattle.std.specs.Prelude.{false, not};
ghost use Rattle.rt_geo.specs.{Laws.{Extent, IsUnscored, estimate_of}, declared.geometry.Verdict.{Verdict}};
ghost use Rattle.rt_geo.specs.declared.geometry.Within.TheVariants.{Not};
ghost use Rattle.rt_tree.specs.Packed.{IsSound, node_at, root_of};
ghost use Rattle.rt_search.specs.{Answers.{Answer}, Pending.{HasWaiting}, Remaining.{IsOpenable, IsOpenableLeaf}};
ghost use Rattle.rt_search.specs.Walking.{HasTaken, HasTakenAll, IsFilling, IsKnown, answer_if, answers_among};
ghost use Rattle.rt_search.specs.Walking.{answers_in_tree, answers_under, answers_where, verdict_of_child, work_under};
ghost use Rattle.rt_search.specs.Work.{info_under, its_children, one_node, reached_from_root};

use crate::pending::Pending;
use rt_geo::{Bounds, Counted, Geometry, Info, Layers, Verdict, Within};
use rt_tree::{Node, NodeNo, Tree};

/// Takes the accepted entries of the nodes that are opened.
pub(crate) trait Collector: Sized {
    /// The collector after it has taken one more answer.
    ghost takes: { Self → Answer → Self → Type 0 };

    /// The number of answers for which it has space.
    ghost space: { Self → ℕ };

    /// Takes an entry if it is accepted.
    fn visit_entry(&mut self, is_accepted: bool, score: u128, id: i64)
        requires { 0 < space self.old }
        ensures { HasTaken takes self.old (answer_if is_accepted id score) self.new };

    /// Checks each entry of a node of level 1, and takes the accepted ones.
    #[inline(always)]
    fn visit_entries<G: Geometry>(
        &mut self,
        tree: &Tree,
        counted: &mut Counted<'_, G>,
        node: Node,
        parent: Verdict,
    )
        requires leaf { IsOpenableLeaf tree.now (G.meaning counted.old.geometry) node parent }
        requires space { node.count ≤ Self.space self.old }
        requires asked { counted.old.asked + node.count ≤ 2 ^ 64 - 1 }
        ensures taken { let found = answers_among tree.now (G.meaning counted.old.geometry)
            node node.count in HasTaken Self.takes self.old found self.new }
        ensures geometry { counted.new.geometry ≡ counted.old.geometry }
        ensures asked { counted.new.asked ≡ counted.old.asked + node.count }
    {
        let first = node.first;
        let entries = tree.child_entries(node);
        for (i, entry) in entries.iter().enumerate() {
            let layers = tree.layers_at(first + i as u32);
            let info = info_under(tree, parent, entry.bounds, layers, 0);
            let verdict = counted.check(&info);
            let is_accepted = !matches!(verdict.within, Within::Not);
            self.visit_entry(is_accepted, verdict.score, entry.id);
        }
    }

    /// Each answer needs the space of at most one.
    ghost fills: { IsFilling takes space };
}

/// Decides for each checked node whether it is opened, and takes the accepted entries.
pub(crate) trait Visitor: Collector {
    /// Whether a node with this verdict is opened.
    ghost opens: { Verdict → Bool };

    /// Whether the node is opened. If it isn't, all accepted entries under it are taken now: none if the verdict is
    /// [`Within::Not`], and as many as the node's size if it is [`Within::Fully`].
    fn visit_node(&mut self, verdict: Verdict, size: u32) -> bool
        requires { size ≤ Self.space self.old }
        ensures opens { result ≡ opens verdict }
        ensures taken { (answers : List Answer) → IsKnown verdict.within size answers
            → HasTaken Self.takes self.old (if result then [] else answers) self.new };

    /// A node that is [`Within::Not`] is never opened.
    ghost drops: { (v : Verdict) → v.within ≡ Not → opens v ≡ false };
}

/// The argument for the check of a child whose parent has this verdict.
#[inline(always)]
pub fn info_under(tree: &Tree, parent: Verdict, bounds: Bounds, layers: Layers, level: u8) -> Info
    ensures { let extent : Extent = record { bounds = bounds; layers = layers } in
        result ≡ info_under (root_of tree.now).level parent extent level }
{
    Info {
        bounds,
        layers,
        level,
        top: tree.top(),
        parent_within: parent.within,
        parent_score: parent.score,
    }
}

/// Traverses a tree from its root, which isn't checked. Takes all accepted entries, in no stated order, and returns the
/// number of opened nodes. The visitor needs space for all entries.
pub(crate) fn walk<V: Visitor, G: Geometry>(
    tree: &Tree,
    visitor: &mut V,
    counted: &mut Counted<'_, G>,
) -> u64
    requires space { IsSound tree.now → length tree.now.entries ≤ V.space visitor.old }
    requires asked { counted.old.asked ≡ 0 }
    ensures sound { IsSound tree.now }
    ensures taken { HasTakenAll V.takes visitor.old
        (answers_in_tree tree.now (G.meaning counted.old.geometry)) visitor.new }
    ensures opened { result
        ≡ reached_from_root V.opens one_node (G.meaning counted.old.geometry) tree.now }
    ensures asked { counted.new.asked
        ≡ reached_from_root V.opens its_children (G.meaning counted.old.geometry) tree.now }
    ensures geometry { counted.new.geometry ≡ counted.old.geometry }
{
    let mut opened = 0;
    let Some(number) = tree.root() else {
        return opened;
    };
    let within = Within::Partly;
    let root = Verdict { within, score: 0 };
    walk_under(tree, visitor, counted, &mut opened, number, root);
    opened
}

// Opens a node and the nodes under it. All its children are checked before the first of them is opened.
pub(crate) fn walk_under<V: Visitor, G: Geometry>(
    tree: &Tree,
    visitor: &mut V,
    counted: &mut Counted<'_, G>,
    opened: &mut u64,
    number: NodeNo,
    parent: Verdict,
)
    requires sound { IsSound tree.now }
    requires node { IsOpenable tree.now (G.meaning counted.old.geometry) number.number parent }
    requires space { (node_at tree.now number.number).size ≤ V.space visitor.old }
    requires opened { opened.old + work_under V.opens one_node
        (G.meaning counted.old.geometry) tree.now parent number.number ≤ 2 ^ 32 }
    requires asked { counted.old.asked + work_under V.opens its_children
        (G.meaning counted.old.geometry) tree.now parent number.number ≤ 2 ^ 32 }
    ensures taken { let g = counted.old.geometry in HasTakenAll V.takes visitor.old
        (answers_under tree.now (G.meaning g) number.number) visitor.new }
    ensures opened { opened.new ≡ opened.old + work_under V.opens one_node
        (G.meaning counted.old.geometry) tree.now parent number.number }
    ensures asked { counted.new.asked ≡ counted.old.asked + work_under V.opens its_children
        (G.meaning counted.old.geometry) tree.now parent number.number }
    ensures geometry { counted.new.geometry ≡ counted.old.geometry }
{
    let node = tree.node(number);
    *opened += 1;
    // (a local, whose number of checks stays in a register)
    let mut own = counted.take();
    if node.level == 1 {
        visitor.visit_entries(tree, &mut own, node, parent);
        *counted = own;
        return;
    }
    // (the level of each child is computed and not read, so that the compiler sees that no child is an entry)
    let level = node.level - 1;
    let has_scores = G::scores_nodes();
    let mut pending = Pending::new();
    check_children(
        tree,
        visitor,
        &mut own,
        &mut pending,
        number,
        level,
        parent,
        has_scores,
    );
    *counted = own;
    while let Some((place, verdict)) = pending.take(has_scores) {
        let number = NodeNo::new(node.first + place as u32);
        walk_under(tree, visitor, counted, opened, number, verdict);
    }
}

// Checks each child of a node above level 1. Children that are to be opened wait; of the others the visitor takes what is
// accepted.
#[inline(always)]
fn check_children<V: Visitor, G: Geometry>(
    tree: &Tree,
    visitor: &mut V,
    counted: &mut Counted<'_, G>,
    pending: &mut Pending,
    number: NodeNo,
    level: u8,
    parent: Verdict,
    has_scores: bool,
)
    requires sound { IsSound tree.now }
    requires node { IsOpenable tree.now (G.meaning counted.old.geometry) number.number parent }
    requires high { 1 ≤ level }
    requires level { level + 1 ≡ (node_at tree.now number.number).level }
    requires none { pending.old.places ≡ 0 }
    requires clear { pending.old.full ≡ 0 }
    requires scores { has_scores ≡ false
        → IsUnscored (estimate_of (G.meaning counted.old.geometry)) }
    requires space { (node_at tree.now number.number).size ≤ V.space visitor.old }
    requires asked { counted.old.asked + (node_at tree.now number.number).count ≤ 2 ^ 32 }
    ensures waiting { let n = node_at tree.now number.number in
        let verdict = verdict_of_child (G.meaning counted.old.geometry) tree.now parent n in
        HasWaiting has_scores V.opens verdict 0 n.count pending.new }
    ensures taken { let n = node_at tree.now number.number in HasTaken V.takes visitor.old
        (answers_where (λ v. not (V.opens v)) (G.meaning counted.old.geometry) tree.now parent n
        n.count) visitor.new }
    ensures geometry { counted.new.geometry ≡ counted.old.geometry }
    ensures asked { counted.new.asked
        ≡ counted.old.asked + (node_at tree.now number.number).count }
{
    let node = tree.node(number);
    let first = node.first;
    let children = tree.child_nodes(node);
    for (i, child) in children.iter().enumerate() {
        let number = NodeNo::new(first + i as u32);
        let whole = tree.node(number);
        let info = info_under(tree, parent, child.bounds, whole.layers, level);
        let verdict = counted.check(&info);
        // (dropped first, so that its state isn't computed further)
        if verdict.within == Within::Not {
            continue;
        }
        pending.keep(i, verdict, has_scores);
        if visitor.visit_node(verdict, child.size) {
            pending.put(i);
        }
    }
}
