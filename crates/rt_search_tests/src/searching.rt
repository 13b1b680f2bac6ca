//! A search for a geometry of one's own: an example of `docs/internals/own-geometry.md`.

ghost use Rattle.std.specs.Prelude.{◌≡◌, ◌≤◌, length};

use crate::uneven::Uneven;
use rt_geo::Counted;
use rt_search::{Frontier, Search};
use rt_tree::Tree;

/// The first answer, as its id and score, how many nodes were opened for it, and the frontier, for the next search.
pub fn first_answer(tree: &Tree, frontier: Frontier) -> (Option<(i64, u128)>, u64, Frontier)
    requires capacity { length tree.now.entries ≤ frontier.capacity }
    ensures capacity { result.2.capacity ≡ frontier.capacity }
{
    let mut search = Search::start(tree, frontier, Counted::new(&Uneven), Some(1));
    let first = search.next();
    let opened = search.opened();
    let (frontier, _counted) = search.finish();
    (first, opened, frontier)
}
