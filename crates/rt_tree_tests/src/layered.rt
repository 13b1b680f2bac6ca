//! Entries that are made a table at once: each has a layer.

ghost use Rattle.std.specs.Prelude.{IfSome};
ghost use Rattle.std.specs.List.{All};
ghost use Rattle.rt_geo.specs.Entries.{HasLayer};

use rt_geo::{Entry, Layers};
use rt_tree::Entries;
use std::alloc::Global;

/// The entries, where the layer of each is at most the greatest and there is memory for them.
pub fn layered(alloc: Global, entries: &[Entry]) -> Option<Entries>
    ensures { IfSome result (λ entries. All HasLayer entries) }
{
    let mut layered = Entries::empty(alloc);
    for entry in entries {
        if entry.layer > Layers::MOST {
            return None;
        }
        match layered.push(*entry) {
            Ok(()) => {}
            Err(_) => return None,
        }
    }
    Some(layered)
}
