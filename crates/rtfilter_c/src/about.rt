//! Export: the size and the extent of a session's table.

ghost use Rattle.std.specs.Prelude.{◌≡◌, IfSome, IsSome, length};
ghost use Rattle.rtfilter_c.specs.Abouts.{HasSizes, about_of};

use rt_embed::{copy_level_sizes, summary_of};
use rt_handle::Handle;
use rt_tree::Tree;
use std::alloc::Global;

/// `rtfilter_info` of include/rtfilter.h without the sizes of the levels.
#[repr(C)]
#[derive(Clone, Copy, Debug, PartialEq, Eq)]
pub struct About {
    /// The number of boxes.
    pub boxes: u32,
    /// The number of levels of the tree, that of the boxes included.
    pub levels: u32,
    /// The sides of the smallest box that contains all; 0 if there are none.
    pub min_x: i32,
    pub max_x: i32,
    pub min_y: i32,
    pub max_y: i32,
}

/// Writes the size and the extent of a session's table, and the number of boxes or nodes of each level, from the boxes up:
/// as many as fit, and 0 above the last.
#[unsafe(no_mangle)]
pub extern "C" fn rtfilter_engine_info(
    alloc: Global,
    session: &mut Handle,
    about: &mut About,
    level_sizes: &mut [u32],
)
    requires open { IsSome session.old.held }
    ensures same { session.new.held ≡ session.old.held }
    ensures about { IfSome session.old.held (λ held. about.new ≡ about_of held.tree) }
    ensures sizes { IfSome session.old.held (λ held. HasSizes held.tree level_sizes.new) }
    ensures len { length level_sizes.new ≡ length level_sizes.old }
{
    let held = session.take(alloc);
    *about = about_of(held.tree());
    copy_level_sizes(held.tree(), level_sizes);
    session.put(held);
}

// The size and the extent of a tree.
fn about_of(tree: &Tree) -> About
    ensures { result ≡ about_of tree.now }
{
    let summary = summary_of(tree);
    let (min_x, max_x, min_y, max_y) = match summary.bounds {
        Some(bounds) => (
            bounds.min_x(),
            bounds.max_x(),
            bounds.min_y(),
            bounds.max_y(),
        ),
        None => (0, 0, 0, 0),
    };
    About {
        boxes: summary.boxes,
        levels: u32::from(summary.levels),
        min_x,
        max_x,
        min_y,
        max_y,
    }
}
