//! Answers query lines that are in memory as a whole.

ghost use Rattle.std.specs.Prelude.{◌≡◌, ◌+◌, ◌-◌, ◌<◌, ◌≤◌, ◌^◌, ◌∷◌, ℕ, IfOk, OnOk, false, true, length};
ghost use Rattle.rt_filter.specs.{Lines.{numbered_lines}, Pushes.{Pushed}, Stages.{lines_from, loaded_tree}};
ghost use Rattle.rt_filter.specs.{Replies.{Loaded, any_fault, output, tree_of}, LineCosts.{opened_by_lines}};
ghost use Rattle.rt_search.specs.Work.{CountsOn};

use crate::progress::{Progress, line_end};
use crate::reply::flush_pushed;
use rt_device::{Sink, WriteFault};
use rt_search::Frontier;
use rt_text::Parsed;
use rt_tree::Tree;

/// Answers the query lines of a text, and pushes the replies to a sink. Lines are numbered from 1, and the last needs no
/// line feed. The sink is flushed at the end.
///
/// Returns whether some line is faulty, and the frontier for the next text. The error is a failed push or flush; the
/// frontier is then dropped. Only the sink can run out of memory.
pub fn answer_batch<K: Sink>(
    tree: &Tree,
    frontier: Frontier,
    text: &[u8],
    sink: &mut K,
) -> Result<(bool, Frontier), WriteFault>
    requires capacity { length tree.now.entries ≤ frontier.capacity }
    requires sink_count { K.failed sink.old < 2 ^ 64 - 1 }
    // The replies to all lines, over any entries whose packed tree this is; after a failed push or flush, a prefix of them.
    ensures replies { (loaded : Loaded) → tree.now ≡ tree_of loaded
        → Pushed K.written K.failed sink.old sink.new result
        (output loaded (numbered_lines text.now true)) }
    ensures bad { IfOk result (λ done. done.0 ≡ any_fault (numbered_lines text.now true)) }
    // The opened nodes are those of the lines, one after the other.
    ensures worked { IfOk result (λ done. CountsOn frontier.opened
        (opened_by_lines (loaded_tree tree.now) (numbered_lines text.now true)) done.1.opened) }
    ensures capacity { IfOk result (λ done. done.1.capacity ≡ frontier.capacity) }
    ensures flushed { OnOk result (K.waits sink.old ≡ false → K.waits sink.new ≡ false) }
{
    // (the call makes it known to the proof that the tree is the packed one of its own entries)
    let _ = tree.len();
    answer_text(tree, frontier, text, sink)
}

// Answers the lines, over the tree's own entries.
fn answer_text<K: Sink>(
    tree: &Tree,
    frontier: Frontier,
    text: &[u8],
    sink: &mut K,
) -> Result<(bool, Frontier), WriteFault>
    requires capacity { length tree.now.entries ≤ frontier.capacity }
    requires sink_count { K.failed sink.old < 2 ^ 64 - 1 }
    ensures pushed { Pushed K.written K.failed sink.old sink.new result
        (output (loaded_tree tree.now) (numbered_lines text.now true)) }
    ensures bad { IfOk result (λ done. done.0 ≡ any_fault (numbered_lines text.now true)) }
    ensures worked { IfOk result (λ done. CountsOn frontier.opened
        (opened_by_lines (loaded_tree tree.now) (numbered_lines text.now true)) done.1.opened) }
    ensures capacity { IfOk result (λ done. done.1.capacity ≡ frontier.capacity) }
    ensures flushed { OnOk result (K.waits sink.old ≡ false → K.waits sink.new ≡ false) }
{
    let mut frontier = frontier;
    let mut progress = Progress::new();
    let mut parsed = Parsed::Skip;
    let mut is_pushed = false;
    let mut rest = text;
    while !rest.is_empty() {
        let (line, behind) = split_line(rest);
        frontier = progress.answer_whole(tree, frontier, line, &mut parsed, &mut is_pushed, sink)?;
        rest = behind;
    }
    flush_pushed(is_pushed, sink)?;
    Ok((progress.is_bad(), frontier))
}

// The first line, and what follows its line feed.
fn split_line(bytes: &[u8]) -> (&[u8], &[u8])
    requires some { 0 < length bytes.now }
    ensures lines { (number : ℕ) → lines_from number bytes.now true
        ≡ (number + 1, result.0.now) ∷ lines_from (number + 1) result.1.now true }
    ensures shorter { length result.1.now < length bytes.now }
{
    match line_end(bytes) {
        Some(at) => (&bytes[..at], &bytes[at + 1..]),
        None => (bytes, &bytes[bytes.len()..]),
    }
}
