//! Serves query lines that come in pieces: pull, answer, flush.

ghost use Rattle.std.specs.Prelude.{◌≡◌, ◌-◌, ◌<◌, ◌≤◌, ◌^◌, Some, length};
ghost use Rattle.rt_filter.specs.{Accounts.{Accounts, connection_of}, Endings.{Serves}, Exchanges.{IsServed}};
ghost use Rattle.rt_filter.specs.{Replies.{Loaded, tree_of}, Stages.{loaded_tree}};

use crate::exchange::{Exchange, Start};
use crate::progress::{BUFFER_LEN, Progress};
use rt_device::{Sink, Source};
use rt_search::Frontier;
use rt_tree::Tree;
use std::marker::Brand;

/// Why serving ended early.
#[derive(Clone, Copy, Debug, PartialEq, Eq)]
pub enum ServeFault {
    /// A pull failed, or the turns were used up.
    Read,
    /// A push or a flush failed.
    Write,
}

/// How serving ended.
#[derive(Clone, Copy, Debug, PartialEq, Eq)]
pub struct Served {
    /// Whether some answered line is faulty.
    pub bad: bool,
    /// Why it ended early, if it did.
    pub fault: Option<ServeFault>,
}

/// Answers the query lines of a source, and pushes the replies to a sink, line by line.
///
/// At most `turns` pulls are made. Before each pull all complete lines are answered, and the sink is flushed if anything
/// was pushed, so that a client that waits for an answer before it sends its next line gets it (`exchange.rt`). It can't
/// run out of memory: the queries are pulled into a buffer of 4,097 bytes, and a line of more than 4,096 is reported as too
/// long.
pub fn serve<S: Source, K: Sink>(
    tree: &Tree,
    frontier: Frontier,
    source: &mut S,
    sink: &mut K,
    turns: u64,
) -> Served
    requires capacity { length tree.now.entries ≤ frontier.capacity }
    requires source_count { S.failed source.old < 2 ^ 64 - 1 }
    requires sink_count { K.failed sink.old < 2 ^ 64 - 1 }
    // The replies are those over any entries whose packed tree this is. A device that reports its bytes before reports them
    // after the call too, also after a failure.
    ensures ending { (loaded : Loaded) → tree.now ≡ tree_of loaded → Serves loaded
        (record { coming = S.coming source.old; written = K.written sink.old })
        (record { coming = S.coming source.new; written = K.written sink.new }) result }
    // What is reported of the devices' failures, the pulls made, and what waits for a flush.
    ensures accounts { let of = connection_of S.coming S.failed S.pulled
        K.written K.failed K.waits in Accounts (of source.old sink.old) (of source.new sink.new)
        turns (result.fault ≡ Some ServeFault.Read) (result.fault ≡ Some ServeFault.Write) }
{
    // (the call makes it known to the proof that the tree is the packed one of its own entries)
    let _ = tree.len();
    serve_from::<Brand, S, K>(tree, frontier, source, sink, turns)
}

// Serves; `B` is what is known at the start.
fn serve_from<B: Start, S: Source, K: Sink>(
    tree: &Tree,
    frontier: Frontier,
    source: &mut S,
    sink: &mut K,
    turns: u64,
) -> Served
    requires capacity { length tree.now.entries ≤ frontier.capacity }
    requires source_count { S.failed source.old < 2 ^ 64 - 1 }
    requires sink_count { K.failed sink.old < 2 ^ 64 - 1 }
    requires loaded { B.at_start.loaded ≡ loaded_tree tree.now }
    requires devices { B.at_start.devices ≡ connection_of S.coming S.failed S.pulled
        K.written K.failed K.waits source.old sink.old }
    ensures { IsServed B.at_start (connection_of S.coming S.failed S.pulled
        K.written K.failed K.waits source.new sink.new) turns result }
{
    serve_turns::<B, S, K>(tree, frontier, source, sink, turns)
}

// Serves. It pulls from the source by `pull_next` alone, so only after all that was pulled before is answered and flushed.
fn serve_turns<B: Start, S: Exchange<B, K>, K: Sink>(
    tree: &Tree,
    frontier: Frontier,
    source: &mut S,
    sink: &mut K,
    turns: u64,
) -> Served
    requires capacity { length tree.now.entries ≤ frontier.capacity }
    requires source_count { S.failed source.old < 2 ^ 64 - 1 }
    requires sink_count { K.failed sink.old < 2 ^ 64 - 1 }
    requires loaded { B.at_start.loaded ≡ loaded_tree tree.now }
    requires devices { B.at_start.devices ≡ connection_of S.coming S.failed S.pulled
        K.written K.failed K.waits source.old sink.old }
    ensures { IsServed B.at_start (connection_of S.coming S.failed S.pulled
        K.written K.failed K.waits source.new sink.new) turns result }
{
    let mut frontier = frontier;
    let mut progress = Progress::new();
    let mut buffer = [0; BUFFER_LEN];
    let mut kept = 0;
    for _turn in 0..turns {
        let Ok(n) = source.pull_next(sink, &mut buffer[kept..]) else {
            return ended(&progress, Some(ServeFault::Read));
        };
        if n == 0 {
            // (as if a line feed came: if no line is incomplete, it ends an empty one, which has no reply)
            buffer[kept] = b'\n';
            let last = &buffer[..=kept];
            let Ok(_) = progress.answer_lines(tree, frontier, last, kept, sink) else {
                return ended(&progress, Some(ServeFault::Write));
            };
            return ended(&progress, None);
        }
        let filled = kept + n;
        let answered = progress.answer_lines(tree, frontier, &buffer[..filled], kept, sink);
        let Ok((left, start)) = answered else {
            return ended(&progress, Some(ServeFault::Write));
        };
        frontier = left;
        kept = progress.keep(&mut buffer, start, filled);
    }
    ended(&progress, Some(ServeFault::Read))
}

// The result of serving.
fn ended(progress: &Progress, fault: Option<ServeFault>) -> Served
    ensures bad { result.bad ≡ progress.now.bad }
    ensures fault { result.fault ≡ fault }
{
    let bad = progress.is_bad();
    Served { bad, fault }
}
