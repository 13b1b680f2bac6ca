//! Pushes lines of replies, and flushes them.

ghost use Rattle.std.specs.Prelude.{◌≡◌, ◌+◌, ◌-◌, ◌<◌, ◌^◌, [], ◌∷◌, IfOk, MatchOption, OnErr, OnOk, false, length};
ghost use Rattle.std.specs.Io.KnownBytes.{Keeps};
ghost use Rattle.rt_search.specs.Work.{opened_by_search};
ghost use Rattle.rt_text.specs.ReplyLines.{ok_line};
ghost use Rattle.rt_filter.specs.{Pushes.{Pushed}, Replies.{find_reply}};

use rt_device::{Sink, WriteFault};
use rt_geo::Geometry;
use rt_search::Search;
use rt_text::{Line, ok_line, set_answer_line, set_ok_line};

/// Pushes a line until the sink has taken all of it. It isn't flushed.
pub(crate) fn push_line<K: Sink>(text: &Line, sink: &mut K) -> Result<(), WriteFault>
    requires count { K.failed sink.old < 2 ^ 64 - 1 }
    ensures pushed { Pushed K.written K.failed sink.old sink.new result text.now }
{
    let mut rest = text.bytes();
    while !rest.is_empty() {
        let n = sink.push(rest)?;
        if n == 0 {
            return Err(WriteFault);
        }
        rest = &rest[n..];
    }
    Ok(())
}

/// Flushes if something was pushed.
pub(crate) fn flush_pushed<K: Sink>(is_pushed: bool, sink: &mut K) -> Result<(), WriteFault>
    requires count { K.failed sink.old < 2 ^ 64 - 1 }
    ensures bytes { Keeps (K.written sink.old) (K.written sink.new) }
    // Afterwards nothing waits for a flush, unless nothing was pushed and something waited before.
    ensures flushed { OnOk result ((is_pushed ≡ false → K.waits sink.old ≡ false)
        → K.waits sink.new ≡ false) }
    ensures went { OnOk result (K.failed sink.new ≡ K.failed sink.old) }
    ensures fails { OnErr result (K.failed sink.new ≡ K.failed sink.old + 1) }
{
    if is_pushed {
        return sink.flush();
    }
    Ok(())
}

/// Pushes the line that ends a reply.
pub(crate) fn push_ok<K: Sink>(line: u128, n: u64, sink: &mut K) -> Result<(), WriteFault>
    requires count { K.failed sink.old < 2 ^ 64 - 1 }
    ensures pushed { Pushed K.written K.failed sink.old sink.new result (ok_line line n) }
{
    push_line(&ok_line(line, n), sink)
}

/// Pushes a line for each answer still to come of a search, and then their number. Returns the search.
pub(crate) fn push_search<'a, G: Geometry, K: Sink>(
    search: Search<'a, G>,
    line: u128,
    sink: &mut K,
) -> Result<Search<'a, G>, WriteFault>
    requires few { length search.to_come < 2 ^ 32 }
    requires count { K.failed sink.old < 2 ^ 64 - 1 }
    ensures pushed { Pushed K.written K.failed sink.old sink.new result
        (find_reply line search.entry.to_come) }
    ensures worked { let searched = search.entry in IfOk result (λ left. left.opened
        ≡ opened_by_search (G.meaning searched.geometry) searched.tree searched.limit) }
    ensures opened_before { IfOk result (λ left. left.opened_before ≡ search.entry.opened_before) }
    ensures capacity { IfOk result (λ left. left.capacity ≡ search.entry.capacity) }
{
    let mut search = search;
    let mut found: u64 = 0;
    // (one line for all, since making one clears its bytes)
    let mut text = Line::empty();
    while let Some((id, score)) = search.next() {
        set_answer_line(&mut text, id, score);
        push_line(&text, sink)?;
        found += 1;
    }
    set_ok_line(&mut text, line, found);
    push_line(&text, sink)?;
    Ok(search)
}
