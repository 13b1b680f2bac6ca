//! Splits the bytes of queries into lines and answers each: what is kept between two reads, and the loop over the lines.

ghost use Rattle.std.specs.Prelude.{◌≡◌, ◌+◌, ◌-◌, ◌||◌, ◌<◌, ◌≤◌, ◌^◌, ◌++◌, ℕ, List, [], false, true};
ghost use Rattle.std.specs.Prelude.{IfOk, OnOk, MatchResult, drop, length, take};
ghost use Rattle.memchr.specs.Find.{IsFirstByte, is_byte};
ghost use Rattle.rt_filter.specs.{Lines.{longest_line, numbered_lines}, Pushes.{Pushed}};
ghost use Rattle.rt_filter.specs.Stages.{line_feed, loaded_tree};
ghost use Rattle.rt_filter.specs.Progresses.{IsAfter, IsLeft, completed, parsed_of, progress_of};
ghost use Rattle.rt_filter.specs.Replies.{any_fault, is_fault, output, parsed_line, reply};
ghost use Rattle.rt_filter.specs.LineCosts.{opened_by_line, opened_by_lines};
ghost use Rattle.rt_search.specs.Work.{CountsOn};
ghost use Rattle.rt_text.specs.ReplyLines.{error_line};

use crate::query_reply::push_reply;
use crate::reply::{flush_pushed, push_line};
use memchr::memchr;
use rt_device::{Sink, WriteFault};
use rt_search::Frontier;
use rt_text::{Parsed, QueryFault, error_line, parse_into};
use rt_tree::Tree;

/// The most bytes of a query line, a carriage return at its end included and its line feed not.
const LONGEST_LINE: usize = 4096;

/// The size of the buffer for queries: the longest line and its line feed.
pub(crate) const BUFFER_LEN: usize = LONGEST_LINE + 1;

/// How far the lines of the queries that were pulled are answered. The bytes of the incomplete last line are at the front
/// of the buffer, unless it is too long.
#[derive(Drop)]
pub(crate) struct Progress {
    // the number of complete lines
    lines: u128,
    // whether one of them is faulty
    bad: bool,
    // whether the incomplete last line is too long: its bytes are dropped
    is_too_long: bool,
}

impl Progress {
    /// The state before the first pull.
    pub(crate) fn new() -> Progress
        ensures { result ≡ progress_of [] }
    {
        Progress {
            lines: 0,
            bad: false,
            is_too_long: false,
        }
    }

    /// Whether a complete line is faulty.
    pub(crate) fn is_bad(&self) -> bool
        ensures { result ≡ self.now.bad }
    {
        self.bad
    }

    /// Answers the complete lines of these bytes, of which the first `kept` were there before the last pull, and flushes if
    /// there is a reply. Returns the frontier, and the index at which the incomplete last line starts.
    pub(crate) fn answer_lines<K: Sink>(
        &mut self,
        tree: &Tree,
        frontier: Frontier,
        bytes: &[u8],
        kept: usize,
        sink: &mut K,
    ) -> Result<(Frontier, usize), WriteFault>
        requires kept { kept ≤ length bytes.now }
        requires capacity { length tree.now.entries ≤ frontier.capacity }
        requires count { K.failed sink.old < 2 ^ 64 - 1 }
        requires fits { length bytes.now ≤ longest_line + 1 }
        requires few { self.old.lines + length bytes.now < 2 ^ 128 }
        // For any bytes that were pulled before.
        ensures pushed { (pulled : List ℕ) → IsAfter self.old (take kept bytes.now) pulled
            → Pushed K.written K.failed sink.old sink.new result
            (output (loaded_tree tree.now) (completed pulled (drop kept bytes.now) false)) }
        ensures progress { (pulled : List ℕ) → IsAfter self.old (take kept bytes.now) pulled
            → MatchResult result
            (λ done. IsLeft self.new (drop done.1 bytes.now) (pulled ++ drop kept bytes.now))
            (λ _. self.new.bad ≡ true
            → any_fault (numbered_lines (pulled ++ drop kept bytes.now) false) ≡ true) }
        // The opened nodes are those of the lines, one after the other.
        ensures worked { (pulled : List ℕ) → IsAfter self.old (take kept bytes.now) pulled
            → IfOk result (λ done. CountsOn frontier.opened
            (opened_by_lines (loaded_tree tree.now) (completed pulled (drop kept bytes.now) false))
            done.0.opened) }
        ensures start { IfOk result (λ done. done.1 ≤ length bytes.now) }
        ensures few { self.new.lines ≤ self.old.lines + length bytes.now }
        ensures flushed { OnOk result (K.waits sink.old ≡ false → K.waits sink.new ≡ false) }
        ensures capacity { IfOk result (λ done. done.0.capacity ≡ frontier.capacity) }
    {
        let mut frontier = frontier;
        let mut parsed = Parsed::Skip;
        let mut is_pushed = false;
        let mut start = 0;
        let mut searched = kept;
        while let Some(at) = line_end(&bytes[searched..]) {
            let end = searched + at;
            let line = &bytes[start..end];
            frontier = self.run_line(tree, frontier, line, &mut parsed, &mut is_pushed, sink)?;
            start = end + 1;
            searched = start;
        }
        flush_pushed(is_pushed, sink)?;
        Ok((frontier, start))
    }

    /// Moves the incomplete last line, from `start` to `filled`, to the front of the buffer. Returns how many bytes are
    /// kept: none of a line that is too long.
    pub(crate) fn keep(
        &mut self,
        buffer: &mut [u8; BUFFER_LEN],
        start: usize,
        filled: usize,
    ) -> usize
        requires start { start ≤ filled }
        requires filled { filled ≤ longest_line + 1 }
        ensures kept { (pulled : List ℕ)
            → IsLeft self.old (drop start (take filled buffer.old)) pulled
            → IsAfter self.new (take result buffer.new) pulled }
        ensures bound { result ≤ longest_line }
        ensures few { self.new.lines ≡ self.old.lines }
    {
        let left = filled - start;
        self.is_too_long = self.is_too_long || left == BUFFER_LEN;
        if self.is_too_long {
            return 0;
        }
        buffer.copy_within(start..filled, 0);
        left
    }

    // Answers the next line, and parses it into `parsed`. Sets `is_pushed` if something is pushed; otherwise it and the
    // sink stay as they were.
    #[tactic(auto, using(crate::proofs::PushLemmas::nothing_pushed))]
    fn run_line<K: Sink>(
        &mut self,
        tree: &Tree,
        frontier: Frontier,
        line: &[u8],
        parsed: &mut Parsed,
        is_pushed: &mut bool,
        sink: &mut K,
    ) -> Result<Frontier, WriteFault>
        requires capacity { length tree.now.entries ≤ frontier.capacity }
        requires count { K.failed sink.old < 2 ^ 64 - 1 }
        requires few { self.old.lines + 1 < 2 ^ 128 }
        ensures pushed { Pushed K.written K.failed sink.old sink.new result (reply
            (loaded_tree tree.now) (self.old.lines + 1) (parsed_of self.old.is_too_long line.now)) }
        ensures progress { self.new ≡ record {
          lines = self.old.lines + 1;
          bad = self.old.bad || is_fault (parsed_of self.old.is_too_long line.now);
          is_too_long = false;
        } }
        ensures worked { let query = parsed_of self.old.is_too_long line.now in IfOk result (λ left.
            CountsOn frontier.opened (opened_by_line (loaded_tree tree.now) query) left.opened) }
        ensures capacity { IfOk result (λ left. left.capacity ≡ frontier.capacity) }
        ensures untouched { is_pushed.new ≡ false
            → (is_pushed.old ≡ false) × (sink.new ≡ sink.old) }
    {
        self.lines += 1;
        if self.is_too_long {
            self.is_too_long = false;
            *is_pushed = true;
            return self.push_fault(frontier, QueryFault::LineTooLong, sink);
        }
        parse_into(line, parsed);
        match &*parsed {
            Parsed::Skip => Ok(frontier),
            Parsed::Query(query) => {
                *is_pushed = true;
                push_reply(tree, frontier, self.lines, query, sink)
            }
            Parsed::Fault(fault) => {
                *is_pushed = true;
                self.push_fault(frontier, *fault, sink)
            }
        }
    }

    /// Answers a line that is in memory as a whole, as [`Progress::answer_lines`] does.
    pub(crate) fn answer_whole<K: Sink>(
        &mut self,
        tree: &Tree,
        frontier: Frontier,
        line: &[u8],
        parsed: &mut Parsed,
        is_pushed: &mut bool,
        sink: &mut K,
    ) -> Result<Frontier, WriteFault>
        requires capacity { length tree.now.entries ≤ frontier.capacity }
        requires count { K.failed sink.old < 2 ^ 64 - 1 }
        requires few { self.old.lines + 1 < 2 ^ 128 }
        ensures pushed { Pushed K.written K.failed sink.old sink.new result (reply
            (loaded_tree tree.now) (self.old.lines + 1) (parsed_line line.now)) }
        ensures lines { self.new.lines ≡ self.old.lines + 1 }
        ensures bad { self.new.bad ≡ (self.old.bad || is_fault (parsed_line line.now)) }
        ensures worked { IfOk result (λ left. CountsOn frontier.opened
            (opened_by_line (loaded_tree tree.now) (parsed_line line.now)) left.opened) }
        ensures capacity { IfOk result (λ left. left.capacity ≡ frontier.capacity) }
        ensures untouched { is_pushed.new ≡ false
            → (is_pushed.old ≡ false) × (sink.new ≡ sink.old) }
    {
        self.is_too_long = line.len() > LONGEST_LINE;
        self.run_line(tree, frontier, line, parsed, is_pushed, sink)
    }

    // Pushes the reply to a faulty line, the last one counted.
    #[inline(always)]
    fn push_fault<K: Sink>(
        &mut self,
        frontier: Frontier,
        fault: QueryFault,
        sink: &mut K,
    ) -> Result<Frontier, WriteFault>
        requires count { K.failed sink.old < 2 ^ 64 - 1 }
        ensures pushed { Pushed K.written K.failed sink.old sink.new result
            (error_line self.old.lines fault) }
        ensures progress { self.new ≡ record self.old { bad = true } }
        ensures frontier { IfOk result (λ left. left ≡ frontier) }
    {
        self.bad = true;
        push_line(&error_line(self.lines, fault), sink).and(Ok(frontier))
    }
}

/// The index of the line feed that ends the first line of these bytes. `None` if no line is complete.
pub(crate) fn line_end(bytes: &[u8]) -> Option<usize>
    ensures { IsFirstByte (is_byte line_feed) bytes.now result }
{
    memchr(b'\n', bytes)
}
