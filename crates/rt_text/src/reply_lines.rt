//! Formats reply lines.

ghost use Rattle.std.specs.Prelude.{◌≡◌, ◌≤◌, length};
ghost use Rattle.rt_text.specs.ReplyLines.{answer_line, error_line, fault_text, level_line, ok_line};

use crate::line::Line;
use crate::query::QueryFault;

/// The line of an answer: its id and its score.
pub fn answer_line(id: i64, score: u128) -> Line
    ensures { result ≡ answer_line id score }
{
    let mut text = Line::new(b"");
    set_answer_line(&mut text, id, score);
    text
}

/// The line that ends a reply: the number of the query line, and a count.
pub fn ok_line(line: u128, n: u64) -> Line
    ensures { result ≡ ok_line line n }
{
    let mut text = Line::new(b"");
    set_ok_line(&mut text, line, n);
    text
}

/// The line of a level of the tree: its number of entries or nodes.
pub fn level_line(level: u8, n: u32) -> Line
    ensures { result ≡ level_line level n }
{
    let mut text = Line::new(b"\n");
    text.prepend_number(u64::from(n));
    text.prepend_byte(b' ');
    text.prepend_number(u64::from(level));
    text
}

/// The reply to a faulty query line.
pub fn error_line(line: u128, fault: QueryFault) -> Line
    ensures { result ≡ error_line line fault }
{
    let mut text = Line::new(b"\n");
    text.prepend(fault_text(fault));
    text.prepend_byte(b' ');
    text.prepend_wide(line);
    text.prepend(b"error ");
    text
}

/// Replaces a line by [`answer_line`], so that the lines of many answers are built in one buffer.
pub fn set_answer_line(text: &mut Line, id: i64, score: u128)
    ensures { text.new ≡ answer_line id score }
{
    text.clear();
    text.prepend_byte(b'\n');
    text.prepend_wide(score);
    text.prepend_byte(b' ');
    text.prepend_signed(id);
}

/// Replaces a line by [`ok_line`].
pub fn set_ok_line(text: &mut Line, line: u128, n: u64)
    ensures { text.new ≡ ok_line line n }
{
    text.clear();
    text.prepend_byte(b'\n');
    text.prepend_number(n);
    text.prepend_byte(b' ');
    text.prepend_wide(line);
    text.prepend(b"ok ");
}

fn fault_text(fault: QueryFault) -> &'static [u8]
    ensures text { result.now ≡ fault_text fault }
    ensures short { length result.now ≤ 40 }
{
    match fault {
        QueryFault::LineTooLong => b"Q1 line too long",
        QueryFault::UnknownVerb => b"Q2 unknown verb",
        QueryFault::UnknownRegion => b"Q3 unknown region",
        QueryFault::MissingWord => b"Q4 missing word",
        QueryFault::NotNumber => b"Q5 not a number",
        QueryFault::OutOfRange => b"Q6 out of range",
        QueryFault::MinAboveMax => b"Q7 minimum above maximum",
        QueryFault::VertexCount => b"Q8 vertex count",
        QueryFault::NotConvex => b"Q9 polygon not strictly convex",
        QueryFault::StrayWord => b"Q10 stray word",
    }
}
