//! The line that reports a fault of the table.

ghost use Rattle.std.specs.Prelude.{◌≡◌, ◌≤◌, ◌++◌, decimal, length};
ghost use Rattle.rt_text.specs.FaultLines.{fault_line, record_line};

use crate::line::Line;
use crate::tables::Axis::{X, Y};
use crate::tables::TableFault;

/// The line that reports a fault of the table, its line feed included.
pub fn fault_line(fault: &TableFault) -> Line
    ensures { result ≡ fault_line fault.now }
{
    match *fault {
        TableFault::TooMany { number } => record_line(number, b": too many entries\n"),
        TableFault::FieldCount { number, found } => {
            numbered_line(number, b": wrong number of fields (", found, b")\n")
        }
        TableFault::NotNumber { number, field } => {
            numbered_line(number, b": field ", u64::from(field), b" is not a number\n")
        }
        TableFault::OutOfRange { number, field } => {
            numbered_line(number, b": field ", u64::from(field), b" is out of range\n")
        }
        TableFault::MinAboveMax { number, axis: X } => {
            record_line(number, b": minimum above maximum in x\n")
        }
        TableFault::MinAboveMax { number, axis: Y } => {
            record_line(number, b": minimum above maximum in y\n")
        }
        TableFault::Repeated { number } => record_line(number, b": repeated id\n"),
        TableFault::Read => Line::new(b"rtfilter: cannot read table\n"),
        TableFault::Memory => Line::new(b"rtfilter: out of memory\n"),
    }
}

// A line about one record.
fn record_line(number: u32, text: &[u8]) -> Line
    requires { length text.now ≤ 84 }
    ensures { result ≡ record_line number text.now }
{
    let mut line = Line::new(text);
    line.prepend_number(u64::from(number));
    line.prepend(b"rtfilter: table record ");
    line
}

// A line about one record, with a number in it.
fn numbered_line(number: u32, before: &[u8], n: u64, after: &[u8]) -> Line
    requires before { length before.now ≤ 32 }
    requires after { length after.now ≤ 32 }
    ensures { result ≡ record_line number (before.now ++ decimal n ++ after.now) }
{
    let mut text = Line::new(after);
    text.prepend_number(n);
    text.prepend(before);
    record_line(number, text.bytes())
}
