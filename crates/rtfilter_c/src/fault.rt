//! The fault of a table as numbers, and its message.

ghost use Rattle.std.specs.Prelude.{◌≡◌, IfSome, None, Some};
ghost use Rattle.rt_text.specs.declared.tables.TableFault.{TableFault};
ghost use Rattle.rtfilter_c.specs.Faults.{HasField, HasMessage, fault_with, numbers_of};

use crate::texts::copy_front;
use rt_text::{Axis, TableFault, fault_line};

/// A fault of a table: `rtfilter_fault` of include/rtfilter.h.
#[repr(C)]
#[derive(Clone, Copy, Debug, PartialEq, Eq)]
pub struct Fault {
    /// One of the kinds below.
    pub kind: u32,
    /// The record, from 1.
    pub record: u32,
    /// The field, from 1; if two fields contradict each other, the first of them. For `FIELD_COUNT` the number of fields. 0
    /// if there is no field to name.
    pub field: u64,
}

const TOO_MANY: u32 = 1;

const FIELD_COUNT: u32 = 2;

const NOT_NUMBER: u32 = 3;

const OUT_OF_RANGE: u32 = 4;

const MIN_ABOVE_MAX: u32 = 5;

const REPEATED: u32 = 6;

// The fields of a record, from 1.
const ID: u64 = 1;

const MIN_X: u64 = 2;

const MIN_Y: u64 = 4;

/// The numbers of a fault. `None` if it isn't one of the table itself: a failed read, or out of memory.
pub(crate) fn numbers_of(fault: TableFault) -> Option<Fault>
    ensures { result ≡ numbers_of fault }
{
    let (kind, record, field) = match fault {
        TableFault::TooMany { number } => (TOO_MANY, number, 0),
        TableFault::FieldCount { number, found } => (FIELD_COUNT, number, found),
        TableFault::NotNumber { number, field } => (NOT_NUMBER, number, u64::from(field)),
        TableFault::OutOfRange { number, field } => (OUT_OF_RANGE, number, u64::from(field)),
        TableFault::MinAboveMax {
            number,
            axis: Axis::X,
        } => (MIN_ABOVE_MAX, number, MIN_X),
        TableFault::MinAboveMax {
            number,
            axis: Axis::Y,
        } => (MIN_ABOVE_MAX, number, MIN_Y),
        TableFault::Repeated { number } => (REPEATED, number, ID),
        TableFault::Read | TableFault::Memory => return None,
    };
    Some(Fault {
        kind,
        record,
        field,
    })
}

/// Writes the program's message for a table with this fault, without the line feed: the first bytes, as many as fit.
/// Returns its length. If the numbers are those of no fault, it is 0, and nothing is written.
#[unsafe(no_mangle)]
pub extern "C" fn rtfilter_engine_fault_message(fault: &Fault, buffer: &mut [u8]) -> usize
    ensures message { (cause : TableFault) → HasField cause → numbers_of cause ≡ Some fault.now
        → HasMessage cause result buffer.old buffer.new }
    ensures none { ((cause : TableFault) → numbers_of cause ≡ Some fault.now → ⊥)
        → (result ≡ 0) × (buffer.new ≡ buffer.old) }
{
    let Some(cause) = fault_of(*fault) else {
        return 0;
    };
    write_message(&cause, buffer)
}

// Writes the message of a fault, and returns its length.
fn write_message(cause: &TableFault, buffer: &mut [u8]) -> usize
    ensures { HasMessage cause.now result buffer.old buffer.new }
{
    let line = fault_line(cause);
    let line = line.bytes();
    let message = &line[..line.len().saturating_sub(1)];
    copy_front(message, buffer);
    message.len()
}

// The fault with these numbers.
fn fault_of(numbers: Fault) -> Option<TableFault>
    ensures sound { IfSome result (λ cause. numbers_of cause ≡ Some numbers) }
    ensures whole { (cause : TableFault) → HasField cause → numbers_of cause ≡ Some numbers
        → result ≡ Some cause }
{
    let cause = fault_with(numbers)?;
    if numbers_of(cause) == Some(numbers) {
        Some(cause)
    } else {
        None
    }
}

// The only fault that may have these numbers.
fn fault_with(numbers: Fault) -> Option<TableFault>
    ensures { result ≡ fault_with numbers }
{
    let number = numbers.record;
    let field = (numbers.field % 256) as u8;
    match numbers.kind {
        TOO_MANY => Some(TableFault::TooMany { number }),
        FIELD_COUNT => Some(TableFault::FieldCount {
            number,
            found: numbers.field,
        }),
        NOT_NUMBER => Some(TableFault::NotNumber { number, field }),
        OUT_OF_RANGE => Some(TableFault::OutOfRange { number, field }),
        MIN_ABOVE_MAX => {
            let axis = if numbers.field == MIN_X {
                Axis::X
            } else {
                Axis::Y
            };
            Some(TableFault::MinAboveMax { number, axis })
        }
        REPEATED => Some(TableFault::Repeated { number }),
        _ => None,
    }
}
