//! Reads the table from CSV: checks its records, and returns the entries or the first fault.
//!
//! Records are those of `csv` with its usual settings, of any number of fields: commas, fields in double quotes with
//! doubled quotes inside, ends by LF, CR or both; empty lines and a byte order mark are skipped. A record is five numbers:
//! an id, the minimum and the maximum x, the minimum and the maximum y. A sixth may follow, the layer; it is 0 if it is
//! missing.

ghost use Rattle.std.specs.{List.{slice_index_or}, Prelude.{◌≡◌, ◌≤ℤ◌, ◌<◌, ◌≤◌, ◌++◌, ◌∷◌, [], length, ◌⊎◌, List, ℕ}};
ghost use Rattle.std.specs.Prelude.{pos, unsigned_abs, Result, Ok, Some, None, IsOkAnd, IfOk, IfErr, OnErr, OnOk, All, IsTrue};
ghost use Rattle.csv.specs.{Reading.{ReadRecord, has_failed}, Records.{fields_of}};
ghost use Rattle.rt_geo.specs.{Entries.{HasLayer}, Layers.{most_layer}, declared.entry.Entry.{Entry}};
ghost use Rattle.rt_tree.specs.Entries.{first_repeat, most_entries};
ghost use Rattle.rt_text.specs.Loads.{EndsAt, IsReading, IsRefusal, after_ids, entry_after, first_number};
ghost use Rattle.rt_text.specs.{Steps.{map_value}, Tables.{IsFaultOf, coordinate_at, entry_of_fields, number_at, table_of}};

use crate::numbers::{self, NumberFault};
use csv::{ByteRecord, Reader, ReaderBuilder};
use rt_geo::{Bounds, Entry, Layers};
use rt_tree::{Entries, EntriesFault, Table};
use std::alloc::Global;
use std::io::Read;

/// An axis of the plane.
#[derive(Clone, Copy, Debug, PartialEq, Eq)]
pub enum Axis {
    X,
    Y,
}

/// A fault of a table, with the number of the record, from 1, and of the field, from 1.
#[derive(Clone, Copy, Debug, PartialEq, Eq)]
pub enum TableFault {
    /// The record comes after the maximum number of entries.
    TooMany { number: u32 },
    /// The record has neither five nor six fields.
    FieldCount { number: u32, found: u64 },
    /// The field is no number.
    NotNumber { number: u32, field: u8 },
    /// The field's number is out of its range.
    OutOfRange { number: u32, field: u8 },
    /// The minimum is above the maximum.
    MinAboveMax { number: u32, axis: Axis },
    /// An earlier record has the same id.
    Repeated { number: u32 },
    /// The reader failed.
    Read,
    /// Out of memory.
    Memory,
}

/// The number of fields of a record without a layer: `id`, `minX`, `maxX`, `minY` and `maxY`.
const FIELDS_WITHOUT_LAYER: usize = 5;

/// The number of fields of a record with a layer.
const FIELDS_WITH_LAYER: usize = 6;

/// A part of a table, or its fault.
type Judged<T> = Result<T, TableFault>;

/// Reads a table: at most `max` boxes, with distinct ids. With `header` the first record is counted and not checked.
/// Returns the fault of the first record that has one. `Read` and `Memory` come when the reader fails or memory runs out,
/// instead of whatever would follow.
pub fn read_table<R: Read + Drop>(
    alloc: Global,
    reader: R,
    header: bool,
    max: u32,
) -> Result<Table, TableFault>
    requires { max ≤ most_entries }
    ensures table { IfOk result (λ table. (bytes : List ℕ)
        → R.remaining reader ≡ Some bytes → table_of bytes header max ≡ Ok table) }
    ensures fault { IfErr result (λ cause. (bytes : List ℕ)
        → R.remaining reader ≡ Some bytes → IsFaultOf cause (table_of bytes header max)) }
{
    let mut entries = Entries::empty(alloc);
    let end = read_entries(alloc, reader, header, max, &mut entries);
    // (a repeated id is reported first: it is in an earlier record than the fault that ended the load)
    let table = table_of_entries(alloc, header, entries)?;
    end.and(Ok(table))
}

// Reads the entries of records, without comparing ids. After a fault the entries are those of the records before.
fn read_entries<R: Read + Drop>(
    alloc: Global,
    reader: R,
    header: bool,
    max: u32,
    entries: &mut Entries,
) -> Judged<()>
    requires none { entries.old ≡ [] }
    requires most { max ≤ most_entries }
    ensures few { length entries.new ≤ max }
    ensures layers { All HasLayer entries.new }
    ensures end { (bytes : List ℕ) → R.remaining reader ≡ Some bytes
        → EndsAt result header entries.new (table_of bytes header max) }
{
    let mut records = ReaderBuilder::new()
        .flexible(true)
        .has_headers(false)
        .from_reader(alloc, reader);
    let mut fields = ByteRecord::new(alloc);
    // At most a header, `max` entries and one more record are read.
    for number in 1..max + 3 {
        if !next_record(&mut records, &mut fields)? {
            return Ok(());
        }
        if header && number == 1 {
            continue;
        }
        add_entry(max, number, &fields, entries)?;
    }
    unreachable!()
}

// The table of the entries that were read, if their ids are distinct.
fn table_of_entries(alloc: Global, header: bool, entries: Entries) -> Judged<Table>
    requires most { length entries ≤ most_entries }
    requires layers { All HasLayer entries }
    ensures table { IfOk result (λ table. table ≡ entries) }
    ensures once { IfOk result (λ _. first_repeat entries ≡ None) }
    ensures fault { IfErr result (λ cause. (rest : Result (List Entry) TableFault)
        → IsRefusal cause (after_ids header entries rest)) }
{
    match Table::of_entries(alloc, entries) {
        Ok(table) => Ok(table),
        Err(EntriesFault::Repeated { place }) => Err(TableFault::Repeated {
            number: first_number(header) + place,
        }),
        Err(EntriesFault::Memory) => Err(TableFault::Memory),
    }
}

// The number of the record of the first entry.
fn first_number(header: bool) -> u32
    ensures { result ≡ first_number header }
{
    if header { 2 } else { 1 }
}

// The next record, if there is one. After an error, of the reader or for lack of memory, there is none.
fn next_record<R: Read>(records: &mut Reader<R>, fields: &mut ByteRecord) -> Judged<bool>
    requires { IsReading records.old }
    ensures reads { IfOk result (λ found.
        ReadRecord R.remaining records.old records.new found (fields_of fields.new)) }
    ensures reading { OnOk result (IsReading records.new) }
    ensures failed { OnErr result (IsTrue (has_failed records.new)) }
    ensures fault { IfErr result
        (λ cause. (cause ≡ TableFault.Read) ⊎ (cause ≡ TableFault.Memory)) }
{
    match records.read_byte_record(fields) {
        Ok(found) => Ok(found),
        Err(error) if error.is_io_error() => Err(TableFault::Read),
        Err(_) => Err(TableFault::Memory),
    }
}

// Checks one record, apart from whether its id is repeated, and adds its entry.
fn add_entry(max: u32, number: u32, fields: &ByteRecord, entries: &mut Entries) -> Judged<()>
    requires { All HasLayer entries.old }
    ensures added { OnOk result (IsOkAnd (entry_after max number entries.old (fields_of fields.now))
        (λ entry. entries.new ≡ entries.old ++ entry ∷ [])) }
    ensures few { OnOk result (length entries.new ≤ max) }
    ensures layers { All HasLayer entries.new }
    ensures fault { IfErr result (λ cause.
        IsRefusal cause (entry_after max number entries.old (fields_of fields.now))) }
    ensures err { OnErr result (entries.new ≡ entries.old) }
{
    if entries.len() >= max as usize {
        return Err(TableFault::TooMany { number });
    }
    let entry = entry_of(number, fields)?;
    entries.push(entry).or(Err(TableFault::Memory))
}

// The entry of a record's fields.
fn entry_of(number: u32, fields: &ByteRecord) -> Judged<Entry>
    ensures value { result ≡ entry_of_fields number (fields_of fields.now) }
    ensures layer { IfOk result HasLayer }
{
    let found = fields.len();
    if found != FIELDS_WITHOUT_LAYER && found != FIELDS_WITH_LAYER {
        return Err(TableFault::FieldCount {
            number,
            found: found as u64,
        });
    }
    let id = number_at(number, 1, i64::MIN, i64::MAX, fields)?;
    let min_x = coordinate_at(number, 2, fields)?;
    let max_x = coordinate_at(number, 3, fields)?;
    let min_y = coordinate_at(number, 4, fields)?;
    let max_y = coordinate_at(number, 5, fields)?;
    let layer = if found == FIELDS_WITHOUT_LAYER {
        0
    } else {
        sixth_field(number, fields)?
    };
    let Some(bounds) = Bounds::new(min_x, max_x, min_y, max_y) else {
        let axis = if min_x > max_x { Axis::X } else { Axis::Y };
        return Err(TableFault::MinAboveMax { number, axis });
    };
    Ok(Entry { id, bounds, layer })
}

// The text of an existing field, at an index from 0.
fn text_at(fields: &ByteRecord, place: usize) -> &[u8]
    requires { place < length (fields_of fields.now) }
    ensures { result.now ≡ slice_index_or (fields_of fields.now) place [] }
{
    fields.get(place).unwrap()
}

// A coordinate.
#[inline(always)]
fn coordinate_at(number: u32, field: u8, fields: &ByteRecord) -> Judged<i32>
    requires { (0 < field) × (field ≤ length (fields_of fields.now)) }
    ensures { result ≡ coordinate_at number field (fields_of fields.now) }
{
    let (low, high) = (i64::from(i32::MIN), i64::from(i32::MAX));
    Ok(number_at(number, field, low, high, fields)? as i32)
}

// The layer in the sixth field. Out of line, as most tables have none.
#[inline(never)]
fn sixth_field(number: u32, fields: &ByteRecord) -> Judged<u8>
    requires { FIELDS_WITH_LAYER ≤ length (fields_of fields.now) }
    ensures value { result ≡ map_value unsigned_abs
        (number_at number 6 (pos 0) (pos most_layer) (fields_of fields.now)) }
    ensures within { IfOk result (λ layer. layer ≤ most_layer) }
{
    let layer = number_at(number, 6, 0, i64::from(Layers::MOST), fields)?;
    Ok(layer.unsigned_abs() as u8)
}

// The number in an existing field, within a range.
#[inline(always)]
fn number_at(number: u32, field: u8, low: i64, high: i64, fields: &ByteRecord) -> Judged<i64>
    requires { (0 < field) × (field ≤ length (fields_of fields.now)) }
    ensures value { result ≡ number_at number field low high (fields_of fields.now) }
    ensures within { IfOk result (λ n. (low ≤ℤ n) × (n ≤ℤ high)) }
{
    let text = text_at(fields, usize::from(field) - 1);
    match numbers::number_64(text, low, high) {
        Ok(value) => Ok(value),
        Err(NumberFault::NotNumber) => Err(TableFault::NotNumber { number, field }),
        Err(NumberFault::OutOfRange) => Err(TableFault::OutOfRange { number, field }),
    }
}
