//! The texts of tables, and the table or the fault of each.

use crate::expect::expect_eq;
use rt_geo::Bounds;
use rt_text::{Axis, TableFault, read_table};
use rt_tree::Table;
use std::alloc::Global;
use std::io::{self, Read};
use std::process::Abort;

const MOST_ENTRIES: u32 = 16_777_216;

// What a text gives that may have so many entries, and no more than `MOST_ENTRIES`.
fn load(alloc: Global, text: &str, header: bool, max: u32) -> Result<Table, TableFault> {
    read_table(alloc, text.as_bytes(), header, max.min(MOST_ENTRIES))
}

fn sides(bounds: &Bounds) -> [i32; 4] {
    [
        bounds.min_x(),
        bounds.max_x(),
        bounds.min_y(),
        bounds.max_y(),
    ]
}

// A load gave just these ids with these sides, in this order, and these layers.
fn expect_entries(
    rt: &impl Abort,
    loaded: &Result<Table, TableFault>,
    boxes: &[(i64, [i32; 4])],
    layers: &[u8],
) {
    let table = loaded.as_ref().expect(rt, "it is a table");
    expect_eq(rt, table.len() as usize, boxes.len());
    for place in 0..table.len() {
        let entry = table.get(place);
        let found = (entry.id, sides(&entry.bounds));
        expect_eq(rt, Some(&found), boxes.get(place as usize));
        expect_eq(rt, Some(&entry.layer), layers.get(place as usize));
    }
}

// Texts, and the fault of each.
static FAULTS: [(&str, TableFault); 22] = [
    (
        "1,0,1,0\n",
        TableFault::FieldCount {
            number: 1,
            found: 4,
        },
    ),
    (
        "1,0,1,0,1,\n",
        TableFault::NotNumber {
            number: 1,
            field: 6,
        },
    ),
    (
        "1,0,1,0,1,0,0\n",
        TableFault::FieldCount {
            number: 1,
            found: 7,
        },
    ),
    (
        ",0,0,0,0\n",
        TableFault::NotNumber {
            number: 1,
            field: 1,
        },
    ),
    (
        "1,a,0,0,0\n",
        TableFault::NotNumber {
            number: 1,
            field: 2,
        },
    ),
    (
        "1,0,0,0, 0\n",
        TableFault::NotNumber {
            number: 1,
            field: 5,
        },
    ),
    (
        "1,0,2147483648,x,0\n",
        TableFault::OutOfRange {
            number: 1,
            field: 3,
        },
    ),
    (
        "1,5,4,0,0\n",
        TableFault::MinAboveMax {
            number: 1,
            axis: Axis::X,
        },
    ),
    (
        "1,0,0,1,0\n",
        TableFault::MinAboveMax {
            number: 1,
            axis: Axis::Y,
        },
    ),
    (
        "1,5,4,1,0\n",
        TableFault::MinAboveMax {
            number: 1,
            axis: Axis::X,
        },
    ),
    (
        "7,0,0,0,0\n8,0,0,0,0\n+07,1,1,1,1\n",
        TableFault::Repeated { number: 3 },
    ),
    (
        "7,0,0,0,0\n7,1,0,0,0\n",
        TableFault::MinAboveMax {
            number: 2,
            axis: Axis::X,
        },
    ),
    // A repeated id is reported before what is wrong with a later record, and after what is wrong with an earlier one.
    (
        "7,0,0,0,0\n7,0,0,0,0\n8,x,0,0,0\n",
        TableFault::Repeated { number: 2 },
    ),
    (
        "7,0,0,0,0\n8,x,0,0,0\n7,0,0,0,0\n",
        TableFault::NotNumber {
            number: 2,
            field: 2,
        },
    ),
    (
        "9,0,0,0,0\n8,0,0,0,0\n7,0,0,0,0\n7,0,0,0,0\n8,0,0,0,0\n9,0,0",
        TableFault::Repeated { number: 4 },
    ),
    // A quoted field may hold quotes, commas and line ends, none of which is part of a number.
    (
        "\"1\"\"\",0,0,0,0\n",
        TableFault::NotNumber {
            number: 1,
            field: 1,
        },
    ),
    (
        "\"1,0\",0,0,0,0\n",
        TableFault::NotNumber {
            number: 1,
            field: 1,
        },
    ),
    (
        "\"1\n\",0,0,0,0\n",
        TableFault::NotNumber {
            number: 1,
            field: 1,
        },
    ),
    // An empty line has no number, and what the end of the text cuts short is a record.
    (
        "\n\r\n\n1,5,4,0,0\n",
        TableFault::MinAboveMax {
            number: 1,
            axis: Axis::X,
        },
    ),
    (
        "1,0,0,0,0\n\n2,0",
        TableFault::FieldCount {
            number: 2,
            found: 2,
        },
    ),
    (
        "1,0,0,0,0\r2,5,4,0,0\r",
        TableFault::MinAboveMax {
            number: 2,
            axis: Axis::X,
        },
    ),
    // The mark is dropped at the start alone.
    (
        "1,0,0,0,0\n\u{feff}2,0,0,0,0\n",
        TableFault::NotNumber {
            number: 2,
            field: 1,
        },
    ),
];

// Texts whose layers are at fault, and the fault of each.
static LAYER_FAULTS: [(&str, TableFault); 10] = [
    (
        "1,0,10,0,10,3\n2,5,15,5,15\n3,0,0,0,0,64\n",
        TableFault::OutOfRange {
            number: 3,
            field: 6,
        },
    ),
    (
        "1,0,0,0,0,-1\n",
        TableFault::OutOfRange {
            number: 1,
            field: 6,
        },
    ),
    (
        "1,0,0,0,0,99999999999999999999999999999999999999999999999999\n",
        TableFault::OutOfRange {
            number: 1,
            field: 6,
        },
    ),
    (
        "1,0,0,0,0,x\n",
        TableFault::NotNumber {
            number: 1,
            field: 6,
        },
    ),
    (
        "1,0,0,0,0, 3\n",
        TableFault::NotNumber {
            number: 1,
            field: 6,
        },
    ),
    (
        "1,0,0,0,0,+\n",
        TableFault::NotNumber {
            number: 1,
            field: 6,
        },
    ),
    // The layer is judged after the fields in front of it, and before the sides are compared and the ids are.
    (
        "1,0,0,0,x,y\n",
        TableFault::NotNumber {
            number: 1,
            field: 5,
        },
    ),
    (
        "1,5,4,1,0,64\n",
        TableFault::OutOfRange {
            number: 1,
            field: 6,
        },
    ),
    (
        "1,5,4,1,0,63\n",
        TableFault::MinAboveMax {
            number: 1,
            axis: Axis::X,
        },
    ),
    (
        "1,0,0,0,0,1\n1,0,0,0,0,2\n1,0,0,0,0,64\n",
        TableFault::Repeated { number: 2 },
    ),
];

#[test]
fn faults_of_texts(rt: HostRuntime) {
    expect_faults(&rt, rt.alloc(), &FAULTS);
    expect_faults(&rt, rt.alloc(), &LAYER_FAULTS);
}

fn expect_faults(rt: &impl Abort, alloc: Global, rows: &[(&str, TableFault)]) {
    for (text, expected) in rows {
        expect_eq(
            rt,
            load(alloc, text, false, MOST_ENTRIES).err(),
            Some(*expected),
        );
    }
}

// Texts, and the field of the first record whose number is out of its range.
static OUT_OF_RANGE: [(&str, u8); 6] = [
    ("9223372036854775808,0,0,0,0\n", 1),
    ("-9223372036854775809,0,0,0,0\n", 1),
    ("1,-2147483649,0,0,0\n", 2),
    ("1,0,2147483648,0,0\n", 3),
    ("1,0,0,-2147483649,0\n", 4),
    ("1,0,0,0,2147483648\n", 5),
];

#[test]
fn past_the_ends_of_the_ranges(rt: HostRuntime) {
    for (text, field) in &OUT_OF_RANGE {
        let expected = TableFault::OutOfRange {
            number: 1,
            field: *field,
        };
        expect_eq(
            &rt,
            load(rt.alloc(), text, false, MOST_ENTRIES).err(),
            Some(expected),
        );
    }
}

// Texts, whether they have a header, how many entries they may have, and the fault of each.
static HEADER_AND_NUMBER_FAULTS: [(&str, bool, u32, TableFault); 9] = [
    (
        "id,minX,maxX,minY,maxY\r\n\"1\",0,10,0,10\r\n",
        false,
        MOST_ENTRIES,
        TableFault::NotNumber {
            number: 1,
            field: 1,
        },
    ),
    // A header may look like an entry, and is counted all the same.
    (
        "1,0,0,0,0\n1,1,1,1,1\n1,2,2,2,2\n",
        true,
        MOST_ENTRIES,
        TableFault::Repeated { number: 3 },
    ),
    (
        "id\n2,0,0,0,0\n1,0,0,0,0\n2,0,0,0,0\nx\n",
        true,
        MOST_ENTRIES,
        TableFault::Repeated { number: 4 },
    ),
    // The record after the most entries is reported before what is wrong with it.
    (
        "1,0,0,0,0\n1,2",
        false,
        1,
        TableFault::TooMany { number: 2 },
    ),
    (
        "1,0,0,0,0\n1,2",
        false,
        2,
        TableFault::FieldCount {
            number: 2,
            found: 2,
        },
    ),
    (
        "1,0,0,0,0\n1,2",
        true,
        1,
        TableFault::FieldCount {
            number: 2,
            found: 2,
        },
    ),
    (
        "1,0,0,0,0\n1,0,0,0,0\n2,0,0,0,0\n",
        false,
        1,
        TableFault::TooMany { number: 2 },
    ),
    (
        "1,0,0,0,0\n1,0,0,0,0\n2,0,0,0,0\n",
        false,
        2,
        TableFault::Repeated { number: 2 },
    ),
    (
        "id\n1,0,0,0,0\n2,0,0,0,0\n",
        true,
        1,
        TableFault::TooMany { number: 3 },
    ),
];

#[test]
fn faults_after_headers_and_of_most_entries(rt: HostRuntime) {
    for (text, header, max, expected) in &HEADER_AND_NUMBER_FAULTS {
        expect_eq(
            &rt,
            load(rt.alloc(), text, *header, *max).err(),
            Some(*expected),
        );
    }
}

const SOME_WITH_LAYER: &str = "5,0,0,0,0\n4,1,1,1,1,63\n3,2,2,2,2,0\n2,3,3,3,3\n\
    1,4,4,4,4,\"+7\"\n0,5,5,5,5,-0\n-1,6,6,6,6,000000000000000000000000000000000000000009\n";

type Boxes = &'static [(i64, [i32; 4])];

const TWO_BOXES: Boxes = &[(1, [0, 10, -3, 4]), (-2, [5, 5, 5, 5])];

// Texts, whether they have a header, how many entries they may have, and what these are: ids and sides, and layers.
static LOADS: [(&str, bool, u32, Boxes, &[u8]); 15] = [
    (
        SOME_WITH_LAYER,
        false,
        MOST_ENTRIES,
        &[
            (5, [0; 4]),
            (4, [1; 4]),
            (3, [2; 4]),
            (2, [3; 4]),
            (1, [4; 4]),
            (0, [5; 4]),
            (-1, [6; 4]),
        ],
        &[0, 63, 0, 0, 7, 0, 9],
    ),
    // A header may name the layer, or not.
    (
        "id,minX,maxX,minY,maxY,layer\n1,0,0,0,0\n2,0,0,0,0,3\n",
        true,
        MOST_ENTRIES,
        &[(1, [0; 4]), (2, [0; 4])],
        &[0, 3],
    ),
    (
        "id,minX,maxX,minY,maxY\n1,0,0,0,0,3\n2,0,0,0,0\n",
        true,
        MOST_ENTRIES,
        &[(1, [0; 4]), (2, [0; 4])],
        &[3, 0],
    ),
    // The ends of the ranges.
    (
        "-9223372036854775808,-2147483648,2147483647,-2147483648,2147483647\n\
            9223372036854775807,0,0,0,0\n",
        false,
        MOST_ENTRIES,
        &[
            (i64::MIN, [i32::MIN, i32::MAX, i32::MIN, i32::MAX]),
            (i64::MAX, [0; 4]),
        ],
        &[0, 0],
    ),
    // One table that is written in many ways.
    (
        "1,0,10,-3,4\n-2,5,5,5,5\n",
        false,
        MOST_ENTRIES,
        TWO_BOXES,
        &[0, 0],
    ),
    (
        "1,0,10,-3,4\r\n-2,5,5,5,5",
        false,
        MOST_ENTRIES,
        TWO_BOXES,
        &[0, 0],
    ),
    (
        "1,0,10,-3,4\r-2,5,5,5,5\r",
        false,
        MOST_ENTRIES,
        TWO_BOXES,
        &[0, 0],
    ),
    (
        "\n\n1,0,10,-3,4\n\r\n-2,5,5,5,5\n\n",
        false,
        MOST_ENTRIES,
        TWO_BOXES,
        &[0, 0],
    ),
    (
        "\u{feff}\"1\",\"0\",\"+10\",\"-3\",\"4\"\n\"-2\",5,5,5,5\n",
        false,
        MOST_ENTRIES,
        TWO_BOXES,
        &[0, 0],
    ),
    (
        "0001,-0,+010,-03,04\n-2,5,5,5,5\n",
        false,
        MOST_ENTRIES,
        TWO_BOXES,
        &[0, 0],
    ),
    // A header is no entry.
    (
        "id,minX,maxX,minY,maxY\r\n\"1\",0,10,0,10\r\n",
        true,
        MOST_ENTRIES,
        &[(1, [0, 10, 0, 10])],
        &[0],
    ),
    (
        "id\n1,0,0,0,0\n2,0,0,0,0\n",
        true,
        2,
        &[(1, [0; 4]), (2, [0; 4])],
        &[0, 0],
    ),
    ("x\n", true, MOST_ENTRIES, &[], &[]),
    ("", true, MOST_ENTRIES, &[], &[]),
    ("", false, MOST_ENTRIES, &[], &[]),
];

#[test]
fn entries_of_texts(rt: HostRuntime) {
    for (text, header, max, boxes, layers) in &LOADS {
        let loaded = load(rt.alloc(), text, *header, *max);
        expect_entries(&rt, &loaded, *boxes, *layers);
    }
}

// Gives its text one byte at a time, then an error.
#[derive(Drop)]
struct Broken<'a> {
    text: &'a [u8],
    at: usize,
}

impl<'a> Read for Broken<'a> {
    fn read(&mut self, buf: &mut [u8]) -> io::Result<usize> {
        match (self.text.get(self.at), buf.first_mut()) {
            (Some(byte), Some(place)) => {
                *place = *byte;
                self.at = self.at.saturating_add(1);
                Ok(1)
            }
            _ => Err(io::Error::from(io::ErrorKind::BrokenPipe)),
        }
    }
}

// Texts after which the reader fails, how many entries they may have, and the fault of each.
static BROKEN: [(&str, u32, TableFault); 8] = [
    (
        "1,0,0,0,0\n1,0,0,0,0\n2,0",
        MOST_ENTRIES,
        TableFault::Repeated { number: 2 },
    ),
    ("", MOST_ENTRIES, TableFault::Read),
    ("1,0,0,0,0\n", MOST_ENTRIES, TableFault::Read),
    ("1,0,0,0,0\n2,0,0", MOST_ENTRIES, TableFault::Read),
    (
        "1,5,4,0,0\n2,0,0",
        MOST_ENTRIES,
        TableFault::MinAboveMax {
            number: 1,
            axis: Axis::X,
        },
    ),
    ("1,5,4,0,0", MOST_ENTRIES, TableFault::Read),
    // No more is read once the record after the most entries is there.
    (
        "1,0,0,0,0\n2,0,0,0,0\n",
        1,
        TableFault::TooMany { number: 2 },
    ),
    ("1,0,0,0,0\n", 1, TableFault::Read),
];

#[test]
fn failing_readers(rt: HostRuntime) {
    for (text, max, expected) in &BROKEN {
        let reader = Broken {
            text: text.as_bytes(),
            at: 0,
        };
        let loaded = read_table(rt.alloc(), reader, false, (*max).min(MOST_ENTRIES));
        expect_eq(&rt, loaded.err(), Some(*expected));
    }
}
