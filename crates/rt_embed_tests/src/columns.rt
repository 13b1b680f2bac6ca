//! Tables in columns, beside the same tables in CSV.

ghost use Rattle.std.specs.Prelude.{◌<◌};
ghost use Rattle.rt_embed.specs.Columns.{AreColumns, lists_of};

use crate::expect::expect_eq;
use crate::given::{BOXES, open, settings};
use rt_embed::{BoxList, Columns, PlainBox, Row, Rows, Session};
use rt_filter::{RunFault, Settings};
use rt_text::{Axis, TableFault};
use std::process::Abort;

/// The columns of the boxes.
const COLUMNS: Columns<'static> = Columns {
    ids: &[1, 2, 3, 4, 5],
    min_x: &[0, 5, 20, -5, 12],
    max_x: &[10, 15, 30, -1, 12],
    min_y: &[0, 5, 0, -5, 12],
    max_y: &[10, 15, 10, -1, 12],
    layers: &[0, 3, 0, 63, 0],
};

// The box at a place of the columns.
fn box_at(place: usize) -> PlainBox
    requires { place < 5 }
{
    PlainBox {
        id: COLUMNS.ids[place],
        min_x: COLUMNS.min_x[place],
        max_x: COLUMNS.max_x[place],
        min_y: COLUMNS.min_y[place],
        max_y: COLUMNS.max_y[place],
        layer: COLUMNS.layers[place],
    }
}

// The boxes one behind the other.
fn list() -> [PlainBox; 5] {
    [box_at(0), box_at(1), box_at(2), box_at(3), box_at(4)]
}

// The row of a box.
fn row(of: PlainBox) -> Row {
    Row {
        min_x: of.min_x,
        min_y: of.min_y,
        max_x: of.max_x,
        max_y: of.max_y,
    }
}

// Compares the reply of a session with that of the table's bytes.
fn expect_as_text<R: Abort + AllocGlobal>(rt: &R, fanout: u8, opened: Result<Session, RunFault>) {
    let text = b"levels\nfind all\nfind all on 3,63\nnearest 3 12 12\ncost nearest 3 12 12\n";
    let mut ours = opened.expect(rt, "the table is sound");
    let mut theirs = open(rt, fanout, BOXES);
    let _bad = ours.ask(rt.alloc(), text).expect(rt, "there is memory");
    let _bad = theirs.ask(rt.alloc(), text).expect(rt, "there is memory");
    expect_eq(rt, ours.reply(), theirs.reply());
}

#[test]
fn boxes_in_each_form_are_the_table_that_its_bytes_are(rt: HostRuntime) {
    let list = list();
    let rows = list.map(row);
    for fanout in [2, 3, 16] {
        let settings = settings(&rt, fanout);
        let opened = Session::of_boxes(rt.alloc(), &settings, &COLUMNS);
        expect_as_text(&rt, fanout, opened);
        let list = BoxList { boxes: &list };
        let opened = Session::of_boxes(rt.alloc(), &settings, &list);
        expect_as_text(&rt, fanout, opened);
        let rows = Rows {
            rows: &rows,
            ids: COLUMNS.ids,
            layers: COLUMNS.layers,
        };
        let opened = Session::of_boxes(rt.alloc(), &settings, &rows);
        expect_as_text(&rt, fanout, opened);
    }
}

// The reply to a line of a session.
fn reply_is<R: Abort + AllocGlobal>(
    rt: &R,
    opened: Result<Session, RunFault>,
    line: &[u8],
    reply: &[u8],
) {
    let mut session = opened.expect(rt, "the table is sound");
    let _bad = session.ask(rt.alloc(), line).expect(rt, "there is memory");
    expect_eq(rt, session.reply(), reply);
}

#[test]
fn without_layers_boxes_are_on_layer_0(rt: HostRuntime) {
    let columns = Columns {
        layers: &[],
        ..COLUMNS
    };
    let opened = Session::of_boxes(rt.alloc(), &settings(&rt, 2), &columns);
    reply_is(&rt, opened, b"count all on 0", b"ok 1 5\n");
}

#[test]
fn without_ids_rows_have_their_places(rt: HostRuntime) {
    let rows = list().map(row);
    let rows = Rows {
        rows: &rows,
        ids: &[],
        layers: &[],
    };
    let opened = Session::of_boxes(rt.alloc(), &settings(&rt, 2), &rows);
    reply_is(
        &rt,
        opened,
        b"find all on 0",
        b"0 0\n1 0\n2 0\n3 0\n4 0\nok 1 5\n",
    );
    let opened = Session::of_boxes(rt.alloc(), &settings(&rt, 2), &rows);
    reply_is(&rt, opened, b"nearest 1 12 12", b"1 0\nok 1 1\n");
}

// The fault of columns, of which at most so many boxes are allowed.
fn fault<R: Abort + AllocGlobal>(rt: &R, max: u32, columns: Columns<'_>) -> TableFault
    requires { AreColumns (lists_of columns) }
{
    let settings = Settings::new(true, 16, max).expect(rt, "they are in range");
    match Session::of_boxes(rt.alloc(), &settings, &columns) {
        Err(RunFault::Table(fault)) => fault,
        _ => panic!(rt; "the columns have a fault"),
    }
}

#[test]
fn faults_name_the_record(rt: HostRuntime) {
    let wide = Columns {
        max_x: &[10, 15, 19, -6, 12],
        ..COLUMNS
    };
    let axis = Axis::X;
    expect_eq(
        &rt,
        fault(&rt, 5, wide),
        TableFault::MinAboveMax { number: 3, axis },
    );
    let high = Columns {
        max_y: &[10, 15, 10, -6, 12],
        ..COLUMNS
    };
    let axis = Axis::Y;
    expect_eq(
        &rt,
        fault(&rt, 5, high),
        TableFault::MinAboveMax { number: 4, axis },
    );
    let far = Columns {
        layers: &[0, 64, 0, 0, 0],
        ..wide
    };
    expect_eq(
        &rt,
        fault(&rt, 5, far),
        TableFault::OutOfRange {
            number: 2,
            field: 6,
        },
    );
    let again = Columns {
        ids: &[1, 2, 3, 2, 1],
        ..COLUMNS
    };
    expect_eq(
        &rt,
        fault(&rt, 5, again),
        TableFault::Repeated { number: 4 },
    );
    expect_eq(&rt, fault(&rt, 4, again), TableFault::TooMany { number: 5 });
}
