//! Exports that open, share and close sessions.

ghost use Rattle.std.specs.Prelude.{◌≡◌, ◌≢◌, ◌<◌, ◌↔◌, ◌⊎◌, false, None, Some, IfSome, IsErrAnd, IsOkAnd, IsSome};
ghost use Rattle.rt_command.specs.Choices.{AreAllowed, Choices};
ghost use Rattle.rt_embed.specs.Columns.{AreColumns, AreRows, in_columns, in_list, in_rows};
ghost use Rattle.rtfilter_c.specs.{Calls.{HoldsBoxes, HoldsTable, arrays, holds_new, row_parts}, Faults.{IsFaultInNumbers, ReportsBoxesFault, ReportsFault}};

use crate::codes::{BAD_SETTING, BAD_TABLE, NO_MEMORY, OK};
use crate::fault::{Fault, numbers_of};
use rt_embed::{BoxList, Boxes, Columns, PlainBox, Row, Rows, Session};
use rt_filter::{RunFault, Settings};
use rt_handle::Handle;
use std::alloc::Global;

/// Opens a session of a table in CSV: [`OK`], [`BAD_SETTING`], [`BAD_TABLE`] or [`NO_MEMORY`]. The fault is written if and
/// only if the table has one.
#[unsafe(no_mangle)]
pub extern "C" fn rtfilter_engine_open_bytes(
    alloc: Global,
    out: &mut Handle,
    table: &[u8],
    header: bool,
    fanout: u8,
    max_entries: u32,
    fault: &mut Fault,
) -> u8
    requires closed { out.old.held ≡ None }
    ensures opened { let choices : Choices =
        record { header = header; fanout = fanout; max_entries = max_entries } in
        result ≡ OK → HoldsTable choices table.now out.new.held }
    ensures closed { OK < result → out.new.held ≡ None }
    ensures setting { let choices : Choices =
        record { header = header; fanout = fanout; max_entries = max_entries } in
        (result ≡ BAD_SETTING) ↔ (AreAllowed choices → ⊥) }
    ensures fault { let choices : Choices =
        record { header = header; fanout = fanout; max_entries = max_entries } in
        result ≡ BAD_TABLE → ReportsFault choices table.now fault.new }
    ensures no_fault { result ≢ BAD_TABLE → fault.new ≡ fault.old }
    ensures codes { (result ≡ OK) ⊎ (result ≡ BAD_SETTING)
        ⊎ (result ≡ BAD_TABLE) ⊎ (result ≡ NO_MEMORY) }
{
    let Some(settings) = Settings::new(header, fanout, max_entries) else {
        return BAD_SETTING;
    };
    open(alloc, out, Session::open(alloc, &settings, table), fault)
}

/// Opens a session of a table in columns of equal length; there may be no layers. Codes and fault as for
/// [`rtfilter_engine_open_bytes`].
#[unsafe(no_mangle)]
pub extern "C" fn rtfilter_engine_open_arrays(
    alloc: Global,
    out: &mut Handle,
    ids: &[i64],
    min_x: &[i32],
    max_x: &[i32],
    min_y: &[i32],
    max_y: &[i32],
    layers: &[u8],
    fanout: u8,
    max_entries: u32,
    fault: &mut Fault,
) -> u8
    requires closed { out.old.held ≡ None }
    requires fit { AreColumns
        (arrays ids.now min_x.now max_x.now min_y.now max_y.now layers.now) }
    ensures opened { let choices : Choices =
        record { header = false; fanout = fanout; max_entries = max_entries } in
        let given =
        in_columns (arrays ids.now min_x.now max_x.now min_y.now max_y.now layers.now) in
        result ≡ OK → HoldsBoxes choices given out.new.held }
    ensures closed { OK < result → out.new.held ≡ None }
    ensures setting { let choices : Choices =
        record { header = false; fanout = fanout; max_entries = max_entries } in
        (result ≡ BAD_SETTING) ↔ (AreAllowed choices → ⊥) }
    ensures fault { let choices : Choices =
        record { header = false; fanout = fanout; max_entries = max_entries } in
        let given =
        in_columns (arrays ids.now min_x.now max_x.now min_y.now max_y.now layers.now) in
        result ≡ BAD_TABLE → ReportsBoxesFault choices given fault.new }
    ensures no_fault { result ≢ BAD_TABLE → fault.new ≡ fault.old }
    ensures codes { (result ≡ OK) ⊎ (result ≡ BAD_SETTING)
        ⊎ (result ≡ BAD_TABLE) ⊎ (result ≡ NO_MEMORY) }
{
    let columns = Columns {
        ids,
        min_x,
        max_x,
        min_y,
        max_y,
        layers,
    };
    open_boxes(alloc, out, &columns, fanout, max_entries, fault)
}

/// Opens a session of a table of whole boxes. Codes and fault as for [`rtfilter_engine_open_bytes`].
#[unsafe(no_mangle)]
pub extern "C" fn rtfilter_engine_open_boxes(
    alloc: Global,
    out: &mut Handle,
    boxes: &[PlainBox],
    fanout: u8,
    max_entries: u32,
    fault: &mut Fault,
) -> u8
    requires closed { out.old.held ≡ None }
    ensures opened { let choices : Choices =
        record { header = false; fanout = fanout; max_entries = max_entries } in
        let given = in_list boxes.now in
        result ≡ OK → HoldsBoxes choices given out.new.held }
    ensures closed { OK < result → out.new.held ≡ None }
    ensures setting { let choices : Choices =
        record { header = false; fanout = fanout; max_entries = max_entries } in
        (result ≡ BAD_SETTING) ↔ (AreAllowed choices → ⊥) }
    ensures fault { let choices : Choices =
        record { header = false; fanout = fanout; max_entries = max_entries } in
        let given = in_list boxes.now in
        result ≡ BAD_TABLE → ReportsBoxesFault choices given fault.new }
    ensures no_fault { result ≢ BAD_TABLE → fault.new ≡ fault.old }
    ensures codes { (result ≡ OK) ⊎ (result ≡ BAD_SETTING)
        ⊎ (result ≡ BAD_TABLE) ⊎ (result ≡ NO_MEMORY) }
{
    open_boxes(alloc, out, &BoxList { boxes }, fanout, max_entries, fault)
}

/// Opens a session of a table in rows, with as many ids and layers, or none. Codes and fault as for
/// [`rtfilter_engine_open_bytes`].
#[unsafe(no_mangle)]
pub extern "C" fn rtfilter_engine_open_rows(
    alloc: Global,
    out: &mut Handle,
    rows: &[Row],
    ids: &[i64],
    layers: &[u8],
    fanout: u8,
    max_entries: u32,
    fault: &mut Fault,
) -> u8
    requires closed { out.old.held ≡ None }
    requires fit { AreRows (row_parts rows.now ids.now layers.now) }
    ensures opened { let choices : Choices =
        record { header = false; fanout = fanout; max_entries = max_entries } in
        let given = in_rows (row_parts rows.now ids.now layers.now) in
        result ≡ OK → HoldsBoxes choices given out.new.held }
    ensures closed { OK < result → out.new.held ≡ None }
    ensures setting { let choices : Choices =
        record { header = false; fanout = fanout; max_entries = max_entries } in
        (result ≡ BAD_SETTING) ↔ (AreAllowed choices → ⊥) }
    ensures fault { let choices : Choices =
        record { header = false; fanout = fanout; max_entries = max_entries } in
        let given = in_rows (row_parts rows.now ids.now layers.now) in
        result ≡ BAD_TABLE → ReportsBoxesFault choices given fault.new }
    ensures no_fault { result ≢ BAD_TABLE → fault.new ≡ fault.old }
    ensures codes { (result ≡ OK) ⊎ (result ≡ BAD_SETTING)
        ⊎ (result ≡ BAD_TABLE) ⊎ (result ≡ NO_MEMORY) }
{
    let rows = Rows { rows, ids, layers };
    open_boxes(alloc, out, &rows, fanout, max_entries, fault)
}

// Opens a session of a table of boxes in arrays of any layout.
fn open_boxes<B: Boxes>(
    alloc: Global,
    out: &mut Handle,
    boxes: &B,
    fanout: u8,
    max_entries: u32,
    fault: &mut Fault,
) -> u8
    requires closed { out.old.held ≡ None }
    requires fit { B.fit boxes.now }
    ensures opened { let choices : Choices =
        record { header = false; fanout = fanout; max_entries = max_entries } in
        let given = B.given boxes.now in
        result ≡ OK → HoldsBoxes choices given out.new.held }
    ensures closed { OK < result → out.new.held ≡ None }
    ensures setting { let choices : Choices =
        record { header = false; fanout = fanout; max_entries = max_entries } in
        (result ≡ BAD_SETTING) ↔ (AreAllowed choices → ⊥) }
    ensures fault { let choices : Choices =
        record { header = false; fanout = fanout; max_entries = max_entries } in
        let given = B.given boxes.now in
        result ≡ BAD_TABLE → ReportsBoxesFault choices given fault.new }
    ensures no_fault { result ≢ BAD_TABLE → fault.new ≡ fault.old }
    ensures codes { (result ≡ OK) ⊎ (result ≡ BAD_SETTING)
        ⊎ (result ≡ BAD_TABLE) ⊎ (result ≡ NO_MEMORY) }
{
    let Some(settings) = Settings::new(false, fanout, max_entries) else {
        return BAD_SETTING;
    };
    open(
        alloc,
        out,
        Session::of_boxes(alloc, &settings, boxes),
        fault,
    )
}

/// Opens another session of the same table: [`OK`] or [`NO_MEMORY`].
#[unsafe(no_mangle)]
pub extern "C" fn rtfilter_engine_share(alloc: Global, of: &mut Handle, out: &mut Handle) -> u8
    requires open { IsSome of.old.held }
    requires closed { out.old.held ≡ None }
    ensures opened { result ≡ OK
        → IfSome of.old.held (λ session. out.new.held ≡ holds_new session.tree) }
    ensures closed { OK < result → out.new.held ≡ None }
    ensures same { of.new.held ≡ of.old.held }
    ensures codes { (result ≡ OK) ⊎ (result ≡ NO_MEMORY) }
{
    let session = of.take(alloc);
    let shared = session.share(alloc);
    of.put(session);
    match shared {
        Ok(other) => hold(alloc, out, other),
        Err(_) => NO_MEMORY,
    }
}

/// Closes a session, and frees its memory. The last session of a table frees the table.
#[unsafe(no_mangle)]
pub extern "C" fn rtfilter_engine_close(alloc: Global, session: &mut Handle)
    requires open { IsSome session.old.held }
    ensures closed { session.new.held ≡ None }
{
    drop(session.take(alloc));
}

// Puts a session that was opened into a handle, or writes the fault of its table.
fn open(alloc: Global, out: &mut Handle, opened: Result<Session, RunFault>, fault: &mut Fault) -> u8
    requires closed { out.old.held ≡ None }
    ensures opened { result ≡ OK → IsOkAnd opened (λ session. out.new.held ≡ Some session) }
    ensures closed { OK < result → out.new.held ≡ None }
    ensures fault { result ≡ BAD_TABLE
        → IsErrAnd opened (λ cause. IsFaultInNumbers cause fault.new) }
    ensures no_fault { result ≢ BAD_TABLE → fault.new ≡ fault.old }
    ensures codes { (result ≡ OK) ⊎ (result ≡ BAD_TABLE) ⊎ (result ≡ NO_MEMORY) }
{
    match opened {
        Ok(session) => hold(alloc, out, session),
        Err(RunFault::Table(cause)) => match numbers_of(cause) {
            Some(numbers) => {
                *fault = numbers;
                BAD_TABLE
            }
            None => NO_MEMORY,
        },
        Err(_) => NO_MEMORY,
    }
}

// Puts a session into a handle: `OK` or `NO_MEMORY`.
fn hold(alloc: Global, out: &mut Handle, session: Session) -> u8
    requires closed { out.old.held ≡ None }
    ensures opened { result ≡ OK → out.new.held ≡ Some session }
    ensures closed { OK < result → out.new.held ≡ None }
    ensures codes { (result ≡ OK) ⊎ (result ≡ NO_MEMORY) }
{
    match Box::new(alloc, session) {
        Ok(session) => {
            out.put(session);
            OK
        }
        Err(_) => NO_MEMORY,
    }
}
