//! Tables, pushed one by one and made at once.

ghost use Rattle.std.specs.Prelude.{IfSome};
ghost use Rattle.rt_geo.specs.Entries.{HasLayer};

use crate::expect::expect_eq;
use crate::layered::layered;
use rt_geo::{Bounds, Entry};
use rt_tree::{EntriesFault, PushFault, Table};
use std::alloc::Global;
use std::process::Abort;
use std::test::Fail;

// Tables, in the order pushed: that of the examples, and one with ids in no order.
static TABLES: [[(i64, [i32; 4]); 5]; 2] = [
    [
        (1, [0, 10, 0, 10]),
        (2, [5, 15, 5, 15]),
        (3, [20, 30, 0, 10]),
        (4, [-5, -1, -5, -1]),
        (5, [12, 12, 12, 12]),
    ],
    [
        (5, [12, 12, 12, 12]),
        (1, [0, 10, 0, 10]),
        (-9223372036854775808, [5, 15, 5, 15]),
        (9223372036854775807, [20, 30, 0, 10]),
        (4, [-5, -1, -5, -1]),
    ],
];

fn entry(id: i64, sides: [i32; 4]) -> Option<Entry>
    ensures { IfSome result HasLayer }
{
    let [min_x, max_x, min_y, max_y] = sides;
    let bounds = Bounds::new(min_x, max_x, min_y, max_y)?;
    let layer = 0;
    Some(Entry { id, bounds, layer })
}

// Pushes a box, where it is one and the table isn't full.
fn push(table: &mut Table, id: i64, sides: [i32; 4]) -> Option<Result<(), PushFault>> {
    if table.len() >= Table::MOST_ENTRIES {
        return None;
    }
    Some(table.push(entry(id, sides)?))
}

#[test]
fn keeps_the_order_and_refuses_an_id_twice(rt: HostRuntime) {
    for boxes in &TABLES {
        let mut table = Table::empty(rt.alloc());
        assert!(rt; table.is_empty());
        for (count, (id, sides)) in boxes.iter().enumerate() {
            expect_eq(&rt, table.len() as usize, count);
            expect_eq(&rt, push(&mut table, *id, *sides), Some(Ok(())));
            expect_repeated(&rt, &mut table, *id);
        }
        assert!(rt; !table.is_empty());
        expect_repeated(&rt, &mut table, 5);
        expect_eq(&rt, table.len(), 5);
        expect_entries(&rt, &table, boxes);
    }
}

fn expect_repeated(rt: &impl Abort, table: &mut Table, id: i64) {
    let pushed = push(table, id, [0; 4]);
    expect_eq(rt, pushed, Some(Err(PushFault::Repeated)));
}

fn expect_entries(rt: &impl Abort, table: &Table, boxes: &[(i64, [i32; 4]); 5]) {
    for place in 0..table.len() {
        let (id, sides) = boxes[place as usize % boxes.len()];
        expect_eq(rt, Some(table.get(place)), entry(id, sides));
    }
    let mut greatest = i64::MIN;
    for (id, _) in boxes {
        greatest = greatest.max(*id);
    }
    expect_eq(rt, greatest_id(table), Some(greatest));
}

fn greatest_id(table: &Table) -> Option<i64> {
    let mut greatest = None;
    for place in 0..table.len() {
        greatest = greatest.max(Some(table.get(place).id));
    }
    greatest
}

// The ids of a table, in order.
fn expect_ids(rt: &impl Abort, table: &Table, ids: &[i64]) {
    expect_eq(rt, table.len() as usize, ids.len());
    for place in 0..table.len() {
        expect_eq(rt, Some(&table.get(place).id), ids.get(place as usize));
    }
}

// Boxes of one point with these ids, made a table at once.
fn loaded(alloc: Global, ids: &[i64]) -> Option<Result<Table, EntriesFault>> {
    let mut entries = Vec::new(alloc);
    for id in ids {
        entries.push(entry(*id, [0; 4])?).ok()?;
    }
    let entries = layered(alloc, &entries)?;
    if entries.len() > Table::MOST_ENTRIES as usize {
        return None;
    }
    Some(Table::of_entries(alloc, entries))
}

// Ids in some order, and the place of the first that comes again.
static LOADED: [(&[i64], Option<u32>); 12] = [
    (&[], None),
    (&[7], None),
    (&[1, 2, 3], None),
    (&[3, 2, 1], None),
    (&[9223372036854775807, -9223372036854775808, 0], None),
    (&[7, 7], Some(1)),
    (&[1, 2, 3, 4, 1], Some(4)),
    (&[1, 2, 3, 3, 2, 1], Some(3)),
    (&[3, 3, 1, 2, 1], Some(1)),
    (&[5, 4, 3, 4, 5], Some(3)),
    (&[-9223372036854775808, 1, -9223372036854775808], Some(2)),
    (
        &[2, 1, 9223372036854775807, 9223372036854775807, 1],
        Some(3),
    ),
];

#[test]
fn entries_at_once_are_a_table_or_tell_the_first_repeat(rt: HostRuntime) {
    for (ids, repeat) in &LOADED {
        match loaded(rt.alloc(), ids).expect(&rt, "there is memory") {
            Ok(table) => {
                expect_eq(&rt, *repeat, None);
                expect_ids(&rt, &table, ids);
            }
            Err(fault) => expect_eq(&rt, Some(fault), repeated_at(*repeat)),
        }
    }
}

fn repeated_at(place: Option<u32>) -> Option<EntriesFault> {
    let place = place?;
    Some(EntriesFault::Repeated { place })
}

// The same of ids that are a table.
fn loaded_table(rt: &impl Abort, alloc: Global, ids: &[i64]) -> Table {
    match loaded(alloc, ids).expect(rt, "there is memory") {
        Ok(table) => table,
        Err(_) => Table::empty(alloc),
    }
}

#[test]
fn entries_are_pushed_after_others_at_once(rt: HostRuntime) {
    let mut table = loaded_table(&rt, rt.alloc(), &[5, -3, 8]);
    for (id, pushed) in [
        (8, Err(PushFault::Repeated)),
        (-3, Err(PushFault::Repeated)),
        (6, Ok(())),
        (6, Err(PushFault::Repeated)),
        (5, Err(PushFault::Repeated)),
        (-4, Ok(())),
    ] {
        expect_eq(&rt, push(&mut table, id, [0; 4]), Some(pushed));
    }
    expect_ids(&rt, &table, &[5, -3, 8, 6, -4]);
}

// Half as many as a table may have, so that memory for them is there.
#[test]
fn one_is_pushed_after_millions_at_once(rt: HostRuntime) {
    let most = Table::MOST_ENTRIES / 2;
    let mut ids = Vec::new(rt.alloc());
    for id in 0..i64::from(most) {
        ids.push(id).expect(&rt, "there is memory");
    }
    let mut table = loaded_table(&rt, rt.alloc(), &ids);
    expect_eq(&rt, push(&mut table, -1, [0; 4]), Some(Ok(())));
    expect_eq(&rt, table.len(), most + 1);
}

// The table has the ids from 0 up to here.
fn expect_ids_up_to(rt: &impl Abort, table: &Table, end: i64) {
    expect_eq(rt, i64::from(table.len()), end);
    for place in 0..table.len() {
        expect_eq(rt, table.get(place).id, i64::from(place));
    }
}

// Where an allocator refuses one growth, as tests/refusals.py has it, this reports it, and else it passes.
#[test]
fn a_refused_push_changes_nothing(rt: HostRuntime) -> Result<(), Fail> {
    let mut table = Table::empty(rt.alloc());
    let mut is_refused = false;
    for id in 0..100 {
        let mut pushed = push(&mut table, id, [0; 4]);
        if pushed == Some(Err(PushFault::Memory)) {
            is_refused = true;
            expect_ids_up_to(&rt, &table, id);
            pushed = push(&mut table, id, [0; 4]);
        }
        expect_eq(&rt, pushed, Some(Ok(())));
        expect_repeated(&rt, &mut table, id);
    }
    expect_eq(&rt, table.len(), 100);
    if is_refused {
        return Err(Fail::new("reported as refused"));
    }
    Ok(())
}

// The same of entries at once, in the order of their ids and in none.
#[test]
fn refused_entries_at_once_are_reported(rt: HostRuntime) -> Result<(), Fail> {
    for (ids, repeat) in &LOADED {
        let Some(made) = loaded(rt.alloc(), ids) else {
            return Err(Fail::new("refused beforehand"));
        };
        let actual = match made {
            Ok(_) => None,
            Err(EntriesFault::Repeated { place }) => Some(place),
            Err(EntriesFault::Memory) => {
                let again = loaded(rt.alloc(), ids).expect(&rt, "there is memory again");
                expect_eq(&rt, again.is_err(), (*repeat).is_some());
                return Err(Fail::new("reported as refused"));
            }
        };
        expect_eq(&rt, actual, *repeat);
    }
    Ok(())
}
