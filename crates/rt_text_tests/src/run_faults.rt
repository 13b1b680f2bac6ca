//! The faults that end a run: the status and the line of each.

use crate::expect::expect_eq;
use rt_text::{RunFault, TableFault, run_fault_line};

static FAULTS: [(RunFault, u8, &[u8]); 5] = [
    (
        RunFault::Table(TableFault::Repeated { number: 5 }),
        3,
        b"rtfilter: table record 5: repeated id\n",
    ),
    (
        RunFault::Table(TableFault::Read),
        3,
        b"rtfilter: cannot read table\n",
    ),
    (RunFault::Read, 4, b"rtfilter: cannot read queries\n"),
    (RunFault::Write, 5, b"rtfilter: cannot write answers\n"),
    (RunFault::Memory, 6, b"rtfilter: out of memory\n"),
];

#[test]
fn statuses_and_lines(rt: HostRuntime) {
    for (fault, status, text) in &FAULTS {
        expect_eq(&rt, fault.status(), *status);
        expect_eq(&rt, run_fault_line(fault).bytes(), *text);
    }
}

#[test]
fn faults_of_tables(rt: HostRuntime) {
    let repeated = TableFault::Repeated { number: 5 };
    expect_eq(&rt, RunFault::from(repeated), RunFault::Table(repeated));
    let memory = RunFault::from(TableFault::Memory);
    expect_eq(&rt, memory, RunFault::Memory);
}
