//! What the words of the command line ask for.

use crate::expect::expect_eq;
use rt_command::{ArgFault, Invocation, Name, Settings, settings_of};
use std::alloc::Global;
use std::process::Abort;
use std::test::Fail;

fn push(alloc: Global, names: &mut Vec<Name>, word: &str) -> Result<(), ArgFault> {
    match names.push(Name::new(alloc, word)?) {
        Ok(()) => Ok(()),
        Err(_) => Err(ArgFault::Memory),
    }
}

/// What the words ask for, the program's name before them.
fn invocation_of(alloc: Global, words: &[&str]) -> Result<Invocation, ArgFault> {
    let mut names = Vec::new(alloc);
    push(alloc, &mut names, "rtfilter")?;
    for word in words {
        push(alloc, &mut names, *word)?;
    }
    settings_of(alloc, names.as_slice())
}

fn text_of(name: &Option<Name>) -> Option<&str> {
    match name {
        Some(name) => Some(name.text()),
        None => None,
    }
}

// Words, the settings that they give, and the names of the table and of the queries.
type Row = (
    &'static [&'static str],
    (bool, u8, u32),
    &'static str,
    Option<&'static str>,
);

static INVOCATIONS: [Row; 7] = [
    (&["t.csv"], (false, 16, 16777216), "t.csv", None),
    (
        &[
            "-H",
            "--fanout",
            "2",
            "--max-entries",
            "5",
            "t.csv",
            "q.txt",
        ],
        (true, 2, 5),
        "t.csv",
        Some("q.txt"),
    ),
    (
        &["--header", "--fanout=64", "t.csv", "--max-entries=16777216"],
        (true, 64, 16777216),
        "t.csv",
        None,
    ),
    (
        &["--fanout=+7", "t.csv"],
        (false, 7, 16777216),
        "t.csv",
        None,
    ),
    (
        &["--fanout", "0016", "t.csv"],
        (false, 16, 16777216),
        "t.csv",
        None,
    ),
    (&["--", "-x"], (false, 16, 16777216), "-x", None),
    (&["-", "-"], (false, 16, 16777216), "-", Some("-")),
];

#[test]
fn invocations(rt: HostRuntime) {
    expect_invocations(&rt, rt.alloc(), &INVOCATIONS);
}

fn expect_invocations(rt: &impl Abort, alloc: Global, rows: &[Row]) {
    for (words, numbers, table, queries) in rows {
        let invocation = invocation_of(alloc, words).expect(rt, "it is an invocation");
        expect_settings(rt, &invocation.settings, *numbers);
        expect_eq(rt, invocation.table.text(), *table);
        expect_eq(rt, text_of(&invocation.queries), *queries);
    }
}

fn expect_settings(rt: &impl Abort, settings: &Settings, numbers: (bool, u8, u32)) {
    let (header, fanout, max_entries) = numbers;
    expect_eq(rt, settings.header(), header);
    expect_eq(rt, settings.fanout(), fanout);
    expect_eq(rt, settings.max_entries(), max_entries);
}

static MISUSED: [&[&str]; 13] = [
    &[],
    &["--fanout", "65", "t.csv"],
    &["--fanout", "1", "t.csv"],
    &["a", "b", "c"],
    &["--max-entries", "0", "t.csv"],
    &["--max-entries", "16777217", "t.csv"],
    &["-HH", "t.csv"],
    &["--help=1"],
    &["--head", "t.csv"],
    &["-V"],
    &["--version"],
    &["--fanout", "t.csv"],
    &["--fanout", "65", "--help"],
];

static ASKING_FOR_HELP: [&[&str]; 6] = [
    &["--help"],
    &["-h"],
    &["-Hh"],
    &["t.csv", "--help"],
    &["--help", "--fanout", "65"],
    &["-h", "a", "b", "c"],
];

#[test]
fn refusals(rt: HostRuntime) {
    expect_refusals(&rt, rt.alloc(), &MISUSED, ArgFault::Usage);
    expect_refusals(&rt, rt.alloc(), &ASKING_FOR_HELP, ArgFault::Help);
}

fn expect_refusals(rt: &impl Abort, alloc: Global, rows: &[&[&str]], want: ArgFault) {
    for words in rows {
        expect_eq(rt, invocation_of(alloc, words).err(), Some(want));
    }
}

#[test]
fn faults_are_errors_of_std(rt: HostRuntime) -> Result<(), Fail> {
    let texts = [
        (ArgFault::Help, "help was asked for"),
        (ArgFault::Usage, "bad command line"),
        (ArgFault::Memory, "out of memory"),
    ];
    for (fault, text) in texts {
        expect_eq(&rt, format!(in rt.alloc(); "{fault}")?.as_str(), text);
    }
    Ok(())
}
