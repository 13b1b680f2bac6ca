//! The public calls as other crates write them: words are names, and what they ask for has fields.

use crate::expect::expect_eq;
use rt_command::{ArgFault, Invocation, Name, Settings, settings_of};
use std::alloc::{AllocError, Global};
use std::process::Abort;
use std::test::Fail;

fn names(alloc: Global, words: &[&str]) -> Result<Vec<Name>, AllocError> {
    let mut names = Vec::new(alloc);
    for word in words {
        names.push(Name::new(alloc, *word)?)?;
    }
    Ok(names)
}

#[test]
fn a_name_has_a_text_of_its_own(rt: HostRuntime) -> Result<(), Fail> {
    let mut text = String::from_str(rt.alloc(), "boxes")?;
    let name: Name = Name::new(rt.alloc(), text.as_str())?;
    text.push_str(".csv")?;
    expect_eq(&rt, name.text(), "boxes");
    expect_eq(
        &rt,
        Name::new(rt.alloc(), text.as_str())?.text(),
        "boxes.csv",
    );
    expect_eq(&rt, Name::new(rt.alloc(), "")?.text(), "");
    Ok(())
}

fn expect_settings(rt: &impl Abort, settings: &Settings, want: (bool, u8, u32)) {
    let found = (settings.header(), settings.fanout(), settings.max_entries());
    expect_eq(rt, found, want);
}

#[test]
fn settings_are_read_back(rt: HostRuntime) {
    let settings: Option<Settings> = Settings::new(true, 3, 5);
    let settings = settings.expect(&rt, "they are in range");
    expect_settings(&rt, &settings, (true, 3, 5));
    let settings = Settings::new(false, 64, 16_777_216).expect(&rt, "they are in range");
    expect_settings(&rt, &settings, (false, 64, 16_777_216));
}

// The least and the greatest values, and those next to them.
static RANGES: [(u8, u32, bool); 8] = [
    (2, 1, true),
    (64, 16_777_216, true),
    (0, 1, false),
    (1, 1, false),
    (65, 1, false),
    (2, 0, false),
    (2, 16_777_217, false),
    (255, 4_294_967_295, false),
];

#[test]
fn settings_are_none_where_one_is_out_of_range(rt: HostRuntime) {
    for (fanout, max_entries, is_allowed) in &RANGES {
        for header in [false, true] {
            let settings = Settings::new(header, *fanout, *max_entries);
            expect_eq(&rt, settings.is_some(), *is_allowed);
        }
    }
}

#[test]
fn an_invocation_has_settings_a_table_and_queries(rt: HostRuntime) -> Result<(), Fail> {
    let words = [
        "rtfilter",
        "-H",
        "--fanout",
        "2",
        "--max-entries",
        "5",
        "t.csv",
        "q.txt",
    ];
    let Invocation {
        settings,
        table,
        queries,
    } = settings_of(rt.alloc(), &names(rt.alloc(), &words)?).expect(&rt, "the words are right");
    expect_settings(&rt, &settings, (true, 2, 5));
    expect_eq(&rt, table.text(), "t.csv");
    let queries: Name = queries.expect(&rt, "they are named");
    expect_eq(&rt, queries.text(), "q.txt");
    Ok(())
}

#[test]
fn a_table_alone_is_read_with_the_usual_settings(rt: HostRuntime) -> Result<(), Fail> {
    let words = names(rt.alloc(), &["rtfilter", "t.csv"])?;
    let invocation = settings_of(rt.alloc(), &words).expect(&rt, "the words are right");
    expect_settings(&rt, &invocation.settings, (false, 16, 16_777_216));
    expect_eq(&rt, invocation.table.text(), "t.csv");
    assert!(rt; invocation.queries.is_none());
    Ok(())
}

static REFUSED: [(&[&str], ArgFault); 5] = [
    (&["rtfilter", "--help"], ArgFault::Help),
    (&["rtfilter"], ArgFault::Usage),
    (&["rtfilter", "--fanout", "65", "t.csv"], ArgFault::Usage),
    (&["rtfilter", "--fanout", "1", "t.csv"], ArgFault::Usage),
    (&["rtfilter", "a", "b", "c"], ArgFault::Usage),
];

#[test]
fn other_words_are_refused_with_their_fault(rt: HostRuntime) -> Result<(), Fail> {
    for (words, fault) in &REFUSED {
        let words = names(rt.alloc(), *words)?;
        let refused: Result<Invocation, ArgFault> = settings_of(rt.alloc(), &words);
        expect_eq(&rt, refused.err(), Some(*fault));
    }
    Ok(())
}
