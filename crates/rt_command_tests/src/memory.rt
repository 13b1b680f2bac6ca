//! Refused memory. Where an allocator refuses one growth, as tests/refusals.py has it, these report it; else they pass.

use rt_command::{ArgFault, Invocation, Name, settings_of};
use std::alloc::{AllocError, Global};
use std::test::Fail;

#[test]
fn a_refused_name_is_reported(rt: HostRuntime) -> Result<(), Fail> {
    for text in [
        "",
        "boxes.csv",
        "/a/folder/and/a/name/that/is/longer/than/most/of/them.csv",
    ] {
        let Ok(name) = Name::new(rt.alloc(), text) else {
            assert!(rt; Name::new(rt.alloc(), text).is_ok());
            return Err(Fail::new("reported as refused"));
        };
        assert_eq!(rt; name.text(), text);
    }
    Ok(())
}

// Words, and their settings: the fanout and the name of the queries, or the fault.
const CASES: [(&[&str], Result<(u8, Option<&str>), ArgFault>); 5] = [
    (&["rtfilter", "t.csv"], Ok((16, None))),
    (
        &[
            "rtfilter",
            "-H",
            "--fanout",
            "2",
            "--max-entries",
            "5",
            "t.csv",
            "q.txt",
        ],
        Ok((2, Some("q.txt"))),
    ),
    (&["rtfilter"], Err(ArgFault::Usage)),
    (
        &["rtfilter", "--fanout", "65", "t.csv"],
        Err(ArgFault::Usage),
    ),
    (&["rtfilter", "--help"], Err(ArgFault::Help)),
];

fn names(alloc: Global, words: &[&str]) -> Result<Vec<Name>, AllocError> {
    let mut names = Vec::new(alloc);
    for word in words {
        let name = Name::new(alloc, *word)?;
        if names.push(name).is_err() {
            return Err(AllocError);
        }
    }
    Ok(names)
}

// Whether an answer is the expected one.
fn is_expected(
    actual: &Result<Invocation, ArgFault>,
    expected: Result<(u8, Option<&str>), ArgFault>,
) -> bool {
    match (actual, expected) {
        (Ok(invocation), Ok((fanout, queries))) => {
            let named = match &invocation.queries {
                Some(name) => Some(name.text()),
                None => None,
            };
            invocation.settings.fanout() == fanout
                && invocation.table.text() == "t.csv"
                && named == queries
        }
        (Err(fault), Err(expected)) => *fault == expected,
        _ => false,
    }
}

#[test]
fn refused_settings_are_reported(rt: HostRuntime) -> Result<(), Fail> {
    for (words, expected) in CASES {
        let Ok(names) = names(rt.alloc(), words) else {
            return Err(Fail::new("refused beforehand"));
        };
        let actual = settings_of(rt.alloc(), names.as_slice());
        if let Err(ArgFault::Memory) = &actual {
            assert!(rt; is_expected(&settings_of(rt.alloc(), names.as_slice()), expected));
            return Err(Fail::new("reported as refused"));
        }
        assert!(rt; is_expected(&actual, expected));
    }
    Ok(())
}
