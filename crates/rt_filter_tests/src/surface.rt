//! The public calls as a crate writes them that names rt_filter alone: words, std's readers and writers, and slices.

use crate::expect::expect_eq;
use crate::given::{BOXES, FIND, FOUND};
use rt_filter::{
    ArgFault, Invocation, Name, Outcome, ReadFault, ReadSource, Settings, Sink, SliceSink,
    SliceSource, Source, WriteFault, WriteSink, run, settings_of,
};
use std::alloc::Global;
use std::process::Abort;
use std::test::Fail;

fn named(alloc: Global, words: &[&str]) -> Result<Vec<Name>, Fail> {
    let mut names = Vec::new(alloc);
    for word in words {
        names.push(Name::new(alloc, *word)?)?;
    }
    Ok(names)
}

// Runs over std's readers and writer, and compares what is written.
fn expect_found(rt: &(impl Abort + AllocGlobal), settings: &Settings) {
    let mut source = ReadSource::new(FIND);
    let mut buffer = [0u8; 15];
    let mut sink = WriteSink::new(&mut buffer[..]);
    let outcome = run(rt.alloc(), settings, BOXES, &mut source, &mut sink, 2);
    let well = Outcome {
        status: 0,
        fault: None,
    };
    expect_eq(rt, outcome, well);
    expect_eq(rt, (source.failures(), sink.failures()), (0, 0));
    expect_eq(rt, &buffer[..], FOUND);
}

#[test]
fn words_are_run_over_the_readers_and_writers_of_std(rt: HostRuntime) -> Result<(), Fail> {
    let words = ["rtfilter", "--fanout", "2", "boxes.csv", "queries.txt"];
    let names = named(rt.alloc(), &words)?;
    let Invocation {
        settings,
        table,
        queries,
    } = settings_of(rt.alloc(), &names).expect(&rt, "the words are right");
    expect_eq(&rt, table.text(), "boxes.csv");
    expect_eq(
        &rt,
        queries.expect(&rt, "they are named").text(),
        "queries.txt",
    );
    expect_found(&rt, &settings);
    Ok(())
}

#[test]
fn words_that_ask_for_help_or_are_wrong_are_reported(rt: HostRuntime) -> Result<(), Fail> {
    for (words, fault) in [
        (["rtfilter", "-h"], ArgFault::Help),
        (["rtfilter", "--fanout"], ArgFault::Usage),
    ] {
        let names = named(rt.alloc(), &words)?;
        expect_eq(&rt, settings_of(rt.alloc(), &names).err(), Some(fault));
    }
    Ok(())
}

#[test]
fn a_slice_fails_at_the_call_that_is_named(rt: HostRuntime) {
    for (fail_at, pulled, pushed) in [
        (Some(0), Ok(1), Ok(1)),
        (Some(1), Err(ReadFault), Err(WriteFault)),
    ] {
        let mut source = SliceSource::new(b"ab", 1, fail_at);
        expect_eq(&rt, source.pull(&mut [0; 2]), pulled);
        expect_eq(&rt, source.failures(), u64::from(pulled.is_err()));
        let mut buffer = [0u8; 2];
        let mut sink = SliceSink::new(&mut buffer, 1, fail_at);
        expect_eq(&rt, sink.push(b"ab"), pushed);
        expect_eq(&rt, sink.failures(), u64::from(pushed.is_err()));
        expect_eq(&rt, sink.written().len(), usize::from(pushed.is_ok()));
    }
}
