//! A run over bytes in memory: what it is given, and what it has to give.

use crate::expect::expect_eq;
use rt_filter::{Outcome, RunFault, Settings, Sink, SliceSink, SliceSource, Source, run};
use rt_text::read_table;
use rt_tree::Tree;
use std::alloc::Global;
use std::io::Read;
use std::process::Abort;

pub(crate) const BOXES: &[u8] =
    b"1,0,10,0,10\n2,5,15,5,15\n3,20,30,0,10\n4,-5,-1,-5,-1\n5,12,12,12,12\n";

pub(crate) const WITH_HEADER: &[u8] =
    b"id,minX,maxX,minY,maxY\n1,0,10,0,10\n2,5,15,5,15\n3,20,30,0,10\n4,-5,-1,-5,-1\n5,12,12,12,12\n";

pub(crate) const FIND: &[u8] = b"find window 0 10 0 10\n";

pub(crate) const FOUND: &[u8] = b"1 0\n2 0\nok 1 2\n";

/// How many bytes a query line has at most, without its line feed.
pub(crate) const LONGEST_LINE: usize = 4096;

/// A pull gives at most as many bytes: those of the longest line and its line feed.
pub(crate) const LONGEST_PIECE: usize = LONGEST_LINE + 1;

/// The five boxes of the examples, at most two children for each node.
pub(crate) fn pack(rt: &impl Abort, alloc: Global) -> Tree {
    let table = read_table(alloc, BOXES, false, 5).expect(rt, "the table is sound");
    Tree::pack(alloc, table, 2).expect(rt, "there is memory")
}

/// What a run is given beside its table and its queries.
#[derive(Clone, Copy)]
pub(crate) struct Given {
    pub(crate) header: bool,
    pub(crate) fanout: u8,
    pub(crate) max_entries: u32,
    pub(crate) piece: usize,
    pub(crate) capacity: usize,
    pub(crate) pull_fails: Option<u64>,
    pub(crate) push_fails: Option<u64>,
    pub(crate) turns: u64,
}

pub(crate) const PLAIN: Given = Given {
    header: false,
    fanout: 16,
    max_entries: 16_777_216,
    piece: LONGEST_PIECE,
    capacity: 256,
    pull_fails: None,
    push_fails: None,
    turns: u64::MAX,
};

impl Given {
    /// Runs over a table in memory, as `expect_of` does.
    pub(crate) fn expect<R: Abort + AllocGlobal>(
        self,
        rt: &R,
        table: &[u8],
        queries: &[u8],
        written: &[u8],
        status: u8,
        fault: Option<RunFault>,
    ) {
        self.expect_of(rt, table, queries, written, status, fault);
    }

    /// Runs, and compares what was written, the status and the fault.
    pub(crate) fn expect_of<R: Abort + AllocGlobal, T: Read + Drop>(
        self,
        rt: &R,
        table: T,
        queries: &[u8],
        written: &[u8],
        status: u8,
        fault: Option<RunFault>,
    ) {
        let settings = Settings::new(self.header, self.fanout, self.max_entries).expect(
            rt,
            "they are in range",
        );
        assert!(rt; self.piece > 0 && self.capacity <= 256);
        let mut source = SliceSource::new(queries, self.piece, self.pull_fails);
        let mut buffer = [0u8; 256];
        let mut sink = SliceSink::new(&mut buffer[..self.capacity], self.piece, self.push_fails);
        let outcome = run(
            rt.alloc(),
            &settings,
            table,
            &mut source,
            &mut sink,
            self.turns,
        );
        expect_eq(rt, sink.written(), written);
        expect_eq(rt, outcome, Outcome { status, fault });
        expect_eq(rt, source.failures(), self.failed_pulls(fault));
        expect_eq(rt, sink.failures(), failed_pushes(fault));
    }

    fn failed_pulls(self, fault: Option<RunFault>) -> u64 {
        u64::from(fault == Some(RunFault::Read) && self.pull_fails.is_some())
    }

    /// Runs each line by itself, and compares its reply. The status is that of a faulty line where the reply is an error.
    pub(crate) fn expect_replies<R: Abort + AllocGlobal>(
        self,
        rt: &R,
        table: &[u8],
        rows: &[(&str, &str)],
    ) {
        for (line, reply) in rows {
            let status = u8::from(reply.starts_with("error"));
            self.expect(rt, table, line.as_bytes(), reply.as_bytes(), status, None);
        }
    }
}

fn failed_pushes(fault: Option<RunFault>) -> u64 {
    u64::from(fault == Some(RunFault::Write))
}
