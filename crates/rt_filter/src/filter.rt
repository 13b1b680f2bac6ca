//! A whole run: loads a table, and answers the queries.

ghost use Rattle.std.specs.Prelude.{◌≡◌, ◌+◌, ◌-◌, ◌<◌, ◌≤◌, ◌^◌, ◌⊎◌, ◌≢◌, ◌++◌, ℕ, List, Some, None, IfOk, IfErr};
ghost use Rattle.std.specs.{Io.Buffered.{writer_buffer, writer_contents}, Option.{option_map_or}, Prelude.{IsTrue, MatchOption, [], length, if◌then◌else◌}};
ghost use Rattle.rt_text.specs.{RunFaults.{status_of}, declared.run_faults.RunFault.{RunFault}};
ghost use Rattle.rt_filter.specs.{Accounts.{Accounts, connection_of}, Endings.{Ends, ConsumedAtLeast, run_fault_of}};
ghost use Rattle.rt_filter.specs.Runs.{run_of};
ghost use Rattle.rt_filter.specs.Stages.{HasLoaded, Stops, is_of_load};

use crate::serving::{ServeFault, serve};
use rt_command::Settings;
use rt_device::{BufferedSink, ReadSource, Sink, Source};
use rt_search::Frontier;
use rt_text::{RunFault, TableFault, read_table};
use rt_tree::Tree;
use std::alloc::Global;
use std::io::{BufWriter, Read, Write};

/// How a run ended.
#[derive(Clone, Copy, Debug, PartialEq, Eq)]
pub struct Outcome {
    /// 0 if all is well, 1 if some query line was faulty, 3 to 6 by the fault.
    pub status: u8,
    /// Why it ended early, if it did.
    pub fault: Option<RunFault>,
}

/// A run over readers and a buffered writer of std, with as many turns as can be counted. Returns the reader of the queries
/// and the writer too. The program calls it with its open files.
pub fn run_std<T: Read + Drop, Q: Read + Drop, W: Write + Drop>(
    alloc: Global,
    settings: &Settings,
    table: T,
    queries: Q,
    answers: BufWriter<W>,
) -> (Outcome, ReadSource<Q>, BufferedSink<W>)
    // As for `run`. Each failure of the reader of the queries or of the writer is reported, and no other. Without such a
    // failure reading ends early only once all turns are used up.
    ensures headline { (all lines before : List ℕ) → T.remaining table ≡ Some all
        → Q.remaining queries ≡ Some lines → writer_contents W.contents answers ≡ Some before
        → result.0.fault ≢ Some RunFault.Memory
        → result.0.fault ≢ Some (RunFault.Table TableFault.Read) → result.1.failures ≡ 0
        → result.2.failures ≡ 0 → length lines < 2 ^ 64 - 1
        → (writer_contents W.contents result.2.device
        ≡ Some (before ++ (run_of settings.now all lines).0))
        × (result.0 ≡ (run_of settings.now all lines).1) }
    ensures ending { (all : List ℕ) → T.remaining table ≡ Some all → Ends settings.now all
        (record { coming = Q.remaining queries; written = writer_contents W.contents answers })
        (record {
          coming = Q.remaining result.1.device;
          written = writer_contents W.contents result.2.device;
        }) result.0 }
    ensures status { MatchOption result.0.fault (result.0.status ≤ 1)
        (λ fault. result.0.status ≡ status_of fault) }
    ensures memory { result.0.fault ≢ Some (RunFault.Table TableFault.Memory) }
    ensures pushes { (result.0.fault ≡ Some RunFault.Write → result.2.failures ≡ 1)
        × (result.0.fault ≢ Some RunFault.Write → result.2.failures ≡ 0) }
    ensures pulls { (result.1.failures ≡ 0)
        ⊎ ((result.1.failures ≡ 1) × (result.0.fault ≡ Some RunFault.Read)) }
    ensures turns { result.0.fault ≡ Some RunFault.Read → result.1.failures ≡ 0
        → ConsumedAtLeast (2 ^ 64 - 1) (Q.remaining queries) (Q.remaining result.1.device) }
    // All bytes that were pushed have left the buffer for the writer, if the buffer was empty before.
    ensures flushed { result.0.fault ≢ Some RunFault.Write
        → writer_buffer answers ≡ [] → writer_buffer result.2.device ≡ [] }
    ensures untouched { (fault : RunFault) → result.0.fault ≡ Some fault → fault ≢ RunFault.Read
        → fault ≢ RunFault.Write → (result.1.device ≡ queries) × (result.2.device ≡ answers) }
{
    let mut source = ReadSource::new(queries);
    let mut sink = BufferedSink::new(answers);
    let outcome = run(alloc, settings, table, &mut source, &mut sink, u64::MAX);
    (outcome, source, sink)
}

/// Loads the table, and then answers the query lines as [`serve`] does.
pub fn run<R: Read + Drop, S: Source, K: Sink>(
    alloc: Global,
    settings: &Settings,
    reader: R,
    source: &mut S,
    sink: &mut K,
    turns: u64,
) -> Outcome
    requires source_count { S.failed source.old < 2 ^ 64 - 1 }
    requires sink_count { K.failed sink.old < 2 ^ 64 - 1 }
    // The headline. The three devices report their bytes, no allocation failed while the table was loaded, no read of it
    // failed, no pull, push or flush failed, and the queries have fewer bytes than there are turns.
    ensures headline { (table queries before : List ℕ) → R.remaining reader ≡ Some table
        → S.coming source.old ≡ Some queries → K.written sink.old ≡ Some before
        → result.fault ≢ Some RunFault.Memory → result.fault ≢ Some (RunFault.Table TableFault.Read)
        → S.failed source.new ≡ S.failed source.old → K.failed sink.new ≡ K.failed sink.old
        → length queries < turns
        → (K.written sink.new ≡ Some (before ++ (run_of settings.now table queries).0))
        × (result ≡ (run_of settings.now table queries).1) }
    // How a run ends, failures included: source and sink, if they reported their bytes before, report them at the end too.
    // After a failed push or flush a prefix was written; after a failed pull or used-up turns the replies to the complete
    // lines; after a failed load, nothing.
    ensures ending { (table : List ℕ) → R.remaining reader ≡ Some table → Ends settings.now table
        (record { coming = S.coming source.old; written = K.written sink.old })
        (record { coming = S.coming source.new; written = K.written sink.new }) result }
    // The status is that of the fault; without a fault it is 0 or 1. Out of memory is never reported as a fault of the
    // table.
    ensures status { MatchOption result.fault (result.status ≤ 1)
        (λ fault. result.status ≡ status_of fault) }
    ensures memory { result.fault ≢ Some (RunFault.Table TableFault.Memory) }
    // What is reported of the devices' failures, the pulls made, and what waits for a flush.
    ensures accounts { let of = connection_of S.coming S.failed S.pulled
        K.written K.failed K.waits in Accounts (of source.old sink.old) (of source.new sink.new)
        turns (result.fault ≡ Some RunFault.Read) (result.fault ≡ Some RunFault.Write) }
    // After a fault of neither queries nor output, so one of the load, no query byte was read and nothing was written.
    ensures untouched { (fault : RunFault) → result.fault ≡ Some fault → fault ≢ RunFault.Read
        → fault ≢ RunFault.Write → (source.new ≡ source.old) × (sink.new ≡ sink.old) }
{
    match load(alloc, settings, reader) {
        Ok((tree, frontier)) => {
            let served = serve(&tree, frontier, source, sink, turns);
            Outcome::new(served.bad, served.fault.map(RunFault::from))
        }
        Err(fault) => Outcome::new(false, Some(fault)),
    }
}

/// The tree of a table, and a frontier with capacity for every query over it. No fault is one of the queries or the output.
pub fn load<R: Read + Drop>(
    alloc: Global,
    settings: &Settings,
    reader: R,
) -> Result<(Tree, Frontier), RunFault>
    ensures loaded { IfOk result (λ loaded. (table : List ℕ)
        → R.remaining reader ≡ Some table → HasLoaded settings.now table loaded.0) }
    ensures capacity { IfOk result (λ loaded. length loaded.0.entries ≤ loaded.1.capacity) }
    ensures stops { IfErr result (λ fault. (table : List ℕ)
        → R.remaining reader ≡ Some table → Stops settings.now table fault) }
    ensures memory { IfErr result (λ fault. fault ≢ RunFault.Table TableFault.Memory) }
    ensures of_load { IfErr result (λ fault. IsTrue (is_of_load (Some fault))) }
{
    let table = read_table(alloc, reader, settings.header(), settings.max_entries())?;
    let tree = Tree::pack(alloc, table, settings.fanout())?;
    let frontier = Frontier::new(alloc, tree.len())?;
    Ok((tree, frontier))
}

impl Outcome {
    // The outcome with a fault, or, without one, after faulty lines or none.
    fn new(bad: bool, fault: Option<RunFault>) -> Outcome
        ensures fault { result.fault ≡ fault }
        ensures status { result.status ≡ option_map_or status_of fault (if bad then 1 else 0) }
    {
        let status = match fault {
            None => u8::from(bad),
            Some(fault) => fault.status(),
        };
        Outcome { status, fault }
    }
}

impl From<ServeFault> for RunFault {
    ghost from_gives = { λ fault result. result ≡ run_fault_of fault };

    fn from(fault: ServeFault) -> RunFault {
        match fault {
            ServeFault::Read => RunFault::Read,
            ServeFault::Write => RunFault::Write,
        }
    }
}
