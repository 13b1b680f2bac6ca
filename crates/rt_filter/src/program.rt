//! The program behind its command line: opens the files and runs.

ghost use Rattle.std.specs.{Fn.{FnReturnsAt}, Io.Buffered.{writer_contents}};
ghost use Rattle.std.specs.Prelude.{◌≡◌, MatchOption, MatchResult, Result};
ghost use Rattle.std.specs.declared.io.Error.{Error};
ghost use Rattle.rt_filter.specs.{Endings.{Known}, Exits.{EndsRun}};

use crate::ending::Ending;
use crate::filter::run_std;
use rt_command::{Invocation, Name, Settings};
use rt_device::BufferedSink;
use std::alloc::Global;
use std::io::{self, BufWriter, Read, Write};

/// The size of the output buffer in bytes. It is flushed before each read in any case.
const OUTPUT_CAPACITY: usize = 65_536;

/// Opens the table and then the queries, unless these come from standard input, and runs with a buffered writer. Returns
/// how the program ends, and the writer if a run was made.
pub fn open_and_run<F, T, Q, W>(
    alloc: Global,
    invocation: &Invocation,
    opener: F,
    input: Q,
    answers: W,
) -> (Ending, Option<BufferedSink<W>>)
where
    F: Fn(&Name) -> io::Result<T> + Drop,
    T: Read + Drop,
    Q: Read + Drop,
    W: Write + Drop,
    requires { F.IsAlwaysCallable opener }
    ensures { let command = invocation.now in (table : Result T Error)
        × FnReturnsAt F.Fn opener command.table table
        × MatchResult table (λ table. MatchOption command.queries
        (EndsRun (λ sink. writer_contents W.contents sink.device)
        command.settings (T.remaining table)
        (record { coming = Q.remaining input; written = W.contents answers }) result.0 result.1)
        (λ name. (queries : Result T Error) × FnReturnsAt F.Fn opener name queries
        × MatchResult queries (λ queries. EndsRun (λ sink. writer_contents W.contents sink.device)
        command.settings (T.remaining table)
        (record { coming = T.remaining queries; written = W.contents answers }) result.0 result.1)
        (λ _. result.0 ≡ Ending.NoQueries)))
        (λ _. result.0 ≡ Ending.NoTable) }
{
    let Ok(table) = opener(&invocation.table) else {
        return (Ending::NoTable, None);
    };
    let settings = &invocation.settings;
    match &invocation.queries {
        None => run_buffered(alloc, settings, table, input, answers),
        Some(queries) => match opener(queries) {
            Ok(queries) => run_buffered(alloc, settings, table, queries, answers),
            Err(_) => (Ending::NoQueries, None),
        },
    }
}

// Runs with a buffered writer, so that a line isn't a system call.
fn run_buffered<T: Read + Drop, Q: Read + Drop, W: Write + Drop>(
    alloc: Global,
    settings: &Settings,
    table: T,
    queries: Q,
    answers: W,
) -> (Ending, Option<BufferedSink<W>>)
    ensures { EndsRun (λ sink. writer_contents W.contents sink.device) settings.now
        (T.remaining table)
        (record { coming = Q.remaining queries; written = W.contents answers }) result.0 result.1 }
{
    let Ok(answers) = BufWriter::with_capacity(alloc, OUTPUT_CAPACITY, answers) else {
        return (Ending::NoMemory, None);
    };
    let (outcome, _queries, answers) = run_std(alloc, settings, table, queries, answers);
    (Ending::Ran(outcome), Some(answers))
}
