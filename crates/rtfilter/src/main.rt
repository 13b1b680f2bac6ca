//! The program: `rtfilter [-H|--header] [--fanout M] [--max-entries N] TABLE [QUERIES]`.
//!
//! It reads the words of the command line. `rt_filter::open_and_run` then opens the files and runs, with standard output as
//! the writer; `rt_filter::Ending` has the exit status and the line on standard error.
#![tactic(auto)]

use rt_filter::{ArgFault, Ending, Invocation, Name, open_and_run, settings_of};
use std::env;
use std::fs::File;
use std::io::{self, ErrorKind};
use std::process::ExitCode;
use std::rt::Env;

fn main(rt: HostRuntime) -> ExitCode {
    let ending = match invocation(&rt) {
        Ok(invocation) => {
            let open = |name: &Name| File::open(&rt, name.text());
            open_and_run(rt.alloc(), &invocation, open, rt.reader(), io::writer(&rt)).0
        }
        Err(fault) => Ending::without_run(fault, &mut io::writer(&rt)),
    };
    // (if standard error fails too, there is nowhere to report that)
    let _ = ending.report(&mut rt.stderr());
    ExitCode::from(ending.status())
}

// Parses the words of the command line.
fn invocation<R: Env + AllocGlobal>(rt: &R) -> Result<Invocation, ArgFault> {
    let mut words = Vec::new(rt.alloc());
    for word in env::args(rt).map_err(no_words)? {
        if words.push(Name::new(rt.alloc(), word.as_str())?).is_err() {
            return Err(ArgFault::Memory);
        }
    }
    settings_of(rt.alloc(), words.as_slice())
}

// Why the words can't be read: out of memory, or one of them isn't UTF-8.
fn no_words(error: io::Error) -> ArgFault {
    match error.kind() {
        ErrorKind::OutOfMemory => ArgFault::Memory,
        _ => ArgFault::Usage,
    }
}
