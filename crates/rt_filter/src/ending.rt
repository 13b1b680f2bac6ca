//! How the program ends: its exit status, and the line on standard error.

ghost use Rattle.std.specs.{Io.KnownBytes.{Appends}, Prelude.{◌≡◌, ◌≢◌, ◌⊎◌, OnOk}};
ghost use Rattle.rt_text.specs.RunFaults.{run_fault_line};
ghost use Rattle.rt_filter.specs.Exits.{exit_status, printed_for, refusal_of, report_of};

use crate::filter::Outcome;
use rt_command::ArgFault;
use rt_text::{RunFault, run_fault_line};
use std::io::{self, Write};

/// The text of the help.
const USAGE: &[u8] =
    b"usage: rtfilter [-H|--header] [--fanout M] [--max-entries N] TABLE [QUERIES]\n";

/// How the program ends.
#[derive(Clone, Copy, Debug, PartialEq, Eq)]
pub enum Ending {
    /// The run was made, and has this outcome.
    Ran(Outcome),
    /// Help was requested, and printed.
    Helped,
    /// Help was requested, and couldn't be printed.
    NotHelped,
    /// The words are no valid command line.
    BadCommandLine,
    /// TABLE couldn't be opened.
    NoTable,
    /// QUERIES couldn't be opened.
    NoQueries,
    /// Out of memory for the words or for the output's buffer.
    NoMemory,
}

impl Ending {
    /// How the program ends if the command line asks for no run. Prints the help if that was requested.
    pub fn without_run<W: Write>(fault: ArgFault, output: &mut W) -> Ending
        ensures ending { (result ≡ refusal_of fault)
            ⊎ ((fault ≡ ArgFault.Help) × (result ≡ Ending.NotHelped)) }
        ensures printed { result ≢ Ending.NotHelped → Appends (W.contents output.old)
            (W.contents output.new) (printed_for fault) }
    {
        match fault {
            ArgFault::Help => match output.write_all(USAGE) {
                Ok(()) => Ending::Helped,
                Err(_) => Ending::NotHelped,
            },
            ArgFault::Usage => Ending::BadCommandLine,
            ArgFault::Memory => Ending::NoMemory,
        }
    }

    /// The exit status.
    pub fn status(self) -> u8
        ensures { result ≡ exit_status self }
    {
        match self {
            Ending::Ran(outcome) => outcome.status,
            Ending::Helped => 0,
            Ending::BadCommandLine => 2,
            Ending::NoTable => 3,
            Ending::NoQueries => 4,
            Ending::NotHelped => 5,
            Ending::NoMemory => 6,
        }
    }

    /// Writes the line that reports it, if there is one.
    pub fn report<W: Write>(self, errors: &mut W) -> io::Result<()>
        ensures { OnOk result
            (Appends (W.contents errors.old) (W.contents errors.new) (report_of self)) }
    {
        match self {
            Ending::Ran(outcome) => match outcome.fault {
                Some(fault) => report_fault(fault, errors),
                None => Ok(()),
            },
            Ending::Helped => Ok(()),
            Ending::NotHelped => report_fault(RunFault::Write, errors),
            Ending::BadCommandLine => errors.write_all(b"rtfilter: bad command line\n"),
            Ending::NoTable => errors.write_all(b"rtfilter: cannot open table\n"),
            Ending::NoQueries => errors.write_all(b"rtfilter: cannot open queries\n"),
            Ending::NoMemory => report_fault(RunFault::Memory, errors),
        }
    }
}

// Writes the line that reports a fault of a run.
fn report_fault<W: Write>(fault: RunFault, errors: &mut W) -> io::Result<()>
    ensures { OnOk result
        (Appends (W.contents errors.old) (W.contents errors.new) (run_fault_line fault)) }
{
    errors.write_all(run_fault_line(&fault).bytes())
}
