//! The faults that end a run, each with its exit status and its line.

ghost use Rattle.std.specs.Prelude.{◌≡◌};
ghost use Rattle.rt_text.specs.{RunFaults.{run_fault, run_fault_line, status_of}, declared.run_faults.RunFault.{RunFault}};

use crate::fault_lines::fault_line;
use crate::line::Line;
use crate::tables::TableFault;
use std::alloc::AllocError;
use thiserror::Error;

/// Why a run ended early.
#[derive(Clone, Copy, Debug, Drop, Error, PartialEq, Eq)]
pub enum RunFault {
    /// The table is faulty, or couldn't be read.
    #[error("faulty or unreadable table")]
    Table(TableFault),
    /// A pull of the queries failed, or the turns were used up.
    #[error("cannot read queries")]
    Read,
    /// A push or a flush of the output failed.
    #[error("cannot write answers")]
    Write,
    /// Out of memory.
    #[error("out of memory")]
    Memory,
}

impl RunFault {
    /// The exit status of a run that ends with this fault, 3 to 6.
    pub fn status(self) -> u8
        ensures { result ≡ status_of self }
    {
        match self {
            RunFault::Table(_) => 3,
            RunFault::Read => 4,
            RunFault::Write => 5,
            RunFault::Memory => 6,
        }
    }
}

impl From<TableFault> for RunFault {
    ghost from_gives = { λ fault result. result ≡ run_fault fault };

    fn from(fault: TableFault) -> RunFault {
        match fault {
            TableFault::Memory => RunFault::Memory,
            fault => RunFault::Table(fault),
        }
    }
}

impl From<AllocError> for RunFault {
    ghost from_gives = { λ _ result. result ≡ RunFault.Memory };

    fn from(_: AllocError) -> RunFault {
        RunFault::Memory
    }
}

/// The line that reports a fault, its line feed included.
pub fn run_fault_line(fault: &RunFault) -> Line
    ensures { result ≡ run_fault_line fault.now }
{
    match fault {
        RunFault::Table(fault) => fault_line(fault),
        RunFault::Read => Line::new(b"rtfilter: cannot read queries\n"),
        RunFault::Write => Line::new(b"rtfilter: cannot write answers\n"),
        RunFault::Memory => Line::new(b"rtfilter: out of memory\n"),
    }
}
