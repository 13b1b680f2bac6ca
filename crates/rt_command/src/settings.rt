//! The settings of a run.

ghost use Rattle.std.specs.Prelude.{◌≡◌};
ghost use Rattle.std.specs.Option.{SomeIff};
ghost use Rattle.rt_command.specs.Choices.{AreAllowed, Choices};

use rt_tree::Table;
use std::marker::Model;

/// The settings of a run.
#[derive(Clone, Copy, Debug, PartialEq, Eq)]
pub struct Settings {
    header: bool,
    fanout: u8,
    max_entries: u32,
}

impl Model for Settings {
    ghost use Rattle.rt_command.specs.Choices.{AreAllowed, Choices};

    ghost Value = { Choices };

    ghost view = { λ s.
        record { header = s.header; fanout = s.fanout; max_entries = s.max_entries } };

    ghost invariant = { λ s.
        AreAllowed (record { header = s.header; fanout = s.fanout; max_entries = s.max_entries }) };

    ghost inverse = { λ c.
        record { header = c.header; fanout = c.fanout; max_entries = c.max_entries } };
}

impl Settings {
    /// The lowest fanout, the most children of a node.
    pub(crate) const LEAST_FANOUT: u8 = 2;

    /// The highest fanout.
    pub(crate) const GREATEST_FANOUT: u8 = 64;

    /// The most entries that a table may have.
    pub(crate) const MOST_ENTRIES: u32 = Table::MOST_ENTRIES;

    /// Settings with these values: whether the table's first record is a header, the fanout (the most children of a node, 2
    /// to 64) and the most entries of the table (1 to 16,777,216). `None` if and only if one is out of its range.
    pub fn new(header: bool, fanout: u8, max_entries: u32) -> Option<Settings>
        ensures { let given : Choices =
            record { header = header; fanout = fanout; max_entries = max_entries } in
            SomeIff result (AreAllowed given) given }
    {
        if fanout < Settings::LEAST_FANOUT || fanout > Settings::GREATEST_FANOUT {
            return None;
        }
        if max_entries == 0 || max_entries > Settings::MOST_ENTRIES {
            return None;
        }
        Some(Settings {
            header,
            fanout,
            max_entries,
        })
    }

    /// Whether the table's first record is a header.
    pub fn header(&self) -> bool
        ensures { result ≡ self.now.header }
    {
        self.header
    }

    /// The most children of a node.
    pub fn fanout(&self) -> u8
        ensures value { result ≡ self.now.fanout }
        ensures allowed { AreAllowed self.now }
    {
        self.fanout
    }

    /// The most entries of the table.
    pub fn max_entries(&self) -> u32
        ensures value { result ≡ self.now.max_entries }
        ensures allowed { AreAllowed self.now }
    {
        self.max_entries
    }
}
