//! Parsed query lines and their faults.

use rt_geo::{Layers, Order, Region};

/// A query. Its answers are the boxes that the region accepts and whose layer is among the layers.
#[derive(Debug, PartialEq, Eq, Drop)]
pub enum Query {
    /// Returns a line for each answer, in this order and up to the limit, if any, and then their number.
    Find {
        region: Region,
        order: Order,
        limit: Option<u64>,
        layers: Layers,
    },
    /// Returns the number of answers.
    Count {
        region: Region,
        layers: Layers,
    },
    /// Returns the number of entries or nodes on each level of the tree.
    Levels,
    /// Returns the number of nodes that a find opens. If answers reach their limit, nodes opened after the last one don't
    /// count.
    CostFind {
        region: Region,
        order: Order,
        limit: Option<u64>,
        layers: Layers,
    },
    /// Returns the number of nodes that a count opens.
    CostCount {
        region: Region,
        layers: Layers,
    },
}

/// What is wrong with a query line: the first fault from left to right.
#[derive(Clone, Copy, Debug, PartialEq, Eq)]
pub enum QueryFault {
    /// The line is too long. [`parse`](crate::parse) takes lines of any length and never returns this: the code that cuts
    /// lines tests their length.
    LineTooLong,
    /// The first word is no query, or the word after `cost` is none that has a cost.
    UnknownVerb,
    /// No region has that name.
    UnknownRegion,
    /// The line ends before an expected word.
    MissingWord,
    /// The word is no number.
    NotNumber,
    /// The number is out of its range.
    OutOfRange,
    /// A minimum is above its maximum.
    MinAboveMax,
    /// The number of vertices is not 3 to 16.
    VertexCount,
    /// The vertices are those of no strictly convex polygon, either way round.
    NotConvex,
    /// There is a word where none or another is allowed.
    StrayWord,
}

/// The result of parsing a query line.
#[derive(Debug, PartialEq, Eq, Drop)]
pub enum Parsed {
    /// No words, or a comment.
    Skip,
    /// A query.
    Query(Query),
    /// The first fault.
    Fault(QueryFault),
}
