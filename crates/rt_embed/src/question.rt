//! Valid queries in numbers, and the kinds of measurement.

use rt_geo::{Layers, Order, Region};

/// What a query selects: the boxes of a region on some layers, in an order, and at most `limit`.
#[derive(Debug, PartialEq, Eq, Drop)]
pub struct Question {
    /// Which boxes are selected.
    pub region: Region,
    /// On which layers; [`Layers::all`] is each of them.
    pub layers: Layers,
    /// In which order.
    pub order: Order,
    /// The most answers, if there is a limit.
    pub limit: Option<u64>,
}

/// What is measured of a question.
#[derive(Clone, Copy, Debug, PartialEq, Eq)]
pub enum Measure {
    /// The number of selected boxes, without the limit.
    Count,
    /// The number of nodes that a find opens.
    CostOfFind,
    /// The number of nodes that a count opens.
    CostOfCount,
}
