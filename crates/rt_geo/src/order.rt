//! The order of a query's answers: one of the ranks.

use crate::geometry::{Info, Rank};
use crate::ranks::{ById, Near, Smallest};

/// A rank that is chosen while the program runs.
#[derive(Clone, Copy, Debug, PartialEq, Eq)]
pub enum Order {
    ById(ById),
    Near(Near),
    Smallest(Smallest),
}

impl Rank for Order {
    ghost use Rattle.rt_geo.specs.Orders.{order_estimate, order_score};

    ghost score = { order_score };

    ghost estimate = { order_estimate };

    fn score(&self, info: &Info) -> u128 {
        match self {
            Order::ById(rank) => rank.score(info),
            Order::Near(rank) => rank.score(info),
            Order::Smallest(rank) => rank.score(info),
        }
    }

    ghost use Rattle.rt_geo.specs.Lemmas.Orders.{order-admissible};

    ghost admissible = { order-admissible };
}
