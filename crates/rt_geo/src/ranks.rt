//! The orders of answers that a query knows.
//!
//! `specs/Orders.antt` has the table of their scores. No score depends on the parent's.

use crate::bounds::area;
use crate::distance::{Point, near2};
use crate::geometry::{Info, Rank};

/// Answers in the order of their ids: every score is 0.
#[derive(Clone, Copy, Debug, PartialEq, Eq)]
pub struct ById;

/// The box nearest to a point first: the score is the square of the distance.
#[derive(Clone, Copy, Debug, PartialEq, Eq)]
pub struct Near(pub Point);

/// The box with the smallest area first: the score is the area.
#[derive(Clone, Copy, Debug, PartialEq, Eq)]
pub struct Smallest;

impl Rank for ById {
    ghost use Rattle.rt_geo.specs.Orders.{order_estimate, order_score};
    ghost use Rattle.rt_geo.specs.declared.order.Order.TheVariants as order;

    ghost score = { λ r. order_score (order.ById r) };

    ghost estimate = { λ r. order_estimate (order.ById r) };

    #[inline(always)]
    fn scores_nodes() -> bool {
        false
    }

    fn score(&self, _info: &Info) -> u128 {
        0
    }

    ghost use Rattle.rt_geo.specs.Lemmas.Orders.{order-admissible};

    ghost admissible = { λ r. order-admissible (order.ById r) };
}

impl Rank for Near {
    ghost use Rattle.rt_geo.specs.Orders.{order_estimate, order_score};
    ghost use Rattle.rt_geo.specs.declared.order.Order.TheVariants as order;

    ghost score = { λ r. order_score (order.Near r) };

    ghost estimate = { λ r. order_estimate (order.Near r) };

    fn score(&self, info: &Info) -> u128 {
        near2(self.0, info.bounds)
    }

    ghost use Rattle.rt_geo.specs.Lemmas.Orders.{order-admissible};

    ghost admissible = { λ r. order-admissible (order.Near r) };
}

impl Rank for Smallest {
    ghost use Rattle.rt_geo.specs.Orders.{order_estimate, order_score};
    ghost use Rattle.rt_geo.specs.declared.order.Order.TheVariants as order;

    ghost score = { λ r. order_score (order.Smallest r) };

    ghost estimate = { λ r. order_estimate (order.Smallest r) };

    #[inline(always)]
    fn scores_nodes() -> bool {
        false
    }

    fn score(&self, info: &Info) -> u128 {
        // The boxes inside a node may be as small as a point.
        if info.level == 0 {
            area(info.bounds)
        } else {
            0
        }
    }

    ghost use Rattle.rt_geo.specs.Lemmas.Orders.{order-admissible};

    ghost admissible = { λ r. order-admissible (order.Smallest r) };
}
