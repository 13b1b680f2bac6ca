//! A circle with the order by distance from its centre, as one geometry.

ghost use Rattle.std.specs.{Option.{SomeIff}, Prelude.{◌≡◌, IfSome, nat_le, nat_lt}};
ghost use Rattle.rt_geo.specs.{Discs.{MeansBoth}, Distances.{far2, near2}, Orders.{near}, Regions.{disc_of, state_by}};

use crate::bounds::Bounds;
use crate::distance::{Point, far2, near2};
use crate::geometry::{Geometry, Info, Verdict, Within};
use crate::order::Order;
use crate::shapes::Circle;

/// Accepts the boxes that share a point with a disc, those nearest to its centre first.
///
/// Its verdicts are those of a [`Guided`](crate::Guided) of [`Circle`] and [`Near`](crate::Near) to the centre, with one
/// computation of the distance for both.
#[derive(Clone, Copy, Debug, PartialEq, Eq)]
pub struct Disc {
    centre: Point,
    // the square of the radius
    radius2: u128,
}

impl Disc {
    // The disc of a circle.
    fn new(circle: Circle) -> Disc
        ensures { result ≡ disc_of circle }
    {
        let radius = circle.radius as u128;
        Disc {
            centre: circle.centre,
            radius2: radius * radius,
        }
    }

    /// A circle and an order as one geometry, with the verdicts of their [`Guided`](crate::Guided). `None` if and only if
    /// the order isn't by distance from the centre of the circle.
    pub fn from_parts(circle: &Circle, order: &Order) -> Option<Disc>
        ensures when { SomeIff result (order.now ≡ near circle.now.centre) (disc_of circle.now) }
        ensures means { IfSome result (λ disc. MeansBoth disc circle.now order.now) }
    {
        match order {
            Order::Near(rank) if rank.0 == circle.centre => Some(Disc::new(*circle)),
            _ => None,
        }
    }

    // How many of the boxes inside the bounds are accepted; `nearest` is the squared distance of the bounds from the
    // centre.
    fn within(&self, nearest: u128, bounds: Bounds) -> Within
        requires { nearest ≡ near2 self.now.centre bounds }
        ensures { result ≡ state_by (nat_lt self.now.radius2 (near2 self.now.centre bounds))
            (nat_le (far2 self.now.centre bounds) self.now.radius2) }
    {
        if nearest > self.radius2 {
            Within::Not
        } else if far2(self.centre, bounds) <= self.radius2 {
            Within::Fully
        } else {
            Within::Partly
        }
    }
}

impl Geometry for Disc {
    ghost use Rattle.rt_geo.specs.{Discs.{disc_meaning}, Orders.{near, order_estimate, order_score}};
    ghost use Rattle.rt_geo.specs.Regions.{disc_accepts, disc_state};

    ghost meaning = { disc_meaning };

    fn check(&self, info: &Info) -> Verdict {
        let nearest = near2(self.centre, info.bounds);
        Verdict {
            within: self.within(nearest, info.bounds),
            score: nearest,
        }
    }

    ghost use Rattle.rt_geo.specs.{Lemmas.Guided.{guided-lawful}, Lemmas.Orders.{order-admissible}};
    ghost use Rattle.rt_geo.specs.Lemmas.Shapes.{disc-faithful};

    ghost lawful = { λ d. guided-lawful (disc-faithful d) (order-admissible (near d.centre)) };
}
