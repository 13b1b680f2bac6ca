//! The region of a query: one of the shapes.

use crate::geometry::{Info, Shape, Within};
use crate::polygon::Polygon;
use crate::shapes::{All, Circle, Covers, Inside, Window};

/// A shape that is chosen while the program runs.
#[derive(Debug, PartialEq, Eq, Drop)]
pub enum Region {
    All(All),
    Window(Window),
    Inside(Inside),
    Covers(Covers),
    Circle(Circle),
    Polygon(Polygon),
}

impl Shape for Region {
    ghost use Rattle.rt_geo.specs.Regions.{region_accepts, region_state};

    ghost accepts = { region_accepts };

    ghost state = { region_state };

    fn within(&self, info: &Info) -> Within {
        match self {
            Region::All(shape) => shape.within(info),
            Region::Window(shape) => shape.within(info),
            Region::Inside(shape) => shape.within(info),
            Region::Covers(shape) => shape.within(info),
            Region::Circle(shape) => shape.within(info),
            Region::Polygon(shape) => shape.within(info),
        }
    }

    ghost use Rattle.rt_geo.specs.Lemmas.Regions.{region-faithful};

    ghost faithful = { region-faithful };
}
