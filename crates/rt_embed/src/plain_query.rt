//! Queries as plain numbers from a program in another language, and their validation.

ghost use Rattle.std.specs.Prelude.{◌≡◌};
ghost use Rattle.rt_embed.specs.PlainQueries.{box_of, judged, layers_of, limit_of, order_of, polygon_in, region_of};

use crate::question::Question;
use crate::vertex::{Vertex, points_of};
use rt_geo::{
    All, Bounds, ById, Circle, Covers, Inside, Layers, MOST_VERTICES, Near, Order, Point, Polygon,
    PolygonFault, Region, Smallest, Window,
};

/// A query in plain numbers. Members that its region or its order doesn't use are ignored.
#[repr(C)]
#[derive(Clone, Copy, Debug, PartialEq, Eq)]
pub struct PlainQuery {
    /// The region: 0 all, 1 window, 2 inside, 3 covers, 4 circle, 5 polygon.
    pub region: u32,
    /// The order: 0 by id, 1 near, 2 smallest.
    pub order: u32,
    /// The box of window, inside and covers.
    pub min_x: i32,
    pub max_x: i32,
    pub min_y: i32,
    pub max_y: i32,
    /// The centre and the radius of a circle.
    pub x: i32,
    pub y: i32,
    pub radius: u32,
    /// The point of the order near.
    pub near_x: i32,
    pub near_y: i32,
    /// The vertices of a polygon: the index of the first in a list of points, and their number.
    pub first_vertex: u32,
    pub vertices: u32,
    /// Reserved: 0.
    pub reserved: u32,
    /// The layers as bits, layer 0 the lowest. At least one is set.
    pub layers: u64,
    /// The most answers. The greatest number stands for no limit.
    pub limit: u64,
}

/// Why a query in plain numbers is invalid.
#[derive(Clone, Copy, Debug, PartialEq, Eq)]
pub enum InvalidQuery {
    /// There is no region with this number.
    Region,
    /// There is no order with this number.
    Order,
    /// The box has a minimum above its maximum.
    Sides,
    /// The polygon has fewer than 3 or more than 16 vertices.
    VertexCount,
    /// The vertices aren't all in the list.
    MissingVertices,
    /// The vertices make no strictly convex polygon, either way round.
    NotConvex,
    /// No layer is set.
    NoLayer,
    /// A reserved member isn't 0.
    Reserved,
}

impl PlainQuery {
    /// The question of the query, or the first reason why it is invalid: the region is checked first, then the order, the
    /// layers, and the reserved member.
    pub fn question(&self, vertices: &[Vertex]) -> Result<Question, InvalidQuery>
        ensures { result ≡ judged vertices.now self.now }
    {
        let region = self.region(vertices)?;
        let order = self.order()?;
        let layers = self.layers()?;
        if self.reserved != 0 {
            return Err(InvalidQuery::Reserved);
        }
        Ok(Question {
            region,
            layers,
            order,
            limit: self.limit(),
        })
    }

    fn region(&self, vertices: &[Vertex]) -> Result<Region, InvalidQuery>
        ensures { result ≡ region_of vertices.now self.now }
    {
        match self.region {
            0 => Ok(Region::All(All)),
            1 => Ok(Region::Window(Window(self.bounds()?))),
            2 => Ok(Region::Inside(Inside(self.bounds()?))),
            3 => Ok(Region::Covers(Covers(self.bounds()?))),
            4 => Ok(Region::Circle(Circle {
                centre: Point {
                    x: self.x,
                    y: self.y,
                },
                radius: self.radius,
            })),
            5 => Ok(Region::Polygon(self.polygon(vertices)?)),
            _ => Err(InvalidQuery::Region),
        }
    }

    fn bounds(&self) -> Result<Bounds, InvalidQuery>
        ensures { result ≡ box_of self.now }
    {
        match Bounds::new(self.min_x, self.max_x, self.min_y, self.max_y) {
            Some(bounds) => Ok(bounds),
            None => Err(InvalidQuery::Sides),
        }
    }

    fn polygon(&self, vertices: &[Vertex]) -> Result<Polygon, InvalidQuery>
        ensures { result ≡ polygon_in vertices.now self.now }
    {
        let first = self.first_vertex as usize;
        let end = first + self.vertices as usize;
        if end > vertices.len() {
            return Err(InvalidQuery::MissingVertices);
        }
        if end - first > MOST_VERTICES {
            return Err(InvalidQuery::VertexCount);
        }
        let points = points_of(&vertices[first..end]);
        match Polygon::new(&points[..end - first]) {
            Ok(polygon) => Ok(polygon),
            Err(PolygonFault::Count) => Err(InvalidQuery::VertexCount),
            Err(PolygonFault::NotConvex) => Err(InvalidQuery::NotConvex),
        }
    }

    fn order(&self) -> Result<Order, InvalidQuery>
        ensures { result ≡ order_of self.now }
    {
        match self.order {
            0 => Ok(Order::ById(ById)),
            1 => Ok(Order::Near(Near(Point {
                x: self.near_x,
                y: self.near_y,
            }))),
            2 => Ok(Order::Smallest(Smallest)),
            _ => Err(InvalidQuery::Order),
        }
    }

    fn layers(&self) -> Result<Layers, InvalidQuery>
        ensures { result ≡ layers_of self.now }
    {
        if self.layers == 0 {
            return Err(InvalidQuery::NoLayer);
        }
        Ok(Layers::new(self.layers))
    }

    fn limit(&self) -> Option<u64>
        ensures { result ≡ limit_of self.now.limit }
    {
        if self.limit == u64::MAX {
            None
        } else {
            Some(self.limit)
        }
    }
}
