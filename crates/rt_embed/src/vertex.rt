//! Vertices of polygons in plain numbers.

ghost use Rattle.std.specs.Prelude.{◌≡◌, ◌≤◌, length, map, take};
ghost use Rattle.rt_embed.specs.PlainQueries.{point_of};

use rt_geo::{MOST_VERTICES, Point};

/// A vertex of a polygon, as a program in another language has it.
#[repr(C)]
#[derive(Clone, Copy, Debug, PartialEq, Eq)]
pub struct Vertex {
    pub x: i32,
    pub y: i32,
}

/// The points of the vertices, at the front.
pub(crate) fn points_of(vertices: &[Vertex]) -> [Point; MOST_VERTICES]
    requires { length vertices.now ≤ MOST_VERTICES }
    ensures { take (length vertices.now) result ≡ map point_of vertices.now }
{
    let mut points = [Point { x: 0, y: 0 }; MOST_VERTICES];
    for place in 0..vertices.len() {
        let vertex = vertices[place];
        points[place] = Point {
            x: vertex.x,
            y: vertex.y,
        };
    }
    points
}
