//! Export: why a query in numbers is invalid, as a number.

ghost use Rattle.std.specs.Prelude.{◌≡◌};
ghost use Rattle.rtfilter_c.specs.Numbers.{cause_of, number_of};

use rt_embed::{InvalidQuery, PlainQuery, Vertex};

const VALID: u32 = 0;

const REGION: u32 = 1;

const ORDER: u32 = 2;

const SIDES: u32 = 3;

const VERTEX_COUNT: u32 = 4;

const MISSING_VERTICES: u32 = 5;

const NOT_CONVEX: u32 = 6;

const NO_LAYER: u32 = 7;

const RESERVED: u32 = 8;

/// The first reason why a query is invalid: one of the numbers above, or 0 if it is valid.
#[unsafe(no_mangle)]
pub extern "C" fn rtfilter_engine_invalid(query: &PlainQuery, vertices: &[Vertex]) -> u32
    ensures { result ≡ cause_of vertices.now query.now }
{
    match query.question(vertices) {
        Ok(_) => VALID,
        Err(cause) => number_of(cause),
    }
}

// The number of a reason.
fn number_of(cause: InvalidQuery) -> u32
    ensures { result ≡ number_of cause }
{
    match cause {
        InvalidQuery::Region => REGION,
        InvalidQuery::Order => ORDER,
        InvalidQuery::Sides => SIDES,
        InvalidQuery::VertexCount => VERTEX_COUNT,
        InvalidQuery::MissingVertices => MISSING_VERTICES,
        InvalidQuery::NotConvex => NOT_CONVEX,
        InvalidQuery::NoLayer => NO_LAYER,
        InvalidQuery::Reserved => RESERVED,
    }
}
