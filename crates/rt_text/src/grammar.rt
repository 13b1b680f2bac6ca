//! Parses query lines by recursive descent.
//!
//! The functions follow the definitions of `specs/Queries.antt`: each takes the words that its definition takes, and
//! returns what that returns.

ghost use Rattle.std.specs.Prelude.{◌≡◌, ◌≤◌, ◌≤ℤ◌, ◌∷◌, [], ℕ, IfErr, IfOk, List, MatchOption, Some, Ok, Err};
ghost use Rattle.std.specs.Str.Lines.{strip_carriage_return};
ghost use Rattle.rt_text.specs.{Numbers.{number_text}, Queries.{Reads, Takes, box_query, circle, coordinate, cost_of, count, find}};
ghost use Rattle.rt_text.specs.Queries.{finished, layers_of, limit, natural, nearest, number, on_list, order, point, points};
ghost use Rattle.rt_text.specs.Queries.{polygon, query, query_of, region, sides, usual_order, vertex_count, word_as};
ghost use Rattle.rt_text.specs.Steps.{map_value};
ghost use Rattle.rt_geo.specs.Layers.{most_layer};

use crate::numbers::{self, NumberFault};
use crate::query::{Parsed, Query, QueryFault};
use crate::words::Words;
use arrayvec::ArrayVec;
use rt_geo::{
    All, Bounds, ById, Circle, Covers, FEWEST_VERTICES, Inside, Layers, MOST_VERTICES, Near, Order,
    Point, Polygon, PolygonFault, Region, Smallest, Window,
};

/// A part of a query, or its first fault.
type Judged<T> = Result<T, QueryFault>;

/// Parses a line of any length, without its line feed. One carriage return at its end is dropped. It allocates nothing.
pub fn parse(line: &[u8]) -> Parsed
    ensures { result ≡ query_of line.now }
{
    let mut parsed = Parsed::Skip;
    parse_into(line, &mut parsed);
    parsed
}

/// Writes what [`parse`] returns to `into`, whatever that holds. A query can hold a polygon, so a caller that parses many
/// lines into one variable copies none.
pub fn parse_into(line: &[u8], into: &mut Parsed)
    ensures { into.new ≡ query_of line.now }
{
    let line = match line {
        [rest @ .., b'\r'] => rest,
        _ => line,
    };
    let mut words = Words::new(line);
    let verb = match words.next() {
        Some(verb) if !verb.starts_with(b"#") => verb,
        _ => {
            *into = Parsed::Skip;
            return;
        }
    };
    if let Err(fault) = query(verb, &mut words, into) {
        *into = Parsed::Fault(fault);
    }
}

// ---- queries

// Results are written to the caller's variable, so that a query isn't copied.

#[inline(always)]
fn query(verb: &[u8], words: &mut Words, found: &mut Parsed) -> Judged<()>
    ensures { Reads (query verb.now words.old) result found.new }
{
    if verb == b"levels".as_slice() {
        levels(words, found)
    } else if verb == b"cost".as_slice() {
        costed(words, found)
    } else {
        box_query(verb, words, found)
    }
}

// Out of line, like the next: so a line clears the locals of its own kind alone.
#[inline(never)]
fn levels(words: &mut Words, found: &mut Parsed) -> Judged<()>
    ensures { Reads (map_value (λ end. Query.Levels) (finished words.old)) result found.new }
{
    *found = Parsed::Query(Query::Levels);
    finished(words)
}

#[inline(never)]
fn costed(words: &mut Words, found: &mut Parsed) -> Judged<()>
    ensures { Reads (map_value cost_of (box_query words.old)) result found.new }
{
    let verb = next_word(words)?;
    let mut query = Parsed::Skip;
    box_query(verb, words, &mut query)?;
    let Parsed::Query(query) = query else {
        unreachable!();
    };
    *found = Parsed::Query(cost_of(query));
    Ok(())
}

// The query for the cost of a find or a count.
fn cost_of(query: Query) -> Query
    ensures { result ≡ cost_of query }
{
    match query {
        Query::Find {
            region,
            order,
            limit,
            layers,
        } => Query::CostFind {
            region,
            order,
            limit,
            layers,
        },
        Query::Count { region, layers } => Query::CostCount { region, layers },
        other => other,
    }
}

#[inline(always)]
fn box_query(verb: &[u8], words: &mut Words, found: &mut Parsed) -> Judged<()>
    ensures { Reads (box_query (verb.now ∷ words.old)) result found.new }
{
    if verb == b"find".as_slice() {
        find(words, found)
    } else if verb == b"nearest".as_slice() {
        nearest(words, found)
    } else if verb == b"count".as_slice() {
        count(words, found)
    } else {
        Err(QueryFault::UnknownVerb)
    }
}

#[inline(always)]
fn find(words: &mut Words, found: &mut Parsed) -> Judged<()>
    ensures { Reads (find words.old) result found.new }
{
    let region = region(words)?;
    let layers = on_list(words)?;
    let order = order(&region, words)?;
    let limit = limit(words)?;
    finished(words)?;
    *found = Parsed::Query(Query::Find {
        region,
        order,
        limit,
        layers,
    });
    Ok(())
}

#[inline(always)]
fn nearest(words: &mut Words, found: &mut Parsed) -> Judged<()>
    ensures { Reads (nearest words.old) result found.new }
{
    let limit = natural_word(words, u64::MAX)?;
    let centre = point(words)?;
    finished(words)?;
    *found = Parsed::Query(Query::Find {
        region: Region::All(All),
        order: Order::Near(Near(centre)),
        limit: Some(limit),
        layers: Layers::all(),
    });
    Ok(())
}

#[inline(always)]
fn count(words: &mut Words, found: &mut Parsed) -> Judged<()>
    ensures { Reads (count words.old) result found.new }
{
    let region = region(words)?;
    let layers = on_list(words)?;
    finished(words)?;
    *found = Parsed::Query(Query::Count { region, layers });
    Ok(())
}

// Whether no word is left.
#[inline(always)]
fn finished(words: &mut Words) -> Judged<()>
    ensures { result ≡ finished words.old }
{
    match words.next() {
        None => Ok(()),
        Some(_) => Err(QueryFault::StrayWord),
    }
}

// ---- layers

// Out of line, with what only lines with `on` need: inlined, it made all other lines slower.
#[inline(never)]
fn on_list(words: &mut Words) -> Judged<Layers>
    ensures { Takes (on_list words.old) result words.new }
{
    if words.takes(b"on") {
        layers_of(next_word(words)?)
    } else {
        Ok(Layers::all())
    }
}

#[inline(never)]
fn layers_of(list: &[u8]) -> Judged<Layers>
    ensures { result ≡ layers_of list.now }
{
    let mut layers = Layers::new(0);
    for part in list.split(|byte| *byte == b',') {
        layers = layers.union(Layers::of(layer_part(part)?));
    }
    Ok(layers)
}

fn layer_part(part: &[u8]) -> Judged<u8>
    ensures value { result ≡ natural most_layer part.now }
    ensures within { IfOk result (λ layer. layer ≤ most_layer) }
{
    let layer = number(QueryFault::OutOfRange, 0, i128::from(Layers::MOST), part)?;
    Ok(layer.unsigned_abs() as u8)
}

// ---- orders and limits

fn order(found: &Region, words: &mut Words) -> Judged<Order>
    ensures { Takes (order found.now words.old) result words.new }
{
    if words.takes(b"near") {
        Ok(Order::Near(Near(point(words)?)))
    } else if words.takes(b"smallest") {
        Ok(Order::Smallest(Smallest))
    } else {
        match found {
            Region::Circle(disc) => Ok(Order::Near(Near(disc.centre))),
            _ => Ok(Order::ById(ById)),
        }
    }
}

fn limit(words: &mut Words) -> Judged<Option<u64>>
    ensures { Takes (limit words.old) result words.new }
{
    if words.takes(b"first") {
        Ok(Some(natural_word(words, u64::MAX)?))
    } else {
        Ok(None)
    }
}

// ---- regions

#[inline(always)]
fn region(words: &mut Words) -> Judged<Region>
    ensures { Takes (region words.old) result words.new }
{
    let name = next_word(words)?;
    if name == b"all".as_slice() {
        Ok(Region::All(All))
    } else if name == b"window".as_slice() {
        Ok(Region::Window(Window(sides(words)?)))
    } else if name == b"inside".as_slice() {
        Ok(Region::Inside(Inside(sides(words)?)))
    } else if name == b"covers".as_slice() {
        Ok(Region::Covers(Covers(sides(words)?)))
    } else if name == b"circle".as_slice() {
        Ok(Region::Circle(circle(words)?))
    } else if name == b"polygon".as_slice() {
        Ok(Region::Polygon(polygon(words)?))
    } else {
        Err(QueryFault::UnknownRegion)
    }
}

fn sides(words: &mut Words) -> Judged<Bounds>
    ensures { Takes (sides words.old) result words.new }
{
    let min_x = coordinate(words)?;
    let max_x = coordinate(words)?;
    let min_y = coordinate(words)?;
    let max_y = coordinate(words)?;
    match Bounds::new(min_x, max_x, min_y, max_y) {
        Some(bounds) => Ok(bounds),
        None => Err(QueryFault::MinAboveMax),
    }
}

fn circle(words: &mut Words) -> Judged<Circle>
    ensures { Takes (circle words.old) result words.new }
{
    let centre = point(words)?;
    let radius = natural_word(words, u64::from(u32::MAX))? as u32;
    Ok(Circle { centre, radius })
}

// Out of line, like lines with `on` and `cost`.
#[inline(never)]
fn polygon(words: &mut Words) -> Judged<Polygon>
    ensures { Takes (polygon words.old) result words.new }
{
    let count = vertex_count(words)?;
    let mut vertices = ArrayVec::new();
    points(count, words, &mut vertices)?;
    match Polygon::new(&vertices) {
        Ok(polygon) => Ok(polygon),
        Err(PolygonFault::Count) => Err(QueryFault::VertexCount),
        Err(PolygonFault::NotConvex) => Err(QueryFault::NotConvex),
    }
}

fn vertex_count(words: &mut Words) -> Judged<usize>
    ensures takes { Takes (word_as vertex_count words.old) result words.new }
    ensures most { IfOk result (λ n. n ≤ MOST_VERTICES) }
{
    let (low, high) = (FEWEST_VERTICES as i128, MOST_VERTICES as i128);
    let count = number_word(QueryFault::VertexCount, low, high, words)?;
    Ok(count.unsigned_abs() as usize)
}

// Reads `count` points.
#[inline(always)]
fn points(count: usize, words: &mut Words, found: &mut ArrayVec<Point, MOST_VERTICES>) -> Judged<()>
    requires few { count ≤ MOST_VERTICES }
    requires none { found.old.items ≡ [] }
    ensures ok { IfOk result (λ _. points count words.old ≡ Ok (found.new.items, words.new)) }
    ensures fault { IfErr result (λ cause. points count words.old ≡ Err cause) }
{
    for _vertex in 0..count {
        found.push(point(words)?);
    }
    Ok(())
}

// ---- numbers

#[inline(always)]
fn point(words: &mut Words) -> Judged<Point>
    ensures { Takes (point words.old) result words.new }
{
    let x = coordinate(words)?;
    let y = coordinate(words)?;
    Ok(Point { x, y })
}

#[inline(always)]
fn coordinate(words: &mut Words) -> Judged<i32>
    ensures { Takes (word_as coordinate words.old) result words.new }
{
    match usual_coordinate(words) {
        Some(value) => i32::try_from(value).or(Err(QueryFault::OutOfRange)),
        None => any_coordinate(words),
    }
}

// The next word's number, if `Words::next_number` reads it. Coordinates have this function to themselves: they look much
// alike, and counts and limits would make the processor mispredict its branches.
#[inline(never)]
fn usual_coordinate(words: &mut Words) -> Option<i64>
    ensures { MatchOption result (words.new ≡ words.old)
        (λ n. (word : List ℕ) × (words.old ≡ word ∷ words.new) × (number_text word ≡ Some n)) }
{
    words.next_number()
}

// The next word as a coordinate, or its fault.
#[inline(never)]
fn any_coordinate(words: &mut Words) -> Judged<i32>
    ensures { Takes (word_as coordinate words.old) result words.new }
{
    let (low, high) = (i128::from(i32::MIN), i128::from(i32::MAX));
    Ok(any_number_word(QueryFault::OutOfRange, low, high, words)? as i32)
}

#[inline(never)]
fn natural_word(words: &mut Words, high: u64) -> Judged<u64>
    ensures takes { Takes (word_as (natural high) words.old) result words.new }
    ensures within { IfOk result (λ n. n ≤ high) }
{
    let value = number_word(QueryFault::OutOfRange, 0, i128::from(high), words)?;
    Ok(value.unsigned_abs() as u64)
}

// The next word, or the fault of a missing one.
fn next_word<'a>(words: &mut Words<'a>) -> Judged<&'a [u8]>
    ensures word { IfOk result (λ word. words.old ≡ word.now ∷ words.new) }
    ensures missing { IfErr result (λ cause. (cause ≡ QueryFault.MissingWord) × (words.old ≡ [])) }
{
    words.next().ok_or(QueryFault::MissingWord)
}

#[inline(always)]
fn number_word(outside: QueryFault, low: i128, high: i128, words: &mut Words) -> Judged<i128>
    ensures takes { Takes (word_as (number outside low high) words.old) result words.new }
    ensures within { IfOk result (λ n. (low ≤ℤ n) × (n ≤ℤ high)) }
{
    let Some(short) = words.next_number() else {
        return any_number_word(outside, low, high, words);
    };
    let value = i128::from(short);
    if value < low || high < value {
        return Err(outside);
    }
    Ok(value)
}

// The same for any word.
#[inline(never)]
fn any_number_word(outside: QueryFault, low: i128, high: i128, words: &mut Words) -> Judged<i128>
    ensures takes { Takes (word_as (number outside low high) words.old) result words.new }
    ensures within { IfOk result (λ n. (low ≤ℤ n) × (n ≤ℤ high)) }
{
    number(outside, low, high, next_word(words)?)
}

fn number(outside: QueryFault, low: i128, high: i128, word: &[u8]) -> Judged<i128>
    ensures value { result ≡ number outside low high word.now }
    ensures within { IfOk result (λ n. (low ≤ℤ n) × (n ≤ℤ high)) }
{
    match numbers::number(word, low, high) {
        Ok(value) => Ok(value),
        Err(NumberFault::NotNumber) => Err(QueryFault::NotNumber),
        Err(NumberFault::OutOfRange) => Err(outside),
    }
}
