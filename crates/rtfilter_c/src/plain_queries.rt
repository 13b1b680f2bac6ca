//! Exports that answer queries in numbers.

ghost use Rattle.std.specs.Prelude.{◌≡◌, ◌≢◌, ◌+◌, ◌<◌, ◌⊎◌, IfSome, IsSome, length, take};
ghost use Rattle.rtfilter_c.specs.{Calls.{HoldsSearched, IsReady, Opens}, Numbers.{HasMeasured, finds, stop_of}};
ghost use Rattle.rt_embed.specs.{Costs.{opened_by_finds, opened_by_measures}, Findings.{HasFound}};

use crate::codes::{BAD_QUERY, FULL, NO_MEMORY, OK};
use rt_embed::{Measure, PlainQuery, Score, Stop, Vertex};
use rt_handle::Handle;
use std::alloc::Global;

/// The result of a find: the number of queries whose answers are complete, and the number of answers in the arrays.
#[repr(C)]
#[derive(Clone, Copy, Debug, PartialEq, Eq)]
pub struct FindProgress {
    pub done: usize,
    pub found: usize,
}

/// Finds the answers to queries, without the first `skip` of them all: [`OK`], [`FULL`], [`BAD_QUERY`] or [`NO_MEMORY`].
#[unsafe(no_mangle)]
pub extern "C" fn rtfilter_engine_find(
    alloc: Global,
    session: &mut Handle,
    queries: &[PlainQuery],
    vertices: &[Vertex],
    skip: usize,
    ends: &mut [usize],
    ids: &mut [i64],
    scores: &mut [Score],
    progress: &mut FindProgress,
) -> u8
    requires open { IsSome session.old.held }
    ensures found { result ≢ NO_MEMORY → IfSome session.old.held (λ held.
        HasFound held.tree.entries vertices.now skip queries.now ends.new ids.new scores.new
        (finds progress.new (stop_of result))) }
    ensures untouched { result ≡ NO_MEMORY → (progress.new ≡ progress.old)
        × (ends.new ≡ ends.old) × (ids.new ≡ ids.old) × (scores.new ≡ scores.old) }
    ensures worked { result ≢ NO_MEMORY → Opens session.old.held session.new.held (λ tree.
        let needed = skip + length ids.old + 1 in
        opened_by_finds tree vertices.now needed (take (progress.new.done + 1) queries.now)) }
    ensures made { IsReady session.old.held → result ≢ NO_MEMORY }
    ensures same { HoldsSearched session.old.held session.new.held }
    ensures codes { (result ≡ OK) ⊎ (result ≡ FULL) ⊎ (result ≡ BAD_QUERY) ⊎ (result ≡ NO_MEMORY) }
{
    let mut held = session.take(alloc);
    let answered = held.find(alloc, queries, vertices, skip, ends, ids, scores);
    session.put(held);
    match answered {
        Ok(found) => {
            *progress = FindProgress {
                done: found.done,
                found: found.found,
            };
            code_of(found.stop)
        }
        Err(_) => NO_MEMORY,
    }
}

// The code for why a find ended.
fn code_of(stop: Stop) -> u8
    ensures value { stop_of result ≡ stop }
    ensures codes { (result ≡ OK) ⊎ (result ≡ FULL) ⊎ (result ≡ BAD_QUERY) }
{
    match stop {
        Stop::Complete => OK,
        Stop::Full => FULL,
        Stop::BadQuery => BAD_QUERY,
    }
}

/// The number of boxes that each query selects, without its limit. All are counted, or those before the first invalid one:
/// [`OK`], [`BAD_QUERY`] or [`NO_MEMORY`].
#[unsafe(no_mangle)]
pub extern "C" fn rtfilter_engine_count(
    alloc: Global,
    session: &mut Handle,
    queries: &[PlainQuery],
    vertices: &[Vertex],
    counts: &mut [u64],
    done: &mut usize,
) -> u8
    requires open { IsSome session.old.held }
    requires places { length counts.old ≡ length queries.now }
    ensures measured { HasMeasured session.old.held Measure.Count vertices.now queries.now
        result done.old done.new counts.old counts.new }
    ensures worked { result ≢ NO_MEMORY → Opens session.old.held session.new.held (λ tree.
        opened_by_measures tree vertices.now Measure.Count (take done.new queries.now)) }
    ensures made { IsReady session.old.held → result ≢ NO_MEMORY }
    ensures same { HoldsSearched session.old.held session.new.held }
{
    measure(
        alloc,
        session,
        Measure::Count,
        queries,
        vertices,
        counts,
        done,
    )
}

/// The number of nodes that a find of each query opens.
#[unsafe(no_mangle)]
pub extern "C" fn rtfilter_engine_cost_of_find(
    alloc: Global,
    session: &mut Handle,
    queries: &[PlainQuery],
    vertices: &[Vertex],
    opened: &mut [u64],
    done: &mut usize,
) -> u8
    requires open { IsSome session.old.held }
    requires places { length opened.old ≡ length queries.now }
    ensures measured { HasMeasured session.old.held Measure.CostOfFind vertices.now queries.now
        result done.old done.new opened.old opened.new }
    ensures worked { result ≢ NO_MEMORY → Opens session.old.held session.new.held (λ tree.
        opened_by_measures tree vertices.now Measure.CostOfFind (take done.new queries.now)) }
    ensures made { IsReady session.old.held → result ≢ NO_MEMORY }
    ensures same { HoldsSearched session.old.held session.new.held }
{
    measure(
        alloc,
        session,
        Measure::CostOfFind,
        queries,
        vertices,
        opened,
        done,
    )
}

/// The number of nodes that a count of each query opens.
#[unsafe(no_mangle)]
pub extern "C" fn rtfilter_engine_cost_of_count(
    alloc: Global,
    session: &mut Handle,
    queries: &[PlainQuery],
    vertices: &[Vertex],
    opened: &mut [u64],
    done: &mut usize,
) -> u8
    requires open { IsSome session.old.held }
    requires places { length opened.old ≡ length queries.now }
    ensures measured { HasMeasured session.old.held Measure.CostOfCount vertices.now queries.now
        result done.old done.new opened.old opened.new }
    ensures worked { result ≢ NO_MEMORY → Opens session.old.held session.new.held (λ tree.
        opened_by_measures tree vertices.now Measure.CostOfCount (take done.new queries.now)) }
    ensures made { IsReady session.old.held → result ≢ NO_MEMORY }
    ensures same { HoldsSearched session.old.held session.new.held }
{
    measure(
        alloc,
        session,
        Measure::CostOfCount,
        queries,
        vertices,
        opened,
        done,
    )
}

// Measures queries.
fn measure(
    alloc: Global,
    session: &mut Handle,
    measure: Measure,
    queries: &[PlainQuery],
    vertices: &[Vertex],
    measured: &mut [u64],
    done: &mut usize,
) -> u8
    requires open { IsSome session.old.held }
    requires places { length measured.old ≡ length queries.now }
    ensures measured { HasMeasured session.old.held measure vertices.now queries.now
        result done.old done.new measured.old measured.new }
    ensures worked { result ≢ NO_MEMORY → Opens session.old.held session.new.held (λ tree.
        opened_by_measures tree vertices.now measure (take done.new queries.now)) }
    ensures made { IsReady session.old.held → result ≢ NO_MEMORY }
    ensures same { HoldsSearched session.old.held session.new.held }
{
    let mut held = session.take(alloc);
    let answered = held.measure(alloc, measure, queries, vertices, measured);
    session.put(held);
    match answered {
        Ok(many) => {
            *done = many;
            if many < queries.len() { BAD_QUERY } else { OK }
        }
        Err(_) => NO_MEMORY,
    }
}
