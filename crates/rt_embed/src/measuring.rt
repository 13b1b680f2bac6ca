//! Counts, and the costs of queries in numbers.

ghost use Rattle.std.specs.Prelude.{◌≡◌, ◌<◌, ◌≤◌, length, map, min, take};
ghost use Rattle.rt_embed.specs.{Costs.{opened_by_measures, opened_to_measure}};
ghost use Rattle.rt_embed.specs.Questions.{AllAsk, AsksNone, measure_of, measured_of};
ghost use Rattle.rt_search.specs.Work.{CountsOn};

use crate::plain_query::PlainQuery;
use crate::question::{Measure, Question};
use crate::vertex::Vertex;
use rt_filter::{cost_of_count, cost_of_find, count_boxes};
use rt_search::Frontier;
use rt_tree::Tree;

/// Measures one query after the other, as many as have places. It ends before the first invalid one.
pub(crate) fn measure_each(
    tree: &Tree,
    frontier: Frontier,
    measure: Measure,
    queries: &[PlainQuery],
    vertices: &[Vertex],
    measured: &mut [u64],
) -> (usize, Frontier)
    requires capacity { length tree.now.entries ≤ frontier.capacity }
    ensures measured { take result.0 measured.new
        ≡ map (measured_of tree.now vertices.now measure) (take result.0 queries.now) }
    ensures questions { AllAsk vertices.now (take result.0 queries.now) }
    ensures most { result.0 ≤ min (length queries.now) (length measured.old) }
    ensures stop { result.0 < min (length queries.now) (length measured.old)
        → AsksNone vertices.now queries.now result.0 }
    ensures worked { CountsOn frontier.opened (opened_by_measures tree.now vertices.now measure
        (take result.0 queries.now)) result.1.opened }
    ensures capacity { result.1.capacity ≡ frontier.capacity }
{
    let most = queries.len().min(measured.len());
    let mut frontier = frontier;
    let mut done: usize = 0;
    while done < most {
        let Ok(question) = queries[done].question(vertices) else {
            return (done, frontier);
        };
        let (found, left) = measure_one(tree, frontier, measure, &question);
        frontier = left;
        measured[done] = found;
        done += 1;
    }
    (done, frontier)
}

// Measures a question.
fn measure_one(
    tree: &Tree,
    frontier: Frontier,
    measure: Measure,
    question: &Question,
) -> (u64, Frontier)
    requires capacity { length tree.now.entries ≤ frontier.capacity }
    ensures measured { result.0 ≡ measure_of tree.now measure question.now }
    ensures worked { CountsOn frontier.opened (opened_to_measure tree.now measure question.now)
        result.1.opened }
    ensures capacity { result.1.capacity ≡ frontier.capacity }
{
    let region = &question.region;
    let layers = question.layers;
    match measure {
        Measure::Count => count_boxes(tree, frontier, region, layers),
        Measure::CostOfFind => {
            cost_of_find(
                tree,
                frontier,
                region,
                layers,
                question.order,
                question.limit,
            )
        }
        Measure::CostOfCount => cost_of_count(tree, frontier, region, layers),
    }
}
