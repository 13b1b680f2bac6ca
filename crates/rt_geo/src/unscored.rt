//! Adapter that scores every node 0.

ghost use Rattle.rt_geo.specs.Laws.{unscored_meaning};

use crate::geometry::{Geometry, Info, Verdict};

/// A geometry that accepts the same boxes with the same scores, and scores each node 0.
///
/// With it a search for all answers opens the same nodes, but has no queue: it finds all answers and then sorts them, which
/// takes less time.
#[derive(Debug, Drop)]
pub struct Unscored<G: Geometry>(pub G);

impl<G: Geometry> Geometry for Unscored<G> {
    ghost meaning = { λ g. unscored_meaning (G.meaning g.0) };

    #[inline(always)]
    fn scores_nodes() -> bool {
        false
    }

    fn check(&self, info: &Info) -> Verdict {
        let verdict = self.0.check(info);
        let score = if info.level == 0 { verdict.score } else { 0 };
        Verdict { score, ..verdict }
    }

    ghost use Rattle.rt_geo.specs.Lemmas.Unscored.{unscored-lawful};

    ghost lawful = { λ g. unscored-lawful (G.meaning g.0) (G.lawful g.0) };
}
