//! Combines a shape (which boxes) and a rank (in which order) into a geometry.

ghost use Rattle.rt_geo.specs.Laws.{guided};

use crate::geometry::{Geometry, Info, Rank, Shape, Verdict};

/// The geometry that accepts what its shape accepts, with the scores of its rank.
///
/// It keeps the laws of a geometry if its parts keep theirs.
#[derive(Debug, Drop)]
pub struct Guided<S: Shape, R: Rank> {
    /// Which boxes are accepted.
    pub shape: S,
    /// Their scores.
    pub rank: R,
}

impl<S: Shape, R: Rank> Geometry for Guided<S, R> {
    ghost meaning = { λ g.
        guided (S.accepts g.shape) (S.state g.shape) (R.score g.rank) (R.estimate g.rank) };

    #[inline(always)]
    fn scores_nodes() -> bool {
        R::scores_nodes()
    }

    fn check(&self, info: &Info) -> Verdict {
        Verdict {
            within: self.shape.within(info),
            score: self.rank.score(info),
        }
    }

    ghost use Rattle.rt_geo.specs.Lemmas.Guided.{guided-lawful};

    ghost lawful = { λ g. guided-lawful (S.faithful g.shape) (R.admissible g.rank) };
}
