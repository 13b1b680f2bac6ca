//! A shape restricted to some layers.

use crate::geometry::{Info, Shape, Within};
use crate::layers::Layers;

/// Accepts the boxes that a shape accepts and whose layer is in a set.
///
/// It keeps the laws of a shape if the shape does. `specs/OnLayers.antt` has the table of its states.
#[derive(Debug, Drop)]
pub struct OnLayers<S: Shape> {
    /// Which boxes are accepted, whatever their layer.
    pub shape: S,
    /// Their layers.
    pub layers: Layers,
}

impl<S: Shape> Shape for OnLayers<S> {
    ghost use Rattle.rt_geo.specs.OnLayers.{on_layers_accepts, on_layers_state};

    ghost accepts = { λ s. on_layers_accepts (S.accepts s.shape) s.layers };

    ghost state = { λ s. on_layers_state (S.state s.shape) s.layers };

    fn within(&self, info: &Info) -> Within {
        if info.layers.is_disjoint(self.layers) {
            return Within::Not;
        }
        match self.shape.within(info) {
            // A box inside may be on a layer that isn't selected.
            Within::Fully if !info.layers.is_subset(self.layers) => Within::Partly,
            state => state,
        }
    }

    ghost use Rattle.rt_geo.specs.Lemmas.OnLayers.{on_layers-faithful};

    ghost faithful = { λ s.
        on_layers-faithful (S.accepts s.shape) (S.state s.shape) s.layers (S.faithful s.shape) };
}
