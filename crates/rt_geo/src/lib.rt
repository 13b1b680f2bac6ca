//! Boxes, and query functions over them: which boxes a query accepts, in which order, and when a search may skip a subtree.
//!
//! A query function is a [`Geometry`]. Its meaning is the set of boxes that it accepts and the score of each. Its laws say
//! what its verdict on a node means for every box inside the node. A search needs these laws alone to be right, for the
//! shapes and ranks below and for a geometry of your own.
//!
//! - Boxes: [`Bounds`], [`Entry`], [`overlaps`], [`inside`], [`hull`]; sets of their [`Layers`].
//! - Distances: [`Point`], [`near2`], [`far2`].
//! - Query functions: [`Shape`], [`Rank`], [`Geometry`], called with an [`Info`], returning a [`Within`],
//!   a score or a [`Verdict`]; [`Guided`] joins a shape and a rank, [`Disc`] is a circle and the order by distance from
//!   its centre in one; [`Unscored`] is a geometry without the scores of its nodes; [`Counted`] counts the checks.
//! - Shapes: [`All`], [`Window`], [`Inside`], [`Covers`], [`Circle`], [`Polygon`], and the enum [`Region`] of
//!   these; [`OnLayers`] is one of them on some layers. A [`PreparedPolygon`] is a polygon that is checked faster.
//! - Ranks: [`ById`], [`Near`], [`Smallest`], and the enum [`Order`] of these.
//!
//! The definitions that the contracts cite are in `specs/`: `Boxes`, `Layers`, `Entries`, `Distances`, `Laws`, `Polygons`,
//! `ShortEdges`, `Regions`, `OnLayers`, `Orders`, `Discs`, `Counted`. They are about unbounded integers. That each `Bounds` is a
//! box of 32-bit coordinates is a separate fact (`HasBox` of an entry, `IsWellFormed` of an info), which the functions that
//! return the sides state. What is below `specs/Lemmas` is proved, and needn't be believed; `HalfPlanes` is for the code of
//! this crate alone.
#![tactic(auto)]

mod bounds;
mod counted;
mod disc;
mod distance;
mod entry;
mod geometry;
mod guided;
mod layers;
mod on_layers;
mod order;
mod polygon;
mod prepared;
mod ranks;
mod region;
mod shapes;
mod unscored;

pub use bounds::{Bounds, hull, inside, overlaps};
pub use counted::Counted;
pub use disc::Disc;
pub use distance::{Point, far2, near2};
pub use entry::Entry;
pub use geometry::{Geometry, Info, Rank, Shape, Verdict, Within};
pub use guided::Guided;
pub use layers::Layers;
pub use on_layers::OnLayers;
pub use order::Order;
pub use polygon::{FEWEST_VERTICES, MOST_VERTICES, Polygon, PolygonFault};
pub use prepared::PreparedPolygon;
pub use ranks::{ById, Near, Smallest};
pub use region::Region;
pub use shapes::{All, Circle, Covers, Inside, Window};
pub use unscored::Unscored;
