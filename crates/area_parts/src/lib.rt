//! What areas are counted from: pieces labelled by nets, islands with terminals, boxes of via clusters, and the window.
//!
//! `prepare` makes the parts once (`Parts`); `ArePartsOf` says that these are those of the map. `window_of` gives the window: the bounds
//! of all that is covered, grown by the reach of the greatest defect. `reach_of_side` and `covering_radius` say which radii stand for a
//! defect's side. The rows that answer the questions of a map are defined here too
//! (`specs/Rows.antt`). `critical_areas` counts them, and regions start from the same parts; pairs of nets and probes need the
//! pieces of metals alone (`metal_pieces`).
#![tactic(auto)]

pub mod laws;
mod parts;
mod preparing;
mod sides;
mod window;

pub use net_extract::NetFault;
pub use parts::{Asked, MetalIslands, MetalPieces, Parts};
pub use preparing::{metal_pieces, prepare};
pub use sides::{covering_radius, reach_of_side};
pub use window::{reach, window_of};
