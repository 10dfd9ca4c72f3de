//! Boxes of half squares, and which half squares the defects of a zone have.
//!
//! Along each axis a box has a span of half units. The calls tell what boxes have in common, what one has outside
//! another, and which of a list touch. A rectangle of cells is such a box, and so is a square defect, whose edges lie
//! at half units.
#![tactic(auto)]

pub mod boxes;
pub mod footprints;
pub mod growth;
pub mod outside;
mod ranks;
mod scan;
pub mod span;
pub mod touching;

pub use boxes::HalfBox;
pub use footprints::{core_of, reach_of};
pub use growth::grown_links;
pub use outside::Outside;
pub use span::{FARTHEST_HALF, HalfSpan};
pub use touching::links_of;
