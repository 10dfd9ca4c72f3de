//! Via clusters as rectangles, and the areas and cells at which vias are blocked.
//!
//! A defect covers all contacts of a cluster exactly where it covers the least rectangle that has them, so this
//! rectangle is all that areas of vias need to know of a cluster. A defect covers it exactly where its cell lies in a
//! rectangle of centres: `via_area` counts the cells in some of these by `union_area`, and `via_rects` lists them by
//! `union_rects`.
#![tactic(auto)]

pub mod areas;
mod boxes;
pub mod laws;

pub use areas::{via_area, via_rects};
pub use boxes::clusters;
