//! Rectangles without common cells that have the cells of a list together, or those that lie in two of its rectangles.
//!
//! They are called runs. Where they would be more than the list, `merge_rects` gives the list back as it is. The rectangles are taken in the order of their lowest rows, by a skyline: of what they cover so far
//! only what is on top, at most one run over each column, may have cells in common with what is taken next.
#![tactic(auto)]

pub mod runs;
mod skyline;

pub use geo_core::Rect;
pub use lists::NoMemory;
pub use runs::{merge_rects, runs_within, twice_runs, twice_runs_within, union_runs};
