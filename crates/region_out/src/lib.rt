//! Rectangles as a layout: a library that has one boundary for each of them.
//!
//! The library is a value, and `gds_write` has the bytes of it. Laws say what they read as. `short_rects` and `via_rects` give such
//! rectangles: the cells of a window that are critical to shorts (`short_area`) or to vias (`via_clusters`).
#![tactic(auto)]

pub mod laws;
mod library;

pub use library::region_library;
pub use short_area::short_rects;
pub use via_clusters::via_rects;
