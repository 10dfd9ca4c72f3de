//! Sweeps over rectangles: how many cells of a window lie in at least one of a list, or in two.
#![tactic(auto)]

pub mod areas;
mod bar;
mod bars;
mod events;
mod places;

pub use areas::{area_once, area_twice};
pub use geo_core::Rect;
pub use lists::NoMemory;
pub use skyline_runs::{merge_rects, runs_within, twice_runs, union_runs};
