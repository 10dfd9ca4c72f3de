//! What several crates of tests share: layouts of rectangles, rectangles in tables, and a gate that holds workers.
#![tactic(auto)]

mod holding_gate;
pub mod layouts;
pub mod sides;
mod two_bars;

pub use holding_gate::{FEW_TURNS, HoldFirst, USUAL_TURNS};
pub use two_bars::TWO_BARS;
