//! Numbers of nets: the labels of pieces, numbered in the order of the first cells of the pieces that have them.
//!
//! The first of some cells is the leftmost one of the lowest row that any of them lies in. So the numbers follow from the
//! cells that each label has, and neither from the labels nor from the pieces that those cells come in.
#![tactic(auto)]

mod corners;
pub mod laws;
mod numbers;
mod order;

pub use numbers::{first_cells, numbered};
