//! The text of areas of pairs of nets, for one size of defects: a line for each pair of nets of each metal, how many pairs
//! there are, and what gauges print that were told of them.
//!
//! No list of rows is made: a row is told and its line appended before the next one is made.
#![tactic(auto)]

mod rows;
mod tables;
mod text;

pub use tables::{MetalPairs, PairTables};
pub use text::write_pairs;
