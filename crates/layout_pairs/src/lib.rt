//! Pairs of nets of a layout, metal by metal: at how many cells of the window a defect touches both.
//!
//! The pieces of a metal, labelled by nets, come from `area_parts`. `net_numbers` puts in place of each label the number that
//! the net has on this metal, and `net_pairs` counts for each two numbers, by the radius that `area_parts::reach_of_side` gives. At side 1
//! a defect touches its own cell alone, which no two nets share.
#![tactic(auto)]

pub mod laws;
mod pairs;

pub use net_extract::NetFault;
pub use pairs::pair_tables;
