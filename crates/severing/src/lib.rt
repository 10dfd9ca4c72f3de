//! Which anchors of an island are parted where half squares are removed: definitions and laws.
//!
//! The removal of more parts what the removal of less does. So of a zone of centres, what is parted without the half
//! squares that each of its defects has is parted by each, and what is not parted without all that some defect has is
//! parted by none; and where nothing changes from line to line of a zone, one line stands for all. The definitions
//! stand in `specs/`. The code is laws: each is a function with an empty body, and its contract says what holds of the
//! definitions.
#![tactic(auto)]

pub mod laws;

pub use laws::{
    boxes_and_defects_sever, defects_sever_islands, larger_removals_sever,
    steady_columns_sever_alike, steady_rows_sever_alike,
};
