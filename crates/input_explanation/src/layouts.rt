//! Layouts: what is wrong with them, and what they hold.

pub mod beginnings;
pub mod faults;
pub mod good;
pub mod graph;
pub mod listing;
pub mod metal_islands;
pub mod pairs;
pub mod places;
pub mod shapes;
pub mod skeleton;
pub mod structures;
pub mod terminals;
pub mod texts;
