//! The cells that one row of a report counts, as rectangles without common cells.
//!
//! The window and what all areas are counted from come from `area_parts`, and the rectangles from the crates that count the
//! areas: `short_area`, `open_grid` and `via_clusters`, by the radii that `area_parts` gives for a defect's side. Side 1 touches one
//! cell, which two nets do not share.
#![tactic(auto)]

mod kinds;
pub mod laws;
mod rows;

pub use net_extract::NetFault;
pub use rows::regions;
