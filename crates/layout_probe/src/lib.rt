//! The probe of one cell: for each metal of a layout the net that is nearest to the cell, and the nearest of all others.
//!
//! The pieces of a metal, labelled by nets, come from `area_parts`, `net_numbers` puts in place of each label the number that the
//! net has on this metal, and an index of `near_index` is asked once for the nearest two. The distance to the second of them is the
//! least radius of a defect that makes a short of the metal at this cell (`second_within`).
#![tactic(auto)]

pub mod laws;
mod metal_near;
mod probing;
mod text;

pub use metal_near::MetalNear;
pub use net_extract::NetFault;
pub use probing::probe;
pub use text::write_probe;
