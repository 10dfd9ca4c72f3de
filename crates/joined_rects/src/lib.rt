//! Rectangles without common cells, in fewer rectangles: neighbours that share a whole edge become one.
//!
//! A list of them is joined as it stands (`joins`), or now and then while it grows (`gathered`).
#![tactic(auto)]

mod gathered;
mod joins;
mod neighbours;

pub use gathered::Gathered;
pub use geo_core::Rect;
pub use joins::joined;
pub use lists::NoMemory;
