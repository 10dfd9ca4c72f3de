//! The model of a layer map: metals, cuts, sizes of defects with weights, and terminals.
//!
//! It says which layers and datatypes of a layout are metals and which are the cuts between them, for which sizes of
//! defects areas are wanted and with which weights, and where terminals are. `one_metal` makes the map of a single
//! metal. Whoever works on a map stands on this crate, and on none that reads one.
#![tactic(auto)]

pub mod layer_lists;
pub mod layers;
pub mod limits;
pub mod map;
pub mod measure;
pub mod name;
pub mod single;

pub use layer_lists::Layers;
pub use layers::{Cut, Cuts, Metal, Metals, Pairs, Sizes, Terminal, Terminals, Weights};
pub use map::Map;
pub use measure::Measure;
pub use name::LayerName;
pub use single::one_metal;
