//! Layer maps from TOML documents, or the first fault in one.
//!
//! `read_map` gives the map that a text says. What a map is stands in `map_model`, whose types and `one_metal` are
//! passed on here.
#![tactic(auto)]

pub mod cause;
mod cuts;
pub mod fault;
pub mod firsts;
mod items;
pub mod laws;
mod layer_items;
mod metals;
pub mod paths;
pub mod place;
pub mod read;
mod seen;
mod sizes;
mod terminals;
mod values;

pub use cause::{Cause, cause_of};
pub use fault::MapFault;
pub use firsts::{first_named, first_pair, first_terminal};
pub use map_model::{
    Cut, Cuts, LayerName, Map, Measure, Metal, Metals, Pairs, Sizes, Terminal, Terminals, Weights,
    one_metal,
};
pub use place::{ItemKind, Place};
pub use read::read_map;
pub use sizes::measure_of;
