//! A layout of up to a million shapes with its layer map, where no files are at hand.
//!
//! Both are bytes as files have them, and nothing else: whoever reads them sees no difference.
#![tactic(auto)]

pub mod laws;
mod layouts;
mod library;
mod maps;

pub use layouts::generate;
pub use library::MOST_COLUMNS;
pub use maps::{LAYER_MAP, layer_map};
