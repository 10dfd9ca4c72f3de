//! The model of a GDSII library: its structures, their elements and their names.
//!
//! Names of structures are found by hashes. Whoever works on a library stands on this crate, and on none that reads
//! one.
#![tactic(auto)]

pub mod element;
pub mod library;
pub mod name_index;

pub use element::{Element, Elements, Lattice, Reference, Shape, ShapeKind};
pub use library::{Library, Structure, Structures};
pub use name_index::NameIndex;
