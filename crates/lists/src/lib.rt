//! Lists that contracts see as the list of their items, names, and the answer that no memory is left.
//!
//! What every layer needs of lists. `proofs/` has lemmas on lists of any kind, which all crates above may cite.
#![tactic(auto)]

pub mod items;
pub mod memory;

pub use items::{Items, Name};
pub use memory::NoMemory;
