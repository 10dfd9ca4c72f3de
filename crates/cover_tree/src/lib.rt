//! A tree of counts over columns: how wide the columns are that ranges have once, and twice.
//!
//! Ranges of columns are put and taken again, and it tells at once how wide the columns are that lie in at least one of
//! the ranges put, and in at least two. A range is put as the standard cut: the least nodes that are over its columns
//! and over no others, some two at each level. Each node keeps how often it was put, and the two widths of its columns
//! by the counts at and below it.
#![tactic(auto)]

mod below;
mod columns;
pub mod laws;
mod parts;
pub mod tree;

pub use tree::CoverTree;
