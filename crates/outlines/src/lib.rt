//! How often a closed outline winds round a cell, and rectangles of the cells round which it does.
#![tactic(auto)]

pub mod cover;
pub mod edges;
mod filling;
mod front;
pub mod laws;
mod piece;
mod pieces;
mod run;
mod sweep;
mod turn;
mod turns;

pub use cover::cover_outline;
pub use edges::are_along_axes;
