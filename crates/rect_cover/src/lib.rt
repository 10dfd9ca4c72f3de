//! The cells that a placed shape covers, as rectangles.
//!
//! A boundary or a box covers by its winding number, a path by one rectangle for each of its straight pieces. They are
//! those of the GDSII Stream Format Manual, Release 6.0. Many shapes are covered at once, in threads.
#![tactic(auto)]

mod corners;
mod course;
pub mod covering;
pub mod covering_all;
pub mod direction;
pub mod fault;
pub mod laws;
mod outline;
mod path;
mod piece;
mod pieces;
mod style;

pub use covering::{cover, cover_shape};
pub use covering_all::cover_all;
pub use fault::CoverFault;
