//! An index of pieces of a layout by their places, asked which of them are near a tile, and which labels are nearest to a cell.
//!
//! A `NearIndex` has leaves of up to 16 pieces with a rectangle round them, and bands of leaves with another. A band or a
//! leaf whose rectangle is not near a tile is passed over. The proof needs only that the index has the pieces in some
//! order, and that what is round something near is near. Which pieces share a leaf saves looks and is no matter of the
//! proof.
//!
//! `two_nearest` goes through the same leaves and keeps the nearest two labels of all pieces that it has looked at or passed
//! over. It passes over those that lie further away than the second, and those whose one label is the first's and that are
//! no nearer than that. It begins where the cell is, so that the two are soon found.
#![tactic(auto)]

mod distances;
mod index;
mod keeping;
pub mod laws;
mod nearby;
mod nearest;
mod rectangular;

pub use index::NearIndex;
pub use laws::{distances_are_one, nearest_two_are_one};
pub use nearby::near;
pub use nearest::{Near, Nearest};
pub use rectangular::Rectangular;
