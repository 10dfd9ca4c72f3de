//! The tiles of a window, and what is near a tile.
//!
//! Tiles are square parts of one size, from the lower left of the window; those at the right and at the top may be
//! smaller. Here are those with the edge 7 in a window of 30 by 16 cells:
//!
//! ```text
//!     13 +----+----+----+----+--+
//!        | 10 | 11 | 12 | 13 |14|
//!     11 +----+----+----+----+--+
//!        |  5 |  6 |  7 |  8 | 9|
//!      4 +----+----+----+----+--+
//!        |  0 |  1 |  2 |  3 | 4|
//!     -3 +----+----+----+----+--+
//!       -3    4   11   18   25 27
//! ```
//!
//! Each cell of the window lies in exactly one of them (`tiles_part_the_window`), so what is counted over each adds up
//! to what is counted over the window (`tallies_of_tiles_add`).
//!
//! At the cells of a tile a defect touches only pieces that come within its reach of the tile, and covers only boxes
//! that do. What is not near changes nothing there, so that a tile is worked from what is near it alone. A `NearIndex`
//! finds that.
#![tactic(auto)]

pub mod laws;
mod planning;
mod tiles;

pub use laws::{
    near_pieces_decide_labels, near_rectangles_decide_cells, near_things_are_listed,
    tallies_of_tiles_add, tiles_part_the_window, what_is_hit_is_near,
};
pub use near_index::{NearIndex, Rectangular, near};
pub use planning::plan;
pub use tiles::{GREATEST_EDGE, MOST_TILES, TilePlan};
