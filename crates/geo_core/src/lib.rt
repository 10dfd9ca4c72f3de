//! Cells, half squares, rectangles and turns on the grid of database units.
//!
//! Beside them stand lists of these, and rows of counts whose reads and writes are counted as steps.
#![tactic(auto)]

pub mod axis;
pub mod bounds;
pub mod boxes;
pub mod counts;
pub mod interval;
pub mod items;
pub mod plane;
pub mod turns;

pub use axis::Axis;
pub use bounds::{FARTHEST, FARTHEST_GROWN, GREATEST_REACH, GREATEST_SIDE};
pub use boxes::{clip, grow, join, overlaps, touches};
pub use counts::{CountRow, Node, Steps};
pub use interval::Interval;
pub use items::{CellList, Points, RectList};
pub use lists::{Items, Name, NoMemory};
pub use plane::{Cell, Half, Labelled, Point, Rect, Turn};
pub use turns::{after, turn_point};
