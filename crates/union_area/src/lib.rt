//! The cells of a window that lie in at least one rectangle of a list: how many they are (`areas`), and which, as rectangles
//! without common cells (`rects`). And what parts of a window say of the whole.
//!
//! Of parts it is said how many cells a window has, what has all of it, where it is halved, and how the tallies of its parts
//! make its own (`parts`, `middles`, `laws`).
//!
//! What is left of a part decides how it is counted and how it is listed (`part_case`). It is parted for as long as that parts the
//! rectangles well, mostly half way. Rectangles that reach over all rows of a part, or over all its columns, are joined there
//! where they touch (`spans`). Of what is left, rectangles without common cells are taken where they are soon found: their areas
//! are added up, or they are listed. Where the rectangles lie across one another a sweep counts, while for the list the part is
//! halved on. A list is joined where neighbours share a whole edge, as it grows and at the end.
//!
//! Which parts are taken, what is joined, and when the sweep begins, changes the time and the number of listed rectangles alone:
//! the areas of any two parts add up, and a rectangle that has no cell in a part does not matter there.
#![tactic(auto)]

mod areas;
pub mod laws;
pub mod middles;
mod part_case;
pub mod parts;
mod rects;
mod spans;
mod survey;
mod windows;

pub use areas::union_area;
pub use laws::{
    lines_are_smaller, lines_repeat, parts_are_smaller, tallies_of_parts_add,
    tallies_of_whole_windows,
};
pub use middles::{distance_from_middle, half_way, inner_half_way, is_broad, longer_first};
pub use parts::{count_of, fills, first_line, parts_at, places_along};
pub use rects::union_rects;
pub use survey::Survey;
pub use windows::clipped;
