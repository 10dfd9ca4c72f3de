//! At which cells of a window a square defect touches pieces of two labels: how many they are, and rectangles that have them.
//!
//! The cells of the window that are near a piece are a rectangle, the *zone* of the piece, and what is asked for is which
//! cells lie in zones of two labels. What is left of a part of the window is told alike for a count and for a list (`part_case`):
//!
//! - Where one label or none is left, nothing. Where a zone has all cells of the part, the cells of the other labels, or all
//!   of it where another label has them all, too.
//! - Where many broad zones lie over the middle, parts are soon covered whole, and the part is halved.
//! - Of few zones those that meet another label are kept. Rectangles without common cells, *runs*, take the place of
//!   each label's zones, so that a cell lies in as many runs as it has labels, and the cells in two are left.
//! - Where few zones lie over the middle the part is halved.
//! - Else runs of all labels are tried, with four looks for each zone, unless one label leads so far that the part is halved
//!   at once. Where the looks do not suffice and there are two labels, the cells of both are left. Else the part is halved,
//!   and runs of all labels are not tried again before an eighth of the zones is left.
//!
//! Where a part cannot be halved any more runs of all labels decide.
//!
//! A count (`areas`) sweeps for the cells in two runs (`sweeps`), and takes for two labels the cells of the one and of the
//! other, less those of either. Where one label leads all others together by half of the zones, it tries the runs of the others
//! alone before those of all: the leader's zones stay as they are, and are counted twice with each run once, less what of the
//! leader has no run (`leaders`).
//!
//! A list (`rects`) has for two labels runs of each. Where it takes too many looks to tell which cells lie in two runs, the part
//! is halved on, over what the runs have in it (`twice`). What is found is joined where neighbours share a whole edge.
//!
//! Each halving is right and each sweep is right, so what chooses between them changes the time alone, and the number of
//! rectangles. That zones are halved near their middle has private clauses, since else the depth might end the stack.
#![tactic(auto)]

mod areas;
mod halves;
mod labels;
mod leaders;
mod leads;
mod meeting;
mod part_case;
mod places;
mod rects;
mod runs;
mod steps;
mod sweeps;
mod twice;
mod zones;

pub use areas::{short_area, two_label_area};
pub use rects::short_rects;
pub use runs::by_label;
pub use zones::{zones_in, zones_of};
