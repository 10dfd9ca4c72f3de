//! At which cells of a window a defect parts two anchors of an island, and at how many.
//!
//! Whether a defect parts two anchors depends on the ways between them, so no rectangles are known beforehand, and a
//! search at each cell would grow with the cells. The cells are found as rectangles, island by island, in zones of
//! centres, first the whole window:
//!
//! 1. The island is looked at (`look_at`). Where it has one arc of the ring round all that some defect has, and no spot of
//!    an anchor lies there, no defect of the zone parts two, and it is done with (`ring_test`). Else its remnant is narrowed
//!    to the defects of the zone, whose reach is what some of them has, and whose core is what each of them has
//!    (`remnants`).
//! 2. Where the removal of all that is loose parts no two anchors, no defect of the zone parts two, and the island is
//!    done with. Where the removal of the core alone parts two, each defect does, and the whole zone is one of the
//!    rectangles. For a zone of one cell the first question alone decides.
//! 3. Of the boxes of the island and of its spots those are kept that an end of a defect may meet in the zone. Where the
//!    zone has several lines along an axis and no end makes a change there, the first line is looked at, and its rectangles
//!    are stretched along the zone.
//! 4. Else the zone is halved at the middle one of the changes along an axis: that along which more boxes have half
//!    squares that some defects have and others do not, or else that with more changes.
//!
//! An island of one rectangle, as most are, needs no zones: what a defect leaves of a rectangle is joined, unless the defect leads
//! across it. So two anchors are parted exactly where the defect has all of a spot, or leads across with nothing of one spot
//! behind it and nothing of one before it, and each of these is a rectangle of cells.
//!
//! A zone for which no island is left has no rectangle. That reach and core answer for the defects between them is a
//! law of `severing`: the removal of more parts more. Which zones are looked at changes the time alone.
//!
//! Rectangles of several islands may have cells in common. `open_area` is the area of their union in the window, and
//! `open_cells` gives this union as rectangles without common cells. Whoever needs the areas of parts of a window asks
//! once for the cells of the whole, and takes the union's area in each part, or asks in each part for the cells of the islands that
//! come near it (`open_cells_of`).
//!
//! `parted` asks for one defect, by the ring round it first (`ring_test`). Where that is `Many`, and there alone, the
//! island is looked at for the zone of its one cell. `parted_counted` counts these searches.
#![tactic(auto)]

mod arcs;
pub mod areas;
mod boxes;
mod changes;
mod covering;
mod extents;
mod looked;
mod parting;
mod steps;
mod stretching;
mod wires;
mod zones;

pub use areas::{open_area, open_area_counted, open_cells, open_cells_of};
pub use parting::{parted, parted_counted};
