//! What is left of an island round some defects, and whether its terminals are parted there.
//!
//! The terminals are the spots of the island's anchors, by their numbers. A spot has any number of rectangles, which need
//! not touch, and two spots may have the same cells.
//!
//! The defects are those of a zone of centres. Their *reach* is the half squares that some of them has, their *core*
//! those that each has. Here are both for a zone of 4 by 1 cells and the radius 2. Each sign is a square of one unit:
//! `+` is the core, and with `~` it is the reach.
//!
//! ```text
//! . . . . . . . . .
//! . ~ ~ ~ + ~ ~ ~ .
//! . ~ ~ ~ + ~ ~ ~ .
//! . ~ ~ ~ + ~ ~ ~ .
//! . ~ ~ ~ + ~ ~ ~ .
//! . . . . . . . . .
//! ```
//!
//! `Remnant::narrow` cuts the boxes of an island at the reach. What lies outside of it stays, whichever defect comes,
//! and only how it is joined matters: boxes of it that touch get one leader, and those that neither touch the reach nor
//! lead are let go. What lies inside is loose, but for what the core has as a whole: each defect takes that, so it is
//! let go. A terminal goes where another one that stays has nothing loose, and is marked only at leaders at which the
//! terminal is marked, too. So a zone that grows smaller looks at less and less of the island.
//!
//! The clause says that this changes no answer: for each box between core and reach whose removal is asked for, two
//! terminals of the new remnant are parted exactly where two of the old one are. Where all that is loose is removed and yet
//! no two are parted, there is no new remnant: no smaller removal parts any. `Remnant::is_split_by` asks for one removal
//! alone.
#![tactic(auto)]

mod cutting;
mod island_boxes;
mod joining;
mod keeping;
mod marking;
mod marks;
mod numbers;
pub mod parts;
mod proposing;
mod releasing;
pub mod remnant;
mod thinning;
mod unjoined;

pub use parts::{Fixed, Loose, Mark};
pub use remnant::Remnant;
