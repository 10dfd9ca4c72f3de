//! The ring of half squares round a defect, and what it tells of whether the defect parts two anchors of an island.
//!
//! The half squares round a box have numbers, counterclockwise from the lower left corner. What an island has of them
//! is found rectangle by rectangle, as at most four runs of numbers, which are sorted and joined: so no ring is walked,
//! however large the defect. Where it is one arc, the defect parts two anchors only by taking all of one: a law over
//! boxes (`laws`).
#![tactic(auto)]

pub mod answers;
pub mod cases;
mod holes;
pub mod laws;
mod merging;
pub mod rounds;
mod runs;

pub use answers::{RingAnswer, ring};
pub use cases::ring_answers_are_cases;
pub use laws::{defects_have_rings, one_arc_parts_no_more, one_arc_spares, rings_go_round};
pub use rounds::boxes_have_one_arc;
