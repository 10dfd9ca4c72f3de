//! How far from 0 coordinates may lie, in database units.

/// The greatest amount of a coordinate of a layout. A database unit is a nanometre as a rule, and then this is a metre.
pub const FARTHEST: i32 = 1_000_000_000;

/// The greatest distance by which anything is grown.
pub const GREATEST_REACH: i32 = 1_000_000;

/// The greatest side of a defect: from the middle of its cell it reaches half of it, which is the greatest reach.
pub const GREATEST_SIDE: u32 = 2_000_000;

/// The greatest amount of a coordinate of what was grown: the farthest coordinate and the greatest reach together.
pub const FARTHEST_GROWN: i32 = 1_001_000_000;

// Definitions have the numbers themselves, so that a changed bound is refused here and wherever it is tested.
const _: () = prove!(FARTHEST == 1_000_000_000);

const _: () = prove!(GREATEST_REACH == 1_000_000);

const _: () = prove!(GREATEST_SIDE == 2_000_000);

const _: () = prove!(FARTHEST_GROWN == FARTHEST + GREATEST_REACH);
