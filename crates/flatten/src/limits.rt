//! What a layout may come to.

/// A chain of more references than this is refused where it begins at the top.
pub const MOST_STEPS: u32 = 256;

/// More placed shapes than this, on mapped layers, are refused.
pub const MOST_SHAPES: u64 = 1_000_000;

/// More points than this in the placed shapes on mapped layers are refused.
pub const MOST_POINTS: u64 = 8_000_000;

// Definitions have the numbers themselves, so that a changed limit is refused here and where it is tested.
const _: () = prove!(MOST_STEPS == 256);

const _: () = prove!(MOST_SHAPES == 1_000_000);

const _: () = prove!(MOST_POINTS == 8_000_000);
