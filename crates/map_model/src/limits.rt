//! The limits of a map.

/// The most bytes of the name of a metal or a cut.
pub const LONGEST_NAME: usize = 32;

/// The greatest layer, and the greatest datatype: GDSII Release 6 gives them two bytes each.
pub const GREATEST_PAIR_NUMBER: u16 = 65_535;

/// The most pairs of a layer and a datatype that one metal or cut may have.
pub const MOST_PAIRS: usize = 16;

/// The most metals.
pub const MOST_METALS: usize = 16;

/// The most cuts.
pub const MOST_CUTS: usize = 16;

/// The most sizes.
pub const MOST_SIZES: usize = 32;

/// The greatest weight.
pub const GREATEST_WEIGHT: u64 = 1_000_000_000;

/// The most terminals.
pub const MOST_TERMINALS: usize = 10_000;

// Definitions have the numbers themselves, so that a changed limit is refused here and where it is tested.
const _: () = prove!(LONGEST_NAME == 32);

const _: () = prove!(GREATEST_PAIR_NUMBER == 65_535);

const _: () = prove!(MOST_PAIRS == 16);

const _: () = prove!(MOST_METALS == 16);

const _: () = prove!(MOST_CUTS == 16);

const _: () = prove!(MOST_SIZES == 32);

const _: () = prove!(GREATEST_WEIGHT == 1_000_000_000);

const _: () = prove!(MOST_TERMINALS == 10_000);
