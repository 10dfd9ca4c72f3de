/// The numbers that an option takes.
#[derive(Clone, Copy)]
pub struct NumberRange {
    /// The least of them.
    pub least: u32,
    /// The greatest of them.
    pub most: u32,
}

/// Layers and datatypes.
pub const LAYERS: NumberRange = NumberRange {
    least: 0,
    most: 65_535,
};

/// Radii, in database units.
pub const RADII: NumberRange = NumberRange {
    least: 1,
    most: 1_000_000,
};

/// Edges of a tile, in database units.
pub const EDGES: NumberRange = NumberRange {
    least: 1,
    most: 1_000_000_000,
};

/// Numbers of workers.
pub const WORKERS: NumberRange = NumberRange { least: 1, most: 64 };

/// Numbers of columns of a generated layout.
pub const COLUMNS: NumberRange = NumberRange {
    least: 1,
    most: 500,
};

/// Numbers of a map's sizes, counted from 1.
pub const SIZES: NumberRange = NumberRange { least: 1, most: 32 };

/// The digits of a coordinate without a dash in front.
pub const FROM_0: NumberRange = NumberRange {
    least: 0,
    most: 999_999_999,
};

/// The digits of a coordinate behind a dash.
pub const BELOW_0: NumberRange = NumberRange {
    least: 0,
    most: 1_000_000_000,
};
