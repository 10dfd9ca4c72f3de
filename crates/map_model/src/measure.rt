ghost use Rattle.std.specs.Prelude.{◌≡◌, ◌≤◌};
ghost use Rattle.geo_core.specs.declared.bounds.TheConstants.{GREATEST_SIDE};
ghost use Rattle.map_model.specs.Measures.{greatest_size, side_by};

use geo_core::{GREATEST_REACH, GREATEST_SIDE};

/// What the sizes of a map say of defects.
#[derive(Clone, Copy, Debug, PartialEq, Eq)]
pub enum Measure {
    /// Radii, in database units: each square is twice as wide.
    Radius,
    /// Sides, in database units, odd ones too.
    Side,
}

impl Measure {
    /// The greatest size that a map may list: a radius of 1,000,000, or a side of 2,000,000.
    pub fn greatest(self) -> u32
        ensures { result ≡ greatest_size self }
    {
        match self {
            Measure::Radius => GREATEST_REACH as u32,
            Measure::Side => GREATEST_SIDE,
        }
    }

    /// The side of a defect of this size.
    pub fn side(self, size: u32) -> u32
        requires small { side_by self size ≤ GREATEST_SIDE }
        ensures { result ≡ side_by self size }
    {
        match self {
            Measure::Radius => size + size,
            Measure::Side => size,
        }
    }
}
