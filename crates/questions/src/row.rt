ghost use Rattle.std.specs.Prelude.{◌^◌, ◌<◌, ◌≤◌};
ghost use Rattle.map_model.specs.declared.limits.TheConstants.{GREATEST_WEIGHT};

use super::kind::Kind;
use map_model::{LayerName, Measure};

/// The most rows of a report. A layer map has 16 metals, 16 cuts and 32 sizes at most, and so 1,536 rows.
pub const MOST_ROWS: usize = 2_000;

/// The area of one kind of fault, on one metal or at one cut, for one size of defect: one line of a report.
#[derive(Clone, Copy)]
pub struct Row {
    /// The kind of fault.
    pub kind: Kind,
    /// The name of the metal or cut.
    pub layer: LayerName,
    /// Whether the size is a radius or a side.
    pub measure: Measure,
    /// The size of the defect, as its map lists it.
    pub size: u32,
    /// How many cells of the window have the fault. No edge of a window is further than 1,001,000,000 from 0, so these
    /// are fewer than 2^63.
    pub area: u64,
    /// By what the area counts in the totals: at most 1,000,000,000.
    pub weight: u64,
    pub ghost small_area: { area < 2 ^ 63 },
    pub ghost small_weight: { weight ≤ GREATEST_WEIGHT },
}
