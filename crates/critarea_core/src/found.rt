ghost use Rattle.std.specs.Prelude.{◌≤◌, length};
ghost use Rattle.questions.specs.declared.row.TheConstants.{MOST_ROWS};
ghost use Rattle.region_out.specs.RegionLibraries.{AreUnits};

use geo_core::Rect;
use layout_probe::MetalNear;
use pair_report::PairTables;
use questions::Row;

/// The rows of a report, as many as it may have.
#[derive(Drop)]
pub struct ReportRows {
    pub rows: Vec<Row>,
    pub ghost few: { length rows.items ≤ MOST_ROWS },
}

/// The critical cells of one row of a report, and the units of the layout in which they lie.
#[derive(Drop)]
pub struct CriticalRegion {
    /// Rectangles without common cells.
    pub rects: Vec<Rect>,
    /// The body of UNITS of the layout's library.
    pub units: [u8; 16],
    pub ghost fit: { AreUnits units },
}

/// What was found of a layout, as it was asked.
#[derive(Drop)]
pub enum Found {
    /// The rows of a report.
    Report(ReportRows),
    /// The pairs of nets of each metal.
    Pairs(PairTables),
    /// What is near a cell on each metal.
    Probe(Vec<MetalNear>),
    /// The critical cells of one kind, layer and size.
    Region(CriticalRegion),
}
