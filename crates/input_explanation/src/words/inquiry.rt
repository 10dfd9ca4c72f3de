//! What a run gives of a layout.

use crate::maps::named::NamedRow;
use crate::telling::Telling;
use command_line::Task;
use geo_core::Cell;

/// What a run gives of a layout.
#[derive(Clone, Copy)]
pub enum Inquiry<'a> {
    /// A report.
    Report,
    /// The areas of pairs of nets for the map's size with this number, counted from 1.
    Pairs(u32),
    /// The nets that are nearest to this cell.
    Probe(Cell),
    /// The critical cells of this row of the report.
    Regions(NamedRow<'a>),
}

impl Inquiry<'_> {
    /// What the task asks for.
    pub fn of(task: &Task) -> Inquiry<'_> {
        match task {
            Task::Pairs { size, .. } => Inquiry::Pairs(*size),
            Task::Probe { cell, .. } => Inquiry::Probe(*cell),
            Task::Regions {
                kind,
                layer,
                size,
                ..
            } => Inquiry::Regions(NamedRow {
                kind: *kind,
                layer: layer.as_slice(),
                size: *size,
            }),
            Task::OneMetal { .. } | Task::Mapped { .. } | Task::Generated { .. } => Inquiry::Report,
        }
    }

    /// The number of the one size that it is about, counted from 1, and 0 if it is about none or all.
    pub fn size(self) -> u32 {
        match self {
            Inquiry::Pairs(size) => size,
            Inquiry::Regions(row) => row.size,
            Inquiry::Report | Inquiry::Probe(_) => 0,
        }
    }

    /// What the run gives, as the end of a line.
    pub fn outcome(self) -> &'static str {
        match self {
            Inquiry::Report => "report\n",
            Inquiry::Pairs(_) => "pairs of nets\n",
            Inquiry::Probe(_) => "nearest nets\n",
            Inquiry::Regions(_) => "critical cells\n",
        }
    }

    /// Tells the option that names its size, if it is about one.
    pub fn tell_option(self, told: &mut Telling) {
        match self {
            Inquiry::Pairs(size) => told.number("`--pairs ", u64::from(size), "`"),
            Inquiry::Regions(row) => row.tell_option(told),
            Inquiry::Report | Inquiry::Probe(_) => {}
        }
    }
}
