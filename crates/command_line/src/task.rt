use geo_core::Cell;
use lists::Name;
use questions::Kind;

/// What a command is to do.
pub enum Task {
    /// The areas of one metal, which is all shapes of one layer and datatype, for defects of one radius.
    OneMetal {
        /// The name of the layout's file.
        layout: Name,
        /// The layer of the metal's shapes.
        layer: u16,
        /// The datatype of the metal's shapes.
        datatype: u16,
        /// The radius of the defects, in database units: from 1 to 1,000,000.
        radius: u32,
        /// The name of the structure that is analysed, where one is wanted.
        top: Option<Name>,
    },
    /// The areas of all layers of a layer map, for its sizes of defects.
    Mapped {
        /// The name of the layout's file.
        layout: Name,
        /// The name of the layer map's file.
        map: Name,
        /// The name of the structure that is analysed, where one is wanted.
        top: Option<Name>,
    },
    /// The areas of all pairs of nets on each metal of a layer map, for one of its sizes of defects.
    Pairs {
        /// The name of the layout's file.
        layout: Name,
        /// The name of the layer map's file.
        map: Name,
        /// The name of the structure that is analysed, where one is wanted.
        top: Option<Name>,
        /// The number of the size among those of the map, counted from 1: from 1 to 32.
        size: u32,
    },
    /// The nets of each metal of a layer map that are nearest to one cell.
    Probe {
        /// The name of the layout's file.
        layout: Name,
        /// The name of the layer map's file.
        map: Name,
        /// The name of the structure that is analysed, where one is wanted.
        top: Option<Name>,
        /// The cell, whose column and row, in database units, are each from -1,000,000,000 to 999,999,999.
        cell: Cell,
    },
    /// The critical regions of one kind of fault, on one metal or at one cut of a layer map, for one of its sizes of defects.
    Regions {
        /// The name of the layout's file.
        layout: Name,
        /// The name of the layer map's file.
        map: Name,
        /// The name of the structure that is analysed, where one is wanted.
        top: Option<Name>,
        /// The kind of fault.
        kind: Kind,
        /// The name of the metal or cut: 1 to 32 ASCII letters, digits and `_`.
        layer: Name,
        /// The number of the size among those of the map, counted from 1: from 1 to 32.
        size: u32,
    },
    /// The areas of a generated layout, which needs no file, for the sizes of its own layer map.
    Generated {
        /// How many columns the layout has, and how many rows: from 1 to 500.
        n: u32,
    },
}

// A derived `Drop` would be written out at each exit at which a task is alive. This one is a call there.
impl Drop for Task {
    fn drop(self) {
        match self {
            Task::OneMetal {
                layout: _layout,
                layer: _,
                datatype: _,
                radius: _,
                top: _top,
            } => {}
            Task::Mapped {
                layout: _layout,
                map: _map,
                top: _top,
            }
            | Task::Pairs {
                layout: _layout,
                map: _map,
                top: _top,
                size: _,
            }
            | Task::Probe {
                layout: _layout,
                map: _map,
                top: _top,
                cell: _,
            } => {}
            Task::Regions {
                layout: _layout,
                map: _map,
                top: _top,
                kind: _,
                layer: _layer,
                size: _,
            } => {}
            Task::Generated { n: _ } => {}
        }
    }
}
