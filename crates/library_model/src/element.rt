ghost use Rattle.std.specs.Prelude.{◌<◌, ◌≤◌, ◌^◌};
ghost use Rattle.lists.specs.ByteLists.{AreBytes};
ghost use Rattle.library_model.specs.Ranges.{ArePoints, IsKind, IsKind-prop, IsPoint, IsStep};

use geo_core::{Point, Points, Turn};
use lists::{Items, Name};

/// A filled shape, or an open line with a width, on a layer and with a datatype.
#[derive(Drop)]
pub struct Shape {
    /// The offset of its opening record.
    pub at: u32,
    pub kind: ShapeKind,
    pub layer: u16,
    /// The datatype; of a box its type.
    pub datatype: u16,
    /// The points of XY, in database units.
    pub points: Points,
    // A number in `specs/` has no bound of its own, so that of each field that is written to a stream is told.
    pub ghost kind_fits: { IsKind kind } by { IsKind-prop kind },
    pub ghost layer_fits: { layer < 2 ^ 16 },
    pub ghost datatype_fits: { datatype < 2 ^ 16 },
    pub ghost points_fit: { ArePoints points },
}

/// What a shape is. Lengths are in database units.
#[derive(Clone, Copy, Debug)]
pub enum ShapeKind {
    /// A filled polygon.
    Boundary,
    /// A box. Its outline is taken as that of a filled polygon.
    BoxElement,
    /// An open line. What is absent is 0.
    Path {
        /// How its ends look: 0 for flush, 1 for round, 2 for half a width further, 4 for extensions of their own.
        pathtype: i16,
        /// The width; one below 0 is absolute.
        width: i32,
        /// How far it goes on before its first point, where it has extensions of its own.
        begin: i32,
        /// How far it goes on behind its last point, where it has extensions of its own.
        end: i32,
    },
}

/// A placement of another structure.
#[derive(Drop)]
pub struct Reference {
    /// The offset of its opening record.
    pub at: u32,
    /// The name of the structure that is placed.
    pub target: Name,
    /// What is done to the points of the structure before they are shifted.
    pub turn: Turn,
    /// Where the origin of the structure comes to lie.
    pub origin: Point,
    /// How the placement is repeated, for an array.
    pub lattice: Option<Lattice>,
    pub ghost target_fits: { AreBytes target },
    pub ghost origin_fits: { IsPoint origin },
}

/// Columns and rows of an array, and how far each is from the one before, across and up, in database units.
#[derive(Clone, Copy)]
pub struct Lattice {
    /// From 1 to 32,767.
    pub columns: u16,
    /// From 1 to 32,767.
    pub rows: u16,
    /// Each coordinate is within 2^32 of 0.
    pub column_step: (i64, i64),
    /// Each coordinate is within 2^32 of 0.
    pub row_step: (i64, i64),
    pub ghost some_columns: { 1 ≤ columns },
    pub ghost few_columns: { columns < 2 ^ 15 },
    pub ghost some_rows: { 1 ≤ rows },
    pub ghost few_rows: { rows < 2 ^ 15 },
    pub ghost column_step_fits: { IsStep column_step },
    pub ghost row_step_fits: { IsStep row_step },
}

/// An element that is kept: annotations and nodes are read and let go.
#[derive(Drop)]
pub enum Element {
    Shape(Shape),
    Reference(Reference),
}

/// Elements in the order of the stream.
pub type Elements = Items<Element>;
