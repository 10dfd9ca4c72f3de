use super::plane::{Cell, Point, Rect};
use lists::Items;

/// Points in order, such as the corners of a shape.
pub type Points = Items<Point>;

/// Rectangles, by number.
pub type RectList = Items<Rect>;

/// Cells, by number.
pub type CellList = Items<Cell>;
