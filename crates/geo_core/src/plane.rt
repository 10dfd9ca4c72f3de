ghost use Rattle.std.specs.Prelude.{◌<◌};
ghost use Rattle.geo_core.specs.Intervals.{IsInterval};
ghost use Rattle.geo_core.specs.declared.bounds.TheConstants.{FARTHEST_GROWN};

/// A unit square of the grid: from `(i, j)` to `(i + 1, j + 1)`, in database units.
#[derive(Clone, Copy, PartialEq, Eq)]
pub struct Cell {
    pub i: i32,
    pub j: i32,
}

/// A quarter of a cell: from `(u / 2, v / 2)` to `((u + 1) / 2, (v + 1) / 2)`, in database units.
#[derive(Clone, Copy)]
pub struct Half {
    pub u: i64,
    pub v: i64,
}

/// A corner of the grid, in database units.
#[derive(Clone, Copy, PartialEq, Eq)]
pub struct Point {
    pub x: i32,
    pub y: i32,
}

/// The cells `(i, j)` with `x0 <= i < x1` and `y0 <= j < y1`, of which there is at least one. Each edge lies within
/// 1,001,000,000 of 0: a layout's rectangles lie within 1,000,000,000, and none is grown by more than 1,000,000.
#[derive(Clone, Copy, PartialEq, Eq)]
pub struct Rect {
    pub x0: i32,
    pub y0: i32,
    pub x1: i32,
    pub y1: i32,
    pub ghost across: { IsInterval FARTHEST_GROWN x0 x1 },
    pub ghost up: { IsInterval FARTHEST_GROWN y0 y1 },
}

/// A rectangle with the number of what it belongs to, such as its net.
#[derive(Clone, Copy, PartialEq, Eq)]
pub struct Labelled {
    pub rect: Rect,
    pub label: usize,
}

/// What a placement does to the points of a structure before it shifts them: it mirrors them in the x axis where
/// `reflect`, and then turns them by `quarters` quarters of a circle, counterclockwise about the origin. This is the
/// order of STRANS and ANGLE in GDSII Release 6.
#[derive(Clone, Copy)]
pub struct Turn {
    pub reflect: bool,
    /// From 0 to 3.
    pub quarters: u8,
    pub ghost whole: { quarters < 4 },
}
